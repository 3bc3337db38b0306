// The rings of cells round the cell of a centre: how near their points can be, and whether to look at the next.
ghost use Rattle.std.specs.Prelude.{◌≤◌, ◌*◌, ◌≡◌};
ghost use Rattle.basics.specs.Words.{T};
ghost use Rattle.std.specs.Int.Signed.{mag};
ghost use Rattle.geometry.specs.Meaning.Domain.{position_in_domain};
ghost use Rattle.cells.specs.Meaning.Size.{SizeInDomain};
ghost use Rattle.cells.specs.Meaning.CellRule.{cell_at};
ghost use Rattle.point_rings.specs.Inner.Rings;
ghost use Rattle.point_rings.specs.Inner.Rings.{most_rings, axis_gap, gap_of, ring_of, last_ring, stops_by};

use crate::Best;
use cells::{Cell, edge, up_from_least};
use geometry::{Position, lesser};

fn ring_of(mid: Cell, c: Cell) -> u64
    ensures { result ≡ ring_of mid c }
{
    let x = up_from_least(mid.x).abs_diff(up_from_least(c.x));
    let y = up_from_least(mid.y).abs_diff(up_from_least(c.y));
    x.max(y)
}

// The last ring of the range from a to b.
pub fn last_ring(mid: Cell, a: Cell, b: Cell) -> u64
    ensures { result ≡ last_ring mid a b }
{
    ring_of(mid, a).max(ring_of(mid, b))
}

// The gap before ring d on one axis: k is the cell of x.
fn axis_gap(size: u64, k: i32, x: f32, d: u32) -> f32
    requires { SizeInDomain size × (mag k * size ≤ 1048576) × (d ≤ most_rings) }
    ensures { result ≡ axis_gap size k x d }
{
    let above = edge(size, k + (d as i32)) - x;
    let below = x - edge(size, k - (d as i32) + 1);
    lesser(above, below)
}

// The gap before ring d round the centre's cell.
fn gap(size: u64, mid: Cell, centre: Position, d: u32) -> f32
    requires { SizeInDomain size × T (position_in_domain centre) × (mid ≡ cell_at size centre) × (d ≤ most_rings) }
    ensures { result ≡ gap_of size centre d }
{
    let x = axis_gap(size, mid.x, centre.x, d);
    let y = axis_gap(size, mid.y, centre.y, d);
    lesser(x, y)
}

fn settled(b: Best, far: f32) -> bool
    ensures { result ≡ Rings.settled b far }
{
    match b.place {
        Some(_) => b.distance < far,
        None => b.distance <= far,
    }
}

// Whether nothing from ring d on can be better: at equality a lower slot may stand there.
pub fn stops(size: u64, mid: Cell, centre: Position, last: u64, d: u32, b: Best) -> bool
    requires { SizeInDomain size × T (position_in_domain centre) × (mid ≡ cell_at size centre) × (d ≤ most_rings) }
    ensures { result ≡ stops_by size centre last d b }
{
    if last < (d as u64) {
        return true;
    }
    let g = gap(size, mid, centre, d);
    settled(b, g * g)
}
