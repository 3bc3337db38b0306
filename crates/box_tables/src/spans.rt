// The box of a slot, the range of cells that it covers, and its item.
ghost use Rattle.std.specs.Prelude.{◌<◌, ◌≡◌};
ghost use Rattle.basics.specs.Words.{length, T};
ghost use Rattle.basics.specs.Meaning.Limits.{most_boxes};
ghost use Rattle.geometry.specs.Meaning.Domain.{aabb_in_domain};
ghost use Rattle.cells.specs.Meaning.Size.{SizeInDomain};
ghost use Rattle.box_tables.specs.Meaning.Tables;
ghost use Rattle.box_tables.specs.Meaning.Tables.{aabb_at, item_of};
ghost use Rattle.box_tables.specs.Inner.Way.{span_of};

use crate::Span;
use geometry::{Aabb, Position};

// The box of slot s.
pub fn load_box(reals: &[[f32; 4]], s: usize) -> Aabb
    requires { s < length reals.now }
    ensures { result ≡ aabb_at reals.now s }
{
    let q = reals[s];
    Aabb {
        ll: Position { x: q[0], y: q[1] },
        ur: Position { x: q[2], y: q[3] },
    }
}

pub fn span_of(size: u64, b: Aabb) -> Span
    requires { SizeInDomain size × T (aabb_in_domain b) }
    ensures { result ≡ span_of size b }
{
    let low = cells::cell_at(size, b.ll);
    let high = cells::cell_at(size, b.ur);
    let cells = cells::cells_in(low, high);
    Span { low, high, cells }
}

// How many cells a box covers.
pub fn covers(size: u64, b: Aabb) -> u64
    requires { SizeInDomain size × T (aabb_in_domain b) }
    ensures { result ≡ Tables.covers size b }
{
    span_of(size, b).cells
}

// The item of slot s: its mark says whether the box covers one cell only.
pub fn item_of(s: usize, single: bool) -> u64
    requires { s < most_boxes }
    ensures { result ≡ item_of s single }
{
    s as u64 * 2 + u64::from(single)
}
