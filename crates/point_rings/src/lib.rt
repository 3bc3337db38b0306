// The nearest of the entries, looked for ring by ring from the centre's cell outward.
#![tactic(auto)]

ghost use Rattle.std.specs.Prelude.{◌+◌, ◌<◌, ◌≤◌, ◌≡◌};
ghost use Rattle.geometry.specs.Meaning.Circle.{corner_below, corner_above};
ghost use Rattle.cells.specs.Meaning.CellRule.{cell_at};
ghost use Rattle.point_search.specs.Inner.Fill.{Stocked};
ghost use Rattle.point_rings.specs.Inner.Look.{no_best, looked, best_of, every, window_places};
ghost use Rattle.point_rings.specs.Inner.Rings.{most_rings, within, last_ring, key_at, ring_places, Walkable, Walks};

mod look;
mod rings;

use cells::{Cell, key_of, up_from_least};
use geometry::Position;
use look::look_window;
use rings::{last_ring, stops};

// The best entry so far: its place in the pool, its slot and its squared distance. With no place the slot is 0 and the distance is the square of the radius:
// so an entry is better than none exactly if the circle has it, by the one comparison that is made of every entry.
#[derive(Clone, Copy)]
pub struct Best {
    pub place: Option<usize>,
    pub slot: usize,
    pub distance: f32,
}

// The best of all entries, and how many rings were looked at for it.
#[derive(Clone, Copy)]
pub struct Walked {
    pub best: Best,
    pub rings: u32,
}

// After so many rings the rest of the range is taken in one pass, so that a wide circle over few points is not walked ring by ring.
const MOST_RINGS: u32 = 8;

fn none(radius: f32) -> Best
    ensures { result ≡ no_best radius }
{
    Best {
        place: None,
        slot: 0,
        distance: radius * radius,
    }
}

// The key of the cell in column x and line y, both counted from the least.
fn key_at(x: u64, y: u64) -> u64
    requires { (x < 4294967296) × (y < 4294967296) }
    ensures { result ≡ key_at x y }
{
    y * 4294967296 + x
}

// The entries of the cells from column x0 and line y0 to column x1 and line y1.
fn look_cells(
    pool: &[[u64; 2]],
    spots: &[[f32; 2]],
    used: usize,
    x0: u64,
    y0: u64,
    x1: u64,
    y1: u64,
    centre: Position,
    best: Best,
) -> Best
    requires { Stocked pool.now spots.now used × (x0 < 4294967296) × (y0 < 4294967296) × (x1 < 4294967296) × (y1 < 4294967296) }
    ensures { result ≡ looked centre pool.now spots.now (window_places (key_at x0 y0) (key_at x1 y1) pool.now used) best }
{
    let low = key_at(x0, y0);
    let high = key_at(x1, y1);
    look_window(pool, spots, used, low, high, centre, best)
}

// The entries of ring d round column x and line y: its lowest row, its two columns between, its highest row.
fn look_ring(
    pool: &[[u64; 2]],
    spots: &[[f32; 2]],
    used: usize,
    x: u64,
    y: u64,
    d: u64,
    centre: Position,
    best: Best,
) -> Best
    requires { Stocked pool.now spots.now used × (1 ≤ d) × (d ≤ x) × (d ≤ y) × (x + d < 4294967296) × (y + d < 4294967296) }
    ensures { result ≡ looked centre pool.now spots.now (ring_places x y d pool.now used) best }
{
    let left = x - d;
    let right = x + d;
    let low = y - d;
    let high = y + d;
    let a = look_cells(pool, spots, used, left, low, right, low, centre, best);
    let b = look_cells(pool, spots, used, left, low + 1, left, high - 1, centre, a);
    let c = look_cells(
        pool,
        spots,
        used,
        right,
        low + 1,
        right,
        high - 1,
        centre,
        b,
    );
    look_cells(pool, spots, used, left, high, right, high, centre, c)
}

// What is left after the fixed number of rings: the whole range in one pass, unless the rule stops here. It meets what the rings had again, which is never
// better than the best: to tell it apart would cost more than to look at it.
fn rest(
    pool: &[[u64; 2]],
    spots: &[[f32; 2]],
    used: usize,
    size: u64,
    mid: Cell,
    a: Cell,
    b: Cell,
    last: u64,
    centre: Position,
    radius: f32,
    best: Best,
) -> Best
    requires walkable { Walkable size centre radius pool.now spots.now used × (a ≡ cell_at size (corner_below centre radius)) × (b ≡ cell_at size (corner_above centre radius)) }
    requires mid_value { (mid ≡ cell_at size centre) × (last ≡ last_ring mid a b) × (best ≡ best_of centre radius pool.now spots.now used (within mid pool.now most_rings)) }
    ensures { result ≡ best_of centre radius pool.now spots.now used every }
{
    if stops(size, mid, centre, last, MOST_RINGS, best) {
        return best;
    }
    look_window(pool, spots, used, key_of(a), key_of(b), centre, best)
}

// From the centre's cell outward, ring by ring, until no farther ring can hold a closer or equal one. The range goes from a to b.
pub fn walk(
    pool: &[[u64; 2]],
    spots: &[[f32; 2]],
    used: usize,
    size: u64,
    a: Cell,
    b: Cell,
    centre: Position,
    radius: f32,
) -> Walked
    requires { Walkable size centre radius pool.now spots.now used × (a ≡ cell_at size (corner_below centre radius)) × (b ≡ cell_at size (corner_above centre radius)) }
    ensures { Walks size centre radius pool.now spots.now used result }
{
    let mid = cells::cell_at(size, centre);
    let x = up_from_least(mid.x);
    let y = up_from_least(mid.y);
    let last = last_ring(mid, a, b);
    let mut best = look_cells(pool, spots, used, x, y, x, y, centre, none(radius));
    for d in 1..MOST_RINGS {
        if stops(size, mid, centre, last, d, best) {
            return Walked { best, rings: d };
        }
        best = look_ring(pool, spots, used, x, y, d as u64, centre, best);
    }
    let best = rest(
        pool, spots, used, size, mid, a, b, last, centre, radius, best,
    );
    Walked {
        best,
        rings: MOST_RINGS,
    }
}
