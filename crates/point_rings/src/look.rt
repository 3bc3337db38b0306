// The best of the entries that are looked at.
ghost use Rattle.std.specs.Prelude.{◌-◌, ◌≤◌, ◌<◌, ◌≡◌};
ghost use Rattle.basics.specs.Words.{length};
ghost use Rattle.point_search.specs.Inner.Places.{places_in};
ghost use Rattle.point_search.specs.Inner.Fill.{Stocked};
ghost use Rattle.point_rings.specs.Inner.Look;
ghost use Rattle.point_rings.specs.Inner.Look.{looked, every, window_places};

use crate::Best;
use geometry::Position;

fn closer(d: f32, s: usize, b: Best) -> bool
    ensures { result ≡ Look.closer d s b }
{
    d < b.distance || (d == b.distance && s < b.slot)
}

// The better of the best so far and the entry at place j.
fn better(pool: &[[u64; 2]], spots: &[[f32; 2]], centre: Position, b: Best, j: usize) -> Best
    requires { (j < length pool.now) × (j < length spots.now) }
    ensures { result ≡ Look.better centre pool.now spots.now b j }
{
    let e = point_records::entry_at(pool, spots, j);
    let distance = geometry::distance_squared(e.position, centre);
    if closer(distance, e.slot, b) {
        return Best {
            place: Some(j),
            slot: e.slot,
            distance,
        };
    }
    b
}

// The entries of a stretch.
pub fn look_run(
    pool: &[[u64; 2]],
    spots: &[[f32; 2]],
    from: usize,
    to: usize,
    centre: Position,
    mut best: Best,
) -> Best
    requires { (from ≤ to) × (to ≤ length pool.now) × (to ≤ length spots.now) }
    ensures { result ≡ looked centre pool.now spots.now (places_in every from (to - from)) best }
{
    for j in from..to {
        best = better(pool, spots, centre, best, j);
    }
    best
}

// The entries of the window from the key `low` of its lower left cell to the key `high` of its upper right one.
pub fn look_window(
    pool: &[[u64; 2]],
    spots: &[[f32; 2]],
    used: usize,
    low: u64,
    high: u64,
    centre: Position,
    mut best: Best,
) -> Best
    requires { Stocked pool.now spots.now used }
    ensures { result ≡ looked centre pool.now spots.now (window_places low high pool.now used) best }
{
    let mut i = 0;
    // No `for`: the walk goes on where a run ended.
    while i < used {
        let run = storage::next_run(pool, used, i, low, high);
        best = look_run(pool, spots, run.from, run.to, centre, best);
        i = run.to;
    }
    best
}
