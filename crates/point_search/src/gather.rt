// Collecting the places of the entries that a search is for.
ghost use Rattle.std.specs.Prelude.{◌+◌, ◌-◌, ◌≤◌, ◌≡◌};
ghost use Rattle.basics.specs.Words.{length};
ghost use Rattle.basics.specs.Meaning.Limits.{most_slots};
ghost use Rattle.point_search.specs.Meaning.Searches;
ghost use Rattle.point_search.specs.Inner.Places.{spot_passes};
ghost use Rattle.point_search.specs.Inner.Begun.{Gathered};
ghost use Rattle.point_search.specs.Inner.Asked.{BegunBy, Gatherable, StretchGathered};

use crate::{Part, Test};
use cells::Cell;
use geometry::Position;

pub fn passes(test: Test, p: Position) -> bool
    ensures { result ≡ Searches.passes test p }
{
    match test {
        Test::Any => true,
        Test::Circle(centre, radius) => geometry::in_circle(p, centre, radius),
        Test::Rectangle(ll, ur) => geometry::in_rectangle(p, ll, ur),
    }
}

// Collects the places of a stretch whose positions pass, behind the first n of `places`. Returns how many there are then.
fn gather_run(
    spots: &[[f32; 2]],
    from: usize,
    to: usize,
    test: Test,
    n: usize,
    places: &mut [u32],
) -> usize
    requires { (from ≤ to) × (to ≤ length spots.now) × (to ≤ most_slots) × (n + (to - from) ≤ length places.old) × (length places.old ≤ most_slots) }
    ensures { StretchGathered test spots.now from to n places.old result places.new }
{
    let mut k = n;
    for j in from..to {
        if passes(test, point_records::spot_at(spots, j)) {
            places[k] = j as u32;
            k += 1;
        }
    }
    k
}

// The same as far as `places` has room: no more entries are tested at once than it could hold. Ends early only where it is full.
fn gather_part(
    spots: &[[f32; 2]],
    from: usize,
    to: usize,
    test: Test,
    n: usize,
    places: &mut [u32],
) -> Part
    requires { (from ≤ to) × (to ≤ length spots.now) × (to ≤ most_slots) × (n ≤ length places.old) × (length places.old ≤ most_slots) }
    ensures { Gathered (spot_passes test spots.now) from to n places.old result.number result.place places.new }
{
    let mut k = n;
    let mut j = from;
    // No `for`: as many entries are taken at once as there is room for.
    while j < to && k < places.len() {
        let end = to.min(j + (places.len() - k));
        k = gather_run(spots, j, end, test, k, places);
        j = end;
    }
    Part {
        number: k,
        place: j,
    }
}

// One pass over the range, from where `start` ended: the places of the entries that pass, ascending, until all are met or `places` is full.
pub fn gather(
    pool: &[[u64; 2]],
    spots: &[[f32; 2]],
    used: usize,
    a: Cell,
    b: Cell,
    test: Test,
    start: Part,
    places: &mut [u32],
) -> Part
    requires { Gatherable a b test pool.now spots.now used start places.old }
    ensures { BegunBy a b test pool.now spots.now result places.new × (result.place ≤ used) × (used ≤ length places.old → result.place ≡ used) }
{
    let low = cells::key_of(a);
    let high = cells::key_of(b);
    let mut part = start;
    // No `for`: the walk goes on where a run ended.
    while part.place < used && part.number < places.len() {
        let run = storage::next_run(pool, used, part.place, low, high);
        part = gather_part(spots, run.from, run.to, test, part.number, places);
    }
    part
}
