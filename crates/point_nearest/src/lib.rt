// The point that is nearest to a centre: `nearest`. It checks the tables first.
#![tactic(auto)]

ghost use Rattle.std.specs.Prelude.{◌≡◌};
ghost use Rattle.point_nearest.specs.Meaning.Nearest.{nearest_reply, no_finding, nearest_of};
ghost use Rattle.point_nearest.specs.Inner.Told.{told_of, Tellable, RingedBy};
ghost use Rattle.point_tables.specs.Meaning.Tables.{tables};

use geometry::{Position, corner_above, corner_below};
use point_rings::Best;
use replies::Nearest;
use slots::{Handle, Row};

// What is nearest, and how many rings of cells were looked at for it.
#[derive(Clone, Copy)]
pub struct Ringed {
    pub nearest: Nearest,
    pub rings: u32,
}

fn none(answer: u32) -> Nearest
    ensures { result ≡ nearest_reply answer 0 no_finding }
{
    Nearest {
        answer,
        count: 0,
        handle: Handle {
            slot: 0,
            version: 0,
        },
        position: Position { x: 0.0, y: 0.0 },
        obj: 0,
        tracker: 0,
    }
}

// What is reported of the best entry, if there is one.
fn told(nums: &[Row], pool: &[[u64; 2]], spots: &[[f32; 2]], b: Best) -> Nearest
    requires { Tellable nums.now pool.now spots.now b }
    ensures { result ≡ told_of nums.now pool.now spots.now b }
{
    let Some(place) = b.place else {
        return none(0);
    };
    let e = point_records::entry_at(pool, spots, place);
    let f = point_search::finding_of(nums, e);
    Nearest {
        answer: 0,
        count: 1,
        handle: f.handle,
        position: f.position,
        obj: f.obj,
        tracker: f.tracker,
    }
}

// What `nearest` gives, with the rings that it looked at; none where it is refused.
pub fn nearest_by_rings(
    nums: &[Row],
    reals: &[[f32; 4]],
    ints: &[[i32; 4]],
    map: &[u64],
    pool: &[[u64; 2]],
    spots: &[[f32; 2]],
    cells: &[[u64; 2]],
    centre: Position,
    radius: f32,
) -> Ringed
    ensures { RingedBy (tables nums.now reals.now ints.now map.now pool.now spots.now cells.now) centre radius result }
{
    let ok = point_query::circle_in_domain(centre, radius);
    let ll = corner_below(centre, radius);
    let ur = corner_above(centre, radius);
    match point_search::range_of(nums, reals, ints, map, pool, spots, cells, ok, ll, ur) {
        Ok(range) => {
            let used = map[1] as usize;
            let w = point_rings::walk(pool, spots, used, map[0], range.a, range.b, centre, radius);
            Ringed {
                nearest: told(nums, pool, spots, w.best),
                rings: w.rings,
            }
        }
        Err(why) => Ringed {
            nearest: none(why.number()),
            rings: 0,
        },
    }
}

// The nearest of the points that `query_around` reports, and of equally near ones that of the lowest slot.
pub fn nearest(
    nums: &[Row],
    reals: &[[f32; 4]],
    ints: &[[i32; 4]],
    map: &[u64],
    pool: &[[u64; 2]],
    spots: &[[f32; 2]],
    cells: &[[u64; 2]],
    centre: Position,
    radius: f32,
) -> Nearest
    ensures { result ≡ nearest_of (tables nums.now reals.now ints.now map.now pool.now spots.now cells.now) centre radius }
{
    nearest_by_rings(nums, reals, ints, map, pool, spots, cells, centre, radius).nearest
}
