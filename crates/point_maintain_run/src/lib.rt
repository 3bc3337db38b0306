// `maintain` of a point grid: one sweep over the lists, one pass over the slots, one merge, and the cell table anew.
// It checks the tables first.
#![tactic(auto)]

ghost use Rattle.std.specs.Prelude.{◌<◌, ◌≡◌};
ghost use Rattle.basics.specs.Words.{length, set};
ghost use Rattle.point_tables.specs.Meaning.Holds.{Holds};
ghost use Rattle.point_tables.specs.Meaning.Outcome.{outcome};
ghost use Rattle.point_maintain.specs.Inner.Closed.{settled_tables};
ghost use Rattle.point_maintain.specs.Meaning.Maintain.{maintain_of};
ghost use Rattle.point_tables.specs.Meaning.Tables.{tables};

use basics::Refusal;
use point_maintain::Maintained;
use slots::Row;

// The numbers of entries and cells in use.
fn count(map: &mut [u64], used: usize, rows: usize)
    requires { 2 < length map.old }
    ensures { map.new ≡ set (set map.old 1 used) 2 rows }
{
    map[1] = used as u64;
    map[2] = rows as u64;
}

// What is pending is done.
fn settle_all(
    nums: &mut [Row],
    reals: &mut [[f32; 4]],
    ints: &mut [[i32; 4]],
    map: &mut [u64],
    pool: &mut [[u64; 2]],
    spots: &mut [[f32; 2]],
    cells: &mut [[u64; 2]],
)
    requires { Holds (tables nums.old reals.old ints.old map.old pool.old spots.old cells.old) }
    ensures { tables nums.new reals.new ints.new map.new pool.new spots.new cells.new ≡ settled_tables (tables nums.old reals.old ints.old map.old pool.old spots.old cells.old) }
{
    let w = point_maintain_lists::sweep_lists(nums, reals, ints, map, pool, spots, cells);
    let k = point_maintain_slots::settle_slots(nums, reals, ints, map, pool, w);
    storage_merge::append_tail(pool, spots, w, k, reals);
    let used = w + k;
    let rows = storage::rebuild(cells, pool, used);
    count(map, used, rows);
}

pub fn maintain(
    nums: &mut [Row],
    reals: &mut [[f32; 4]],
    ints: &mut [[i32; 4]],
    map: &mut [u64],
    pool: &mut [[u64; 2]],
    spots: &mut [[f32; 2]],
    cells: &mut [[u64; 2]],
) -> Maintained
    ensures { outcome result (tables nums.new reals.new ints.new map.new pool.new spots.new cells.new) ≡ maintain_of (tables nums.old reals.old ints.old map.old pool.old spots.old cells.old) }
{
    if !point_tables::check(nums, reals, ints, map, pool, spots, cells) {
        return Maintained {
            answer: Refusal::Tables.number(),
            moved: 0,
            removed: 0,
        };
    }
    let c = point_maintain_slots::count_moves(nums, reals);
    settle_all(nums, reals, ints, map, pool, spots, cells);
    Maintained {
        answer: 0,
        moved: c.moved,
        removed: c.removed,
    }
}
