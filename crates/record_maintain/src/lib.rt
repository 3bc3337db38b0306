// `maintain` on a table of records, in the form of `record_deferred`.
#![tactic(auto)]

ghost use Rattle.std.specs.Prelude.{◌≡◌};
ghost use Rattle.point_tables.specs.Meaning.Outcome.{outcome};
ghost use Rattle.records.specs.Meaning.Seen.{Shows};
ghost use Rattle.record_maintain.specs.Inner.Calls.{maintain_for};
ghost use Rattle.record_maintain.specs.Meaning.Calls.{maintain_on};
ghost use Rattle.point_tables.specs.Meaning.Tables.{tables};

use basics::Refusal;
use point_maintain::Maintained;
use point_records::Record;
use slots::Row;

// The core's, with 3 where the columns have not n rows.
#[tactic(auto, using(records::proofs::laws::SeenLaws::rows_same, records::proofs::laws::SeenLaws::rows_other))]
pub fn maintain_for(
    n: usize,
    nums: &mut [Row],
    reals: &mut [[f32; 4]],
    ints: &mut [[i32; 4]],
    map: &mut [u64],
    pool: &mut [[u64; 2]],
    spots: &mut [[f32; 2]],
    cells: &mut [[u64; 2]],
) -> Maintained
    ensures { outcome result (tables nums.new reals.new ints.new map.new pool.new spots.new cells.new) ≡ maintain_for n (tables nums.old reals.old ints.old map.old pool.old spots.old cells.old) }
{
    if n != nums.len() {
        return Maintained {
            answer: Refusal::Tables.number(),
            moved: 0,
            removed: 0,
        };
    }
    points::maintain(nums, reals, ints, map, pool, spots, cells)
}

// Applies what is pending. 3.
pub fn maintain(
    records: &mut [Record],
    nums: &mut [Row],
    reals: &mut [[f32; 4]],
    ints: &mut [[i32; 4]],
    map: &mut [u64],
    pool: &mut [[u64; 2]],
    spots: &mut [[f32; 2]],
    cells: &mut [[u64; 2]],
) -> Maintained
    ensures { Shows maintain_on result records.old (tables nums.old reals.old ints.old map.old pool.old spots.old cells.old) records.new (tables nums.new reals.new ints.new map.new pool.new spots.new cells.new) }
{
    records::spread(records, nums, reals, ints);
    let n = records.len();
    let r = maintain_for(n, nums, reals, ints, map, pool, spots, cells);
    records::gather(records, nums, reals, ints);
    r
}
