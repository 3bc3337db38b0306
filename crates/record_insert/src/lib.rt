// `insert` on a table of records, in the form of `record_deferred`.
#![tactic(auto)]

ghost use Rattle.std.specs.Prelude.{◌≡◌};
ghost use Rattle.point_tables.specs.Meaning.Outcome.{outcome};
ghost use Rattle.records.specs.Meaning.Seen.{Shows};
ghost use Rattle.record_insert.specs.Inner.Calls.{insert_for};
ghost use Rattle.record_insert.specs.Meaning.Calls.{insert_on};
ghost use Rattle.point_tables.specs.Meaning.Tables.{tables};

use basics::Refusal;
use geometry::Position;
use point_records::Record;
use replies::Inserted;
use slots::Row;

// The core's, with 3 where the columns have not n rows.
#[tactic(auto, using(records::proofs::laws::SeenLaws::rows_same, records::proofs::laws::SeenLaws::rows_other))]
pub fn insert_for(
    n: usize,
    nums: &mut [Row],
    reals: &mut [[f32; 4]],
    ints: &mut [[i32; 4]],
    map: &mut [u64],
    pool: &mut [[u64; 2]],
    spots: &mut [[f32; 2]],
    cells: &mut [[u64; 2]],
    at: Position,
    obj: u32,
    tracker: u32,
) -> Inserted
    ensures { outcome result (tables nums.new reals.new ints.new map.new pool.new spots.new cells.new) ≡ insert_for n (tables nums.old reals.old ints.old map.old pool.old spots.old cells.old) at obj tracker }
{
    if n != nums.len() {
        return Inserted::from(Err(Refusal::Tables));
    }
    points::insert(nums, reals, ints, map, pool, spots, cells, at, obj, tracker)
}

// A new object at a position, which is this tracker's. 3, 6, 13, 4.
pub fn insert(
    records: &mut [Record],
    nums: &mut [Row],
    reals: &mut [[f32; 4]],
    ints: &mut [[i32; 4]],
    map: &mut [u64],
    pool: &mut [[u64; 2]],
    spots: &mut [[f32; 2]],
    cells: &mut [[u64; 2]],
    at: Position,
    obj: u32,
    tracker: u32,
) -> Inserted
    ensures { Shows (λ rs t. insert_on rs t at obj tracker) result records.old (tables nums.old reals.old ints.old map.old pool.old spots.old cells.old) records.new (tables nums.new reals.new ints.new map.new pool.new spots.new cells.new) }
{
    records::spread(records, nums, reals, ints);
    let n = records.len();
    let r = insert_for(
        n, nums, reals, ints, map, pool, spots, cells, at, obj, tracker,
    );
    records::gather(records, nums, reals, ints);
    r
}
