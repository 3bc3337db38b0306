// `set_position` and `remove` on a table of records: the records are spread into the columns, which are lent as scratch, the core's call is
// made, and the records are gathered again. A record table of another length than the columns gets 3. Answers and their order are the core's.
#![tactic(auto)]

ghost use Rattle.std.specs.Prelude.{◌≡◌};
ghost use Rattle.point_tables.specs.Meaning.Outcome.{outcome};
ghost use Rattle.replies.specs.Meaning.Replies.{reply};
ghost use Rattle.records.specs.Meaning.Seen.{Shows};
ghost use Rattle.record_deferred.specs.Inner.Calls.{set_position_for, remove_for};
ghost use Rattle.record_deferred.specs.Meaning.Calls.{set_position_on, remove_on};
ghost use Rattle.point_tables.specs.Meaning.Tables.{tables};

use basics::Refusal;
use geometry::Position;
use point_records::Record;
use replies::Reply;
use slots::{Handle, Row};

// The core's, with 3 where the columns have not n rows.
#[tactic(auto, using(records::proofs::laws::SeenLaws::rows_same, records::proofs::laws::SeenLaws::rows_other))]
pub fn set_position_for(
    n: usize,
    nums: &mut [Row],
    reals: &mut [[f32; 4]],
    ints: &mut [[i32; 4]],
    map: &[u64],
    pool: &[[u64; 2]],
    spots: &[[f32; 2]],
    cells: &mut [[u64; 2]],
    h: Handle,
    at: Position,
    tracker: u32,
) -> u32
    ensures { outcome (reply result 0) (tables nums.new reals.new ints.new map.now pool.now spots.now cells.new) ≡ set_position_for n (tables nums.old reals.old ints.old map.now pool.now spots.now cells.old) h at tracker }
{
    if n != nums.len() {
        return Refusal::Tables.number();
    }
    points::set_position(nums, reals, ints, map, pool, spots, cells, h, at, tracker)
}

// Where the object shall be after the next maintain, if it is this tracker's. 3, 6, 13, 11, 12, 14, 1.
pub fn set_position(
    records: &mut [Record],
    nums: &mut [Row],
    reals: &mut [[f32; 4]],
    ints: &mut [[i32; 4]],
    map: &[u64],
    pool: &[[u64; 2]],
    spots: &[[f32; 2]],
    cells: &mut [[u64; 2]],
    h: Handle,
    at: Position,
    tracker: u32,
) -> u32
    ensures { Shows (λ rs t. set_position_on rs t h at tracker) (reply result 0) records.old (tables nums.old reals.old ints.old map.now pool.now spots.now cells.old) records.new (tables nums.new reals.new ints.new map.now pool.now spots.now cells.new) }
{
    records::spread(records, nums, reals, ints);
    let n = records.len();
    let r = set_position_for(
        n, nums, reals, ints, map, pool, spots, cells, h, at, tracker,
    );
    records::gather(records, nums, reals, ints);
    r
}

#[tactic(auto, using(records::proofs::laws::SeenLaws::rows_same, records::proofs::laws::SeenLaws::rows_other))]
pub fn remove_for(
    n: usize,
    nums: &mut [Row],
    reals: &mut [[f32; 4]],
    ints: &mut [[i32; 4]],
    map: &[u64],
    pool: &[[u64; 2]],
    spots: &[[f32; 2]],
    cells: &mut [[u64; 2]],
    h: Handle,
    tracker: u32,
) -> Reply
    ensures { outcome result (tables nums.new reals.new ints.new map.now pool.now spots.now cells.new) ≡ remove_for n (tables nums.old reals.old ints.old map.now pool.now spots.now cells.old) h tracker }
{
    if n != nums.len() {
        return Reply::from(Err(Refusal::Tables));
    }
    points::remove(nums, reals, ints, map, pool, spots, cells, h, tracker)
}

// Marks the object, if it is this tracker's; gives the data. 3, 13, 11, 12, 14.
pub fn remove(
    records: &mut [Record],
    nums: &mut [Row],
    reals: &mut [[f32; 4]],
    ints: &mut [[i32; 4]],
    map: &[u64],
    pool: &[[u64; 2]],
    spots: &[[f32; 2]],
    cells: &mut [[u64; 2]],
    h: Handle,
    tracker: u32,
) -> Reply
    ensures { Shows (λ rs t. remove_on rs t h tracker) result records.old (tables nums.old reals.old ints.old map.now pool.now spots.now cells.old) records.new (tables nums.new reals.new ints.new map.now pool.now spots.now cells.new) }
{
    records::spread(records, nums, reals, ints);
    let n = records.len();
    let r = remove_for(n, nums, reals, ints, map, pool, spots, cells, h, tracker);
    records::gather(records, nums, reals, ints);
    r
}
