// `get` and `len` on a table of records: the records are spread into the columns and stay as they are.
#![tactic(auto)]

ghost use Rattle.std.specs.Prelude.{◌≡◌};
ghost use Rattle.point_tables.specs.Meaning.Outcome.{outcome};
ghost use Rattle.record_get.specs.Inner.Calls.{get_for, len_for};
ghost use Rattle.record_get.specs.Meaning.Calls.{get_on, len_on};
ghost use Rattle.point_tables.specs.Meaning.Tables.{tables};

use basics::Refusal;
use point_get::Got;
use point_records::Record;
use replies::Count;
use slots::{Handle, Row};

// The core's, with 3 where the columns have not n rows.
#[tactic(auto, using(records::proofs::laws::SeenLaws::rows_same, records::proofs::laws::SeenLaws::rows_other))]
pub fn get_for(
    n: usize,
    nums: &[Row],
    reals: &[[f32; 4]],
    ints: &[[i32; 4]],
    map: &[u64],
    pool: &[[u64; 2]],
    spots: &[[f32; 2]],
    cells: &[[u64; 2]],
    h: Handle,
) -> Got
    ensures { result ≡ get_for n (tables nums.now reals.now ints.now map.now pool.now spots.now cells.now) h }
{
    if n != nums.len() {
        return Got::refused(Refusal::Tables);
    }
    points::get(nums, reals, ints, map, pool, spots, cells, h)
}

// The recorded position, the data and the tracker. 3, 11, 12.
pub fn get(
    records: &[Record],
    nums: &mut [Row],
    reals: &mut [[f32; 4]],
    ints: &mut [[i32; 4]],
    map: &[u64],
    pool: &[[u64; 2]],
    spots: &[[f32; 2]],
    cells: &[[u64; 2]],
    h: Handle,
) -> Got
    ensures { outcome result (tables nums.new reals.new ints.new map.now pool.now spots.now cells.now) ≡ get_on records.now (tables nums.old reals.old ints.old map.now pool.now spots.now cells.now) h }
{
    records::spread(records, nums, reals, ints);
    let n = records.len();
    get_for(n, nums, reals, ints, map, pool, spots, cells, h)
}

#[tactic(auto, using(records::proofs::laws::SeenLaws::rows_same, records::proofs::laws::SeenLaws::rows_other))]
pub fn len_for(
    n: usize,
    nums: &[Row],
    reals: &[[f32; 4]],
    ints: &[[i32; 4]],
    map: &[u64],
    pool: &[[u64; 2]],
    spots: &[[f32; 2]],
    cells: &[[u64; 2]],
) -> Count
    ensures { result ≡ len_for n (tables nums.now reals.now ints.now map.now pool.now spots.now cells.now) }
{
    if n != nums.len() {
        return Count::from(Err(Refusal::Tables));
    }
    points::len(nums, reals, ints, map, pool, spots, cells)
}

// The number of objects; removed ones count until maintain. 3.
pub fn len(
    records: &[Record],
    nums: &mut [Row],
    reals: &mut [[f32; 4]],
    ints: &mut [[i32; 4]],
    map: &[u64],
    pool: &[[u64; 2]],
    spots: &[[f32; 2]],
    cells: &[[u64; 2]],
) -> Count
    ensures { outcome result (tables nums.new reals.new ints.new map.now pool.now spots.now cells.now) ≡ len_on records.now (tables nums.old reals.old ints.old map.now pool.now spots.now cells.now) }
{
    records::spread(records, nums, reals, ints);
    let n = records.len();
    len_for(n, nums, reals, ints, map, pool, spots, cells)
}
