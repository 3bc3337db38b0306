// `query_around` on a table of records, in the form of `record_get`.
#![tactic(auto)]

ghost use Rattle.point_search.specs.Meaning.Lent.{Finds};
ghost use Rattle.record_query.specs.Inner.Calls.{around_for};
ghost use Rattle.record_query.specs.Meaning.Calls.{around_on, FindsIn};
ghost use Rattle.point_search.specs.Meaning.Searches.{outputs};
ghost use Rattle.point_tables.specs.Meaning.Tables.{tables};

use basics::Refusal;
use geometry::Position;
use point_records::Record;
use replies::Count;
use slots::Row;

// The core's, with 3 where the columns have not n rows.
#[tactic(auto, using(records::proofs::laws::SeenLaws::rows_same, records::proofs::laws::SeenLaws::rows_other))]
pub fn query_around_for(
    n: usize,
    nums: &[Row],
    reals: &[[f32; 4]],
    ints: &[[i32; 4]],
    map: &[u64],
    pool: &[[u64; 2]],
    spots: &[[f32; 2]],
    cells: &[[u64; 2]],
    centre: Position,
    radius: f32,
    found: &mut [[u32; 2]],
    places: &mut [[f32; 2]],
    objs: &mut [[u32; 2]],
) -> Count
    ensures { Finds (λ t. around_for n t centre radius) result (tables nums.now reals.now ints.now map.now pool.now spots.now cells.now) (outputs found.old places.old objs.old) (outputs found.new places.new objs.new) }
{
    if n != nums.len() {
        return Count::from(Err(Refusal::Tables));
    }
    points::query_around(
        nums, reals, ints, map, pool, spots, cells, centre, radius, found, places, objs,
    )
}

// The entries strictly inside a circle, with data and tracker in each row of objs. 3, 6, 7, 9 with the number found.
pub fn query_around(
    records: &[Record],
    nums: &mut [Row],
    reals: &mut [[f32; 4]],
    ints: &mut [[i32; 4]],
    map: &[u64],
    pool: &[[u64; 2]],
    spots: &[[f32; 2]],
    cells: &[[u64; 2]],
    centre: Position,
    radius: f32,
    found: &mut [[u32; 2]],
    places: &mut [[f32; 2]],
    objs: &mut [[u32; 2]],
) -> Count
    ensures { FindsIn (λ rs t. around_on rs t centre radius) result records.now (tables nums.old reals.old ints.old map.now pool.now spots.now cells.now) (outputs found.old places.old objs.old) (outputs found.new places.new objs.new) (tables nums.new reals.new ints.new map.now pool.now spots.now cells.now) }
{
    records::spread(records, nums, reals, ints);
    let n = records.len();
    query_around_for(
        n, nums, reals, ints, map, pool, spots, cells, centre, radius, found, places, objs,
    )
}
