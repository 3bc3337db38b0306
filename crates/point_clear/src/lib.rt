// `clear`: writes recorded position, data and tracker, ascending by slot, then empties the grid. Versions rise as with any emptying.
#![tactic(auto)]

ghost use Rattle.std.specs.Prelude.{◌+◌, ◌≡◌};
ghost use Rattle.basics.specs.Words.{length};
ghost use Rattle.slots.specs.Meaning.Map.{words_for};
ghost use Rattle.storage.specs.Meaning.Keyed.{written};
ghost use Rattle.point_tables.specs.Meaning.Tables.{counting, tables};
ghost use Rattle.slot_walks.specs.Meaning.Live.{live_from};
ghost use Rattle.slot_walks.specs.Meaning.Cleared.{cleared_rows, cleared_map};
ghost use Rattle.point_clear.specs.Inner.{places_of, objs_of, Room};
ghost use Rattle.point_clear.specs.Meaning.Clear.{clear_of, wrote};
ghost use Rattle.point_tables.specs.Meaning.Outcome.{outcome};

use basics::Refusal;
use replies::Count;
use slots::Row;

// The recorded position, and the data and the tracker, of each live slot, from place 0 of the outputs on.
fn put_objects(nums: &[Row], reals: &[[f32; 4]], places: &mut [[f32; 2]], objs: &mut [[u32; 2]])
    requires { Room nums.now reals.now places.old objs.old }
    ensures places { places.new ≡ written (places_of reals.now (live_from 0 nums.now)) places.old }
    ensures objs { objs.new ≡ written (objs_of nums.now (live_from 0 nums.now)) objs.old }
{
    let mut k = 0;
    for (i, &row) in nums.iter().enumerate() {
        if slot_walks::is_live(row) {
            let q = reals[i];
            places[k] = [q[0], q[1]];
            objs[k] = [row[2], point_records::tracker_in(row)];
            k += 1;
        }
    }
}

// No entry and no row of a cell is in use.
fn empty_all(nums: &mut [Row], map: &mut [u64])
    requires { length map.old ≡ 3 + words_for (length nums.old) }
    ensures nums { nums.new ≡ cleared_rows nums.old }
    ensures map { map.new ≡ counting (cleared_map 0 nums.old map.old) 0 0 }
{
    slot_walks::empty_slots(nums, map);
    map[1] = 0;
    map[2] = 0;
}

#[tactic(auto, using(crate::proofs::Cleared::clearing))]
pub fn clear(
    nums: &mut [Row],
    reals: &[[f32; 4]],
    ints: &[[i32; 4]],
    map: &mut [u64],
    pool: &[[u64; 2]],
    spots: &[[f32; 2]],
    cells: &[[u64; 2]],
    places: &mut [[f32; 2]],
    objs: &mut [[u32; 2]],
) -> Count
    ensures { outcome (wrote result places.new objs.new) (tables nums.new reals.now ints.now map.new pool.now spots.now cells.now) ≡ clear_of (tables nums.old reals.now ints.now map.old pool.now spots.now cells.now) places.old objs.old }
{
    if !point_tables::check(nums, reals, ints, map, pool, spots, cells) {
        return Count::from(Err(Refusal::Tables));
    }
    // each object has one entry, so the entries in use are as many
    let n = map[1] as u32;
    if places.len().min(objs.len()) < n as usize {
        return Count::short(n);
    }
    put_objects(nums, reals, places, objs);
    empty_all(nums, map);
    Count::from(Ok(n))
}
