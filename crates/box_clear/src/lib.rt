// `clear`: writes box and data, ascending by slot, then empties the grid. Versions rise as with any emptying.
// It checks the tables first.
#![tactic(auto)]

ghost use Rattle.std.specs.Prelude.{◌+◌, ◌≡◌};
ghost use Rattle.basics.specs.Words.{map, length};
ghost use Rattle.slots.specs.Meaning.Map.{words_for};
ghost use Rattle.storage.specs.Meaning.Keyed.{written};
ghost use Rattle.slot_walks.specs.Meaning.Live.{live_from, obj_at};
ghost use Rattle.slot_walks.specs.Meaning.Cleared.{cleared_rows, cleared_map};
ghost use Rattle.box_tables.specs.Meaning.Tables.{counting, tables};
ghost use Rattle.box_tables.specs.Meaning.Outcome.{outcome};
ghost use Rattle.box_clear.specs.Meaning.Clear.{box_at, wrote, clear_of};
ghost use Rattle.box_clear.specs.Inner.Clear.{Room};

use basics::Refusal;
use replies::Count;
use slots::Row;

// The box and the data of each live slot, from place 0 of the outputs on.
fn put_boxes(nums: &[Row], reals: &[[f32; 4]], boxes: &mut [[f32; 4]], objs: &mut [u32])
    requires { Room nums.now reals.now boxes.old objs.old }
    ensures boxes { boxes.new ≡ written (map (box_at reals.now) (live_from 0 nums.now)) boxes.old }
    ensures objs { objs.new ≡ written (map (obj_at nums.now) (live_from 0 nums.now)) objs.old }
{
    let mut k = 0;
    for (i, &row) in nums.iter().enumerate() {
        if slot_walks::is_live(row) {
            boxes[k] = reals[i];
            objs[k] = row[2];
            k += 1;
        }
    }
}

// Every live slot is emptied, and no entry is in use.
fn empty_all(nums: &mut [Row], map: &mut [u64])
    requires { length map.old ≡ 3 + words_for (length nums.old) }
    ensures nums { nums.new ≡ cleared_rows nums.old }
    ensures map { map.new ≡ counting (cleared_map 0 nums.old map.old) 0 }
{
    slot_walks::empty_slots(nums, map);
    map[1] = 0;
}

#[tactic(auto, using(crate::proofs::Cleared::clearing))]
pub fn clear(
    nums: &mut [Row],
    reals: &[[f32; 4]],
    map: &mut [u64],
    pool: &[[u64; 2]],
    boxes: &mut [[f32; 4]],
    objs: &mut [u32],
) -> Count
    ensures { outcome (wrote result boxes.new objs.new) (tables nums.new reals.now map.new pool.now) ≡ clear_of (tables nums.old reals.now map.old pool.now) boxes.old objs.old }
{
    if !box_tables::check(nums, reals, map, pool) {
        return Count::from(Err(Refusal::Tables));
    }
    let n = slot_walks::count_live(nums);
    if boxes.len().min(objs.len()) < n as usize {
        return Count::short(n);
    }
    put_boxes(nums, reals, boxes, objs);
    empty_all(nums, map);
    Count::from(Ok(n))
}
