// `remove`: the box leaves all its lists at once, and its slot is emptied. It checks the tables first.
#![tactic(auto)]

ghost use Rattle.std.specs.Prelude.{◌+◌, ◌/◌, ◌<◌, ◌≡◌};
ghost use Rattle.basics.specs.Words.{length};
ghost use Rattle.slots.specs.Meaning.Slot.{emptied_nums, emptied_map};
ghost use Rattle.box_tables.specs.Meaning.Tables.{counting, obj_on, tables};
ghost use Rattle.box_tables.specs.Meaning.Outcome.{outcome};
ghost use Rattle.replies.specs.Inner.Results.{reply_of};
ghost use Rattle.box_remove.specs.Meaning.Remove.{taken_out, remove_of};
ghost use Rattle.box_remove.specs.Inner.Steps.{Object};

use basics::Refusal;
use replies::Reply;
use slots::{Handle, Row};

// Slot s is emptied, and the head word of the map has the count.
fn empty(nums: &mut [Row], map: &mut [u64], s: usize, used: usize)
    requires { (s < length nums.old) × (3 + s / 64 < length map.old) }
    ensures nums { nums.new ≡ emptied_nums nums.old s }
    ensures map { map.new ≡ counting (emptied_map nums.old map.old s) used }
{
    slots::empty(nums, map, s);
    map[1] = used as u64;
}

// The object of slot s goes. Returns its data.
fn take_out(
    nums: &mut [Row],
    reals: &[[f32; 4]],
    map: &mut [u64],
    pool: &mut [[u64; 2]],
    s: usize,
) -> u32
    requires { Object (tables nums.old reals.now map.old pool.old) s }
    ensures { outcome result (tables nums.new reals.now map.new pool.new) ≡ outcome (obj_on (tables nums.old reals.now map.old pool.old) s) (taken_out (tables nums.old reals.now map.old pool.old) s) }
{
    let obj = nums[s][2];
    let p = box_tables::span_of(map[0], box_tables::load_box(reals, s));
    let item = box_tables::item_of(s, p.cells == 1);
    let left = box_cover::leave(pool, map[1] as usize, p.low, p.high, item);
    empty(nums, map, s, left);
    obj
}

// The data of the object, which goes, or why it does not.
fn take(
    nums: &mut [Row],
    reals: &[[f32; 4]],
    map: &mut [u64],
    pool: &mut [[u64; 2]],
    h: Handle,
) -> Result<u32, Refusal>
    ensures { outcome (reply_of result) (tables nums.new reals.now map.new pool.new) ≡ remove_of (tables nums.old reals.now map.old pool.old) h }
{
    if !box_tables::check(nums, reals, map, pool) {
        return Err(Refusal::Tables);
    }
    slots::check_handle(nums, h)?;
    Ok(take_out(nums, reals, map, pool, h.slot as usize))
}

pub fn remove(
    nums: &mut [Row],
    reals: &[[f32; 4]],
    map: &mut [u64],
    pool: &mut [[u64; 2]],
    h: Handle,
) -> Reply
    ensures { outcome result (tables nums.new reals.now map.new pool.new) ≡ remove_of (tables nums.old reals.now map.old pool.old) h }
{
    take(nums, reals, map, pool, h).into()
}
