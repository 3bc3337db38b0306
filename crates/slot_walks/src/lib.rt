// Walks over the slots of a grid, for points and boxes alike: the live slots counted, their handles written out, all of them emptied.
#![tactic(auto)]

ghost use Rattle.std.specs.Prelude.{◌+◌, ◌≤◌, ◌≡◌};
ghost use Rattle.basics.specs.Words.{length};
ghost use Rattle.basics.specs.Meaning.Limits.{most_slots};
ghost use Rattle.slots.specs.Meaning.Map.{words_for};
ghost use Rattle.storage.specs.Meaning.Keyed.{written};
ghost use Rattle.slot_walks.specs.Meaning.Live.{row_live, live_from, handles_in};
ghost use Rattle.slot_walks.specs.Meaning.Cleared.{cleared_rows, cleared_map};

use slots::Row;

// Whether a slot is live.
pub fn is_live(row: Row) -> bool
    ensures { result ≡ row_live row }
{
    row[1] == slots::LIVE
}

// The number of live slots.
pub fn count_live(nums: &[Row]) -> u32
    requires { length nums.now ≤ most_slots }
    ensures { result ≡ length (live_from 0 nums.now) }
{
    // A sum of ones: `filter` and `count` take four times as many instructions.
    nums.iter().map(|row| is_live(*row) as u32).sum()
}

// The handles of the live slots, from place 0 of the output on.
pub fn put_handles(nums: &[Row], out: &mut [[u32; 2]])
    requires { (length nums.now ≤ most_slots) × (length (live_from 0 nums.now) ≤ length out.old) }
    ensures { out.new ≡ written (handles_in nums.now) out.old }
{
    let mut k = 0;
    for (i, row) in nums.iter().enumerate() {
        if is_live(*row) {
            out[k] = [i as u32, row[0]];
            k += 1;
        }
    }
}

// Every live slot is emptied.
pub fn empty_slots(nums: &mut [Row], map: &mut [u64])
    requires { length map.old ≡ 3 + words_for (length nums.old) }
    ensures nums { nums.new ≡ cleared_rows nums.old }
    ensures map { map.new ≡ cleared_map 0 nums.old map.old }
{
    for i in 0..nums.len() {
        if is_live(nums[i]) {
            slots::empty(nums, map, i);
        }
    }
}
