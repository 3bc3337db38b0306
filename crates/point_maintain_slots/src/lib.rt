// The pass of `maintain` over the slots: what is pending for each object is done to its record, and the rows of relocated objects are listed.
#![tactic(auto)]

ghost use Rattle.std.specs.Prelude.{◌≤◌, ◌<◌, ◌≡◌};
ghost use Rattle.std.specs.Int.{from_bool};
ghost use Rattle.basics.specs.Words.{length};
ghost use Rattle.basics.specs.Meaning.Limits.{most_slots};
ghost use Rattle.point_maintain_slots.specs.Inner.Pass.{Slotted, Ready, Room, Placed, turned, turned_rows, rows_given, record_tables};
ghost use Rattle.point_maintain_slots.specs.Inner.Pass.{Passed};
ghost use Rattle.point_maintain_slots.specs.Inner.Counts.{counts, columns, moved_in, removed_in, differs_in, one_moved, one_removed};

use cells::Cell;
use slots::Row;

// How many objects have moved, and how many were removed.
#[derive(Clone, Copy)]
pub struct Counts {
    pub moved: u32,
    pub removed: u32,
}

// The object of slot s stands at its pending position in cell c, and nothing is pending for it. By columns, since no record need be made.
fn place(nums: &mut [Row], reals: &mut [[f32; 4]], ints: &mut [[i32; 4]], s: usize, c: Cell)
    requires { (s < length nums.old) × (s < length reals.old) × (s < length ints.old) }
    ensures { Placed nums.old reals.old ints.old s c nums.new reals.new ints.new }
{
    let q = reals[s];
    nums[s] = point_records::with_tag(nums[s], 0);
    reals[s] = [q[2], q[3], q[2], q[3]];
    ints[s] = [c.x, c.y, c.x, c.y];
}

// Slot s, if it is live, is settled by its tag. Returns the row of a relocated object: the key of its new cell, and its slot.
#[tactic(auto, unfolding(point_maintain::specs::Meaning::Walk::settled))]
fn turn(
    nums: &mut [Row],
    reals: &mut [[f32; 4]],
    ints: &mut [[i32; 4]],
    map: &mut [u64],
    s: usize,
) -> Option<[u64; 2]>
    requires { Slotted (record_tables nums.old reals.old ints.old map.old) s }
    ensures records { record_tables nums.new reals.new ints.new map.new ≡ turned (record_tables nums.old reals.old ints.old map.old) s }
    ensures row { rows_given result ≡ turned_rows (record_tables nums.old reals.old ints.old map.old) s }
{
    let n = nums[s];
    if n[1] != slots::LIVE {
        return None;
    }
    let z = ints[s];
    match point_records::tag_in(n) {
        0 => None,
        1 => {
            place(nums, reals, ints, s, Cell { x: z[0], y: z[1] });
            None
        }
        2 => {
            let c = Cell { x: z[2], y: z[3] };
            place(nums, reals, ints, s, c);
            Some([cells::key_of(c), s as u64])
        }
        _ => {
            slots::empty(nums, map, s);
            None
        }
    }
}

// Every live slot is settled, in ascending order, and the rows of relocated objects are put into the pool from place w on.
// Returns how many there are.
pub fn settle_slots(
    nums: &mut [Row],
    reals: &mut [[f32; 4]],
    ints: &mut [[i32; 4]],
    map: &mut [u64],
    pool: &mut [[u64; 2]],
    w: usize,
) -> usize
    requires { Ready (record_tables nums.old reals.old ints.old map.old) × Room (record_tables nums.old reals.old ints.old map.old) w pool.old }
    ensures { Passed (record_tables nums.old reals.old ints.old map.old) (record_tables nums.new reals.new ints.new map.new) w pool.old pool.new result }
{
    let mut k = 0;
    for i in 0..nums.len() {
        if let Some(row) = turn(nums, reals, ints, map, i) {
            pool[w + k] = row;
            k += 1;
        }
    }
    k
}

// Whether the pending place of a row is another than the recorded one. By numbers and not by bits: -0.0 and 0.0 are equal.
fn differs(q: [f32; 4]) -> bool
    ensures { result ≡ differs_in q }
{
    q[2] != q[0] || q[3] != q[1]
}

// Whether the object of a live slot has moved.
fn has_moved(phase: u32, tag: u32, q: [f32; 4]) -> bool
    ensures { from_bool result ≡ one_moved phase tag q }
{
    phase == slots::LIVE && (tag == 1 || tag == 2) && differs(q)
}

// Whether the object of a live slot is removed.
fn is_removed(phase: u32, tag: u32) -> bool
    ensures { from_bool result ≡ one_removed phase tag }
{
    phase == slots::LIVE && tag >= 3
}

// The two counts of `maintain`, from states and positions before it.
pub fn count_moves(nums: &[Row], reals: &[[f32; 4]]) -> Counts
    requires { (length nums.now ≤ most_slots) × (length reals.now ≡ length nums.now) }
    ensures { result ≡ counts (moved_in (columns nums.now reals.now) (length nums.now)) (removed_in (columns nums.now reals.now) (length nums.now)) }
{
    let mut moved = 0;
    let mut removed = 0;
    for (n, q) in nums.iter().zip(reals) {
        // read apart, so that of the row no more than these two numbers is loaded
        let phase = n[1];
        let tag = point_records::tag_in(*n);
        moved += u32::from(has_moved(phase, tag, *q));
        removed += u32::from(is_removed(phase, tag));
    }
    Counts { moved, removed }
}
