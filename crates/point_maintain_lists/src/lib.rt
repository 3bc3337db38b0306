// The pass of `maintain` over the lists: each dirty cell's list is walked, and what a list keeps is laid behind what was kept before.
// What is laid never comes past the entry that is looked at, so the places behind it stay as they were and no copy is made.
#![tactic(auto)]

ghost use Rattle.std.specs.Prelude.{◌<◌, ◌≡◌};
ghost use Rattle.basics.specs.Words.{[], length, get_or, set};
ghost use Rattle.point_tables.specs.Meaning.Holds.{Holds};
ghost use Rattle.point_maintain.specs.Inner.Kept.{kept};
ghost use Rattle.point_maintain.specs.Inner.Closed.{kept_entries};
ghost use Rattle.point_maintain_lists.specs.Inner.Tags.{spot_by, fate_in};
ghost use Rattle.point_maintain_lists.specs.Inner.Laid.{Room, Slotted, Laid, InUse, kept_if, list_at};
ghost use Rattle.point_tables.specs.Meaning.Tables.{tables};

use slots::Row;

// The position of an entry that stays is laid at place w: with tag 1 it is the pending one, which is in its slot's row.
// By a branch, so that only the position that is laid is read.
fn lay_spot(reals: &[[f32; 4]], spots: &mut [[f32; 2]], tag: u32, s: usize, at: usize, w: usize)
    requires { (s < length reals.now) × (at < length spots.old) × (w < length spots.old) }
    ensures { spots.new ≡ set spots.old w (spot_by tag (get_or reals.now s []) (get_or spots.old at [])) }
{
    if tag == 1 {
        let q = reals[s];
        spots[w] = [q[2], q[3]];
    } else {
        spots[w] = spots[at];
    }
}

// Walks the list at the places from..to and lays what it keeps from place `start` on; returns the place behind that.
// The entry at `at` is looked at, in the place of the one at `i`: if it leaves, the last of the list comes there.
pub fn walk_run(
    nums: &[Row],
    reals: &[[f32; 4]],
    pool: &mut [[u64; 2]],
    spots: &mut [[f32; 2]],
    from: usize,
    to: usize,
    start: usize,
) -> usize
    requires { Room pool.old spots.old from to start × Slotted nums.now reals.now pool.old from to }
    ensures { Laid (kept (fate_in nums.now reals.now) (list_at pool.old spots.old from to)) pool.old spots.old start to result pool.new spots.new }
{
    let mut at = from;
    let mut i = from;
    let mut end = to;
    let mut w = start;
    // a `while`, since one entry looked at is one less in front or one less at the end
    while i < end {
        let row = pool[at];
        let s = row[1] as usize;
        let tag = point_records::tag_in(nums[s]);
        if tag < 2 {
            lay_spot(reals, spots, tag, s, at, w);
            pool[w] = row;
            w += 1;
            i += 1;
            at = i;
        } else {
            end -= 1;
            at = end;
        }
    }
    w
}

// Lays the list at the places from..to as it is.
fn move_run(
    pool: &mut [[u64; 2]],
    spots: &mut [[f32; 2]],
    from: usize,
    to: usize,
    start: usize,
) -> usize
    requires { Room pool.old spots.old from to start }
    ensures { Laid (list_at pool.old spots.old from to) pool.old spots.old start to result pool.new spots.new }
{
    let mut w = start;
    for i in from..to {
        pool[w] = pool[i];
        spots[w] = spots[i];
        w += 1;
    }
    w
}

// The list at the places from..to: walked if its cell is dirty, else left as it is.
fn sweep_run(
    nums: &[Row],
    reals: &[[f32; 4]],
    pool: &mut [[u64; 2]],
    spots: &mut [[f32; 2]],
    from: usize,
    to: usize,
    start: usize,
    dirty: bool,
) -> usize
    requires { Room pool.old spots.old from to start × Slotted nums.now reals.now pool.old from to }
    ensures { Laid (kept_if dirty nums.now reals.now (list_at pool.old spots.old from to)) pool.old spots.old start to result pool.new spots.new }
{
    if dirty {
        walk_run(nums, reals, pool, spots, from, to, start)
    } else if start == from {
        to
    } else {
        move_run(pool, spots, from, to, start)
    }
}

// The lists in the order of the cell table: what they keep is laid from place 0 on. Returns how many entries that is.
pub fn sweep_lists(
    nums: &[Row],
    reals: &[[f32; 4]],
    ints: &[[i32; 4]],
    map: &[u64],
    pool: &mut [[u64; 2]],
    spots: &mut [[f32; 2]],
    cells: &[[u64; 2]],
) -> usize
    requires { Holds (tables nums.now reals.now ints.now map.now pool.old spots.old cells.now) }
    ensures { InUse (kept_entries (tables nums.now reals.now ints.now map.now pool.old spots.old cells.now)) pool.old spots.old pool.new spots.new result }
{
    let used = map[1] as usize;
    let rows = map[2] as usize;
    let mut from = 0;
    let mut w = 0;
    for cell in &cells[..rows] {
        let to = storage::list_end(pool, from, used, cell[0]);
        w = sweep_run(nums, reals, pool, spots, from, to, w, cell[1] == 1);
        from = to;
    }
    w
}
