// The tables of a point grid, and the check that they hold one.
#![tactic(auto)]

ghost use Rattle.std.specs.Prelude.{◌+◌, ◌/◌, ◌<◌, ◌≡◌};
ghost use Rattle.basics.specs.Words.{ℕ, length};
ghost use Rattle.basics.specs.Meaning.Limits.{most_slots};
ghost use Rattle.basics.specs.Meaning.Says.{Says};
ghost use Rattle.slots.specs.Meaning.Map.{usable};
ghost use Rattle.point_tables.specs.Meaning.Tables.{Lengths, tables};
ghost use Rattle.point_tables.specs.Meaning.Decide.{holds};
ghost use Rattle.point_tables.specs.Inner.Check.{Counts, SlotOk, EachOk, SlotsOk, Room, FreeAt, Listed};

use slots::Row;

// Whether the tables have the lengths of n slots.
pub fn lengths_ok(
    n: usize,
    reals: usize,
    ints: usize,
    map: usize,
    pool: usize,
    spots: usize,
    cells: usize,
) -> bool
    ensures { Says result (Lengths n reals ints map pool spots cells) }
{
    1 <= n
        && n <= basics::MOST_SLOTS
        && reals == n
        && ints == n
        && map == 3 + (n + 63) / 64
        && pool == n
        && spots == n
        && cells == n
}

// Whether the cell size is in its limits and the counts are within n.
fn counts_ok(n: usize, size: u64, used: usize, rows: usize) -> bool
    ensures { Says result (Counts n size used rows) }
{
    cells::size_in_domain(size) && used <= n && rows <= n
}

// Whether a slot holds, which an entry names if it is listed; and an occupied one is listed.
fn slot_ok(nums: &[Row], map: &[u64], s: usize, listed: bool) -> bool
    requires { (s < length nums.now) × (3 + s / 64 < length map.now) }
    ensures { Says result (SlotOk nums.now map.now s listed) }
{
    let [version, phase, _, _] = nums[s];
    slots::slot_ok(version, phase, slots::is_usable(map, s)) && (phase != slots::LIVE || listed)
}

// Whether each slot holds, and each occupied one is marked as named by an entry.
fn each_ok(nums: &[Row], map: &[u64], marks: &[bool; basics::MOST_SLOTS]) -> bool
    requires { Room nums.now map.now }
    ensures { Says result (EachOk nums.now map.now marks.now) }
{
    (0..nums.len()).all(|i| slot_ok(nums, map, i, marks[i]))
}

// Whether slot s is free, if the map has it.
fn free_at(nums: &[Row], map: &[u64], s: usize) -> bool
    requires { (s < length nums.now) × (3 + s / 64 < length map.now) }
    ensures { Says result (FreeAt nums.now map.now s) }
{
    !slots::is_usable(map, s) || (nums[s][0] != 0 && nums[s][1] == slots::FREE)
}

// The next slot that the map may have: a word with no bit is passed at once.
fn next_after(map: &[u64], s: usize) -> usize
    requires { (s < most_slots) × (3 + s / 64 < length map.now) }
    ensures { (s < result) × ((k : ℕ) → s < k → k < result → usable map.now k ≡ 0) }
{
    if map[3 + s / 64] == 0 {
        s + 64 - s % 64
    } else {
        s + 1
    }
}

// Whether each slot that the map has is free.
fn free_ok(nums: &[Row], map: &[u64]) -> bool
    requires { Room nums.now map.now }
    ensures { Says result ((s : ℕ) → s < length nums.now → FreeAt nums.now map.now s) }
{
    let mut i = 0;
    // no `for`: i goes on by a whole word where no bit of the word is set
    while i < nums.len() {
        if !free_at(nums, map, i) {
            return false;
        }
        i = next_after(map, i);
    }
    true
}

// Whether every slot holds, and every occupied one is marked; `used` slots are. Where these and the slots that the map has are all, it is enough that the latter are free.
fn slots_ok(nums: &[Row], map: &[u64], used: usize, marks: &[bool; basics::MOST_SLOTS]) -> bool
    requires { Room nums.now map.now × Listed nums.now marks.now used }
    ensures { Says result (SlotsOk nums.now map.now marks.now) }
{
    let n = nums.len();
    slots::past_ok(map, n)
        && if used + slots::count_usable(map, n) == n {
            free_ok(nums, map)
        } else {
            each_ok(nums, map, marks)
        }
}

// Whether the tables hold a grid.
pub fn check(
    nums: &[Row],
    reals: &[[f32; 4]],
    ints: &[[i32; 4]],
    map: &[u64],
    pool: &[[u64; 2]],
    spots: &[[f32; 2]],
    cells: &[[u64; 2]],
) -> bool
    ensures { result ≡ holds (tables nums.now reals.now ints.now map.now pool.now spots.now cells.now) }
{
    if !lengths_ok(
        nums.len(),
        reals.len(),
        ints.len(),
        map.len(),
        pool.len(),
        spots.len(),
        cells.len(),
    ) {
        return false;
    }
    let size = map[0];
    let used = map[1] as usize;
    let rows = map[2] as usize;
    if !counts_ok(nums.len(), size, used, rows) {
        return false;
    }
    let mut marks = [false; basics::MOST_SLOTS];
    point_pool::pool_ok(
        nums, reals, ints, pool, spots, cells, used, rows, size, &mut marks,
    ) && slots_ok(nums, map, used, &marks)
}
