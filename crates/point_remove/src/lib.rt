// `remove_maintain`: the object, which is this tracker's, is taken out now, whatever its state. The last entry of its list moves into the gap.
#![tactic(auto)]

ghost use Rattle.std.specs.Prelude.{◌+◌, ◌/◌, ◌≤◌, ◌<◌, ◌≡◌};
ghost use Rattle.basics.specs.Words.{length, take};
ghost use Rattle.replies.specs.Inner.Results.{reply_of};
ghost use Rattle.slots.specs.Meaning.Slot.{emptied_nums, emptied_map};
ghost use Rattle.storage.specs.Inner.Keyed.{Sorted};
ghost use Rattle.storage.specs.Meaning.Entries.{row_key};
ghost use Rattle.storage.specs.Inner.Tables.{Rising};
ghost use Rattle.point_tables.specs.Meaning.Tables.{counting, tables};
ghost use Rattle.point_tables.specs.Meaning.Outcome.{outcome};
ghost use Rattle.point_remove.specs.Meaning.RemoveMaintain.{remove_maintain_of};
ghost use Rattle.point_remove.specs.Inner.{Object, taken_from, rows_left, RowsInUse};

use basics::Refusal;
use replies::Reply;
use slots::{Handle, Row};

// The row of a cell whose list is empty goes. Returns how many rows are left.
fn drop_empty(
    cells: &mut [[u64; 2]],
    rows: usize,
    pool: &[[u64; 2]],
    used: usize,
    key: u64,
) -> usize
    requires cells { (rows ≤ length cells.old) × Rising row_key (take rows cells.old) }
    requires pool { (used ≤ length pool.now) × Sorted row_key (take used pool.now) }
    ensures { RowsInUse (rows_left pool.now used key cells.old rows) cells.old cells.new result }
{
    if storage::has_key(pool, used, key) {
        rows
    } else {
        storage::drop_cell(cells, rows, key)
    }
}

// Slot s is emptied, and the head words of the map have the counts.
fn empty(nums: &mut [Row], map: &mut [u64], s: usize, used: usize, rows: usize)
    requires { (s < length nums.old) × (3 + s / 64 < length map.old) }
    ensures nums { nums.new ≡ emptied_nums nums.old s }
    ensures map { map.new ≡ counting (emptied_map nums.old map.old s) used rows }
{
    slots::empty(nums, map, s);
    map[1] = used as u64;
    map[2] = rows as u64;
}

// The object of slot s goes. Returns its data.
fn take_out(
    nums: &mut [Row],
    reals: &[[f32; 4]],
    ints: &[[i32; 4]],
    map: &mut [u64],
    pool: &mut [[u64; 2]],
    spots: &mut [[f32; 2]],
    cells: &mut [[u64; 2]],
    s: usize,
) -> u32
    requires { Object (tables nums.old reals.now ints.now map.old pool.old spots.old cells.old) s }
    ensures { outcome result (tables nums.new reals.now ints.now map.new pool.new spots.new cells.new) ≡ taken_from (tables nums.old reals.now ints.now map.old pool.old spots.old cells.old) s }
{
    let r = point_records::load(nums, reals, ints, s);
    let key = point_records::key_of(r);
    let used = storage::take_entry(pool, spots, map[1] as usize, key, s as u64);
    let rows = drop_empty(cells, map[2] as usize, pool, used, key);
    empty(nums, map, s, used, rows);
    r.obj
}

// The data of the object, which is this tracker's and goes, or why it does not. Its state is not looked at.
#[tactic(auto, using(crate::proofs::Answers::removing))]
fn take(
    nums: &mut [Row],
    reals: &[[f32; 4]],
    ints: &[[i32; 4]],
    map: &mut [u64],
    pool: &mut [[u64; 2]],
    spots: &mut [[f32; 2]],
    cells: &mut [[u64; 2]],
    h: Handle,
    tracker: u32,
) -> Result<u32, Refusal>
    ensures { outcome (reply_of result) (tables nums.new reals.now ints.now map.new pool.new spots.new cells.new) ≡ remove_maintain_of (tables nums.old reals.now ints.now map.old pool.old spots.old cells.old) h tracker }
{
    if !point_tables::check(nums, reals, ints, map, pool, spots, cells) {
        return Err(Refusal::Tables);
    }
    point_records::check_own(nums, h, tracker)?;
    let s = h.slot as usize;
    Ok(take_out(nums, reals, ints, map, pool, spots, cells, s))
}

pub fn remove_maintain(
    nums: &mut [Row],
    reals: &[[f32; 4]],
    ints: &[[i32; 4]],
    map: &mut [u64],
    pool: &mut [[u64; 2]],
    spots: &mut [[f32; 2]],
    cells: &mut [[u64; 2]],
    h: Handle,
    tracker: u32,
) -> Reply
    ensures { outcome result (tables nums.new reals.now ints.now map.new pool.new spots.new cells.new) ≡ remove_maintain_of (tables nums.old reals.now ints.now map.old pool.old spots.old cells.old) h tracker }
{
    take(nums, reals, ints, map, pool, spots, cells, h, tracker).into()
}
