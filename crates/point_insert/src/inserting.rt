// `insert`: the lowest usable slot takes the object, and (handle, position) goes to the end of its cell's list.
ghost use Rattle.std.specs.Prelude.{◌+◌, ◌/◌, ◌≤◌, ◌<◌, ◌≡◌};
ghost use Rattle.basics.specs.Words.{length};
ghost use Rattle.basics.specs.Meaning.Limits.{most_slots};
ghost use Rattle.slots.specs.Meaning.Map.{words_for, taken};
ghost use Rattle.slots.specs.Inner.Map.{NonePast};
ghost use Rattle.slots.specs.Meaning.Slot.{version_at};
ghost use Rattle.point_tables.specs.Meaning.Tables.{counting, tables};
ghost use Rattle.point_tables.specs.Meaning.Outcome.{outcome};
ghost use Rattle.point_insert.specs.Meaning.Insert;
ghost use Rattle.point_insert.specs.Meaning.Insert.{insert_of};
ghost use Rattle.point_insert.specs.Inner.Fresh.{Fresh, Chosen, fresh_record, Stored};
ghost use Rattle.replies.specs.Inner.Results.{inserted_of};

use basics::Refusal;
use cells::Cell;
use geometry::Position;
use point_records::{Entry, Record, State};
use replies::Inserted;
use slots::{Handle, Row};

// The lowest usable slot, or the first refusal that applies, in tables that hold a grid.
fn choose(nums: &[Row], map: &[u64], at: Position, tracker: u32) -> Result<usize, Refusal>
    requires { (length map.now ≡ 3 + words_for (length nums.now)) × (length nums.now ≤ most_slots) × NonePast map.now (length nums.now) }
    ensures { Chosen at tracker map.now (length nums.now) result }
{
    if !geometry::position_in_domain(at) {
        return Err(Refusal::OutsideDomain);
    }
    if tracker > point_records::LAST_TRACKER {
        return Err(Refusal::NoTracker);
    }
    slots::lowest(map, nums.len()).ok_or(Refusal::NoUsableSlot)
}

// The record of a new object: nothing is pending.
fn fresh_record(version: u32, at: Position, cell: Cell, obj: u32, tracker: u32) -> Record
    ensures { result ≡ fresh_record version at cell obj tracker }
{
    Record {
        version,
        phase: slots::LIVE,
        obj,
        position: at,
        cell,
        state: State::Unchanged,
        tracker: point_records::tracker_of(tracker),
    }
}

// Slot s takes the object: its version stays.
fn occupy(
    nums: &mut [Row],
    reals: &mut [[f32; 4]],
    ints: &mut [[i32; 4]],
    s: usize,
    at: Position,
    cell: Cell,
    obj: u32,
    tracker: u32,
)
    requires { (s < length nums.old) × (s < length reals.old) × (s < length ints.old) }
    ensures { Stored nums.old reals.old ints.old s (fresh_record (version_at nums.old s) at cell obj tracker) nums.new reals.new ints.new }
{
    let r = fresh_record(nums[s][0], at, cell, obj, tracker);
    point_records::store(nums, reals, ints, s, r);
}

// The map has slot s no more, and its head words have the counts.
fn count(map: &mut [u64], s: usize, used: usize, rows: usize)
    requires { 3 + s / 64 < length map.old }
    ensures { map.new ≡ counting (taken map.old s) used rows }
{
    slots::take(map, s);
    map[1] = used as u64;
    map[2] = rows as u64;
}

// Slot s, which is free, takes the object, and its cell's list the entry.
fn put(
    nums: &mut [Row],
    reals: &mut [[f32; 4]],
    ints: &mut [[i32; 4]],
    map: &mut [u64],
    pool: &mut [[u64; 2]],
    spots: &mut [[f32; 2]],
    cells: &mut [[u64; 2]],
    s: usize,
    at: Position,
    obj: u32,
    tracker: u32,
)
    requires { Fresh (tables nums.old reals.old ints.old map.old pool.old spots.old cells.old) s at }
    ensures { tables nums.new reals.new ints.new map.new pool.new spots.new cells.new ≡ Insert.put (tables nums.old reals.old ints.old map.old pool.old spots.old cells.old) s at obj tracker }
{
    let used = map[1] as usize;
    let rows = map[2] as usize;
    let cell = cells::cell_at(map[0], at);
    let key = cells::key_of(cell);
    let e = Entry {
        slot: s,
        position: at,
    };
    let row = point_records::entry_row(key, e);
    let spot = point_records::entry_spot(e);
    occupy(nums, reals, ints, s, at, cell, obj, tracker);
    storage::append_entry(pool, spots, used, row, spot);
    let rows = storage::enter_cell(cells, rows, key);
    count(map, s, used + 1, rows);
}

// The handle of the new object, or why there is none.
#[tactic(auto, using(crate::proofs::Chosen::entering))]
fn enter(
    nums: &mut [Row],
    reals: &mut [[f32; 4]],
    ints: &mut [[i32; 4]],
    map: &mut [u64],
    pool: &mut [[u64; 2]],
    spots: &mut [[f32; 2]],
    cells: &mut [[u64; 2]],
    at: Position,
    obj: u32,
    tracker: u32,
) -> Result<Handle, Refusal>
    ensures { outcome (inserted_of result) (tables nums.new reals.new ints.new map.new pool.new spots.new cells.new) ≡ insert_of (tables nums.old reals.old ints.old map.old pool.old spots.old cells.old) at obj tracker }
{
    if !point_tables::check(nums, reals, ints, map, pool, spots, cells) {
        return Err(Refusal::Tables);
    }
    let s = choose(nums, map, at, tracker)?;
    let handle = slots::handle_at(nums, s);
    put(
        nums, reals, ints, map, pool, spots, cells, s, at, obj, tracker,
    );
    Ok(handle)
}

pub fn insert(
    nums: &mut [Row],
    reals: &mut [[f32; 4]],
    ints: &mut [[i32; 4]],
    map: &mut [u64],
    pool: &mut [[u64; 2]],
    spots: &mut [[f32; 2]],
    cells: &mut [[u64; 2]],
    at: Position,
    obj: u32,
    tracker: u32,
) -> Inserted
    ensures { outcome result (tables nums.new reals.new ints.new map.new pool.new spots.new cells.new) ≡ insert_of (tables nums.old reals.old ints.old map.old pool.old spots.old cells.old) at obj tracker }
{
    enter(nums, reals, ints, map, pool, spots, cells, at, obj, tracker).into()
}
