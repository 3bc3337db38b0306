// One deferred call on tables that hold a grid. The pool is neither read nor written.
ghost use Rattle.std.specs.Prelude.{◌<◌, ◌≡◌};
ghost use Rattle.basics.specs.Words.{length};
ghost use Rattle.basics.specs.Meaning.Answers.{answer_of};
ghost use Rattle.cells.specs.Meaning.Size.{SizeInDomain};
ghost use Rattle.replies.specs.Inner.Results.{reply_of};
ghost use Rattle.point_records.specs.Meaning.Columns.{record_at};
ghost use Rattle.point_tables.specs.Meaning.Outcome.{outcome};
ghost use Rattle.point_deferred.specs.Inner.Ask.{kind_of, place_of, call_for, Allowed};
ghost use Rattle.point_deferred.specs.Inner.Ready.{Ready, Workable};
ghost use Rattle.point_deferred.specs.Inner.Held.{set_refusal, poolless, columns_alone};
ghost use Rattle.point_deferred.specs.Inner.Held.{refusal_of, PendedRows, worked, held_of, unmarked_of};

use crate::{Ask, rows};
use basics::Refusal;
use geometry::Position;
use point_records::{pending_of, tag_of, target_of};
use slots::{Handle, Row};

// Whether the object of a handle may be sent to a position by this tracker. The columns of reals and ints are here for what is promised of the record.
fn check_set(
    nums: &[Row],
    reals: &[[f32; 4]],
    ints: &[[i32; 4]],
    h: Handle,
    at: Position,
    tracker: u32,
) -> Result<(), Refusal>
    requires { (length reals.now ≡ length nums.now) × (length ints.now ≡ length nums.now) }
    ensures { answer_of result ≡ set_refusal nums.now (record_at nums.now reals.now ints.now h.slot).state h at tracker }
{
    if !geometry::position_in_domain(at) {
        return Err(Refusal::OutsideDomain);
    }
    point_records::check_own(nums, h, tracker)?;
    let n = nums[h.slot as usize];
    if 2 < point_records::tag_in(n) {
        return Err(Refusal::Removed);
    }
    Ok(())
}

// Whether a call may be made, or the first refusal that applies.
fn check(
    nums: &[Row],
    reals: &[[f32; 4]],
    ints: &[[i32; 4]],
    ask: Ask,
    h: Handle,
    tracker: u32,
) -> Result<(), Refusal>
    requires { (length reals.now ≡ length nums.now) × (length ints.now ≡ length nums.now) }
    ensures { answer_of result ≡ refusal_of nums.now (record_at nums.now reals.now ints.now h.slot).state (call_for ask h tracker) }
{
    match ask {
        Ask::SetPosition(at) => check_set(nums, reals, ints, h, at, tracker),
        Ask::Remove => point_records::check_own(nums, h, tracker),
    }
}

// The object at slot s has something pending. Inlined, as state_for is: where what is asked and the state go through memory, a move of a batch takes 29
// instructions more.
#[inline(always)]
fn pend(
    nums: &mut [Row],
    reals: &mut [[f32; 4]],
    ints: &mut [[i32; 4]],
    size: u64,
    s: usize,
    ask: Ask,
) -> u32
    requires { (s < length nums.old) × (s < length reals.old) × (s < length ints.old) × SizeInDomain size × Allowed ask }
    ensures { PendedRows nums.old reals.old ints.old size s (kind_of ask) (place_of ask) result nums.new reals.new ints.new }
{
    let n = nums[s];
    let q = reals[s];
    let z = ints[s];
    let cell = rows::cell_in(z);
    let state = rows::state_for(size, cell, ask);
    nums[s] = point_records::with_tag(n, tag_of(state));
    reals[s] = rows::with_pending(q, pending_of(state, rows::position_in(q)));
    ints[s] = rows::with_target(z, target_of(state, cell));
    rows::returned_in(n, ask)
}

// The object at slot s has something pending, and its cell is marked dirty.
fn work(
    nums: &mut [Row],
    reals: &mut [[f32; 4]],
    ints: &mut [[i32; 4]],
    map: &[u64],
    cells: &mut [[u64; 2]],
    s: usize,
    ask: Ask,
) -> u32
    requires { Ready (poolless nums.old reals.old ints.old map.now cells.old) × Workable (poolless nums.old reals.old ints.old map.now cells.old) s (kind_of ask) (place_of ask) }
    ensures { outcome result (poolless nums.new reals.new ints.new map.now cells.new) ≡ worked (poolless nums.old reals.old ints.old map.now cells.old) s (kind_of ask) (place_of ask) }
{
    let k = cells::key_of(rows::cell_in(ints[s]));
    storage::mark_cell(cells, map[2] as usize, k);
    pend(nums, reals, ints, map[0], s, ask)
}

// One deferred call, but for the mark of the object's cell. A removal gives the data, a new position 0.
pub fn unmarked(
    nums: &mut [Row],
    reals: &mut [[f32; 4]],
    ints: &mut [[i32; 4]],
    size: u64,
    ask: Ask,
    h: Handle,
    tracker: u32,
) -> Result<u32, Refusal>
    requires { (length reals.old ≡ length nums.old) × (length ints.old ≡ length nums.old) × SizeInDomain size }
    ensures { outcome (reply_of result) (columns_alone nums.new reals.new ints.new size) ≡ unmarked_of (columns_alone nums.old reals.old ints.old size) (call_for ask h tracker) }
{
    check(nums, reals, ints, ask, h, tracker)?;
    Ok(pend(nums, reals, ints, size, h.slot as usize, ask))
}

// As `unmarked`, and the object's cell is marked dirty. Inlined: as a call `set_position` takes 19 instructions more.
#[inline(always)]
pub fn deferred(
    nums: &mut [Row],
    reals: &mut [[f32; 4]],
    ints: &mut [[i32; 4]],
    map: &[u64],
    cells: &mut [[u64; 2]],
    ask: Ask,
    h: Handle,
    tracker: u32,
) -> Result<u32, Refusal>
    requires { Ready (poolless nums.old reals.old ints.old map.now cells.old) }
    ensures { outcome (reply_of result) (poolless nums.new reals.new ints.new map.now cells.new) ≡ held_of (poolless nums.old reals.old ints.old map.now cells.old) (call_for ask h tracker) }
{
    check(nums, reals, ints, ask, h, tracker)?;
    Ok(work(nums, reals, ints, map, cells, h.slot as usize, ask))
}
