// A batch of deferred calls: one check of the tables for all of them, and each call's answer and data in its place of the output.
#![tactic(auto)]

ghost use Rattle.std.specs.Prelude.{◌≤◌, ◌≡◌, ◌&&◌, ◌∷◌};
ghost use Rattle.basics.specs.Words.{[], length, eqb, leb};
ghost use Rattle.basics.specs.Meaning.Answers.{number_of, answer_of};
ghost use Rattle.basics.specs.Meaning.Refusals.{unless, first_of, pick};
ghost use Rattle.storage.specs.Meaning.Keyed.{written};
ghost use Rattle.point_records.specs.Meaning.Columns.{position_in};
ghost use Rattle.point_tables.specs.Meaning.Lent.{Gives};
ghost use Rattle.point_tables.specs.Meaning.Holds.{Holds};
ghost use Rattle.point_batch.specs.Meaning.Batch.{handle_of, reply_row, reply_rows, batched_by, batch_of, calls_of};
ghost use Rattle.point_deferred.specs.Inner.Ready.{Ready};
ghost use Rattle.point_deferred.specs.Inner.Held.{held_after, held_replies, poolless};
ghost use Rattle.point_tables.specs.Meaning.Tables.{tables};

mod marks;

use basics::Refusal;
use geometry::Position;
use marks::mark_all;
use point_deferred::{Ask, deferred, unmarked};
use replies::Reply;
use slots::{Handle, Row};

// The answer of a batch, and with 0 and 9 the number of its calls.
#[derive(Clone, Copy)]
pub struct BatchReply {
    pub answer: u32,
    pub count: u64,
}

fn handle_of(row: [u32; 3]) -> Handle
    ensures { result ≡ handle_of row }
{
    let [slot, version, _] = row;
    Handle { slot, version }
}

fn position_of(row: [f32; 2]) -> Position
    ensures { result ≡ position_in row }
{
    let [x, y] = row;
    Position { x, y }
}

fn reply_row(r: Reply) -> [u32; 2]
    ensures { result ≡ reply_row r }
{
    [r.answer, r.obj]
}

// Whether the lists can be a batch: of one length, on tables that hold a grid, and with a place of the output for each call.
fn check_lists(
    held: bool,
    kinds: usize,
    handles: usize,
    positions: usize,
    out: usize,
) -> Result<(), Refusal>
    ensures { answer_of result ≡ first_of (unless ((eqb handles kinds && eqb positions kinds) && held) 3 ∷ unless (leb kinds out) 9 ∷ []) }
{
    if handles != kinds || positions != kinds || !held {
        return Err(Refusal::Tables);
    }
    if kinds > out {
        return Err(Refusal::OutputTooShort);
    }
    Ok(())
}

// The calls one after the other.
fn run(
    nums: &mut [Row],
    reals: &mut [[f32; 4]],
    ints: &mut [[i32; 4]],
    map: &[u64],
    cells: &mut [[u64; 2]],
    kinds: &[u32],
    handles: &[[u32; 3]],
    positions: &[[f32; 2]],
    out: &mut [[u32; 2]],
)
    requires ready { Ready (poolless nums.old reals.old ints.old map.now cells.old) }
    requires long { (length handles.now ≡ length kinds.now) × (length positions.now ≡ length kinds.now) × (length kinds.now ≤ length out.old) }
    ensures after { poolless nums.new reals.new ints.new map.now cells.new ≡ held_after (poolless nums.old reals.old ints.old map.now cells.old) (calls_of kinds.now handles.now positions.now) }
    ensures out { out.new ≡ written (reply_rows (held_replies (poolless nums.old reals.old ints.old map.now cells.old) (calls_of kinds.now handles.now positions.now))) out.old }
{
    for i in 0..kinds.len() {
        let row = handles[i];
        let ask = Ask::of_kind(kinds[i], position_of(positions[i]));
        let r = deferred(nums, reals, ints, map, cells, ask, handle_of(row), row[2]);
        out[i] = reply_row(r.into());
    }
}

// As `run`, for many calls: the marks come last.
fn run_many(
    nums: &mut [Row],
    reals: &mut [[f32; 4]],
    ints: &mut [[i32; 4]],
    map: &[u64],
    pool: &[[u64; 2]],
    spots: &[[f32; 2]],
    cells: &mut [[u64; 2]],
    kinds: &[u32],
    handles: &[[u32; 3]],
    positions: &[[f32; 2]],
    out: &mut [[u32; 2]],
)
    requires grid { Holds (tables nums.old reals.old ints.old map.now pool.now spots.now cells.old) }
    requires long { (length handles.now ≡ length kinds.now) × (length positions.now ≡ length kinds.now) × (length kinds.now ≤ length out.old) }
    ensures after { poolless nums.new reals.new ints.new map.now cells.new ≡ held_after (poolless nums.old reals.old ints.old map.now cells.old) (calls_of kinds.now handles.now positions.now) }
    ensures out { out.new ≡ written (reply_rows (held_replies (poolless nums.old reals.old ints.old map.now cells.old) (calls_of kinds.now handles.now positions.now))) out.old }
{
    let size = map[0];
    for i in 0..kinds.len() {
        let row = handles[i];
        let ask = Ask::of_kind(kinds[i], position_of(positions[i]));
        let r = unmarked(nums, reals, ints, size, ask, handle_of(row), row[2]);
        out[i] = reply_row(r.into());
    }
    mark_all(nums, pool, map[1] as usize, cells, map[2] as usize);
}

// The calls: many leave their marks to one walk, few mark one by one.
fn run_all(
    nums: &mut [Row],
    reals: &mut [[f32; 4]],
    ints: &mut [[i32; 4]],
    map: &[u64],
    pool: &[[u64; 2]],
    spots: &[[f32; 2]],
    cells: &mut [[u64; 2]],
    kinds: &[u32],
    handles: &[[u32; 3]],
    positions: &[[f32; 2]],
    out: &mut [[u32; 2]],
)
    requires grid { Holds (tables nums.old reals.old ints.old map.now pool.now spots.now cells.old) }
    requires long { (length handles.now ≡ length kinds.now) × (length positions.now ≡ length kinds.now) × (length kinds.now ≤ length out.old) }
    ensures after { poolless nums.new reals.new ints.new map.now cells.new ≡ held_after (poolless nums.old reals.old ints.old map.now cells.old) (calls_of kinds.now handles.now positions.now) }
    ensures out { out.new ≡ written (reply_rows (held_replies (poolless nums.old reals.old ints.old map.now cells.old) (calls_of kinds.now handles.now positions.now))) out.old }
{
    let used = map[1] as usize;
    if used / 8 < kinds.len() {
        run_many(
            nums, reals, ints, map, pool, spots, cells, kinds, handles, positions, out,
        );
    } else {
        run(
            nums, reals, ints, map, cells, kinds, handles, positions, out,
        );
    }
}

// A batch of n calls that is refused: a short output is told their number.
fn refused_batch(why: Refusal, n: usize) -> BatchReply
    ensures { (result.answer ≡ number_of why) × (result.count ≡ pick (eqb (number_of why) 9) n 0) }
{
    let count = match why {
        Refusal::OutputTooShort => n as u64,
        _ => 0,
    };
    BatchReply {
        answer: why.number(),
        count,
    }
}

// As `set_position` and `remove` one after the other, but with one check for all.
pub fn batch(
    nums: &mut [Row],
    reals: &mut [[f32; 4]],
    ints: &mut [[i32; 4]],
    map: &[u64],
    pool: &[[u64; 2]],
    spots: &[[f32; 2]],
    cells: &mut [[u64; 2]],
    kinds: &[u32],
    handles: &[[u32; 3]],
    positions: &[[f32; 2]],
    out: &mut [[u32; 2]],
) -> BatchReply
    ensures { Gives (λ t. batch_of t kinds.now handles.now positions.now out.old) (batched_by result out.new) (tables nums.old reals.old ints.old map.now pool.now spots.now cells.old) (tables nums.new reals.new ints.new map.now pool.now spots.now cells.new) }
{
    let held = point_tables::check(nums, reals, ints, map, pool, spots, cells);
    let n = kinds.len();
    match check_lists(held, n, handles.len(), positions.len(), out.len()) {
        Err(why) => refused_batch(why, n),
        Ok(()) => {
            run_all(
                nums, reals, ints, map, pool, spots, cells, kinds, handles, positions, out,
            );
            BatchReply {
                answer: 0,
                count: n as u64,
            }
        }
    }
}
