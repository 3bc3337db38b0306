// The object records of the point grid, and the columns that they stand in. The Rust's StoreObject and ObjectState.
#![tactic(auto)]

ghost use Rattle.std.specs.Prelude.{◌<◌, ◌≡◌};
ghost use Rattle.basics.specs.Words.{[], length, set};
ghost use Rattle.basics.specs.Meaning.Says.{Says};
ghost use Rattle.cells.specs.Meaning.CellRule.{cell_at};
ghost use Rattle.cells.specs.Inner.Span.{Spans};
ghost use Rattle.cells.specs.Meaning.Key.{key_of};
ghost use Rattle.point_records.specs.Meaning.Occupied.{InDomain, Agrees};
ghost use Rattle.point_records.specs.Inner.Occupied.{InCell};
ghost use Rattle.point_records.specs.Meaning.Columns.{tag_of, pending_of, target_of, state_of, record_at, nums_of, reals_of, ints_of, record_of, pending_in};

mod entries;
mod spans;
mod trackers;

use cells::{Cell, Span};
pub use entries::{entry_at, entry_row, entry_spot, spot_at};
use geometry::Position;
use slots::Row;
pub use spans::KeptSpans;
pub use trackers::{LAST_TRACKER, check_own, parts_in, tag_in, tracker_in, tracker_of, with_tag};

// What maintain has still to do to an object.
#[derive(Clone, Copy)]
pub enum State {
    Unchanged,
    NewPos(Position),
    Relocate(Position, Cell),
    Removed,
}

// A table of records is lent by the caller, with whatever it holds: so a record has one of eight, and no number that could be above 7.
#[derive(Clone, Copy, PartialEq, Eq, Debug)]
pub enum Tracker {
    T0,
    T1,
    T2,
    T3,
    T4,
    T5,
    T6,
    T7,
}

// What the fourth number of a slot's row says, and whether it may be that of an occupied slot.
// No Option: tracker and tag are read of rows too where nobody asks whether they fit.
#[derive(Clone, Copy)]
pub struct Parts {
    pub fits: bool,
    pub tracker: u32,
    pub tag: u32,
}

// A slot's record: version and phase (0 free, 1 live, 2 retired), the object's data, where it is recorded, its state, and its tracker.
#[derive(Clone, Copy)]
pub struct Record {
    pub version: u32,
    pub phase: u32,
    pub obj: u32,
    pub position: Position,
    pub cell: Cell,
    pub state: State,
    pub tracker: Tracker,
}

// An entry of a cell's list: the object's slot and its recorded position.
#[derive(Clone, Copy)]
pub struct Entry {
    pub slot: usize,
    pub position: Position,
}

fn state_of(tag: u32, p: Position, c: Cell) -> State
    ensures { result ≡ state_of tag p c }
{
    match tag {
        0 => State::Unchanged,
        1 => State::NewPos(p),
        2 => State::Relocate(p, c),
        _ => State::Removed,
    }
}

pub fn tag_of(s: State) -> u32
    ensures { result ≡ tag_of s }
{
    match s {
        State::Unchanged => 0,
        State::NewPos(_) => 1,
        State::Relocate(_, _) => 2,
        State::Removed => 3,
    }
}

pub fn pending_of(s: State, p: Position) -> Position
    ensures { result ≡ pending_of s p }
{
    match s {
        State::NewPos(q) | State::Relocate(q, _) => q,
        State::Unchanged | State::Removed => p,
    }
}

pub fn target_of(s: State, c: Cell) -> Cell
    ensures { result ≡ target_of s c }
{
    match s {
        State::Relocate(_, d) => d,
        State::Unchanged | State::NewPos(_) | State::Removed => c,
    }
}

pub fn load(nums: &[Row], reals: &[[f32; 4]], ints: &[[i32; 4]], i: usize) -> Record
    requires { (i < length nums.now) × (i < length reals.now) × (i < length ints.now) }
    ensures { result ≡ record_at nums.now reals.now ints.now i }
{
    let n = nums[i];
    let q = reals[i];
    let z = ints[i];
    let word = parts_in(n);
    Record {
        version: n[0],
        phase: n[1],
        obj: n[2],
        position: Position { x: q[0], y: q[1] },
        cell: Cell { x: z[0], y: z[1] },
        state: state_of(
            word.tag,
            Position { x: q[2], y: q[3] },
            Cell { x: z[2], y: z[3] },
        ),
        tracker: tracker_of(word.tracker),
    }
}

// The row of numbers that a record takes.
pub fn nums_of(r: Record) -> Row
    ensures { result ≡ nums_of r }
{
    let word = trackers::word_of(u32::from(r.tracker), tag_of(r.state));
    [r.version, r.phase, r.obj, word]
}

pub fn store(nums: &mut [Row], reals: &mut [[f32; 4]], ints: &mut [[i32; 4]], i: usize, r: Record)
    requires { (i < length nums.old) × (i < length reals.old) × (i < length ints.old) }
    ensures { (nums.new ≡ set nums.old i (nums_of r)) × (reals.new ≡ set reals.old i (reals_of r)) × (ints.new ≡ set ints.old i (ints_of r)) }
{
    let q = pending_of(r.state, r.position);
    let d = target_of(r.state, r.cell);
    nums[i] = nums_of(r);
    reals[i] = [r.position.x, r.position.y, q.x, q.y];
    ints[i] = [r.cell.x, r.cell.y, d.x, d.y];
}

// Whether a position lies in a cell that has these spans.
fn inside(size: u64, c: Cell, x: Span, y: Span, p: Position) -> bool
    requires { Spans size c.x x.lo x.hi × Spans size c.y y.lo y.hi }
    ensures { Says result (InDomain p × (cell_at size p ≡ c)) }
{
    cells::in_span(x, p.x) && cells::in_span(y, p.y)
}

// Whether a position of the domain lies in a cell that is not c.
fn relocated(spans: &mut KeptSpans, p: Position, to: Cell, c: Cell) -> bool
    ensures says { Says result (InDomain p × (cell_at spans.old.size p ≡ to) × (to ≡ c → ⊥)) }
    ensures same_size { spans.new.size ≡ spans.old.size }
{
    if to == c {
        return false;
    }
    let x = spans.at(cells::up_from_least(to.x));
    let y = spans.at(cells::up_from_least(to.y));
    inside(spans.size, to, x, y, p)
}

// Whether rows are those of an object of cell c, which has these spans, at a position of the cell.
pub fn in_cell(size: u64, c: Cell, x: Span, y: Span, q: [f32; 4], z: [i32; 4]) -> bool
    requires { Spans size c.x x.lo x.hi × Spans size c.y y.lo y.hi }
    ensures { Says result (InCell size c q z) }
{
    Cell { x: z[0], y: z[1] } == c && inside(size, c, x, y, Position { x: q[0], y: q[1] })
}

// Whether what is pending, by a tag that is not 0, agrees with the cell rule for an object of cell c.
fn agrees(c: Cell, x: Span, y: Span, tag: u32, p: Position, to: Cell, spans: &mut KeptSpans) -> bool
    requires { Spans spans.old.size c.x x.lo x.hi × Spans spans.old.size c.y y.lo y.hi × (tag ≡ 0 → ⊥) }
    ensures says { Says result (Agrees spans.old.size c (state_of tag p to)) }
    ensures same_size { spans.new.size ≡ spans.old.size }
{
    match tag {
        1 => inside(spans.size, c, x, y, p),
        2 => relocated(spans, p, to, c),
        _ => true,
    }
}

// Whether what is pending agrees, for an object whose cell, that of row z, has these spans.
pub fn pending_ok(
    x: Span,
    y: Span,
    tag: u32,
    q: [f32; 4],
    z: [i32; 4],
    spans: &mut KeptSpans,
) -> bool
    requires { Spans spans.old.size (record_of [] q z).cell.x x.lo x.hi × Spans spans.old.size (record_of [] q z).cell.y y.lo y.hi × (tag ≡ 0 → ⊥) }
    ensures says { Says result (Agrees spans.old.size (record_of [] q z).cell (pending_in tag q z)) }
    ensures same_size { spans.new.size ≡ spans.old.size }
{
    agrees(
        Cell { x: z[0], y: z[1] },
        x,
        y,
        tag,
        Position { x: q[2], y: q[3] },
        Cell { x: z[2], y: z[3] },
        spans,
    )
}

// The key of the recorded cell.
pub fn key_of(r: Record) -> u64
    ensures { result ≡ key_of r.cell }
{
    cells::key_of(r.cell)
}
