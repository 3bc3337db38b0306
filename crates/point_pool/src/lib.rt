// The pass over the pool and the cell table, list by list: each entry is that of an object of the list's cell, whose record holds, no object stands
// twice, and each list has its row.
#![tactic(auto)]

ghost use Rattle.std.specs.Prelude.{◌≤◌, ◌<◌, ◌≡◌};
ghost use Rattle.basics.specs.Words.{true, false, length, get_or, replicate};
ghost use Rattle.basics.specs.Meaning.Limits.{most_slots};
ghost use Rattle.basics.specs.Meaning.Says.{Says};
ghost use Rattle.cells.specs.Inner.Key.{cell_of_key};
ghost use Rattle.cells.specs.Inner.Span.{Spans};
ghost use Rattle.point_pool.specs.Inner.Pass.{Right, Run, Passes, Room, Named};

use cells::{Cell, Span};
use geometry::Position;
use point_records::{Entry, KeptSpans};
use slots::Row;

// Whether an entry is that of its slot, and the slot's record holds, in the list of cell c with this mark.
fn entry_ok(
    nums: &[Row],
    reals: &[[f32; 4]],
    ints: &[[i32; 4]],
    c: Cell,
    x: Span,
    y: Span,
    mark: u64,
    e: Entry,
    spans: &mut KeptSpans,
) -> bool
    requires { (length reals.now ≡ length nums.now) × (length ints.now ≡ length nums.now) × Spans spans.old.size c.x x.lo x.hi × Spans spans.old.size c.y y.lo y.hi }
    ensures says { Says result (Right nums.now reals.now ints.now spans.old.size c mark e) }
    ensures same_size { spans.new.size ≡ spans.old.size }
{
    let s = e.slot;
    if s >= nums.len() || nums[s][1] != slots::LIVE || nums[s][0] == 0 {
        return false;
    }
    let q = reals[s];
    let z = ints[s];
    if !geometry::same_position(e.position, Position { x: q[0], y: q[1] })
        || !point_records::in_cell(spans.size, c, x, y, q, z)
    {
        return false;
    }
    // the row anew, so that no more of it than the word is loaded and kept
    let word = point_records::parts_in(nums[s]);
    word.fits
        && (word.tag == 0 || (mark == 1 && point_records::pending_ok(x, y, word.tag, q, z, spans)))
}

// The end of the run of entries from entry `from` on that are right in the list of this key and mark; the marks are set for the slots that they name.
fn run_end(
    nums: &[Row],
    reals: &[[f32; 4]],
    ints: &[[i32; 4]],
    pool: &[[u64; 2]],
    spots: &[[f32; 2]],
    used: usize,
    key: u64,
    c: Cell,
    y: Span,
    mark: u64,
    from: usize,
    marks: &mut [bool; basics::MOST_SLOTS],
    spans: &mut KeptSpans,
) -> usize
    requires cell { (c ≡ cell_of_key key) × Spans spans.old.size c.y y.lo y.hi }
    requires nums_len_bound { (length nums.now ≤ most_slots) × (length reals.now ≡ length nums.now) × (length ints.now ≡ length nums.now) × (used ≤ length pool.now) × (used ≤ length spots.now) × (from ≤ used) × Named pool.now marks.old from × (length marks.old ≡ most_slots) }
    ensures run { Run nums.now reals.now ints.now pool.now spots.now spans.old.size used key mark from result }
    ensures named { Named pool.now marks.new result × (length marks.new ≡ most_slots) }
    ensures same_size { spans.new.size ≡ spans.old.size }
{
    let x = spans.at(cells::column_of(key));
    for j in from..used {
        if pool[j][0] != key {
            return j;
        }
        let e = point_records::entry_at(pool, spots, j);
        if !entry_ok(nums, reals, ints, c, x, y, mark, e, spans) || marks[e.slot] {
            return j;
        }
        marks[e.slot] = true;
    }
    used
}

// Whether a row of the cell table can come behind one with the key `last`.
fn follows(last: u64, row: [u64; 2]) -> bool
    ensures { Says result ((last < get_or row 0 0) × (get_or row 1 0 ≤ 1)) }
{
    last < row[0] && row[1] <= 1
}

// The span of the line of cell c, which has this key, where y is that of the line of the key `last`.
fn line_span(key: u64, c: Cell, last: u64, y: Span, spans: &mut KeptSpans) -> Span
    requires { (c ≡ cell_of_key key) × Spans spans.old.size (cell_of_key last).y y.lo y.hi }
    ensures span { Spans spans.old.size c.y result.lo result.hi }
    ensures same_size { spans.new.size ≡ spans.old.size }
{
    if cells::row_of(key) == cells::row_of(last) {
        y
    } else {
        spans.at(cells::up_from_least(c.y))
    }
}

// Whether the pool and the cell table are right, and the record of each slot that an entry names; the marks are then set for these slots.
// Most rows have the line of the row before, so its span is kept; the spans of columns come again, and are in `spans`.
// At first the key is 0, that of no object, and its span is empty.
pub fn pool_ok(
    nums: &[Row],
    reals: &[[f32; 4]],
    ints: &[[i32; 4]],
    pool: &[[u64; 2]],
    spots: &[[f32; 2]],
    cells: &[[u64; 2]],
    used: usize,
    rows: usize,
    size: u64,
    marks: &mut [bool; basics::MOST_SLOTS],
) -> bool
    requires { Room nums.now reals.now ints.now pool.now spots.now cells.now size used rows × (marks.old ≡ replicate most_slots false) }
    ensures says { Says result (Passes nums.now reals.now ints.now pool.now spots.now cells.now size used rows) }
    ensures named { result ≡ true → Named pool.now marks.new used }
{
    let mut spans = KeptSpans::new(size);
    let mut last = 0;
    let mut y = Span { lo: 1.0, hi: 0.0 };
    let mut j = 0;
    for r in 0..rows {
        let row = cells[r];
        if !follows(last, row) {
            return false;
        }
        // here and not in run_end, where it would be worked out again for every entry: that takes a tenth more
        let c = cells::cell_of_key(row[0]);
        y = line_span(row[0], c, last, y, &mut spans);
        let e = run_end(
            nums, reals, ints, pool, spots, used, row[0], c, y, row[1], j, marks, &mut spans,
        );
        if e <= j {
            return false;
        }
        last = row[0];
        j = e;
    }
    j == used
}
