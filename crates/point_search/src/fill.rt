// Writing what a search found into the outputs.
ghost use Rattle.std.specs.Prelude.{◌≤◌, ◌<◌, ◌≡◌};
ghost use Rattle.basics.specs.Words.{min, length, set, take};
ghost use Rattle.basics.specs.Meaning.Limits.{most_slots};
ghost use Rattle.point_search.specs.Meaning.Searches.{handle_row, place_row, obj_row, findings, outputs};
ghost use Rattle.point_search.specs.Inner.Fill.{finding_of, filled};
ghost use Rattle.point_search.specs.Inner.Asked.{Searchable, search_fills, BegunBy, Reportable, Reported, RoomFor, SearchReported};
ghost use Rattle.point_search.specs.Inner.Asked.{StretchReportable, StretchReported};

use crate::gather::{gather, passes};
use crate::{Finding, Part, Test};
use basics::Refusal;
use cells::Cell;
use point_records::Entry;
use replies::Count;
use slots::{Handle, Row};

// What is reported of an entry: the handle of its slot, its position, and the data and the tracker that stand in the slot's row.
pub fn finding_of(nums: &[Row], e: Entry) -> Finding
    requires { (e.slot < length nums.now) × (length nums.now ≤ most_slots) }
    ensures { result ≡ finding_of nums.now e }
{
    let row = nums[e.slot];
    Finding {
        handle: Handle {
            slot: e.slot as u32,
            version: row[0],
        },
        position: e.position,
        obj: row[2],
        tracker: point_records::tracker_in(row),
    }
}

// The places that every output has.
fn room(handles: usize, places: usize, objs: usize) -> usize
    ensures { result ≡ min handles (min places objs) }
{
    handles.min(places.min(objs))
}

// A finding goes to place k of the outputs.
fn put_finding(
    handles: &mut [[u32; 2]],
    places: &mut [[f32; 2]],
    objs: &mut [[u32; 2]],
    k: usize,
    f: Finding,
)
    requires { (k < length handles.old) × (k < length places.old) × (k < length objs.old) }
    ensures handles { handles.new ≡ set handles.old k (handle_row f) }
    ensures places { places.new ≡ set places.old k (place_row f) }
    ensures objs { objs.new ≡ set objs.old k (obj_row f) }
{
    handles[k] = [f.handle.slot, f.handle.version];
    places[k] = [f.position.x, f.position.y];
    objs[k] = [f.obj, f.tracker];
}

// Writes what is reported of the entries at the first r places found, from place 0 of the outputs on.
fn put_findings(
    nums: &[Row],
    pool: &[[u64; 2]],
    spots: &[[f32; 2]],
    found: &[u32],
    r: usize,
    handles: &mut [[u32; 2]],
    places: &mut [[f32; 2]],
    objs: &mut [[u32; 2]],
)
    requires { Reportable nums.now pool.now spots.now found.now r × RoomFor r (outputs handles.old places.old objs.old) }
    ensures { Reported nums.now pool.now spots.now (take r found.now) (outputs handles.old places.old objs.old) (outputs handles.new places.new objs.new) }
{
    for k in 0..r {
        let e = point_records::entry_at(pool, spots, found[k] as usize);
        put_finding(handles, places, objs, k, finding_of(nums, e));
    }
}

// Writes the findings of the first r places found, unless an output is too short: nothing is written before that is known.
fn report(
    nums: &[Row],
    pool: &[[u64; 2]],
    spots: &[[f32; 2]],
    found: &[u32],
    r: usize,
    handles: &mut [[u32; 2]],
    places: &mut [[f32; 2]],
    objs: &mut [[u32; 2]],
) -> Count
    requires { Reportable nums.now pool.now spots.now found.now r × (r ≤ most_slots) }
    ensures { findings result (outputs handles.new places.new objs.new) ≡ filled nums.now pool.now spots.now (take r found.now) (outputs handles.old places.old objs.old) }
{
    let count = r as u32;
    if room(handles.len(), places.len(), objs.len()) < r {
        // No `Result`: this refusal has the number found beside it.
        return Count {
            answer: Refusal::OutputTooShort.number(),
            count,
        };
    }
    put_findings(nums, pool, spots, found, r, handles, places, objs);
    Count { answer: 0, count }
}

// More places than `few` has room for: the collecting goes on in an array that holds them all. Its places go there, so that none is looked for twice.
fn fill_many(
    nums: &[Row],
    pool: &[[u64; 2]],
    spots: &[[f32; 2]],
    used: usize,
    a: Cell,
    b: Cell,
    test: Test,
    few: &[u32],
    part: Part,
    handles: &mut [[u32; 2]],
    places: &mut [[f32; 2]],
    objs: &mut [[u32; 2]],
) -> Count
    requires { Searchable a b nums.now pool.now spots.now used × (part.place ≤ used) × BegunBy a b test pool.now spots.now part few.now }
    ensures { findings result (outputs handles.new places.new objs.new) ≡ search_fills a b test nums.now pool.now spots.now used (outputs handles.old places.old objs.old) }
{
    let mut all: [u32; basics::MOST_SLOTS] = [0; basics::MOST_SLOTS];
    // No `copy_from_slice`: with it the other loops of a search are compiled otherwise, and one that has room for all takes 3 % more instructions.
    for k in 0..part.number {
        all[k] = few[k];
    }
    let whole = gather(pool, spots, used, a, b, test, part, &mut all);
    report(nums, pool, spots, &all, whole.number, handles, places, objs)
}

// An output has not room for all entries in use: the places are collected in one pass, in a small array as long as they fit, before any is written.
fn fill_few(
    nums: &[Row],
    pool: &[[u64; 2]],
    spots: &[[f32; 2]],
    used: usize,
    a: Cell,
    b: Cell,
    test: Test,
    handles: &mut [[u32; 2]],
    places: &mut [[f32; 2]],
    objs: &mut [[u32; 2]],
) -> Count
    requires { Searchable a b nums.now pool.now spots.now used }
    ensures { findings result (outputs handles.new places.new objs.new) ≡ search_fills a b test nums.now pool.now spots.now used (outputs handles.old places.old objs.old) }
{
    let mut few: [u32; 256] = [0; 256];
    let start = Part {
        number: 0,
        place: 0,
    };
    let part = gather(pool, spots, used, a, b, test, start, &mut few);
    if part.place == used {
        return report(nums, pool, spots, &few, part.number, handles, places, objs);
    }
    fill_many(
        nums, pool, spots, used, a, b, test, &few, part, handles, places, objs,
    )
}

// Writes what is reported of the entries of a stretch whose positions pass, from place n of the outputs on. Returns the place behind them.
fn put_run(
    nums: &[Row],
    pool: &[[u64; 2]],
    spots: &[[f32; 2]],
    from: usize,
    to: usize,
    test: Test,
    n: usize,
    handles: &mut [[u32; 2]],
    places: &mut [[f32; 2]],
    objs: &mut [[u32; 2]],
) -> usize
    requires { StretchReportable nums.now pool.now spots.now from to n (outputs handles.old places.old objs.old) }
    ensures { StretchReported test nums.now pool.now spots.now from to n (outputs handles.old places.old objs.old) result (outputs handles.new places.new objs.new) }
{
    let mut k = n;
    for j in from..to {
        let e = point_records::entry_at(pool, spots, j);
        if passes(test, e.position) {
            put_finding(handles, places, objs, k, finding_of(nums, e));
            k += 1;
        }
    }
    k
}

// The same of the whole range, from place 0 on.
fn put_range(
    nums: &[Row],
    pool: &[[u64; 2]],
    spots: &[[f32; 2]],
    used: usize,
    a: Cell,
    b: Cell,
    test: Test,
    handles: &mut [[u32; 2]],
    places: &mut [[f32; 2]],
    objs: &mut [[u32; 2]],
) -> usize
    requires { Searchable a b nums.now pool.now spots.now used × RoomFor used (outputs handles.old places.old objs.old) }
    ensures { SearchReported a b test nums.now pool.now spots.now used (outputs handles.old places.old objs.old) result (outputs handles.new places.new objs.new) }
{
    let low = cells::key_of(a);
    let high = cells::key_of(b);
    let mut n = 0;
    let mut i = 0;
    // No `for`: the walk goes on where a run ended.
    while i < used {
        let run = storage::next_run(pool, used, i, low, high);
        n = put_run(
            nums, pool, spots, run.from, run.to, test, n, handles, places, objs,
        );
        i = run.to;
    }
    n
}

// What a search writes and returns. Outputs with room for all entries in use are never too short: what is found is written as it is met.
pub fn fill(
    nums: &[Row],
    pool: &[[u64; 2]],
    spots: &[[f32; 2]],
    used: usize,
    a: Cell,
    b: Cell,
    test: Test,
    handles: &mut [[u32; 2]],
    places: &mut [[f32; 2]],
    objs: &mut [[u32; 2]],
) -> Count
    requires { Searchable a b nums.now pool.now spots.now used }
    ensures { findings result (outputs handles.new places.new objs.new) ≡ search_fills a b test nums.now pool.now spots.now used (outputs handles.old places.old objs.old) }
{
    if room(handles.len(), places.len(), objs.len()) < used {
        return fill_few(nums, pool, spots, used, a, b, test, handles, places, objs);
    }
    let count = put_range(nums, pool, spots, used, a, b, test, handles, places, objs) as u32;
    Count { answer: 0, count }
}
