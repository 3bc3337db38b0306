// An answer as a record of the trace: decimal numbers with commas between them, CR LF at the end.
#![tactic(auto)]

ghost use Rattle.std.specs.Prelude.{◌+◌, ◌*◌, ◌≤◌, ◌++◌};
ghost use Rattle.basics.specs.Words.{length};
ghost use Rattle.trace_printing.specs.Meaning.Said.{number_field, coordinate_field, pair_text, place_text, corners_text, points_text, boxes_text};
ghost use Rattle.trace_printing.specs.Meaning.Said.{said_text, record_text, longest};
ghost use Rattle.trace_printing.specs.Inner.Said.{longest_said, Told};
ghost use Rattle.trace_printing.specs.Inner.Puts.{Puts};
ghost use Rattle.trace_decimals.specs.Meaning.Text.{decimal};

// No record of an answer is longer: 256 findings with six numbers each need 17,431 bytes at most.
pub const LONGEST: usize = 18000;

// What a request got: its answer, and after a 0 what there is to tell. Points and Boxes are findings, so many of them.
#[derive(Clone, Copy)]
pub enum Said {
    Refused(u32),
    Done,
    One(u32),
    Two(u32, u32),
    Points(u32),
    Boxes(u32),
}

fn put_first(out: &mut [u8], at: usize, n: u32) -> usize
    requires { at + 10 ≤ length out.old }
    ensures { Puts out.old at out.new result (decimal n) 10 }
{
    trace_decimals::put_number(out, at, n)
}

// A number behind a comma.
fn put_number(out: &mut [u8], at: usize, n: u32) -> usize
    requires { at + 11 ≤ length out.old }
    ensures { Puts out.old at out.new result (number_field n) 11 }
{
    let next = trace_decimals::put_byte(out, at, b',');
    trace_decimals::put_number(out, next, n)
}

// A coordinate behind a comma, as a count of sixteenths.
fn put_coordinate(out: &mut [u8], at: usize, x: f32) -> usize
    requires { at + 12 ≤ length out.old }
    ensures { Puts out.old at out.new result (coordinate_field x) 12 }
{
    let k = trace_sixteenths::sixteenths(x);
    let next = trace_decimals::put_byte(out, at, b',');
    trace_decimals::put_count(out, next, k)
}

// Slot and version, or data and tracker.
fn put_pair(out: &mut [u8], at: usize, h: [u32; 2]) -> usize
    requires { at + 22 ≤ length out.old }
    ensures { Puts out.old at out.new result (pair_text h) 22 }
{
    let next = put_number(out, at, h[0]);
    put_number(out, next, h[1])
}

fn put_corner(out: &mut [u8], at: usize, x: f32, y: f32) -> usize
    requires { at + 24 ≤ length out.old }
    ensures { Puts out.old at out.new result (coordinate_field x ++ coordinate_field y) 24 }
{
    let next = put_coordinate(out, at, x);
    put_coordinate(out, next, y)
}

fn put_corners(out: &mut [u8], at: usize, b: [f32; 4]) -> usize
    requires { at + 48 ≤ length out.old }
    ensures { Puts out.old at out.new result (corners_text b) 48 }
{
    let next = put_corner(out, at, b[0], b[1]);
    put_corner(out, next, b[2], b[3])
}

fn put_point(out: &mut [u8], at: usize, h: [u32; 2], p: [f32; 2], d: [u32; 2]) -> usize
    requires { at + 68 ≤ length out.old }
    ensures { Puts out.old at out.new result (pair_text h ++ (place_text p ++ pair_text d)) 68 }
{
    let next = put_pair(out, at, h);
    let end = put_corner(out, next, p[0], p[1]);
    put_pair(out, end, d)
}

fn put_box(out: &mut [u8], at: usize, h: [u32; 2], b: [f32; 4]) -> usize
    requires { at + 70 ≤ length out.old }
    ensures { Puts out.old at out.new result (pair_text h ++ corners_text b) 70 }
{
    let next = put_pair(out, at, h);
    put_corners(out, next, b)
}

// The first n findings of a point query.
fn put_points(
    out: &mut [u8],
    at: usize,
    handles: &[[u32; 2]],
    places: &[[f32; 2]],
    objs: &[[u32; 2]],
    n: usize,
) -> usize
    requires { (n ≤ length handles.now) × (n ≤ length places.now) × (n ≤ length objs.now) × (at + n * 68 ≤ length out.old) }
    ensures { Puts out.old at out.new result (points_text handles.now places.now objs.now n) (n * 68) }
{
    let mut next = at;
    for i in 0..n {
        next = put_point(out, next, handles[i], places[i], objs[i]);
    }
    next
}

// The first n findings of the box query.
fn put_boxes(out: &mut [u8], at: usize, handles: &[[u32; 2]], boxes: &[[f32; 4]], n: usize) -> usize
    requires { (n ≤ length handles.now) × (n ≤ length boxes.now) × (at + n * 70 ≤ length out.old) }
    ensures { Puts out.old at out.new result (boxes_text handles.now boxes.now n) (n * 70) }
{
    let mut next = at;
    for i in 0..n {
        next = put_box(out, next, handles[i], boxes[i]);
    }
    next
}

// 0 and a number.
fn put_one(out: &mut [u8], at: usize, x: u32) -> usize
    requires { at + 21 ≤ length out.old }
    ensures { Puts out.old at out.new result (decimal 0 ++ number_field x) 21 }
{
    let next = put_first(out, at, 0);
    put_number(out, next, x)
}

fn put_said(
    out: &mut [u8],
    at: usize,
    said: Said,
    handles: &[[u32; 2]],
    places: &[[f32; 2]],
    boxes: &[[f32; 4]],
    objs: &[[u32; 2]],
) -> usize
    requires { Told said (length handles.now) (length places.now) (length boxes.now) (length objs.now) × (at + longest_said ≤ length out.old) }
    ensures { Puts out.old at out.new result (said_text said handles.now places.now boxes.now objs.now) longest_said }
{
    match said {
        Said::Refused(a) => put_first(out, at, a),
        Said::Done => put_first(out, at, 0),
        Said::One(x) => put_one(out, at, x),
        Said::Two(x, y) => {
            let next = put_one(out, at, x);
            put_number(out, next, y)
        }
        Said::Points(n) => {
            let next = put_one(out, at, n);
            put_points(out, next, handles, places, objs, n as usize)
        }
        Said::Boxes(n) => {
            let next = put_one(out, at, n);
            put_boxes(out, next, handles, boxes, n as usize)
        }
    }
}

// The record of an answer, from place `at` on: where the next one goes.
pub fn put_record(
    out: &mut [u8],
    at: usize,
    said: Said,
    handles: &[[u32; 2]],
    places: &[[f32; 2]],
    boxes: &[[f32; 4]],
    objs: &[[u32; 2]],
) -> usize
    requires { Told said (length handles.now) (length places.now) (length boxes.now) (length objs.now) × (at + longest ≤ length out.old) }
    ensures { Puts out.old at out.new result (record_text said handles.now places.now boxes.now objs.now) longest }
{
    let next = put_said(out, at, said, handles, places, boxes, objs);
    let end = trace_decimals::put_byte(out, next, b'\r');
    trace_decimals::put_byte(out, end, b'\n')
}
