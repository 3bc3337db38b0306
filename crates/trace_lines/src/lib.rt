// A record of the trace read as a request: its word, then what the word asks for, field by field.
#![tactic(auto)]

ghost use Rattle.std.specs.Prelude.{◌≡◌, unwrap_or};
ghost use Rattle.basics.specs.Words.{take};
ghost use Rattle.trace_lines.specs.Meaning.Words.{point_changes, point_searches, box_lines, found_in, asked_by};
ghost use Rattle.trace_lines.specs.Meaning.Requests.{unreadable, request_of};

use slots::Handle;

mod arguments;
mod fields;

// The lines that change the points, those that search them, and those that change the boxes.
#[derive(Clone, Copy)]
pub enum PointChange {
    Ins,
    Pos,
    Rem,
    Now,
    Mnt,
}

#[derive(Clone, Copy)]
pub enum PointSearch {
    Cir,
    Rec,
    Cel,
    Near,
}

#[derive(Clone, Copy)]
pub enum BoxChange {
    Bin,
    Bset,
    Brem,
}

// What a line is for, by grid and kind. One line searches the boxes, and `cell` is for both grids.
#[derive(Clone, Copy)]
pub enum Line {
    Cell,
    PointChange(PointChange),
    PointSearch(PointSearch),
    BoxChange(BoxChange),
    BoxSearch,
    Unreadable,
}

// What a word asks for: slot and version, so many places, a radius, one more number, a tracker; in this order.
#[derive(Clone, Copy)]
pub struct Asks {
    pub line: Line,
    pub handle: bool,
    pub places: u32,
    pub radius: bool,
    pub number: bool,
    pub tracker: bool,
}

// A place by its counts of sixteenths.
#[derive(Clone, Copy)]
pub struct Spot {
    pub x: i32,
    pub y: i32,
}

// What a request has where no handle is asked for, and where no place is.
const NOBODY: Handle = Handle {
    slot: 0,
    version: 0,
};

const NO_SPOT: Spot = Spot { x: 0, y: 0 };

// What is not asked for is zero. The number is n, the tracker's number k.
#[derive(Clone, Copy)]
pub struct Request {
    pub line: Line,
    pub h: Handle,
    pub p: Spot,
    pub q: Spot,
    pub far: i32,
    pub n: u32,
    pub k: u32,
}

// Nothing is asked for.
const NOTHING: Asks = Asks {
    line: Line::Unreadable,
    handle: false,
    places: 0,
    radius: false,
    number: false,
    tracker: false,
};

// The table of words, by grid and kind; a word that is not here asks for what t says.
#[tactic(auto, using(crate::proofs::laws::WordLaws::same_reads, std::proofs::lemmas::Bool::Decides::nat_tests), unfolding(crate::specs::Meaning::Words::row_says))]
fn point_changes(word: &[u8], t: Asks) -> Asks
    ensures { result ≡ found_in point_changes word.now t }
{
    match word {
        b"ins" => Asks {
            line: Line::PointChange(PointChange::Ins),
            places: 1,
            number: true,
            tracker: true,
            ..NOTHING
        },
        b"pos" => Asks {
            line: Line::PointChange(PointChange::Pos),
            handle: true,
            places: 1,
            tracker: true,
            ..NOTHING
        },
        b"rem" => Asks {
            line: Line::PointChange(PointChange::Rem),
            handle: true,
            tracker: true,
            ..NOTHING
        },
        b"now" => Asks {
            line: Line::PointChange(PointChange::Now),
            handle: true,
            tracker: true,
            ..NOTHING
        },
        b"mnt" => Asks {
            line: Line::PointChange(PointChange::Mnt),
            ..NOTHING
        },
        _ => t,
    }
}

#[tactic(auto, using(crate::proofs::laws::WordLaws::same_reads, std::proofs::lemmas::Bool::Decides::nat_tests), unfolding(crate::specs::Meaning::Words::row_says))]
fn point_searches(word: &[u8], t: Asks) -> Asks
    ensures { result ≡ found_in point_searches word.now t }
{
    match word {
        b"cir" => Asks {
            line: Line::PointSearch(PointSearch::Cir),
            places: 1,
            radius: true,
            ..NOTHING
        },
        b"rec" => Asks {
            line: Line::PointSearch(PointSearch::Rec),
            places: 2,
            ..NOTHING
        },
        b"cel" => Asks {
            line: Line::PointSearch(PointSearch::Cel),
            places: 2,
            ..NOTHING
        },
        b"near" => Asks {
            line: Line::PointSearch(PointSearch::Near),
            places: 1,
            radius: true,
            ..NOTHING
        },
        _ => t,
    }
}

#[tactic(auto, using(crate::proofs::laws::WordLaws::same_reads, std::proofs::lemmas::Bool::Decides::nat_tests), unfolding(crate::specs::Meaning::Words::row_says))]
fn box_lines(word: &[u8], t: Asks) -> Asks
    ensures { result ≡ found_in box_lines word.now t }
{
    match word {
        b"bin" => Asks {
            line: Line::BoxChange(BoxChange::Bin),
            places: 2,
            number: true,
            ..NOTHING
        },
        b"bset" => Asks {
            line: Line::BoxChange(BoxChange::Bset),
            handle: true,
            places: 2,
            ..NOTHING
        },
        b"brem" => Asks {
            line: Line::BoxChange(BoxChange::Brem),
            handle: true,
            ..NOTHING
        },
        b"bqry" => Asks {
            line: Line::BoxSearch,
            places: 2,
            ..NOTHING
        },
        _ => t,
    }
}

// What a word asks for; any other word is unreadable and asks for nothing.
fn asked(word: &[u8]) -> Asks
    ensures { result ≡ asked_by word.now }
{
    match word {
        b"cell" => Asks {
            line: Line::Cell,
            number: true,
            ..NOTHING
        },
        _ => point_changes(word, point_searches(word, box_lines(word, NOTHING))),
    }
}

// The request of an unreadable record.
const UNREADABLE: Request = Request {
    line: Line::Unreadable,
    h: NOBODY,
    p: NO_SPOT,
    q: NO_SPOT,
    far: 0,
    n: 0,
    k: 0,
};

// The request of a record, if it is readable: not too long, a word, what the word asks for, and no field more.
#[tactic(auto, using(crate::proofs::laws::InputLaws::too_long, crate::proofs::laws::InputLaws::not_long), unfolding(crate::specs::Meaning::Requests::of_fields))]
fn read_record(b: &[u8]) -> Option<Request>
    ensures { unwrap_or result unreadable ≡ request_of b.now }
{
    if 128 < b.len() {
        return None;
    }
    let (word, at) = fields::field_at(b, 0)?;
    arguments::arguments(asked(word), b, at)
}

// The record that is the first `len` bytes of the line.
pub fn read(line: &[u8], len: usize) -> Request
    ensures { result ≡ request_of (take len line.now) }
{
    read_record(&line[..len.min(line.len())]).unwrap_or(UNREADABLE)
}
