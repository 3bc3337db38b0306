// The library for C and Rust: every public call of both grids and of the encoder's layer, under a C name, over number tables. A slice is a pointer, then its
// length in elements; what is returned is a struct of numbers. No call has a `requires`, since nothing checks a foreign caller's: each refuses by number.
#![tactic(auto)]

ghost use Rattle.std.specs.Prelude.{◌≡◌};
ghost use Rattle.exports.specs.Meaning.Told.{told_inserted, told_reply, told_count};

mod box_calls;
mod encoder_calls;
mod point_calls;

#[repr(C)]
#[derive(Clone, Copy)]
pub struct Inserted {
    pub answer: u32,
    pub slot: u32,
    pub version: u32,
}

// The data of an object beside the answer.
#[repr(C)]
#[derive(Clone, Copy)]
pub struct Reply {
    pub answer: u32,
    pub obj: u32,
}

#[repr(C)]
#[derive(Clone, Copy)]
pub struct Count {
    pub answer: u32,
    pub count: u32,
}

#[repr(C)]
#[derive(Clone, Copy)]
pub struct BatchReply {
    pub answer: u32,
    pub count: u64,
}

#[repr(C)]
#[derive(Clone, Copy)]
pub struct Maintained {
    pub answer: u32,
    pub moved: u32,
    pub removed: u32,
}

#[repr(C)]
#[derive(Clone, Copy)]
pub struct PointGot {
    pub answer: u32,
    pub x: f32,
    pub y: f32,
    pub obj: u32,
    pub tracker: u32,
}

// What is reported of the nearest point, with count 1, beside the answer; zeros where there is none.
#[repr(C)]
#[derive(Clone, Copy)]
pub struct Nearest {
    pub answer: u32,
    pub count: u32,
    pub slot: u32,
    pub version: u32,
    pub x: f32,
    pub y: f32,
    pub obj: u32,
    pub tracker: u32,
}

#[repr(C)]
#[derive(Clone, Copy)]
pub struct BoxGot {
    pub answer: u32,
    pub left: f32,
    pub low: f32,
    pub right: f32,
    pub high: f32,
    pub obj: u32,
}

impl From<replies::Inserted> for Inserted {
    ghost from_gives = { λ r given. told_inserted given ≡ r };

    fn from(r: replies::Inserted) -> Inserted {
        Inserted {
            answer: r.answer,
            slot: r.handle.slot,
            version: r.handle.version,
        }
    }
}

impl From<replies::Reply> for Reply {
    ghost from_gives = { λ r given. told_reply given ≡ r };

    fn from(r: replies::Reply) -> Reply {
        Reply {
            answer: r.answer,
            obj: r.obj,
        }
    }
}

impl From<replies::Count> for Count {
    ghost from_gives = { λ r given. told_count given ≡ r };

    fn from(r: replies::Count) -> Count {
        Count {
            answer: r.answer,
            count: r.count,
        }
    }
}
