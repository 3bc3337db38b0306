// What calls return beside their tables and outputs: 0, or the number of a refusal and zeros.
#![tactic(auto)]

ghost use Rattle.std.specs.Prelude.{◌≡◌};
ghost use Rattle.replies.specs.Inner.Results.{reply_of, count_of, inserted_of};
ghost use Rattle.replies.specs.Meaning.Replies.{count};

use basics::Refusal;
use geometry::Position;
use slots::Handle;

// The data of an object beside the answer.
#[derive(Clone, Copy)]
pub struct Reply {
    pub answer: u32,
    pub obj: u32,
}

// A number beside the answer.
#[derive(Clone, Copy)]
pub struct Count {
    pub answer: u32,
    pub count: u32,
}

// The handle of a new object beside the answer.
#[derive(Clone, Copy)]
pub struct Inserted {
    pub answer: u32,
    pub handle: Handle,
}

// What is reported of the nearest point, with count 1, beside the answer; zeros where there is none.
#[derive(Clone, Copy)]
pub struct Nearest {
    pub answer: u32,
    pub count: u32,
    pub handle: Handle,
    pub position: Position,
    pub obj: u32,
    pub tracker: u32,
}

impl Count {
    // Where an output has fewer places than the n that were found.
    pub fn short(n: u32) -> Count
        ensures { result ≡ count 9 n }
    {
        Count {
            answer: Refusal::OutputTooShort.number(),
            count: n,
        }
    }
}

impl From<Result<u32, Refusal>> for Reply {
    ghost from_gives = { λ r given. given ≡ reply_of r };

    fn from(r: Result<u32, Refusal>) -> Reply {
        match r {
            Ok(obj) => Reply { answer: 0, obj },
            Err(why) => Reply {
                answer: why.number(),
                obj: 0,
            },
        }
    }
}

impl From<Result<u32, Refusal>> for Count {
    ghost from_gives = { λ r given. given ≡ count_of r };

    fn from(r: Result<u32, Refusal>) -> Count {
        match r {
            Ok(count) => Count { answer: 0, count },
            Err(why) => Count {
                answer: why.number(),
                count: 0,
            },
        }
    }
}

impl From<Result<Handle, Refusal>> for Inserted {
    ghost from_gives = { λ r given. given ≡ inserted_of r };

    fn from(r: Result<Handle, Refusal>) -> Inserted {
        match r {
            Ok(handle) => Inserted { answer: 0, handle },
            Err(why) => {
                let none = Handle {
                    slot: 0,
                    version: 0,
                };
                Inserted {
                    answer: why.number(),
                    handle: none,
                }
            }
        }
    }
}
