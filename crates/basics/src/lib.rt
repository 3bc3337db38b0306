// The limits of the grids, and why a call is refused.
#![tactic(auto)]

ghost use Rattle.std.specs.Prelude.{◌≡◌};
ghost use Rattle.basics.specs.Meaning.Answers.{number_of};

// The most slots of a point grid, the most slots and entries of a box grid, and the most cells of a query's range and of one box.
pub const MOST_SLOTS: usize = 4096;

pub const MOST_BOXES: usize = 256;

pub const MOST_ENTRIES: usize = 8192;

pub const MOST_CELLS: u64 = 4096;

// Why a call is refused, by the numbers that C and the trace have. 5 and 10 are not here: no call gives 5, and 10 is a record that the trace cannot read.
#[derive(Clone, Copy, Debug, PartialEq, Eq)]
pub enum Refusal {
    // a new position for an object that is marked removed
    Removed = 1,
    // a size of cells outside its limits
    CellSize = 2,
    // tables of wrong lengths, or that hold no grid
    Tables = 3,
    NoUsableSlot = 4,
    // a coordinate or a radius outside the domain, or a box reversed
    OutsideDomain = 6,
    // a range or a box of more cells than the most
    TooManyCells = 7,
    // the pool of box entries would not hold them
    PoolFull = 8,
    // an output shorter than what it is to hold
    OutputTooShort = 9,
    NeverIssued = 11,
    // the handle's object has been taken out
    Gone = 12,
    // a number that no tracker has
    NoTracker = 13,
    // the object is another tracker's
    OtherTracker = 14,
}

impl Refusal {
    pub fn number(self) -> u32
        ensures { result ≡ number_of self }
    {
        self as u32
    }
}
