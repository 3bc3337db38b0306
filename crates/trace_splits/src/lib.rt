// The input split into records at CR LF, a byte at a time, so that a record may straddle reads.
#![tactic(auto)]

ghost use Rattle.std.specs.Prelude.{◌≡◌, ◌∷◌, ◌++◌};
ghost use Rattle.basics.specs.Words.{ℕ, List, [], length, take};
ghost use Rattle.trace_splits.specs.Meaning.Sofar.{sofar, begun, feed};
ghost use Rattle.trace_splits.specs.Inner.Sofar.{fed, finished};

// How many bytes stand in the line since the last line end, and whether the last byte was a CR.
#[derive(Clone, Copy)]
pub struct Splitter {
    pub len: usize,
    pub cr: bool,
}

// Where a byte leads; and if it ended a record, how many of the line's first bytes are kept of it.
#[derive(Clone, Copy)]
pub struct Stepped {
    pub state: Splitter,
    pub ended: Option<usize>,
}

// A byte more in the line, if there is room.
fn push(line: &mut [u8], len: usize, byte: u8) -> usize
    ensures { take result line.new ≡ take (length line.old) (take len line.old ++ byte ∷ []) }
{
    if len < line.len() {
        line[len] = byte;
        return len + 1;
    }
    len
}

// Before the first byte, whatever the line holds.
pub fn start() -> Splitter
    ensures { (line : List ℕ) → sofar line result ≡ begun }
{
    Splitter { len: 0, cr: false }
}

pub fn step(line: &mut [u8], s: Splitter, byte: u8) -> Stepped
    ensures { fed line.new result ≡ feed (length line.old) (sofar line.old s) byte }
{
    // The LF of a CR LF: the record ends before the CR.
    if s.cr && byte == b'\n' {
        let n = s.len.min(line.len());
        return Stepped {
            state: start(),
            ended: Some(n.saturating_sub(1)),
        };
    }
    let len = push(line, s.len, byte);
    Stepped {
        state: Splitter {
            len,
            cr: byte == b'\r',
        },
        ended: None,
    }
}

// The input's end: what stands in the line is a record, if anything does.
pub fn finish(line: &[u8], s: Splitter) -> Stepped
    ensures { fed line.now result ≡ finished (length line.now) (sofar line.now s) }
{
    let n = s.len.min(line.len());
    let most = line.len().saturating_sub(1);
    Stepped {
        state: start(),
        ended: (n != 0).then_some(n.min(most)),
    }
}
