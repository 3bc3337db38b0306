// The blocks in which the trace program reads and writes: on to the next record of its input, with room for one answer more.
#![tactic(auto)]

ghost use Rattle.std.specs.Prelude.{◌+◌, ◌≤◌, ◌≡◌};
ghost use Rattle.trace_printing.specs.Meaning.Said.{longest};

use std::io::{Read, Stdin, Stdout, Write};
use trace_printing::LONGEST;
use trace_splits::Splitter;

mod records;

// Where a walk came to; and if a record ended there, how many of the line's first bytes are kept of it.
#[derive(Clone, Copy)]
struct Found {
    state: Splitter,
    ended: Option<usize>,
    at: usize,
}

// The program's input and output. The block has `have` bytes of the input, of which those before `at` are used, and the line what is kept of the
// record that they are in. The first `put` bytes of `out` are answers that are not written yet. It is open while there may be more to read.
#[derive(Drop)]
pub struct Blocks {
    stdin: Stdin,
    stdout: Stdout,
    state: Splitter,
    pub line: [u8; 130],
    block: [u8; 65536],
    have: usize,
    at: usize,
    pub out: [u8; 65536],
    pub put: usize,
    open: bool,
    ghost within: { (have ≤ 65536) × (put ≤ 65536) },
}

impl Blocks {
    pub fn new(stdin: Stdin, stdout: Stdout) -> Blocks
        ensures { result.put ≡ 0 }
    {
        Blocks {
            stdin,
            stdout,
            state: trace_splits::start(),
            line: [0; 130],
            block: [0; 65536],
            have: 0,
            at: 0,
            out: [0; 65536],
            put: 0,
            open: true,
        }
    }

    // The record has its answer, which ends before `put`.
    pub fn answered(&mut self, put: usize)
        requires { put ≤ 65536 }
    {
        self.put = put;
    }

    // On to the next record, which is so many of the line's first bytes, or to the end. A proved loop has to end, and nothing says that an input
    // does: it takes at most so many turns as no run uses up.
    pub fn next_record(&mut self) -> Option<usize>
        ensures { self.new.put + longest ≤ 65536 }
    {
        self.make_room();
        let mut ended = self.seek();
        for _ in 0..u64::MAX {
            if ended.is_some() || !self.open {
                break;
            }
            ended = self.read_on();
        }
        ended
    }

    // Room for one answer more; after the input's end, what is left is written.
    fn make_room(&mut self)
        ensures { self.new.put + longest ≤ 65536 }
    {
        if !self.open || self.out.len() < self.put + LONGEST {
            self.flush();
        }
    }

    // The answers so far are written. If nobody takes them there is nothing more to read.
    fn flush(&mut self)
        ensures { self.new.put ≡ 0 }
    {
        let taken = self.stdout.write_all(&self.out[..self.put]).is_ok();
        self.put = 0;
        self.open = taken && self.open;
    }

    // Up to the end of a record, or of the block.
    fn seek(&mut self) -> Option<usize>
        ensures { self.new.put ≡ self.old.put }
    {
        let Blocks {
            line,
            state,
            block,
            have,
            at,
            ..
        } = self;
        let found = records::next_record(line, *state, &block[..*have], *at);
        *state = found.state;
        *at = found.at;
        found.ended
    }

    // The next block is read, and sought through. What is written so far is not kept back while the program waits for more.
    fn read_on(&mut self) -> Option<usize>
        ensures { self.new.put ≡ 0 }
    {
        self.flush();
        if !self.open {
            return None;
        }
        // A read that fails is the input's end.
        self.have = self.stdin.read(&mut self.block).unwrap_or(0);
        self.at = 0;
        if self.have == 0 {
            return self.finish();
        }
        self.seek()
    }

    // The input has ended: what stands in the line is the last record.
    fn finish(&mut self) -> Option<usize>
        ensures { self.new.put ≡ self.old.put }
    {
        self.open = false;
        let last = trace_splits::finish(&self.line, self.state);
        self.state = last.state;
        last.ended
    }
}
