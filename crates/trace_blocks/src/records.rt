// The records of the input out of its blocks, so that a record may begin in one block and end in another.
ghost use Rattle.std.specs.Prelude.{◌≡◌};
ghost use Rattle.basics.specs.Words.{length, drop};
ghost use Rattle.trace_splits.specs.Meaning.Sofar.{sofar};
ghost use Rattle.trace_blocks.specs.Meaning.Next.{next_found, next_of};

use crate::Found;
use trace_splits::{Splitter, Stepped};

// From place `from` of the block up to the end of a record, or of the block.
pub fn next_record(line: &mut [u8], state: Splitter, block: &[u8], from: usize) -> Found
    ensures { next_found line.new result ≡ next_of (length line.old) (sofar line.old state) from (drop from block.now) }
{
    let mut so_far = state;
    for at in from..block.len() {
        let Stepped { state: next, ended } = trace_splits::step(line, so_far, block[at]);
        so_far = next;
        if ended.is_some() {
            return Found {
                state: next,
                ended,
                at: at + 1,
            };
        }
    }
    Found {
        state: so_far,
        ended: None,
        at: from.max(block.len()),
    }
}
