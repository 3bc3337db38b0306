// A record of the trace answered: read, performed on the two grids, and its answer written.
#![tactic(auto)]

mod answering;

pub use answering::{answer_record, start};
