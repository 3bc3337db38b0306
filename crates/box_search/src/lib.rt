// The walks of the box grid's queries: the slots of a range are gathered, those that the query box intersects are kept, and what was found
// is written into the outputs.
#![tactic(auto)]

mod gathering;
mod keeping;
mod put;

pub use gathering::gather;
pub use keeping::keep;
pub use put::{put_findings, put_handles};
