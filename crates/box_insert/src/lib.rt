// Building a box grid, and inserting into it.
#![tactic(auto)]

mod building;
mod inserting;

pub use building::new;
pub use inserting::{insert, store_box};
