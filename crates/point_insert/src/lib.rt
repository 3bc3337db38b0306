// Building a point grid, and inserting into it, which checks the tables first.
#![tactic(auto)]

mod building;
mod inserting;

pub use building::new;
pub use inserting::insert;
