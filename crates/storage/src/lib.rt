// The cell storage: find, append, take out, mark, walk. The pool is kept sorted by cell key.
#![tactic(auto)]

mod find;
mod gap;
mod pool;
mod table;
mod walk;

pub use find::{key_at, lower_bound, lower_bound_from, upper_bound};
pub use pool::{append_entry, append_row, find_item, take_entry};
pub use table::{drop_cell, enter_cell, has_key, mark_cell, rebuild};
pub use walk::{list_end, next_run};

// Places of a table, from one up to another that is not counted. No `Range`: nothing goes over it, and both ends are asked for by name.
#[derive(Clone, Copy)]
pub struct Run {
    pub from: usize,
    pub to: usize,
}
