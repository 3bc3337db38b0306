// The tables of a box grid, and the check that they hold one.
#![tactic(auto)]

ghost use Rattle.std.specs.Prelude.{◌≡◌};
ghost use Rattle.box_tables.specs.Meaning.Decide.{holds};
ghost use Rattle.box_tables.specs.Meaning.Tables.{tables};

mod guess;
mod lengths;
mod pass;
mod slot_ways;
mod spans;
mod way;

use cells::Cell;
use lengths::counts_ok;
pub use lengths::lengths_ok;
use pass::pool_ok;
use slot_ways::{Ways, slots_ok};
use slots::Row;
pub use spans::{covers, item_of, load_box, span_of};

// An item for each slot and mark.
const ITEMS: usize = 512;

// The range of cells that a box covers: its corner cells, and how many cells there are.
#[derive(Clone, Copy)]
pub struct Span {
    pub low: Cell,
    pub high: Cell,
    pub cells: u64,
}

// Whether the tables hold a grid.
pub fn check(nums: &[Row], reals: &[[f32; 4]], map: &[u64], pool: &[[u64; 2]]) -> bool
    ensures { result ≡ holds (tables nums.now reals.now map.now pool.now) }
{
    if !lengths_ok(nums.len(), reals.len(), map.len(), pool.len()) {
        return false;
    }
    let used = map[1] as usize;
    if !counts_ok(map[0], used, pool.len()) {
        return false;
    }
    let mut ways = Ways {
        nexts: [0; ITEMS],
        stops: [0; ITEMS],
        jumps: [0; ITEMS],
        ends: [0; ITEMS],
    };
    ways.jumps.fill(1);
    slots_ok(nums, reals, map, &mut ways) && pool_ok(pool, used, &mut ways)
}
