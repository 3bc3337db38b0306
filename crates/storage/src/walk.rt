// The walk of a range of cells: the entries of one row of cells after those of another, each found by its place.
// A range goes from the key `low` of the lower left cell to the key `high` of the upper right one.
ghost use Rattle.std.specs.Prelude.{◌≤◌, ◌<◌, ◌≡◌};
ghost use Rattle.basics.specs.Words.{true, length, take};
ghost use Rattle.storage.specs.Inner.Keyed.{Sorted};
ghost use Rattle.storage.specs.Meaning.Entries.{row_key};
ghost use Rattle.storage.specs.Meaning.Packed.{first};
ghost use Rattle.storage.specs.Inner.Window.{in_range};
ghost use Rattle.storage.specs.Inner.Run.{NextKey, FirstIn, RunEnd, NextRun, ListEnd};
ghost use Rattle.cells.specs.Inner.Key.{column_of, line_of};

use crate::Run;
use crate::find::{key_at, lower_bound_from};

// The key itself if it is in the range; else the next one that may be.
fn next_key(key: u64, low: u64, high: u64) -> u64
    requires { key ≤ high }
    ensures { NextKey (column_of low) (line_of low) (column_of high) (line_of high) key result }
{
    let x = key % 4294967296;
    let y = key / 4294967296;
    if y < low / 4294967296 {
        return low;
    }
    let start = low % 4294967296;
    if x < start {
        return y * 4294967296 + start;
    }
    if high % 4294967296 < x {
        return (y + 1) * 4294967296 + start;
    }
    key
}

// The first place from `i` on whose entry is in the range, or `used`.
fn first_in(pool: &[[u64; 2]], used: usize, i: usize, low: u64, high: u64) -> usize
    requires { (i ≤ used) × (used ≤ length pool.now) × Sorted row_key (take used pool.now) }
    ensures { FirstIn pool.now used i (column_of low) (line_of low) (column_of high) (line_of high) result }
{
    let mut p = i;
    while p < used {
        let key = key_at(pool, p);
        if high < key {
            return used;
        }
        let next = next_key(key, low, high);
        if next == key {
            return p;
        }
        p = lower_bound_from(pool, p, used, next);
    }
    p
}

// The end of the entries from `from` on that are in the row of cells of that entry, and in the range.
fn run_end(pool: &[[u64; 2]], used: usize, from: usize, low: u64, high: u64) -> usize
    requires { (from < used) × (used ≤ length pool.now) × Sorted row_key (take used pool.now) × (in_range low high (first pool.now from) ≡ true) }
    ensures { RunEnd pool.now used from (column_of low) (line_of low) (column_of high) (line_of high) result }
{
    let last = key_at(pool, from) / 4294967296 * 4294967296 + high % 4294967296;
    for to in from + 1..used {
        if last < key_at(pool, to) {
            return to;
        }
    }
    used
}

// The next entries of the range from place `i` on: a stretch of the pool within one row of cells.
pub fn next_run(pool: &[[u64; 2]], used: usize, i: usize, low: u64, high: u64) -> Run
    requires { (i ≤ used) × (used ≤ length pool.now) × Sorted row_key (take used pool.now) }
    ensures { NextRun pool.now used i (column_of low) (line_of low) (column_of high) (line_of high) result }
{
    let from = first_in(pool, used, i, low, high);
    if from == used {
        return Run { from, to: used };
    }
    Run {
        from,
        to: run_end(pool, used, from, low, high),
    }
}

// The end of the entries of the key that stand from `from` on.
pub fn list_end(pool: &[[u64; 2]], from: usize, used: usize, key: u64) -> usize
    requires { (from ≤ used) × (used ≤ length pool.now) }
    ensures { ListEnd pool.now from used key result }
{
    for to in from..used {
        if key_at(pool, to) != key {
            return to;
        }
    }
    used
}
