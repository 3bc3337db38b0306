// The table of the cells in use: a row (key, mark) for each, in the order of the keys.
ghost use Rattle.std.specs.Prelude.{◌≤◌, ◌<◌, ◌≡◌};
ghost use Rattle.basics.specs.Words.{length, take};
ghost use Rattle.basics.specs.Meaning.Says.{Says};
ghost use Rattle.storage.specs.Inner.Keyed.{Sorted};
ghost use Rattle.storage.specs.Meaning.Keyed.{under, written};
ghost use Rattle.storage.specs.Meaning.Entries.{row_key};
ghost use Rattle.storage.specs.Meaning.Packed.{first};
ghost use Rattle.storage.specs.Inner.Store.{Filled};
ghost use Rattle.storage.specs.Inner.Tables.{Rising};
ghost use Rattle.storage.specs.Meaning.CellTable.{entered, dropped, marked, fresh};
ghost use Rattle.storage.specs.Inner.Checked.{Begins};

use crate::find::{key_at, lower_bound};
use crate::gap::{close, open};

// Whether the row at a place is there and has the key.
fn is_key(rows: &[[u64; 2]], k: usize, at: usize, key: u64) -> bool
    requires { k ≤ length rows.now }
    ensures { Says result ((at < k) × (first rows.now at ≡ key)) }
{
    at < k && key_at(rows, at) == key
}

// Whether some row has the key.
pub fn has_key(rows: &[[u64; 2]], k: usize, key: u64) -> bool
    requires { (k ≤ length rows.now) × Sorted row_key (take k rows.now) }
    ensures { Says result (Filled (under row_key key (take k rows.now))) }
{
    is_key(rows, k, lower_bound(rows, k, key), key)
}

// The cell has a row: a new one has no mark. Returns how many rows there are.
pub fn enter_cell(cells: &mut [[u64; 2]], rows: usize, key: u64) -> usize
    requires { (rows < length cells.old) × Sorted row_key (take rows cells.old) }
    ensures { (result ≡ length (entered key (take rows cells.old))) × (cells.new ≡ written (entered key (take rows cells.old)) cells.old) }
{
    let at = lower_bound(cells, rows, key);
    if is_key(cells, rows, at, key) {
        return rows;
    }
    open(cells, at, rows, [key, 0]);
    rows + 1
}

// The cell has no row. Returns how many rows there are.
pub fn drop_cell(cells: &mut [[u64; 2]], rows: usize, key: u64) -> usize
    requires { (rows ≤ length cells.old) × Rising row_key (take rows cells.old) }
    ensures { (result ≡ length (dropped key (take rows cells.old))) × (cells.new ≡ written (dropped key (take rows cells.old)) cells.old) }
{
    let at = lower_bound(cells, rows, key);
    if is_key(cells, rows, at, key) {
        close(cells, at, rows);
        return rows - 1;
    }
    rows
}

// The cell's mark is set, if it has a row.
pub fn mark_cell(cells: &mut [[u64; 2]], rows: usize, key: u64)
    requires { (rows ≤ length cells.old) × Rising row_key (take rows cells.old) }
    ensures { cells.new ≡ written (marked key (take rows cells.old)) cells.old }
{
    let at = lower_bound(cells, rows, key);
    if is_key(cells, rows, at, key) {
        cells[at] = [key, 1];
    }
}

// Whether an entry begins a list.
fn begins(pool: &[[u64; 2]], j: usize) -> bool
    requires { j < length pool.now }
    ensures { Says result (Begins pool.now j) }
{
    j == 0 || key_at(pool, j - 1) != key_at(pool, j)
}

// The table of the pool, with no mark set. Returns how many rows there are.
pub fn rebuild(cells: &mut [[u64; 2]], pool: &[[u64; 2]], used: usize) -> usize
    requires { (used ≤ length pool.now) × (length (fresh (take used pool.now)) ≤ length cells.old) }
    ensures { (result ≡ length (fresh (take used pool.now))) × (cells.new ≡ written (fresh (take used pool.now)) cells.old) }
{
    let mut rows = 0;
    for j in 0..used {
        if begins(pool, j) {
            cells[rows] = [key_at(pool, j), 0];
            rows += 1;
        }
    }
    rows
}
