// The object records as one lent table, a record for each slot: the Rust's SlotMap of StoreObject. The columns that the core works on are
// lent as scratch: a call spreads the records into them, runs the core's call, and gathers the records again.
#![tactic(auto)]

ghost use Rattle.std.specs.Prelude.{◌<◌, ◌≡◌};
ghost use Rattle.basics.specs.Words.{length, get_or, set};
ghost use Rattle.point_records.specs.Meaning.Columns.{nums_of, reals_of, ints_of};
ghost use Rattle.records.specs.Inner.Spread.{no_record, row_or};
ghost use Rattle.records.specs.Meaning.Spread.{laid, gathered};

use point_records::Record;
use slots::Row;

// The row of floats that a record takes.
fn reals_of(r: Record) -> [f32; 4]
    ensures { result ≡ reals_of r }
{
    let q = point_records::pending_of(r.state, r.position);
    [r.position.x, r.position.y, q.x, q.y]
}

// The row of cell numbers that a record takes.
fn ints_of(r: Record) -> [i32; 4]
    ensures { result ≡ ints_of r }
{
    let d = point_records::target_of(r.state, r.cell);
    [r.cell.x, r.cell.y, d.x, d.y]
}

// ---- one record
pub fn record_at(records: &[Record], i: usize) -> Record
    requires { i < length records.now }
    ensures { result ≡ get_or records.now i no_record }
{
    records[i]
}

pub fn put_record(records: &mut [Record], i: usize, r: Record)
    requires { i < length records.old }
    ensures { records.new ≡ set records.old i r }
{
    records[i] = r;
}

// ---- the rows of a record; a column that has no such row stays
pub fn put_nums(nums: &mut [Row], i: usize, r: Record)
    ensures { nums.new ≡ set nums.old i (nums_of r) }
{
    if i < nums.len() {
        nums[i] = point_records::nums_of(r);
    }
}

pub fn put_reals(reals: &mut [[f32; 4]], i: usize, r: Record)
    ensures { reals.new ≡ set reals.old i (reals_of r) }
{
    if i < reals.len() {
        reals[i] = reals_of(r);
    }
}

pub fn put_ints(ints: &mut [[i32; 4]], i: usize, r: Record)
    ensures { ints.new ≡ set ints.old i (ints_of r) }
{
    if i < ints.len() {
        ints[i] = ints_of(r);
    }
}

// The record of row i of the columns; r where a column has no such row.
pub fn row_or(nums: &[Row], reals: &[[f32; 4]], ints: &[[i32; 4]], i: usize, r: Record) -> Record
    ensures { result ≡ row_or nums.now reals.now ints.now i r }
{
    if i < nums.len() && i < reals.len() && i < ints.len() {
        point_records::load(nums, reals, ints, i)
    } else {
        r
    }
}

// ---- all records
// Each column for itself: a record with no row in it is left out there, and a row with no record stays. The loops have names for the proofs.
pub fn spread(records: &[Record], nums: &mut [Row], reals: &mut [[f32; 4]], ints: &mut [[i32; 4]])
    ensures { (nums.new ≡ laid nums_of records.now nums.old)
        × (reals.new ≡ laid reals_of records.now reals.old)
        × (ints.new ≡ laid ints_of records.now ints.old) }
{
    'nums: for i in 0..records.len().min(nums.len()) {
        nums[i] = point_records::nums_of(records[i]);
    }
    'reals: for i in 0..records.len().min(reals.len()) {
        reals[i] = reals_of(records[i]);
    }
    'ints: for i in 0..records.len().min(ints.len()) {
        ints[i] = ints_of(records[i]);
    }
}

// A record of which a column has no row stays.
pub fn gather(records: &mut [Record], nums: &[Row], reals: &[[f32; 4]], ints: &[[i32; 4]])
    ensures { records.new ≡ gathered nums.now reals.now ints.now records.old }
{
    let rows = nums.len().min(reals.len()).min(ints.len());
    for i in 0..records.len().min(rows) {
        records[i] = point_records::load(nums, reals, ints, i);
    }
}
