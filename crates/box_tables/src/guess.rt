// Whether a corner stands in a cell that is guessed, which takes no division.
ghost use Rattle.std.specs.Prelude.{◌≡◌};
ghost use Rattle.basics.specs.Words.{true, T, pos};
ghost use Rattle.geometry.specs.Meaning.Domain.{in_domain, aabb_in_domain};
ghost use Rattle.cells.specs.Meaning.Size.{SizeInDomain};
ghost use Rattle.cells.specs.Meaning.CellRule.{cell_of};
ghost use Rattle.box_tables.specs.Meaning.Tables.{low_cell, high_cell};

use cells::Cell;
use geometry::Aabb;

// 1 / size, worked out once, so that a guess multiplies; a little more, so that a coordinate on an edge is guessed into its cell, above zero and below.
pub fn rate_of(size: u64) -> f32
    requires { SizeInDomain size }
    ensures { T (in_domain result) }
{
    let r = 1.00000095367431640625 / ((size as i64) as f32);
    if geometry::in_domain(r) { r } else { 0.0 }
}

// The whole number that a pattern says when 12,582,912 was added to it: there the last digit is worth 1.
fn digits(b: u32) -> i32 {
    ((b % 2147483648) as i32) - 1262485504
}

// A guess at the cell number of a coordinate, by 1 / size: it is held to the edges of that cell, and nothing else rests on it.
pub fn guess(rate: f32, x: f32) -> i32
    requires { T (in_domain rate) × T (in_domain x) }
{
    let t = x * rate - 0.5 + 12582912.0;
    digits(t.to_bits())
}

// The cell number of a coordinate: the guess if it stands there, since that takes no division; else by the cell rule.
pub fn near_cell(size: u64, rate: f32, x: f32) -> i32
    requires { SizeInDomain size × T (in_domain x) × T (in_domain rate) }
    ensures { result ≡ cell_of (pos size) x }
{
    let c = guess(rate, x);
    if cells::stands(size, x, c) {
        c
    } else {
        cells::cell_id(size as i32, x)
    }
}

// Whether both corners of a box stand in cell c; the upper one is asked first, since it tells soonest that they do not.
pub fn one_cell(size: u64, b: Aabb, c: Cell) -> bool
    requires { SizeInDomain size × T (aabb_in_domain b) }
    ensures { result ≡ true → (low_cell size b ≡ c) × (high_cell size b ≡ c) }
{
    cells::stands(size, b.ur.x, c.x)
        && cells::stands(size, b.ll.x, c.x)
        && cells::stands(size, b.ur.y, c.y)
        && cells::stands(size, b.ll.y, c.y)
}
