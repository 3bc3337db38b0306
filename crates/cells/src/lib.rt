// The cell of a coordinate and of a position, ranges of cells and the keys of cells: the arithmetic of src/storage.rs.
#![tactic(auto)]

ghost use Rattle.std.specs.Prelude.{◌+◌, ◌*◌, ◌<◌, ◌≤◌, ◌≡◌, ◌<ℤ◌};
ghost use Rattle.basics.specs.Words.{T, pos};
ghost use Rattle.std.specs.Int.Signed.{mag};
ghost use Rattle.std.specs.Float.{binary32};
ghost use Rattle.std.specs.Float.Ieee.{of_int};
ghost use Rattle.basics.specs.Meaning.Says.{Says};
ghost use Rattle.geometry.specs.Meaning.Domain.{within, in_domain};
ghost use Rattle.cells.specs.Inner.Cut.{cut_bits};
ghost use Rattle.cells.specs.Meaning.Size.{SizeInDomain};
ghost use Rattle.cells.specs.Meaning.CellRule.{whole_of, cell_of, cell_at};
ghost use Rattle.cells.specs.Inner.CellRule.{Reached};
ghost use Rattle.cells.specs.Inner.Edge;
ghost use Rattle.cells.specs.Inner.Span.{in_span, Spans, LastBelow, FirstFrom};
ghost use Rattle.cells.specs.Inner.Numbers.{Near};
ghost use Rattle.cells.specs.Meaning.Range.{count_from, cells_in};
ghost use Rattle.cells.specs.Meaning.Key.{upward, key_of};
ghost use Rattle.cells.specs.Inner.Key.{downward, column_of, line_of, cell_of_key};

use geometry::Position;

#[derive(Clone, Copy, Debug, PartialEq, Eq)]
pub struct Cell {
    pub x: i32,
    pub y: i32,
}

// The coordinates from lo to hi.
#[derive(Clone, Copy)]
pub struct Span {
    pub lo: f32,
    pub hi: f32,
}

// The fraction is shifted out of a number whose exponent is not above this.
const UNIT: u32 = 150;

// The magnitude, without its fraction and at most 2 ^ 31, of the f32 with the pattern b.
fn cut(b: u32) -> u32
    ensures { result ≡ cut_bits b }
{
    let e = b / 8388608 % 256;
    let m = b % 8388608 + 8388608;
    if e < 127 {
        return 0;
    }
    if e > 157 {
        return 2147483648;
    }
    // The number is m * 2 ^ (e - 150).
    if e <= UNIT {
        m >> (UNIT - e)
    } else {
        m << (e - 150)
    }
}

// x without its fraction, toward zero: Rust's `x as i32`.
pub fn whole(x: f32) -> i32
    ensures { result ≡ whole_of x }
{
    if x != x {
        return 0;
    }
    let b = x.to_bits();
    let n = cut(b);
    if b < 2147483648 {
        if n < 2147483648 { n as i32 } else { i32::MAX }
    } else if n == 0 {
        0
    } else {
        -1 - ((n - 1) as i32)
    }
}

pub fn cell_id(size: i32, x: f32) -> i32
    requires pos_bound { pos 0 <ℤ size }
    requires t { T (within 21 x) }
    ensures { result ≡ cell_of size x }
{
    let q = whole(x) / size;
    if x < 0.0 { q - 1 } else { q }
}

pub fn size_in_domain(size: u64) -> bool
    ensures { Says result (SizeInDomain size) }
{
    1 <= size && size <= 1048576
}

// The edges between a cell and zero: as many below cell 0 + k as above cell -1 - k.
fn steps(c: i32) -> u64
    ensures { result ≡ mag c }
{
    let z = c as i64;
    if z < 0 { (-1 - z) as u64 } else { z as u64 }
}

// A whole number as the binary32 that it is.
fn exactly(n: u64) -> f32
    requires { n ≤ 16777216 }
    ensures { result ≡ of_int binary32 (pos n) }
{
    (n as i64) as f32
}

// Edge c of the cells, c times the size: cell c lies between it and the next.
pub fn edge(size: u64, c: i32) -> f32
    requires { (0 < size) × (mag c * size + size ≤ 16777216) }
    ensures { result ≡ Edge.edge size c }
{
    let near = steps(c) * size;
    if c < 0 {
        return -exactly(near + size);
    }
    exactly(near)
}

// Whether a coordinate of the domain stands in cell c, by comparison with the edges of the cell: nothing is divided.
pub fn stands(size: u64, x: f32, c: i32) -> bool
    requires { SizeInDomain size × T (in_domain x) }
    ensures { Says result (cell_of (pos size) x ≡ c) }
{
    let near = steps(c) * size;
    if 1048576 < near {
        return false;
    }
    let low = exactly(near);
    let high = exactly(near + size);
    if c < 0 {
        let y = -x;
        return ((low <= y) & (y < high)) & (0.0 < y);
    }
    (low <= x) & (x < high)
}

// The greatest binary32 number of the domain below n.
fn last_below(n: u64) -> f32
    requires { 0 < n }
    ensures { LastBelow n result }
{
    if 1048576 < n {
        return 1048576.0;
    }
    let v = exactly(n);
    f32::from_bits(v.to_bits() - 1)
}

// The least binary32 number above zero that is not below n.
fn first_from(n: u64) -> f32
    requires { n ≤ 1048576 }
    ensures { FirstFrom n result }
{
    if n == 0 {
        return f32::from_bits(1);
    }
    exactly(n)
}

// The least and the greatest coordinate of cell c, so that no cell need be worked out for the coordinates between; 1 and 0 if it has none.
pub fn span_of(size: u64, c: i32) -> Span
    requires { SizeInDomain size }
    ensures { Spans size c result.lo result.hi }
{
    let near = steps(c) * size;
    if 1048576 < near {
        return Span { lo: 1.0, hi: 0.0 };
    }
    let last = last_below(near + size);
    if c < 0 {
        let first = first_from(near);
        return Span {
            lo: -last,
            hi: -first,
        };
    }
    let first = exactly(near);
    Span {
        lo: first,
        hi: last,
    }
}

pub fn in_span(s: Span, x: f32) -> bool
    ensures { result ≡ in_span s.lo s.hi x }
{
    (s.lo <= x) & (x <= s.hi)
}

pub fn cell_at(size: u64, p: Position) -> Cell
    requires size_in_domain { SizeInDomain size }
    requires reached { Reached p }
    ensures { result ≡ cell_at size p }
{
    let s = size as i32;
    Cell {
        x: cell_id(s, p.x),
        y: cell_id(s, p.y),
    }
}

// A cell number counted from the least.
pub fn up_from_least(x: i32) -> u64
    ensures { result ≡ upward x }
{
    ((x as i64) + 2147483648) as u64
}

// How many whole numbers there are from a to b, both counted.
fn count_from(a: i32, b: i32) -> u64
    ensures { result ≡ count_from a b }
{
    let low = up_from_least(a);
    let high = up_from_least(b);
    if high < low { 0 } else { high - low + 1 }
}

// The number of cells of the range from a to b; the product fits, since what a call asks for is Near.
#[tactic(auto, unfolding(crate::specs::Meaning::Range::cells_in))]
pub fn cells_in(a: Cell, b: Cell) -> u64
    requires { Near a × Near b }
    ensures { result ≡ cells_in a b }
{
    count_from(a.x, b.x) * count_from(a.y, b.y)
}

#[tactic(auto, unfolding(crate::specs::Meaning::Key::key_of))]
pub fn key_of(c: Cell) -> u64
    ensures { result ≡ key_of c }
{
    up_from_least(c.y) * 4294967296 + up_from_least(c.x)
}

pub fn column_of(key: u64) -> u64
    ensures { result ≡ column_of key }
{
    key % 4294967296
}

pub fn row_of(key: u64) -> u64
    ensures { result ≡ line_of key }
{
    key / 4294967296
}

fn down_from_least(n: u64) -> i32
    requires { n < 4294967296 }
    ensures { result ≡ downward n }
{
    ((n as i64) - 2147483648) as i32
}

#[tactic(auto, unfolding(crate::specs::Inner::Key::cell_of_key))]
pub fn cell_of_key(key: u64) -> Cell
    ensures { result ≡ cell_of_key key }
{
    Cell {
        x: down_from_least(column_of(key)),
        y: down_from_least(row_of(key)),
    }
}
