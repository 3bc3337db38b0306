// The blocks of the frame: which block a cell is, the key of a block's cell, and the box from corner to corner.
#![tactic(auto)]

ghost use Rattle.std.specs.Prelude.{◌≤◌, ◌<◌, ◌≡◌, MatchOption};
ghost use Rattle.cells.specs.Meaning.Key.{key_of};
ghost use Rattle.encoder_blocks.specs.Meaning.Blocks.{columns, lines, blocks, block_box};
ghost use Rattle.encoder_blocks.specs.Meaning.Blocks;
ghost use Rattle.encoder_blocks.specs.Inner.Places;
ghost use Rattle.encoder_blocks.specs.Inner.Places.{block_of};

use geometry::{Aabb, Position};

// The side of a block, the blocks of a row, and all blocks.
pub const SIDE: u64 = 16;

pub const COLUMNS: usize = 80;

pub const BLOCKS: usize = 3600;

// The number that a key has for row or column 0.
const NOUGHT: u64 = 2147483648;

// Whether a number of a key is one of the first n that are not below zero.
fn among(n: u64, x: u64) -> bool
    requires { n ≤ columns }
    ensures { result ≡ Places.among n x }
{
    NOUGHT <= x && x < NOUGHT + n
}

// The place in the map of the block whose cell has this key, if the frame has such a block.
#[tactic(auto, unfolding(crate::specs::Inner::Places::block_of))]
pub fn block_of(key: u64) -> Option<usize>
    ensures { MatchOption result (block_of key ≡ blocks) (λ k. (k ≡ block_of key) × (k < blocks)) }
{
    let x = cells::column_of(key);
    let y = cells::row_of(key);
    if among(80, x) && among(45, y) {
        return Some(((y - NOUGHT) * 80 + (x - NOUGHT)) as usize);
    }
    None
}

// The key of cell (i, j).
#[tactic(auto, unfolding(cells::specs::Meaning::Key::key_of))]
pub fn cell_key(i: usize, j: usize) -> u64
    requires { (i ≤ columns) × (j ≤ lines) }
    ensures { result ≡ key_of (Places.cell i j) }
{
    (j as u64 + NOUGHT) * 4294967296 + (i as u64 + NOUGHT)
}

// Where column or row n begins.
fn begins(n: usize) -> f32
    requires { n ≤ columns }
    ensures { result ≡ Blocks.begins n }
{
    cells::edge(SIDE, n as i32)
}

// The box from corner to corner of block (i, j).
pub fn block_box(i: usize, j: usize) -> Aabb
    requires { (i < columns) × (j < lines) }
    ensures { result ≡ block_box i j }
{
    let ll = Position {
        x: begins(i),
        y: begins(j),
    };
    let ur = Position {
        x: begins(i + 1),
        y: begins(j + 1),
    };
    Aabb { ll, ur }
}
