// One pass over the blocks of the frame: a block whose box intersects a box of its four cells gets 2, unless its byte is 3. The windows of the blocks are
// found by two places of the sorted pool that only go onward.
#![tactic(auto)]

ghost use Rattle.std.specs.Prelude.{◌≤◌, ◌<◌, ◌≡◌};
ghost use Rattle.basics.specs.Words.{suc, length, take};
ghost use Rattle.cells.specs.Meaning.Key.{key_of};
ghost use Rattle.storage.specs.Inner.Keyed.{Sorted};
ghost use Rattle.storage.specs.Meaning.Entries.{row_key};
ghost use Rattle.storage.specs.Meaning.Keyed.{below};
ghost use Rattle.encoder_blocks.specs.Meaning.Blocks.{columns, lines, blocks};
ghost use Rattle.encoder_blocks.specs.Inner.Places.{cell};
ghost use Rattle.encoder_boxes.specs.Inner.Windows;
ghost use Rattle.encoder_boxes.specs.Inner.Windows.{Stocked, met_from, Overlaid};

use encoder_blocks::{BLOCKS, COLUMNS, block_box, cell_key};
use geometry::Aabb;
use storage::key_at;

// The byte of a block with a point that some circle holds: it stays.
const CIRCLED: u8 = 3;

// The first place from p on whose key is not below `key`. A `while`: it is asked twice for each block, and a `for` takes three instructions
// more each time.
fn onward(pool: &[[u64; 2]], used: usize, p: usize, key: u64) -> usize
    requires { (used ≤ length pool.now) × Sorted row_key (take used pool.now) × (p ≤ length (below row_key key (take used pool.now))) }
    ensures { result ≡ length (below row_key key (take used pool.now)) }
{
    let mut j = p;
    while j < used && key_at(pool, j) < key {
        j += 1;
    }
    j
}

// Whether q intersects the box of an entry from place p on whose key is at most `last`.
fn met_from(
    reals: &[[f32; 4]],
    pool: &[[u64; 2]],
    used: usize,
    p: usize,
    last: u64,
    q: Aabb,
) -> bool
    requires { Stocked reals.now pool.now used }
    ensures { result ≡ met_from reals.now pool.now used p last q }
{
    for j in p..used {
        let [key, item] = pool[j];
        if last < key {
            return false;
        }
        let b = box_tables::load_box(reals, (item / 2) as usize);
        if geometry::intersects(q, b) {
            return true;
        }
    }
    false
}

// Whether block (i, j) meets a box: `here` and `next` are where the entries of its two rows of cells begin.
fn met(
    reals: &[[f32; 4]],
    pool: &[[u64; 2]],
    used: usize,
    here: usize,
    next: usize,
    i: usize,
    j: usize,
) -> bool
    requires stocked { Stocked reals.now pool.now used × (i < columns) × (j < lines) }
    requires here_value { (here ≡ length (below row_key (key_of (cell i j)) (take used pool.now))) × (next ≡ length (below row_key (key_of (cell i (suc j))) (take used pool.now))) }
    ensures { result ≡ Windows.met reals.now (take used pool.now) i j }
{
    let b = block_box(i, j);
    met_from(reals, pool, used, here, cell_key(i + 1, j), b)
        || met_from(reals, pool, used, next, cell_key(i + 1, j + 1), b)
}

// The map with the boxes over the points.
pub fn mark_boxes(reals: &[[f32; 4]], pool: &[[u64; 2]], used: usize, bytes: &mut [u8])
    requires { Stocked reals.now pool.now used × (length bytes.old ≡ blocks) }
    ensures { Overlaid reals.now (take used pool.now) blocks bytes.old bytes.new }
{
    let mut here = 0;
    let mut next = 0;
    for k in 0..BLOCKS {
        let i = k % COLUMNS;
        let j = k / COLUMNS;
        here = onward(pool, used, here, cell_key(i, j));
        next = onward(pool, used, next, cell_key(i, j + 1));
        if bytes[k] != CIRCLED && met(reals, pool, used, here, next, i, j) {
            bytes[k] = 2;
        }
    }
}
