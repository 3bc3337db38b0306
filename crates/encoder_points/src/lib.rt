// One pass over the entries of a point grid: each marks the block of its cell, with 3 if some circle holds its position and else with 1. The entries come row
// of cells by row of cells, and of the circles only those are asked that reach the row.
#![tactic(auto)]

ghost use Rattle.std.specs.Prelude.{◌≤◌, ◌≡◌};
ghost use Rattle.basics.specs.Words.{length};
ghost use Rattle.storage.specs.Meaning.Keyed.{All};
ghost use Rattle.encoder_blocks.specs.Meaning.Blocks.{blocks};
ghost use Rattle.encoder_points.specs.Meaning.Points.{most_circles};
ghost use Rattle.encoder_points.specs.Inner.Marks.{in_some, raised_by, Marked};
ghost use Rattle.encoder_points.specs.Inner.Near;
ghost use Rattle.encoder_points.specs.Inner.Near.{Fine, Chosen, Placed};

use encoder_blocks::block_of;
use geometry::Position;

pub const MOST_CIRCLES: usize = 16;

// Whether a circle's range has cells of the row `line`, a number of a key.
fn reaches(line: u64, circle: [f32; 3]) -> bool
    requires { Fine circle }
    ensures { result ≡ Near.reaches line circle }
{
    let low = cells::cell_id(16, circle[1] - circle[2]);
    let high = cells::cell_id(16, circle[1] + circle[2]);
    cells::up_from_least(low) <= line && line <= cells::up_from_least(high)
}

// The circles that reach the row go to the first places of `near`. Returns how many they are.
fn choose(line: u64, circles: &[[f32; 3]], near: &mut [[f32; 3]; MOST_CIRCLES]) -> usize
    requires { (length circles.now ≤ most_circles) × All Fine circles.now × (length near.old ≡ most_circles) }
    ensures { Chosen circles.now line near.new result }
{
    let mut n = 0;
    for circle in circles {
        if reaches(line, *circle) {
            near[n] = *circle;
            n += 1;
        }
    }
    n
}

// The same where `near` has those of the row `old`.
fn choose_anew(
    old: u64,
    line: u64,
    circles: &[[f32; 3]],
    n: usize,
    near: &mut [[f32; 3]; MOST_CIRCLES],
) -> usize
    requires { (length circles.now ≤ most_circles) × All Fine circles.now × Chosen circles.now old near.old n }
    ensures { Chosen circles.now line near.new result }
{
    if old == line {
        n
    } else {
        choose(line, circles, near)
    }
}

// Whether some circle holds a position.
fn in_some(circles: &[[f32; 3]], p: Position) -> bool
    ensures { result ≡ in_some circles.now p }
{
    for circle in circles {
        let centre = Position {
            x: circle[0],
            y: circle[1],
        };
        if geometry::in_circle(p, centre, circle[2]) {
            return true;
        }
    }
    false
}

// What a block's byte becomes for a point in it: a byte that is 3 stays, and then no circle is asked.
fn raised(byte: u8, circles: &[[f32; 3]], p: Position) -> u8
    ensures { result ≡ raised_by (in_some circles.now p) byte }
{
    if byte == 3 || in_some(circles, p) {
        3
    } else {
        1
    }
}

// The map of the points alone: 3, 1 or 0 for each block.
pub fn mark_points(
    pool: &[[u64; 2]],
    spots: &[[f32; 2]],
    used: usize,
    circles: &[[f32; 3]],
    bytes: &mut [u8],
)
    requires { Placed pool.now spots.now used × (length circles.now ≤ most_circles) × All Fine circles.now × (length bytes.old ≡ blocks) }
    ensures { Marked pool.now spots.now circles.now used bytes.new }
{
    bytes.fill(0);
    let mut near = [[0.0; 3]; MOST_CIRCLES];
    let mut line = 0;
    let mut few = choose(line, circles, &mut near);
    for n in 0..used {
        let key = storage::key_at(pool, n);
        if let Some(k) = block_of(key) {
            let row = cells::row_of(key);
            few = choose_anew(line, row, circles, few, &mut near);
            line = row;
            let p = point_records::spot_at(spots, n);
            bytes[k] = raised(bytes[k], &near[..few], p);
        }
    }
}
