// The map for the video encoder, a layer above both grids: one byte for each 16 by 16 block of the 80 by 45 frame, that tells it where to spend its bits.
#![tactic(auto)]

ghost use Rattle.std.specs.Prelude.{◌≡◌};
ghost use Rattle.basics.specs.Words.{true, length};
ghost use Rattle.basics.specs.Meaning.Answers.{answer_of};
ghost use Rattle.basics.specs.Meaning.Refusals.{first_of};
ghost use Rattle.point_tables.specs.Meaning.Tables as PointTables;
ghost use Rattle.box_tables.specs.Meaning.Tables as BoxTables;
ghost use Rattle.encoder_blocks.specs.Meaning.Blocks.{blocks};
ghost use Rattle.encoder.specs.Meaning.Map.{map_of};
ghost use Rattle.encoder.specs.Meaning.FillMap.{every, circle_in_domain, circle_in_range, grids_right, fill_map_tests, map_filled, fill_map_of};
ghost use Rattle.encoder.specs.Inner.Drawn.{Drawable};

use basics::Refusal;
use encoder_blocks::{BLOCKS, SIDE};
use encoder_points::MOST_CIRCLES;
use geometry::Position;
use slots::Row;

// The tables of each grid hold one, with cells of 16.
fn grids_right(
    nums: &[Row],
    reals: &[[f32; 4]],
    ints: &[[i32; 4]],
    map: &[u64],
    pool: &[[u64; 2]],
    spots: &[[f32; 2]],
    cells: &[[u64; 2]],
    boxnums: &[Row],
    boxreals: &[[f32; 4]],
    boxmap: &[u64],
    boxpool: &[[u64; 2]],
) -> bool
    ensures { result ≡ grids_right (PointTables.tables nums.now reals.now ints.now map.now pool.now spots.now cells.now) (BoxTables.tables boxnums.now boxreals.now boxmap.now boxpool.now) }
{
    point_tables::check(nums, reals, ints, map, pool, spots, cells)
        && map[0] == SIDE
        && box_tables::check(boxnums, boxreals, boxmap, boxpool)
        && boxmap[0] == SIDE
}

fn circle_in_domain(circle: [f32; 3]) -> bool
    ensures { result ≡ circle_in_domain circle }
{
    let centre = Position {
        x: circle[0],
        y: circle[1],
    };
    point_query::circle_in_domain(centre, circle[2])
}

fn circle_in_range(circle: [f32; 3]) -> bool
    requires { circle_in_domain circle ≡ true }
    ensures { result ≡ circle_in_range circle }
{
    let centre = Position {
        x: circle[0],
        y: circle[1],
    };
    let low = cells::cell_at(SIDE, geometry::corner_below(centre, circle[2]));
    let high = cells::cell_at(SIDE, geometry::corner_above(centre, circle[2]));
    cells::cells_in(low, high) <= basics::MOST_CELLS
}

fn circles_in_domain(circles: &[[f32; 3]]) -> bool
    ensures { result ≡ every circle_in_domain circles.now }
{
    circles.iter().all(|circle| circle_in_domain(*circle))
}

fn circles_in_range(circles: &[[f32; 3]]) -> bool
    requires { every circle_in_domain circles.now ≡ true }
    ensures { result ≡ every circle_in_range circles.now }
{
    circles.iter().all(|circle| circle_in_range(*circle))
}

// What is asked before anything is written: the tables and the lengths, then the domain of all circles, then the range of all circles.
fn check(
    nums: &[Row],
    reals: &[[f32; 4]],
    ints: &[[i32; 4]],
    map: &[u64],
    pool: &[[u64; 2]],
    spots: &[[f32; 2]],
    cells: &[[u64; 2]],
    boxnums: &[Row],
    boxreals: &[[f32; 4]],
    boxmap: &[u64],
    boxpool: &[[u64; 2]],
    circles: &[[f32; 3]],
    bytes: &[u8],
) -> Result<(), Refusal>
    ensures { answer_of result ≡ first_of (fill_map_tests (PointTables.tables nums.now reals.now ints.now map.now pool.now spots.now cells.now) (BoxTables.tables boxnums.now boxreals.now boxmap.now boxpool.now) circles.now bytes.now) }
{
    if MOST_CIRCLES < circles.len() || bytes.len() != BLOCKS {
        return Err(Refusal::Tables);
    }
    if !grids_right(
        nums, reals, ints, map, pool, spots, cells, boxnums, boxreals, boxmap, boxpool,
    ) {
        return Err(Refusal::Tables);
    }
    if !circles_in_domain(circles) {
        return Err(Refusal::OutsideDomain);
    }
    if !circles_in_range(circles) {
        return Err(Refusal::TooManyCells);
    }
    Ok(())
}

// The map of two grids that are whole.
fn draw(
    nums: &[Row],
    reals: &[[f32; 4]],
    ints: &[[i32; 4]],
    map: &[u64],
    pool: &[[u64; 2]],
    spots: &[[f32; 2]],
    cells: &[[u64; 2]],
    boxnums: &[Row],
    boxreals: &[[f32; 4]],
    boxmap: &[u64],
    boxpool: &[[u64; 2]],
    circles: &[[f32; 3]],
    bytes: &mut [u8],
)
    requires { Drawable (PointTables.tables nums.now reals.now ints.now map.now pool.now spots.now cells.now) (BoxTables.tables boxnums.now boxreals.now boxmap.now boxpool.now) circles.now × (length bytes.old ≡ blocks) }
    ensures { bytes.new ≡ map_of (PointTables.tables nums.now reals.now ints.now map.now pool.now spots.now cells.now) (BoxTables.tables boxnums.now boxreals.now boxmap.now boxpool.now) circles.now }
{
    encoder_points::mark_points(pool, spots, map[1] as usize, circles, bytes);
    encoder_boxes::mark_boxes(boxreals, boxpool, boxmap[1] as usize, bytes);
}

// Fills the map of 3,600 bytes: byte j * 80 + i is the block from (16 i, 16 j) to (16 i + 16, 16 j + 16). 3 where a point that some circle finds lies in the
// block, else 2 where the box query with its four corners finds a box, else 1 where some recorded point lies in it, else 0. Neither grid's tables are written.
// Refusals: 3 (also for a cell size other than 16, another length of the map, or more than 16 circles), 6, 7.
//     let wrists: [[f32; 3]; 2] = [[640.0, 360.0, 60.0], [900.0, 400.0, 60.0]];
//     let a = encoder::fill_map(nums, reals, ints, map, pool, spots, cells, boxnums, boxreals, boxmap, boxpool, &wrists, bytes);
//     // 0: bytes[22 * 80 + 40] is 3 if a point is recorded near the first wrist in the block from (640, 352) to (656, 368)
pub fn fill_map(
    nums: &[Row],
    reals: &[[f32; 4]],
    ints: &[[i32; 4]],
    map: &[u64],
    pool: &[[u64; 2]],
    spots: &[[f32; 2]],
    cells: &[[u64; 2]],
    boxnums: &[Row],
    boxreals: &[[f32; 4]],
    boxmap: &[u64],
    boxpool: &[[u64; 2]],
    circles: &[[f32; 3]],
    bytes: &mut [u8],
) -> u32
    ensures { map_filled result bytes.new ≡ fill_map_of (PointTables.tables nums.now reals.now ints.now map.now pool.now spots.now cells.now) (BoxTables.tables boxnums.now boxreals.now boxmap.now boxpool.now) circles.now bytes.old }
{
    if let Err(why) = check(
        nums, reals, ints, map, pool, spots, cells, boxnums, boxreals, boxmap, boxpool, circles,
        bytes,
    ) {
        return why.number();
    }
    draw(
        nums, reals, ints, map, pool, spots, cells, boxnums, boxreals, boxmap, boxpool, circles,
        bytes,
    );
    0
}
