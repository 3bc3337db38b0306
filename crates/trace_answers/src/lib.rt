// The two grids of the trace answer a request: a call of one of them, or for `cell` of both.
#![tactic(auto)]

ghost use Rattle.trace_telling.specs.Inner.InRange.{InRange};
ghost use Rattle.trace_answers.specs.Meaning.Cell.{Builds};
ghost use Rattle.trace_answers.specs.Inner.Answer.{Answers};
ghost use Rattle.trace_answers.specs.Meaning.State.{state};
ghost use Rattle.point_tables.specs.Meaning.Tables as PointTables;
ghost use Rattle.box_tables.specs.Meaning.Tables as BoxTables;

use slots::Row;
use trace_boxes::{change_boxes, search_boxes};
use trace_lines::{Line, Request};
use trace_points::{change_points, search_points};
use trace_printing::Said;

// Both grids built anew. The first refusal is told, if there is one.
#[tactic(auto, unfolding(crate::specs::Meaning::Cell::build_both))]
pub fn cell(
    nums: &mut [Row],
    reals: &[[f32; 4]],
    ints: &[[i32; 4]],
    map: &mut [u64],
    pool: &[[u64; 2]],
    spots: &[[f32; 2]],
    cells: &[[u64; 2]],
    bnums: &mut [[u32; 4]],
    breals: &[[f32; 4]],
    bmap: &mut [u64],
    bpool: &[[u64; 2]],
    size: u32,
) -> Said
    ensures { Builds size result (PointTables.tables nums.old reals.now ints.now map.old pool.now spots.now cells.now) (BoxTables.tables bnums.old breals.now bmap.old bpool.now) (PointTables.tables nums.new reals.now ints.now map.new pool.now spots.now cells.now) (BoxTables.tables bnums.new breals.now bmap.new bpool.now) }
{
    let a = points::new(nums, reals, ints, map, pool, spots, cells, size);
    let b = boxes::new(bnums, breals, bmap, bpool, size);
    trace_telling::told(a, trace_telling::told(b, Said::Done))
}

// One request. The findings of a query are in its outputs; data and tracker of the points found in `objs`.
#[tactic(auto, unfolding(crate::specs::Meaning::Answer::by_line))]
pub fn answer(
    nums: &mut [Row],
    reals: &mut [[f32; 4]],
    ints: &mut [[i32; 4]],
    map: &mut [u64],
    pool: &mut [[u64; 2]],
    spots: &mut [[f32; 2]],
    cells: &mut [[u64; 2]],
    bnums: &mut [[u32; 4]],
    breals: &mut [[f32; 4]],
    bmap: &mut [u64],
    bpool: &mut [[u64; 2]],
    handles: &mut [[u32; 2]],
    places: &mut [[f32; 2]],
    corners: &mut [[f32; 4]],
    objs: &mut [[u32; 2]],
    r: Request,
) -> Said
    requires { InRange r }
    ensures { Answers r result (state (PointTables.tables nums.old reals.old ints.old map.old pool.old spots.old cells.old) (BoxTables.tables bnums.old breals.old bmap.old bpool.old) handles.old places.old corners.old objs.old) (state (PointTables.tables nums.new reals.new ints.new map.new pool.new spots.new cells.new) (BoxTables.tables bnums.new breals.new bmap.new bpool.new) handles.new places.new corners.new objs.new) }
{
    match r.line {
        Line::Cell => cell(
            nums, reals, ints, map, pool, spots, cells, bnums, breals, bmap, bpool, r.n,
        ),
        Line::PointChange(k) => change_points(
            nums, reals, ints, map, pool, spots, cells, k, r.h, r.p, r.n, r.k,
        ),
        Line::PointSearch(s) => search_points(
            nums, reals, ints, map, pool, spots, cells, s, r.p, r.q, r.far, handles, places, objs,
        ),
        Line::BoxChange(k) => change_boxes(bnums, breals, bmap, bpool, k, r.h, r.p, r.q, r.n),
        Line::BoxSearch => search_boxes(bnums, breals, bmap, bpool, r.p, r.q, handles, corners),
        Line::Unreadable => Said::Refused(10),
    }
}
