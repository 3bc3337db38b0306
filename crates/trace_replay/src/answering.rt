// The two grids of the trace, and what they answer to a record.
ghost use Rattle.std.specs.Prelude.{◌+◌, ◌≤◌};
ghost use Rattle.basics.specs.Words.{length, take};
ghost use Rattle.trace_decimals.specs.Meaning.Written.{buffer};
ghost use Rattle.trace_printing.specs.Meaning.Said.{longest};
ghost use Rattle.trace_replay.specs.Meaning.Replay.{Replays, grids};
ghost use Rattle.trace_answers.specs.Meaning.Cell.{Builds};
ghost use Rattle.point_tables.specs.Meaning.Tables as PointTables;
ghost use Rattle.box_tables.specs.Meaning.Tables as BoxTables;

use slots::Row;
use trace_printing::Said;

// Both grids are built with cells of 16.
pub fn start(
    nums: &mut [Row],
    reals: &[[f32; 4]],
    ints: &[[i32; 4]],
    map: &mut [u64],
    pool: &[[u64; 2]],
    spots: &[[f32; 2]],
    cells: &[[u64; 2]],
    bnums: &mut [[u32; 4]],
    breals: &[[f32; 4]],
    bmap: &mut [u64],
    bpool: &[[u64; 2]],
) -> Said
    ensures { Builds 16 result (PointTables.tables nums.old reals.now ints.now map.old pool.now spots.now cells.now) (BoxTables.tables bnums.old breals.now bmap.old bpool.now) (PointTables.tables nums.new reals.now ints.now map.new pool.now spots.now cells.now) (BoxTables.tables bnums.new breals.now bmap.new bpool.now) }
{
    trace_answers::cell(
        nums, reals, ints, map, pool, spots, cells, bnums, breals, bmap, bpool, 16,
    )
}

// The record that is the first `len` bytes of the line, answered from place `at` on: where the next answer goes.
pub fn answer_record(
    nums: &mut [Row],
    reals: &mut [[f32; 4]],
    ints: &mut [[i32; 4]],
    map: &mut [u64],
    pool: &mut [[u64; 2]],
    spots: &mut [[f32; 2]],
    cells: &mut [[u64; 2]],
    bnums: &mut [[u32; 4]],
    breals: &mut [[f32; 4]],
    bmap: &mut [u64],
    bpool: &mut [[u64; 2]],
    line: &[u8],
    len: usize,
    out: &mut [u8],
    at: usize,
) -> usize
    requires { at + longest ≤ length out.old }
    ensures replays { Replays (take len line.now) (buffer out.old at) (buffer out.new result) (grids (PointTables.tables nums.old reals.old ints.old map.old pool.old spots.old cells.old) (BoxTables.tables bnums.old breals.old bmap.old bpool.old)) (grids (PointTables.tables nums.new reals.new ints.new map.new pool.new spots.new cells.new) (BoxTables.tables bnums.new breals.new bmap.new bpool.new)) }
    ensures upper_bound { result ≤ at + longest }
{
    let mut handles = [[0u32; 2]; 256];
    let mut places = [[0.0f32; 2]; 256];
    let mut corners = [[0.0f32; 4]; 64];
    let mut objs = [[0u32; 2]; 256];
    let request = trace_lines::read(line, len);
    let said = trace_answers::answer(
        nums,
        reals,
        ints,
        map,
        pool,
        spots,
        cells,
        bnums,
        breals,
        bmap,
        bpool,
        &mut handles,
        &mut places,
        &mut corners,
        &mut objs,
        request,
    );
    trace_printing::put_record(out, at, said, &handles, &places, &corners, &objs)
}
