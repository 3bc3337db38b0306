// The trace: records from standard input, an answer to each on standard output, in blocks. A record that cannot be read is answered by 10,
// and the next one is read. It ends with its input, or when nobody takes its answers.
#![tactic(auto)]

use slots::Row;
use trace_blocks::Blocks;

// Both grids are built; then each record has its answer.
fn serve(
    blocks: &mut Blocks,
    nums: &mut [Row],
    reals: &mut [[f32; 4]],
    ints: &mut [[i32; 4]],
    map: &mut [u64],
    pool: &mut [[u64; 2]],
    spots: &mut [[f32; 2]],
    cells: &mut [[u64; 2]],
    bnums: &mut [[u32; 4]],
    breals: &mut [[f32; 4]],
    bmap: &mut [u64],
    bpool: &mut [[u64; 2]],
) {
    trace_replay::start(
        nums, reals, ints, map, pool, spots, cells, bnums, breals, bmap, bpool,
    );
    // A proved loop has to end, and nothing says that an input does: it takes at most so many turns as no run uses up.
    for _ in 0..u64::MAX {
        let Some(len) = blocks.next_record() else {
            break;
        };
        let Blocks { line, out, put, .. } = blocks;
        let put = trace_replay::answer_record(
            nums, reals, ints, map, pool, spots, cells, bnums, breals, bmap, bpool, line, len, out,
            *put,
        );
        blocks.answered(put);
    }
}

fn main(rt: HostRuntime) {
    let mut blocks = Blocks::new(rt.stdin(), rt.stdout());
    let mut nums = [[0u32; 4]; 256];
    let mut reals = [[0.0f32; 4]; 256];
    let mut ints = [[0i32; 4]; 256];
    let mut map = [0u64; 7];
    let mut pool = [[0u64; 2]; 256];
    let mut spots = [[0.0f32; 2]; 256];
    let mut cells = [[0u64; 2]; 256];
    let mut bnums = [[0u32; 4]; 64];
    let mut breals = [[0.0f32; 4]; 64];
    let mut bmap = [0u64; 4];
    let mut bpool = [[0u64; 2]; 512];
    serve(
        &mut blocks,
        &mut nums,
        &mut reals,
        &mut ints,
        &mut map,
        &mut pool,
        &mut spots,
        &mut cells,
        &mut bnums,
        &mut breals,
        &mut bmap,
        &mut bpool,
    );
}
