// The call of the encoder's layer for C and Rust, with its promise.
ghost use Rattle.std.specs.Prelude.{◌≡◌};
ghost use Rattle.point_tables.specs.Meaning.Tables as PointTables;
ghost use Rattle.box_tables.specs.Meaning.Tables as BoxTables;
ghost use Rattle.encoder.specs.Meaning.FillMap.{map_filled, fill_map_of};

// `fill_map`: a byte for each block of the frame. 3, 6, 7.
#[unsafe(no_mangle)]
pub extern "C" fn chavrupas_encoder_fill_map(
    nums: &[[u32; 4]],
    reals: &[[f32; 4]],
    ints: &[[i32; 4]],
    map: &[u64],
    pool: &[[u64; 2]],
    spots: &[[f32; 2]],
    cells: &[[u64; 2]],
    boxnums: &[[u32; 4]],
    boxreals: &[[f32; 4]],
    boxmap: &[u64],
    boxpool: &[[u64; 2]],
    circles: &[[f32; 3]],
    bytes: &mut [u8],
) -> u32
    ensures { map_filled result bytes.new ≡ fill_map_of (PointTables.tables nums.now reals.now ints.now map.now pool.now spots.now cells.now) (BoxTables.tables boxnums.now boxreals.now boxmap.now boxpool.now) circles.now bytes.old }
{
    encoder::fill_map(
        nums, reals, ints, map, pool, spots, cells, boxnums, boxreals, boxmap, boxpool, circles,
        bytes,
    )
}
