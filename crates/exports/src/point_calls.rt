// The calls of the point grid for C and Rust: each is the call of `points` with its numbers taken apart, and has its promise.
ghost use Rattle.std.specs.Prelude.{◌≡◌};
ghost use Rattle.point_tables.specs.Meaning.Lent.{Gives};
ghost use Rattle.point_insert.specs.Meaning.New.{new_of};
ghost use Rattle.point_insert.specs.Meaning.Insert.{insert_of};
ghost use Rattle.point_deferred.specs.Meaning.Moves.{set_position_of, remove_of};
ghost use Rattle.point_batch.specs.Meaning.Batch.{batch_of};
ghost use Rattle.point_remove.specs.Meaning.RemoveMaintain.{remove_maintain_of};
ghost use Rattle.point_clear.specs.Meaning.Clear.{clear_of};
ghost use Rattle.point_get.specs.Meaning.{got, get_of, len_of, handles_of, listing};
ghost use Rattle.point_search.specs.Meaning.Lent.{Finds};
ghost use Rattle.point_query.specs.Meaning.Queries.{query_of, around_of, aabb_of};
ghost use Rattle.point_nearest.specs.Meaning.Nearest.{nearest_of};
ghost use Rattle.point_maintain.specs.Meaning.Maintain.{maintain_of};
ghost use Rattle.replies.specs.Meaning.Replies.{reply};
ghost use Rattle.exports.specs.Meaning.Made.{handle, position};
ghost use Rattle.exports.specs.Meaning.Told.{told_inserted, told_reply, told_count};
ghost use Rattle.exports.specs.Meaning.PointTold.{told_batched, told_maintained, told_written, told_nearest};
ghost use Rattle.point_search.specs.Meaning.Searches.{outputs};
ghost use Rattle.point_tables.specs.Meaning.Tables.{tables};

use crate::{BatchReply, Count, Inserted, Maintained, Nearest, PointGot, Reply};
use geometry::Position;
use slots::Handle;

// `new`. 3, 2.
#[unsafe(no_mangle)]
pub extern "C" fn chavrupas_points_new(
    nums: &mut [[u32; 4]],
    reals: &[[f32; 4]],
    ints: &[[i32; 4]],
    map: &mut [u64],
    pool: &[[u64; 2]],
    spots: &[[f32; 2]],
    cells: &[[u64; 2]],
    size: u32,
) -> u32
    ensures { Gives (λ t. new_of t size) result (tables nums.old reals.now ints.now map.old pool.now spots.now cells.now) (tables nums.new reals.now ints.now map.new pool.now spots.now cells.now) }
{
    points::new(nums, reals, ints, map, pool, spots, cells, size)
}

// `insert`. 3, 6, 13, 4.
#[unsafe(no_mangle)]
pub extern "C" fn chavrupas_points_insert(
    nums: &mut [[u32; 4]],
    reals: &mut [[f32; 4]],
    ints: &mut [[i32; 4]],
    map: &mut [u64],
    pool: &mut [[u64; 2]],
    spots: &mut [[f32; 2]],
    cells: &mut [[u64; 2]],
    x: f32,
    y: f32,
    obj: u32,
    tracker: u32,
) -> Inserted
    ensures { Gives (λ t. insert_of t (position x y) obj tracker) (told_inserted result) (tables nums.old reals.old ints.old map.old pool.old spots.old cells.old) (tables nums.new reals.new ints.new map.new pool.new spots.new cells.new) }
{
    points::insert(
        nums,
        reals,
        ints,
        map,
        pool,
        spots,
        cells,
        Position { x, y },
        obj,
        tracker,
    )
    .into()
}

// `set_position`. 3, 6, 13, 11, 12, 14, 1.
#[unsafe(no_mangle)]
pub extern "C" fn chavrupas_points_set_position(
    nums: &mut [[u32; 4]],
    reals: &mut [[f32; 4]],
    ints: &mut [[i32; 4]],
    map: &[u64],
    pool: &[[u64; 2]],
    spots: &[[f32; 2]],
    cells: &mut [[u64; 2]],
    slot: u32,
    version: u32,
    x: f32,
    y: f32,
    tracker: u32,
) -> u32
    ensures { Gives (λ t. set_position_of t (handle slot version) (position x y) tracker) (reply result 0) (tables nums.old reals.old ints.old map.now pool.now spots.now cells.old) (tables nums.new reals.new ints.new map.now pool.now spots.now cells.new) }
{
    points::set_position(
        nums,
        reals,
        ints,
        map,
        pool,
        spots,
        cells,
        Handle { slot, version },
        Position { x, y },
        tracker,
    )
}

// `remove`. 3, 13, 11, 12, 14.
#[unsafe(no_mangle)]
pub extern "C" fn chavrupas_points_remove(
    nums: &mut [[u32; 4]],
    reals: &mut [[f32; 4]],
    ints: &mut [[i32; 4]],
    map: &[u64],
    pool: &[[u64; 2]],
    spots: &[[f32; 2]],
    cells: &mut [[u64; 2]],
    slot: u32,
    version: u32,
    tracker: u32,
) -> Reply
    ensures { Gives (λ t. remove_of t (handle slot version) tracker) (told_reply result) (tables nums.old reals.old ints.old map.now pool.now spots.now cells.old) (tables nums.new reals.new ints.new map.now pool.now spots.now cells.new) }
{
    points::remove(
        nums,
        reals,
        ints,
        map,
        pool,
        spots,
        cells,
        Handle { slot, version },
        tracker,
    )
    .into()
}

// `batch`. 3, 9 with the number of calls.
#[unsafe(no_mangle)]
pub extern "C" fn chavrupas_points_batch(
    nums: &mut [[u32; 4]],
    reals: &mut [[f32; 4]],
    ints: &mut [[i32; 4]],
    map: &[u64],
    pool: &[[u64; 2]],
    spots: &[[f32; 2]],
    cells: &mut [[u64; 2]],
    kinds: &[u32],
    handles: &[[u32; 3]],
    positions: &[[f32; 2]],
    out: &mut [[u32; 2]],
) -> BatchReply
    ensures { Gives (λ t. batch_of t kinds.now handles.now positions.now out.old) (told_batched result out.new) (tables nums.old reals.old ints.old map.now pool.now spots.now cells.old) (tables nums.new reals.new ints.new map.now pool.now spots.now cells.new) }
{
    let r = points::batch(
        nums, reals, ints, map, pool, spots, cells, kinds, handles, positions, out,
    );
    BatchReply {
        answer: r.answer,
        count: r.count,
    }
}

// `maintain`. 3.
#[unsafe(no_mangle)]
pub extern "C" fn chavrupas_points_maintain(
    nums: &mut [[u32; 4]],
    reals: &mut [[f32; 4]],
    ints: &mut [[i32; 4]],
    map: &mut [u64],
    pool: &mut [[u64; 2]],
    spots: &mut [[f32; 2]],
    cells: &mut [[u64; 2]],
) -> Maintained
    ensures { Gives maintain_of (told_maintained result) (tables nums.old reals.old ints.old map.old pool.old spots.old cells.old) (tables nums.new reals.new ints.new map.new pool.new spots.new cells.new) }
{
    let r = points::maintain(nums, reals, ints, map, pool, spots, cells);
    Maintained {
        answer: r.answer,
        moved: r.moved,
        removed: r.removed,
    }
}

// `remove_maintain`. 3, 13, 11, 12, 14.
#[unsafe(no_mangle)]
pub extern "C" fn chavrupas_points_remove_maintain(
    nums: &mut [[u32; 4]],
    reals: &[[f32; 4]],
    ints: &[[i32; 4]],
    map: &mut [u64],
    pool: &mut [[u64; 2]],
    spots: &mut [[f32; 2]],
    cells: &mut [[u64; 2]],
    slot: u32,
    version: u32,
    tracker: u32,
) -> Reply
    ensures { Gives (λ t. remove_maintain_of t (handle slot version) tracker) (told_reply result) (tables nums.old reals.now ints.now map.old pool.old spots.old cells.old) (tables nums.new reals.now ints.now map.new pool.new spots.new cells.new) }
{
    points::remove_maintain(
        nums,
        reals,
        ints,
        map,
        pool,
        spots,
        cells,
        Handle { slot, version },
        tracker,
    )
    .into()
}

// `clear`. 3, 9 with the number of objects.
#[unsafe(no_mangle)]
pub extern "C" fn chavrupas_points_clear(
    nums: &mut [[u32; 4]],
    reals: &[[f32; 4]],
    ints: &[[i32; 4]],
    map: &mut [u64],
    pool: &[[u64; 2]],
    spots: &[[f32; 2]],
    cells: &[[u64; 2]],
    places: &mut [[f32; 2]],
    objs: &mut [[u32; 2]],
) -> Count
    ensures { Gives (λ t. clear_of t places.old objs.old) (told_written result places.new objs.new) (tables nums.old reals.now ints.now map.old pool.now spots.now cells.now) (tables nums.new reals.now ints.now map.new pool.now spots.now cells.now) }
{
    points::clear(nums, reals, ints, map, pool, spots, cells, places, objs).into()
}

// `get`. 3, 11, 12.
#[unsafe(no_mangle)]
pub extern "C" fn chavrupas_points_get(
    nums: &[[u32; 4]],
    reals: &[[f32; 4]],
    ints: &[[i32; 4]],
    map: &[u64],
    pool: &[[u64; 2]],
    spots: &[[f32; 2]],
    cells: &[[u64; 2]],
    slot: u32,
    version: u32,
) -> PointGot
    ensures { got result.answer (position result.x result.y) result.obj result.tracker ≡ get_of (tables nums.now reals.now ints.now map.now pool.now spots.now cells.now) (handle slot version) }
{
    let r = points::get(
        nums,
        reals,
        ints,
        map,
        pool,
        spots,
        cells,
        Handle { slot, version },
    );
    PointGot {
        answer: r.answer,
        x: r.position.x,
        y: r.position.y,
        obj: r.obj,
        tracker: r.tracker,
    }
}

// `len`. 3.
#[unsafe(no_mangle)]
pub extern "C" fn chavrupas_points_len(
    nums: &[[u32; 4]],
    reals: &[[f32; 4]],
    ints: &[[i32; 4]],
    map: &[u64],
    pool: &[[u64; 2]],
    spots: &[[f32; 2]],
    cells: &[[u64; 2]],
) -> Count
    ensures { told_count result ≡ len_of (tables nums.now reals.now ints.now map.now pool.now spots.now cells.now) }
{
    points::len(nums, reals, ints, map, pool, spots, cells).into()
}

// `handles`. 3, 9 with the number of objects.
#[unsafe(no_mangle)]
pub extern "C" fn chavrupas_points_handles(
    nums: &[[u32; 4]],
    reals: &[[f32; 4]],
    ints: &[[i32; 4]],
    map: &[u64],
    pool: &[[u64; 2]],
    spots: &[[f32; 2]],
    cells: &[[u64; 2]],
    out: &mut [[u32; 2]],
) -> Count
    ensures { listing (told_count result) out.new ≡ handles_of (tables nums.now reals.now ints.now map.now pool.now spots.now cells.now) out.old }
{
    points::handles(nums, reals, ints, map, pool, spots, cells, out).into()
}

// `query`. 3, 6, 7, 9 with the number found.
#[unsafe(no_mangle)]
pub extern "C" fn chavrupas_points_query(
    nums: &[[u32; 4]],
    reals: &[[f32; 4]],
    ints: &[[i32; 4]],
    map: &[u64],
    pool: &[[u64; 2]],
    spots: &[[f32; 2]],
    cells: &[[u64; 2]],
    left: f32,
    low: f32,
    right: f32,
    high: f32,
    found: &mut [[u32; 2]],
    places: &mut [[f32; 2]],
    objs: &mut [[u32; 2]],
) -> Count
    ensures { Finds (λ t. query_of t (position left low) (position right high)) (told_count result) (tables nums.now reals.now ints.now map.now pool.now spots.now cells.now) (outputs found.old places.old objs.old) (outputs found.new places.new objs.new) }
{
    points::query(
        nums,
        reals,
        ints,
        map,
        pool,
        spots,
        cells,
        Position { x: left, y: low },
        Position { x: right, y: high },
        found,
        places,
        objs,
    )
    .into()
}

// `query_around`. 3, 6, 7, 9 with the number found.
#[unsafe(no_mangle)]
pub extern "C" fn chavrupas_points_query_around(
    nums: &[[u32; 4]],
    reals: &[[f32; 4]],
    ints: &[[i32; 4]],
    map: &[u64],
    pool: &[[u64; 2]],
    spots: &[[f32; 2]],
    cells: &[[u64; 2]],
    x: f32,
    y: f32,
    radius: f32,
    found: &mut [[u32; 2]],
    places: &mut [[f32; 2]],
    objs: &mut [[u32; 2]],
) -> Count
    ensures { Finds (λ t. around_of t (position x y) radius) (told_count result) (tables nums.now reals.now ints.now map.now pool.now spots.now cells.now) (outputs found.old places.old objs.old) (outputs found.new places.new objs.new) }
{
    points::query_around(
        nums,
        reals,
        ints,
        map,
        pool,
        spots,
        cells,
        Position { x, y },
        radius,
        found,
        places,
        objs,
    )
    .into()
}

// `query_aabb`: the corners may come in any order. 3, 6, 7, 9 with the number found.
#[unsafe(no_mangle)]
pub extern "C" fn chavrupas_points_query_aabb(
    nums: &[[u32; 4]],
    reals: &[[f32; 4]],
    ints: &[[i32; 4]],
    map: &[u64],
    pool: &[[u64; 2]],
    spots: &[[f32; 2]],
    cells: &[[u64; 2]],
    left: f32,
    low: f32,
    right: f32,
    high: f32,
    found: &mut [[u32; 2]],
    places: &mut [[f32; 2]],
    objs: &mut [[u32; 2]],
) -> Count
    ensures { Finds (λ t. aabb_of t (position left low) (position right high)) (told_count result) (tables nums.now reals.now ints.now map.now pool.now spots.now cells.now) (outputs found.old places.old objs.old) (outputs found.new places.new objs.new) }
{
    points::query_aabb(
        nums,
        reals,
        ints,
        map,
        pool,
        spots,
        cells,
        Position { x: left, y: low },
        Position { x: right, y: high },
        found,
        places,
        objs,
    )
    .into()
}

// `nearest`: of the objects that `query_around` finds. 3, 6, 7.
#[unsafe(no_mangle)]
pub extern "C" fn chavrupas_points_nearest(
    nums: &[[u32; 4]],
    reals: &[[f32; 4]],
    ints: &[[i32; 4]],
    map: &[u64],
    pool: &[[u64; 2]],
    spots: &[[f32; 2]],
    cells: &[[u64; 2]],
    x: f32,
    y: f32,
    radius: f32,
) -> Nearest
    ensures { told_nearest result ≡ nearest_of (tables nums.now reals.now ints.now map.now pool.now spots.now cells.now) (position x y) radius }
{
    let near = points::nearest(
        nums,
        reals,
        ints,
        map,
        pool,
        spots,
        cells,
        Position { x, y },
        radius,
    );
    Nearest {
        answer: near.answer,
        count: near.count,
        slot: near.handle.slot,
        version: near.handle.version,
        x: near.position.x,
        y: near.position.y,
        obj: near.obj,
        tracker: near.tracker,
    }
}
