// The calls of the box grid for C and Rust: each is the call of `boxes` with its numbers taken apart, and has its promise.
ghost use Rattle.std.specs.Prelude.{◌≡◌};
ghost use Rattle.box_tables.specs.Meaning.Outcome.{outcome};
ghost use Rattle.box_insert.specs.Meaning.New.{new_of};
ghost use Rattle.box_insert.specs.Meaning.Insert.{insert_of};
ghost use Rattle.box_set.specs.Meaning.SetAabb.{set_aabb_of};
ghost use Rattle.box_remove.specs.Meaning.Remove.{remove_of};
ghost use Rattle.box_get.specs.Meaning.Reads.{got, get_of, len_of, handles_of, listing};
ghost use Rattle.box_clear.specs.Meaning.Clear.{clear_of};
ghost use Rattle.box_query.specs.Meaning.Queries.{broad_of, query_of};
ghost use Rattle.box_query.specs.Meaning.Queries;
ghost use Rattle.exports.specs.Meaning.Made.{handle, aabb};
ghost use Rattle.exports.specs.Meaning.Told.{told_inserted, told_reply, told_count};
ghost use Rattle.exports.specs.Meaning.BoxTold.{told_written, told_findings};
ghost use Rattle.box_tables.specs.Meaning.Tables.{tables};

use crate::{BoxGot, Count, Inserted, Reply};
use geometry::{Aabb, Position};
use slots::Handle;

// `new`. 3, 2.
#[unsafe(no_mangle)]
pub extern "C" fn chavrupas_boxes_new(
    nums: &mut [[u32; 4]],
    reals: &[[f32; 4]],
    map: &mut [u64],
    pool: &[[u64; 2]],
    size: u32,
) -> u32
    ensures { outcome result (tables nums.new reals.now map.new pool.now) ≡ new_of (tables nums.old reals.now map.old pool.now) size }
{
    boxes::new(nums, reals, map, pool, size)
}

// `insert`. 3, 6, 7, 4, 8.
#[unsafe(no_mangle)]
pub extern "C" fn chavrupas_boxes_insert(
    nums: &mut [[u32; 4]],
    reals: &mut [[f32; 4]],
    map: &mut [u64],
    pool: &mut [[u64; 2]],
    left: f32,
    low: f32,
    right: f32,
    high: f32,
    obj: u32,
) -> Inserted
    ensures { outcome (told_inserted result) (tables nums.new reals.new map.new pool.new) ≡ insert_of (tables nums.old reals.old map.old pool.old) (aabb left low right high) obj }
{
    boxes::insert(
        nums,
        reals,
        map,
        pool,
        Aabb {
            ll: Position { x: left, y: low },
            ur: Position { x: right, y: high },
        },
        obj,
    )
    .into()
}

// `set_aabb`. 3, 6, 11, 12, 7, 8.
#[unsafe(no_mangle)]
pub extern "C" fn chavrupas_boxes_set_aabb(
    nums: &[[u32; 4]],
    reals: &mut [[f32; 4]],
    map: &mut [u64],
    pool: &mut [[u64; 2]],
    slot: u32,
    version: u32,
    left: f32,
    low: f32,
    right: f32,
    high: f32,
) -> u32
    ensures { outcome result (tables nums.now reals.new map.new pool.new) ≡ set_aabb_of (tables nums.now reals.old map.old pool.old) (handle slot version) (aabb left low right high) }
{
    boxes::set_aabb(
        nums,
        reals,
        map,
        pool,
        Handle { slot, version },
        Aabb {
            ll: Position { x: left, y: low },
            ur: Position { x: right, y: high },
        },
    )
}

// `remove`. 3, 11, 12.
#[unsafe(no_mangle)]
pub extern "C" fn chavrupas_boxes_remove(
    nums: &mut [[u32; 4]],
    reals: &[[f32; 4]],
    map: &mut [u64],
    pool: &mut [[u64; 2]],
    slot: u32,
    version: u32,
) -> Reply
    ensures { outcome (told_reply result) (tables nums.new reals.now map.new pool.new) ≡ remove_of (tables nums.old reals.now map.old pool.old) (handle slot version) }
{
    boxes::remove(nums, reals, map, pool, Handle { slot, version }).into()
}

// `clear`. 3, 9 with the number of objects.
#[unsafe(no_mangle)]
pub extern "C" fn chavrupas_boxes_clear(
    nums: &mut [[u32; 4]],
    reals: &[[f32; 4]],
    map: &mut [u64],
    pool: &[[u64; 2]],
    boxes: &mut [[f32; 4]],
    objs: &mut [u32],
) -> Count
    ensures { outcome (told_written result boxes.new objs.new) (tables nums.new reals.now map.new pool.now) ≡ clear_of (tables nums.old reals.now map.old pool.now) boxes.old objs.old }
{
    boxes::clear(nums, reals, map, pool, boxes, objs).into()
}

// `get`. 3, 11, 12.
#[unsafe(no_mangle)]
pub extern "C" fn chavrupas_boxes_get(
    nums: &[[u32; 4]],
    reals: &[[f32; 4]],
    map: &[u64],
    pool: &[[u64; 2]],
    slot: u32,
    version: u32,
) -> BoxGot
    ensures { got result.answer (aabb result.left result.low result.right result.high) result.obj ≡ get_of (tables nums.now reals.now map.now pool.now) (handle slot version) }
{
    let r = boxes::get(nums, reals, map, pool, Handle { slot, version });
    BoxGot {
        answer: r.answer,
        left: r.aabb.ll.x,
        low: r.aabb.ll.y,
        right: r.aabb.ur.x,
        high: r.aabb.ur.y,
        obj: r.obj,
    }
}

// `len`. 3.
#[unsafe(no_mangle)]
pub extern "C" fn chavrupas_boxes_len(
    nums: &[[u32; 4]],
    reals: &[[f32; 4]],
    map: &[u64],
    pool: &[[u64; 2]],
) -> Count
    ensures { told_count result ≡ len_of (tables nums.now reals.now map.now pool.now) }
{
    boxes::len(nums, reals, map, pool).into()
}

// `handles`. 3, 9 with the number of objects.
#[unsafe(no_mangle)]
pub extern "C" fn chavrupas_boxes_handles(
    nums: &[[u32; 4]],
    reals: &[[f32; 4]],
    map: &[u64],
    pool: &[[u64; 2]],
    out: &mut [[u32; 2]],
) -> Count
    ensures { listing (told_count result) out.new ≡ handles_of (tables nums.now reals.now map.now pool.now) out.old }
{
    boxes::handles(nums, reals, map, pool, out).into()
}

// `query_broad`. 3, 6, 7, 9 with the number found.
#[unsafe(no_mangle)]
pub extern "C" fn chavrupas_boxes_query_broad(
    nums: &[[u32; 4]],
    reals: &[[f32; 4]],
    map: &[u64],
    pool: &[[u64; 2]],
    left: f32,
    low: f32,
    right: f32,
    high: f32,
    found: &mut [[u32; 2]],
) -> Count
    ensures { Queries.handles_of (told_count result) found.new ≡ broad_of (tables nums.now reals.now map.now pool.now) (aabb left low right high) found.old }
{
    boxes::query_broad(
        nums,
        reals,
        map,
        pool,
        Aabb {
            ll: Position { x: left, y: low },
            ur: Position { x: right, y: high },
        },
        found,
    )
    .into()
}

// `query`. 3, 6, 7, 9 with the number found.
#[unsafe(no_mangle)]
pub extern "C" fn chavrupas_boxes_query(
    nums: &[[u32; 4]],
    reals: &[[f32; 4]],
    map: &[u64],
    pool: &[[u64; 2]],
    left: f32,
    low: f32,
    right: f32,
    high: f32,
    found: &mut [[u32; 2]],
    boxes: &mut [[f32; 4]],
    objs: &mut [u32],
) -> Count
    ensures { told_findings result found.new boxes.new objs.new ≡ query_of (tables nums.now reals.now map.now pool.now) (aabb left low right high) found.old boxes.old objs.old }
{
    boxes::query(
        nums,
        reals,
        map,
        pool,
        Aabb {
            ll: Position { x: left, y: low },
            ur: Position { x: right, y: high },
        },
        found,
        boxes,
        objs,
    )
    .into()
}
