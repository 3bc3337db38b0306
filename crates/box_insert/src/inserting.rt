// `insert`: the lowest usable slot takes the box, which goes to the end of the list of every cell that it covers.
ghost use Rattle.std.specs.Prelude.{◌+◌, ◌/◌, ◌<◌, ◌≡◌, ◌∷◌};
ghost use Rattle.basics.specs.Words.{[], length, get_or, set};
ghost use Rattle.slots.specs.Meaning.Map.{taken};
ghost use Rattle.slots.specs.Meaning.Slot.{live, version_at};
ghost use Rattle.box_tables.specs.Meaning.Tables.{counting, corners_of, tables};
ghost use Rattle.box_tables.specs.Meaning.Outcome.{outcome};
ghost use Rattle.box_tables.specs.Inner.Way.{span_of};
ghost use Rattle.box_insert.specs.Meaning.Insert;
ghost use Rattle.box_insert.specs.Meaning.Insert.{insert_of};
ghost use Rattle.box_insert.specs.Inner.Insert.{Chosen};
ghost use Rattle.box_insert.specs.Inner.Fresh.{Ready, Fresh};
ghost use Rattle.replies.specs.Inner.Results.{inserted_of};

use basics::Refusal;
use box_tables::Span;
use geometry::Aabb;
use replies::Inserted;
use slots::{Handle, Row};

// The lowest usable slot, and the cells of the box; or the first refusal that applies, in tables that hold a grid. The pool has `room` entries.
fn choose(nums: &[Row], map: &[u64], room: usize, b: Aabb) -> Result<(usize, Span), Refusal>
    requires { Ready nums.now map.now }
    ensures { Chosen nums.now map.now room b result }
{
    if !geometry::aabb_in_domain(b) {
        return Err(Refusal::OutsideDomain);
    }
    let p = box_tables::span_of(map[0], b);
    let n = p.cells;
    if n > basics::MOST_CELLS {
        return Err(Refusal::TooManyCells);
    }
    let fits = (map[1] + n) as usize <= room;
    match slots::lowest(map, nums.len()) {
        Some(s) => if fits {
            Ok((s, p))
        } else {
            Err(Refusal::PoolFull)
        },
        None => Err(Refusal::NoUsableSlot),
    }
}

// Slot s takes the object: its version stays.
fn occupy(nums: &mut [Row], s: usize, obj: u32)
    requires { s < length nums.old }
    ensures { nums.new ≡ set nums.old s (version_at nums.old s ∷ live ∷ obj ∷ 0 ∷ []) }
{
    nums[s] = [nums[s][0], slots::LIVE, obj, 0];
}

// The row of slot s has the corners of b.
pub fn store_box(reals: &mut [[f32; 4]], s: usize, b: Aabb)
    requires { s < length reals.old }
    ensures { reals.new ≡ set reals.old s (corners_of b) }
{
    reals[s] = [b.ll.x, b.ll.y, b.ur.x, b.ur.y];
}

// The map has slot s no more, and its head word has the count.
fn count(map: &mut [u64], s: usize, used: usize)
    requires { 3 + s / 64 < length map.old }
    ensures { map.new ≡ counting (taken map.old s) used }
{
    slots::take(map, s);
    map[1] = used as u64;
}

// Slot s, which is free, takes box b, and the lists of the cells of p, which it covers, its entries.
fn put(
    nums: &mut [Row],
    reals: &mut [[f32; 4]],
    map: &mut [u64],
    pool: &mut [[u64; 2]],
    s: usize,
    b: Aabb,
    p: Span,
    obj: u32,
)
    requires { Fresh (tables nums.old reals.old map.old pool.old) s b × (p ≡ span_of (get_or map.old 0 0) b) }
    ensures { tables nums.new reals.new map.new pool.new ≡ Insert.put (tables nums.old reals.old map.old pool.old) s b obj }
{
    let used = map[1] as usize;
    let item = box_tables::item_of(s, p.cells == 1);
    occupy(nums, s, obj);
    store_box(reals, s, b);
    box_cover::enter(pool, used, p.low, p.high, item);
    count(map, s, used + p.cells as usize);
}

// The handle of the new object, or why there is none.
fn enter(
    nums: &mut [Row],
    reals: &mut [[f32; 4]],
    map: &mut [u64],
    pool: &mut [[u64; 2]],
    b: Aabb,
    obj: u32,
) -> Result<Handle, Refusal>
    ensures { outcome (inserted_of result) (tables nums.new reals.new map.new pool.new) ≡ insert_of (tables nums.old reals.old map.old pool.old) b obj }
{
    if !box_tables::check(nums, reals, map, pool) {
        return Err(Refusal::Tables);
    }
    let (s, p) = choose(nums, map, pool.len(), b)?;
    let handle = slots::handle_at(nums, s);
    put(nums, reals, map, pool, s, b, p, obj);
    Ok(handle)
}

pub fn insert(
    nums: &mut [Row],
    reals: &mut [[f32; 4]],
    map: &mut [u64],
    pool: &mut [[u64; 2]],
    b: Aabb,
    obj: u32,
) -> Inserted
    ensures { outcome result (tables nums.new reals.new map.new pool.new) ≡ insert_of (tables nums.old reals.old map.old pool.old) b obj }
{
    enter(nums, reals, map, pool, b, obj).into()
}
