// What the box grid of the trace answers to a line: each is one call of the grid.
#![tactic(auto)]

ghost use Rattle.std.specs.Prelude.{◌≡◌};
ghost use Rattle.trace_lines.specs.Inner.Texts.{SpotInRange};
ghost use Rattle.box_tables.specs.Meaning.Outcome.{outcome};
ghost use Rattle.trace_boxes.specs.Meaning.Changes.{change_of, inserted_of, placed_of, taken_of};
ghost use Rattle.trace_boxes.specs.Meaning.Searches.{searched, box_search_of};
ghost use Rattle.box_tables.specs.Meaning.Tables.{tables};

use slots::{Handle, Row};
use trace_lines::{BoxChange, Spot};
use trace_printing::Said;

fn bin(
    nums: &mut [Row],
    reals: &mut [[f32; 4]],
    map: &mut [u64],
    pool: &mut [[u64; 2]],
    ll: Spot,
    ur: Spot,
    obj: u32,
) -> Said
    requires { SpotInRange ll × SpotInRange ur }
    ensures { outcome result (tables nums.new reals.new map.new pool.new) ≡ inserted_of (tables nums.old reals.old map.old pool.old) ll ur obj }
{
    let b = trace_telling::corners(ll, ur);
    let r = boxes::insert(nums, reals, map, pool, b, obj);
    trace_telling::told(r.answer, Said::Two(r.handle.slot, r.handle.version))
}

fn bset(
    nums: &[Row],
    reals: &mut [[f32; 4]],
    map: &mut [u64],
    pool: &mut [[u64; 2]],
    h: Handle,
    ll: Spot,
    ur: Spot,
) -> Said
    requires { SpotInRange ll × SpotInRange ur }
    ensures { outcome result (tables nums.now reals.new map.new pool.new) ≡ placed_of (tables nums.now reals.old map.old pool.old) h ll ur }
{
    let b = trace_telling::corners(ll, ur);
    let answer = boxes::set_aabb(nums, reals, map, pool, h, b);
    trace_telling::told(answer, Said::Done)
}

fn brem(
    nums: &mut [Row],
    reals: &[[f32; 4]],
    map: &mut [u64],
    pool: &mut [[u64; 2]],
    h: Handle,
) -> Said
    ensures { outcome result (tables nums.new reals.now map.new pool.new) ≡ taken_of (tables nums.old reals.now map.old pool.old) h }
{
    let r = boxes::remove(nums, reals, map, pool, h);
    trace_telling::told(r.answer, Said::One(r.obj))
}

// A line that changes the boxes, with what its record says.
#[tactic(auto, unfolding(crate::specs::Meaning::Changes::change_of))]
pub fn change_boxes(
    nums: &mut [Row],
    reals: &mut [[f32; 4]],
    map: &mut [u64],
    pool: &mut [[u64; 2]],
    k: BoxChange,
    h: Handle,
    p: Spot,
    q: Spot,
    n: u32,
) -> Said
    requires { SpotInRange p × SpotInRange q }
    ensures { outcome result (tables nums.new reals.new map.new pool.new) ≡ change_of (tables nums.old reals.old map.old pool.old) k h p q n }
{
    match k {
        BoxChange::Bin => bin(nums, reals, map, pool, p, q, n),
        BoxChange::Bset => bset(nums, reals, map, pool, h, p, q),
        BoxChange::Brem => brem(nums, reals, map, pool, h),
    }
}

// The line that searches the boxes. The findings are in the outputs; their data, which the trace does not tell, in an array that is left again.
pub fn search_boxes(
    nums: &[Row],
    reals: &[[f32; 4]],
    map: &[u64],
    pool: &[[u64; 2]],
    ll: Spot,
    ur: Spot,
    handles: &mut [[u32; 2]],
    corners: &mut [[f32; 4]],
) -> Said
    requires { SpotInRange ll × SpotInRange ur }
    ensures { searched result handles.new corners.new ≡ box_search_of (tables nums.now reals.now map.now pool.now) ll ur handles.old corners.old }
{
    let q = trace_telling::corners(ll, ur);
    let mut objs = [0u32; 64];
    let r = boxes::query(nums, reals, map, pool, q, handles, corners, &mut objs);
    trace_telling::told(r.answer, Said::Boxes(r.count))
}
