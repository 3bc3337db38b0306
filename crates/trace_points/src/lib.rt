// What the point grid of the trace answers to a line: each is one call of the grid.
#![tactic(auto)]

ghost use Rattle.std.specs.Prelude.{◌≡◌};
ghost use Rattle.trace_lines.specs.Inner.Texts.{SpotInRange, CountInRange};
ghost use Rattle.point_tables.specs.Meaning.Outcome.{outcome};
ghost use Rattle.trace_points.specs.Meaning.Changes.{change_of, moved_of, inserted_of, taken_of, marked_of, maintained_of};
ghost use Rattle.trace_points.specs.Meaning.Searches.{searched, nearest_finds, findings_of, point_search_of};
ghost use Rattle.point_search.specs.Meaning.Searches.{findings, outputs};
ghost use Rattle.point_search.specs.Meaning.Lent.{Finds};
ghost use Rattle.point_tables.specs.Meaning.Tables.{tables};

use geometry::Position;
use replies::{Count, Nearest};
use slots::{Handle, Row};
use trace_lines::{PointChange, PointSearch, Spot};
use trace_printing::Said;

fn ins(
    nums: &mut [Row],
    reals: &mut [[f32; 4]],
    ints: &mut [[i32; 4]],
    map: &mut [u64],
    pool: &mut [[u64; 2]],
    spots: &mut [[f32; 2]],
    cells: &mut [[u64; 2]],
    at: Spot,
    obj: u32,
    tracker: u32,
) -> Said
    requires { SpotInRange at }
    ensures { outcome result (tables nums.new reals.new ints.new map.new pool.new spots.new cells.new) ≡ inserted_of (tables nums.old reals.old ints.old map.old pool.old spots.old cells.old) at obj tracker }
{
    let p = trace_telling::place(at);
    let r = points::insert(nums, reals, ints, map, pool, spots, cells, p, obj, tracker);
    trace_telling::told(r.answer, Said::Two(r.handle.slot, r.handle.version))
}

fn pos(
    nums: &mut [Row],
    reals: &mut [[f32; 4]],
    ints: &mut [[i32; 4]],
    map: &[u64],
    pool: &[[u64; 2]],
    spots: &[[f32; 2]],
    cells: &mut [[u64; 2]],
    h: Handle,
    at: Spot,
    tracker: u32,
) -> Said
    requires { SpotInRange at }
    ensures { outcome result (tables nums.new reals.new ints.new map.now pool.now spots.now cells.new) ≡ moved_of (tables nums.old reals.old ints.old map.now pool.now spots.now cells.old) h at tracker }
{
    let p = trace_telling::place(at);
    let answer = points::set_position(nums, reals, ints, map, pool, spots, cells, h, p, tracker);
    trace_telling::told(answer, Said::Done)
}

fn rem(
    nums: &mut [Row],
    reals: &mut [[f32; 4]],
    ints: &mut [[i32; 4]],
    map: &[u64],
    pool: &[[u64; 2]],
    spots: &[[f32; 2]],
    cells: &mut [[u64; 2]],
    h: Handle,
    tracker: u32,
) -> Said
    ensures { outcome result (tables nums.new reals.new ints.new map.now pool.now spots.now cells.new) ≡ marked_of (tables nums.old reals.old ints.old map.now pool.now spots.now cells.old) h tracker }
{
    let r = points::remove(nums, reals, ints, map, pool, spots, cells, h, tracker);
    trace_telling::told(r.answer, Said::One(r.obj))
}

fn now(
    nums: &mut [Row],
    reals: &[[f32; 4]],
    ints: &[[i32; 4]],
    map: &mut [u64],
    pool: &mut [[u64; 2]],
    spots: &mut [[f32; 2]],
    cells: &mut [[u64; 2]],
    h: Handle,
    tracker: u32,
) -> Said
    ensures { outcome result (tables nums.new reals.now ints.now map.new pool.new spots.new cells.new) ≡ taken_of (tables nums.old reals.now ints.now map.old pool.old spots.old cells.old) h tracker }
{
    let r = points::remove_maintain(nums, reals, ints, map, pool, spots, cells, h, tracker);
    trace_telling::told(r.answer, Said::One(r.obj))
}

fn mnt(
    nums: &mut [Row],
    reals: &mut [[f32; 4]],
    ints: &mut [[i32; 4]],
    map: &mut [u64],
    pool: &mut [[u64; 2]],
    spots: &mut [[f32; 2]],
    cells: &mut [[u64; 2]],
) -> Said
    ensures { outcome result (tables nums.new reals.new ints.new map.new pool.new spots.new cells.new) ≡ maintained_of (tables nums.old reals.old ints.old map.old pool.old spots.old cells.old) }
{
    let r = points::maintain(nums, reals, ints, map, pool, spots, cells);
    trace_telling::told(r.answer, Said::Two(r.moved, r.removed))
}

// A line that changes the points, with what its record says.
#[tactic(auto, unfolding(crate::specs::Meaning::Changes::change_of))]
pub fn change_points(
    nums: &mut [Row],
    reals: &mut [[f32; 4]],
    ints: &mut [[i32; 4]],
    map: &mut [u64],
    pool: &mut [[u64; 2]],
    spots: &mut [[f32; 2]],
    cells: &mut [[u64; 2]],
    change: PointChange,
    h: Handle,
    p: Spot,
    n: u32,
    k: u32,
) -> Said
    requires { SpotInRange p }
    ensures { outcome result (tables nums.new reals.new ints.new map.new pool.new spots.new cells.new) ≡ change_of (tables nums.old reals.old ints.old map.old pool.old spots.old cells.old) change h p n k }
{
    match change {
        PointChange::Ins => ins(nums, reals, ints, map, pool, spots, cells, p, n, k),
        PointChange::Pos => pos(nums, reals, ints, map, pool, spots, cells, h, p, k),
        PointChange::Rem => rem(nums, reals, ints, map, pool, spots, cells, h, k),
        PointChange::Now => now(nums, reals, ints, map, pool, spots, cells, h, k),
        PointChange::Mnt => mnt(nums, reals, ints, map, pool, spots, cells),
    }
}

// What `nearest` returned, as a search that finds at most one: the finding goes to place 0 of the outputs.
#[tactic(auto, using(crate::proofs::laws::NearLaws::none_found, crate::proofs::laws::NearLaws::too_short))]
fn near(
    r: Nearest,
    handles: &mut [[u32; 2]],
    places: &mut [[f32; 2]],
    objs: &mut [[u32; 2]],
) -> Count
    ensures { findings result (outputs handles.new places.new objs.new) ≡ nearest_finds r (outputs handles.old places.old objs.old) }
{
    let Nearest { answer, count, .. } = r;
    if count == 0 {
        return Count { answer, count };
    }
    if handles.is_empty() || places.is_empty() || objs.is_empty() {
        return Count::short(count);
    }
    handles[0] = [r.handle.slot, r.handle.version];
    places[0] = [r.position.x, r.position.y];
    objs[0] = [r.obj, r.tracker];
    Count { answer, count }
}

// Each line that searches the points is a query of the grid.
#[tactic(auto, unfolding(crate::specs::Meaning::Searches::findings_of))]
fn find(
    nums: &[Row],
    reals: &[[f32; 4]],
    ints: &[[i32; 4]],
    map: &[u64],
    pool: &[[u64; 2]],
    spots: &[[f32; 2]],
    cells: &[[u64; 2]],
    s: PointSearch,
    p: Position,
    q: Position,
    far: f32,
    handles: &mut [[u32; 2]],
    places: &mut [[f32; 2]],
    objs: &mut [[u32; 2]],
) -> Count
    ensures { Finds (λ t. findings_of t s p q far) result (tables nums.now reals.now ints.now map.now pool.now spots.now cells.now) (outputs handles.old places.old objs.old) (outputs handles.new places.new objs.new) }
{
    match s {
        PointSearch::Cir => {
            points::query_around(
                nums, reals, ints, map, pool, spots, cells, p, far, handles, places, objs,
            )
        }
        PointSearch::Rec => {
            points::query_aabb(
                nums, reals, ints, map, pool, spots, cells, p, q, handles, places, objs,
            )
        }
        PointSearch::Cel => {
            points::query(
                nums, reals, ints, map, pool, spots, cells, p, q, handles, places, objs,
            )
        }
        PointSearch::Near => {
            let r = points::nearest(nums, reals, ints, map, pool, spots, cells, p, far);
            near(r, handles, places, objs)
        }
    }
}

// A line that searches the points, with what its record says. The findings are in the outputs.
pub fn search_points(
    nums: &[Row],
    reals: &[[f32; 4]],
    ints: &[[i32; 4]],
    map: &[u64],
    pool: &[[u64; 2]],
    spots: &[[f32; 2]],
    cells: &[[u64; 2]],
    s: PointSearch,
    p: Spot,
    q: Spot,
    far: i32,
    handles: &mut [[u32; 2]],
    places: &mut [[f32; 2]],
    objs: &mut [[u32; 2]],
) -> Said
    requires { (SpotInRange p × SpotInRange q) × CountInRange far }
    ensures { searched result (outputs handles.new places.new objs.new) ≡ point_search_of (tables nums.now reals.now ints.now map.now pool.now spots.now cells.now) s p q far (outputs handles.old places.old objs.old) }
{
    let a = trace_telling::place(p);
    let b = trace_telling::place(q);
    let radius = trace_sixteenths::from_sixteenths(far);
    let r = find(
        nums, reals, ints, map, pool, spots, cells, s, a, b, radius, handles, places, objs,
    );
    trace_telling::told(r.answer, Said::Points(r.count))
}
