// The queries of a point grid: `query`, `query_around`, `query_aabb`. Each is a `search`, which checks the tables first.
#![tactic(auto)]

ghost use Rattle.std.specs.Prelude.{◌≡◌, ◌&&◌};
ghost use Rattle.geometry.specs.Meaning.Domain.{position_in_domain, radius_in_domain};
ghost use Rattle.point_search.specs.Meaning.Lent.{Finds};
ghost use Rattle.point_query.specs.Meaning.Queries.{query_of, around_of, aabb_of};
ghost use Rattle.point_search.specs.Meaning.Searches.{outputs};
ghost use Rattle.point_tables.specs.Meaning.Tables.{tables};

use geometry::{
    Position, corner_above, corner_below, lower_corner, position_in_domain, radius_in_domain,
    upper_corner,
};
use point_search::{Test, search};
use replies::Count;
use slots::Row;

// Whether the numbers of a query are in the domain. Both are asked in any case: `&&` would take twenty instructions more a call.
fn corners_in_domain(p: Position, q: Position) -> bool
    ensures { result ≡ (position_in_domain p && position_in_domain q) }
{
    position_in_domain(p) & position_in_domain(q)
}

pub fn circle_in_domain(centre: Position, radius: f32) -> bool
    ensures { result ≡ (position_in_domain centre && radius_in_domain radius) }
{
    position_in_domain(centre) & radius_in_domain(radius)
}

// All entries of the range. The corners are not swapped: a reversed range is empty.
pub fn query(
    nums: &[Row],
    reals: &[[f32; 4]],
    ints: &[[i32; 4]],
    map: &[u64],
    pool: &[[u64; 2]],
    spots: &[[f32; 2]],
    cells: &[[u64; 2]],
    ll: Position,
    ur: Position,
    found: &mut [[u32; 2]],
    places: &mut [[f32; 2]],
    objs: &mut [[u32; 2]],
) -> Count
    ensures { Finds (λ t. query_of t ll ur) result (tables nums.now reals.now ints.now map.now pool.now spots.now cells.now) (outputs found.old places.old objs.old) (outputs found.new places.new objs.new) }
{
    let ok = corners_in_domain(ll, ur);
    search(
        nums,
        reals,
        ints,
        map,
        pool,
        spots,
        cells,
        ok,
        ll,
        ur,
        Test::Any,
        found,
        places,
        objs,
    )
}

// The entries nearer to the centre than the radius. The corners of the range may leave the domain.
pub fn query_around(
    nums: &[Row],
    reals: &[[f32; 4]],
    ints: &[[i32; 4]],
    map: &[u64],
    pool: &[[u64; 2]],
    spots: &[[f32; 2]],
    cells: &[[u64; 2]],
    centre: Position,
    radius: f32,
    found: &mut [[u32; 2]],
    places: &mut [[f32; 2]],
    objs: &mut [[u32; 2]],
) -> Count
    ensures { Finds (λ t. around_of t centre radius) result (tables nums.now reals.now ints.now map.now pool.now spots.now cells.now) (outputs found.old places.old objs.old) (outputs found.new places.new objs.new) }
{
    let ok = circle_in_domain(centre, radius);
    let ll = corner_below(centre, radius);
    let ur = corner_above(centre, radius);
    search(
        nums,
        reals,
        ints,
        map,
        pool,
        spots,
        cells,
        ok,
        ll,
        ur,
        Test::Circle(centre, radius),
        found,
        places,
        objs,
    )
}

// The entries of the rectangle that has a and b as opposite corners, edges included.
pub fn query_aabb(
    nums: &[Row],
    reals: &[[f32; 4]],
    ints: &[[i32; 4]],
    map: &[u64],
    pool: &[[u64; 2]],
    spots: &[[f32; 2]],
    cells: &[[u64; 2]],
    a: Position,
    b: Position,
    found: &mut [[u32; 2]],
    places: &mut [[f32; 2]],
    objs: &mut [[u32; 2]],
) -> Count
    ensures { Finds (λ t. aabb_of t a b) result (tables nums.now reals.now ints.now map.now pool.now spots.now cells.now) (outputs found.old places.old objs.old) (outputs found.new places.new objs.new) }
{
    let ok = corners_in_domain(a, b);
    let ll = lower_corner(a, b);
    let ur = upper_corner(a, b);
    search(
        nums,
        reals,
        ints,
        map,
        pool,
        spots,
        cells,
        ok,
        ll,
        ur,
        Test::Rectangle(ll, ur),
        found,
        places,
        objs,
    )
}
