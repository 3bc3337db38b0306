// The search that the three queries of a point grid are: the entries of a range that pass a test, written into the outputs. What is asked of the range first
// is a function of its own, with the check of the tables in it.
#![tactic(auto)]

ghost use Rattle.std.specs.Prelude.{◌≡◌};
ghost use Rattle.basics.specs.Words.{true};
ghost use Rattle.cells.specs.Inner.CellRule.{Reached};
ghost use Rattle.point_search.specs.Meaning.Searches.{search_of, outputs};
ghost use Rattle.point_search.specs.Meaning.Lent.{Finds};
ghost use Rattle.point_search.specs.Inner.Asked.{Ranged};
ghost use Rattle.point_tables.specs.Meaning.Tables.{tables};

mod fill;
mod gather;

use basics::Refusal;
use cells::{Cell, cell_at, cells_in};
use fill::fill;
pub use fill::finding_of;
use geometry::Position;
use replies::Count;
use slots::{Handle, Row};

// What a found position must pass, besides standing in the range: nothing, a circle of a centre and a radius, or a rectangle of two corners. An enum and no
// closure, since the theorems of the queries speak of the test as a value (`search_of`, `circle_scan`, `rectangle_scan`).
#[derive(Clone, Copy)]
pub enum Test {
    Any,
    Circle(Position, f32),
    Rectangle(Position, Position),
}

// What a query reports of an entry.
#[derive(Clone, Copy)]
pub struct Finding {
    pub handle: Handle,
    pub position: Position,
    pub obj: u32,
    pub tracker: u32,
}

// The cells of the corners of a range.
#[derive(Clone, Copy)]
pub struct Range {
    pub a: Cell,
    pub b: Cell,
}

// How many places a walk has collected, and the place up to which.
#[derive(Clone, Copy)]
pub struct Part {
    pub number: usize,
    pub place: usize,
}

// What is asked of the range from the cell of `ll` to that of `ur` before anything is looked for in it. `ok` says whether the numbers that were given are in
// the domain.
pub fn range_of(
    nums: &[Row],
    reals: &[[f32; 4]],
    ints: &[[i32; 4]],
    map: &[u64],
    pool: &[[u64; 2]],
    spots: &[[f32; 2]],
    cells: &[[u64; 2]],
    ok: bool,
    ll: Position,
    ur: Position,
) -> Result<Range, Refusal>
    requires { ok ≡ true → Reached ll × Reached ur }
    ensures { Ranged (tables nums.now reals.now ints.now map.now pool.now spots.now cells.now) ok ll ur result }
{
    if !point_tables::check(nums, reals, ints, map, pool, spots, cells) {
        return Err(Refusal::Tables);
    }
    if !ok {
        return Err(Refusal::OutsideDomain);
    }
    let size = map[0];
    let a = cell_at(size, ll);
    let b = cell_at(size, ur);
    if basics::MOST_CELLS < cells_in(a, b) {
        return Err(Refusal::TooManyCells);
    }
    Ok(Range { a, b })
}

// What the three queries are: a range, and a test. `ok` says whether the numbers that were given are in the domain.
pub fn search(
    nums: &[Row],
    reals: &[[f32; 4]],
    ints: &[[i32; 4]],
    map: &[u64],
    pool: &[[u64; 2]],
    spots: &[[f32; 2]],
    cells: &[[u64; 2]],
    ok: bool,
    ll: Position,
    ur: Position,
    test: Test,
    handles: &mut [[u32; 2]],
    places: &mut [[f32; 2]],
    objs: &mut [[u32; 2]],
) -> Count
    requires { ok ≡ true → Reached ll × Reached ur }
    ensures { Finds (λ t. search_of t ok ll ur test) result (tables nums.now reals.now ints.now map.now pool.now spots.now cells.now) (outputs handles.old places.old objs.old) (outputs handles.new places.new objs.new) }
{
    match range_of(nums, reals, ints, map, pool, spots, cells, ok, ll, ur) {
        Ok(Range { a, b }) => {
            let used = map[1] as usize;
            fill(nums, pool, spots, used, a, b, test, handles, places, objs)
        }
        Err(why) => Count::from(Err(why)),
    }
}
