// The nearest point by rings of cells, on a grid of 4,096 slots with cells of 16: among 4,096 points, then among three. Each line is what was
// asked, the answer, count, slot, version, x and y in sixteenths, data, tracker, and how many rings were looked through.
#![tactic(auto)]

ghost use Rattle.std.specs.Prelude.{◌<◌};

use geometry::Position;
use slots::Row;
use std::io;

const SLOTS: usize = 4096;

// The seven tables of a grid.
#[derive(Drop)]
struct Grid {
    nums: [Row; SLOTS],
    reals: [[f32; 4]; SLOTS],
    ints: [[i32; 4]; SLOTS],
    map: [u64; 67],
    pool: [[u64; 2]; SLOTS],
    spots: [[f32; 2]; SLOTS],
    cells: [[u64; 2]; SLOTS],
}

impl Grid {
    // A point, with data that tell its number; the eight trackers take turns.
    fn insert(&mut self, i: u16, at: Position) {
        points::insert(
            &mut self.nums,
            &mut self.reals,
            &mut self.ints,
            &mut self.map,
            &mut self.pool,
            &mut self.spots,
            &mut self.cells,
            at,
            i as u32 + 10000,
            i as u32 % 8,
        );
    }

    fn new(&mut self) -> u32 {
        points::new(
            &mut self.nums,
            &self.reals,
            &self.ints,
            &mut self.map,
            &self.pool,
            &self.spots,
            &self.cells,
            16,
        )
    }

    // A grid that is built: the answer, and how many points it has.
    fn tell_built(&self, rt: &impl Print, made: u32) -> io::Result<()> {
        let r = points::len(
            &self.nums,
            &self.reals,
            &self.ints,
            &self.map,
            &self.pool,
            &self.spots,
            &self.cells,
        );
        println!(rt; "built,{made},{}", r.count)
    }

    fn nearest(
        &self,
        rt: &impl Print,
        what: &str,
        centre: Position,
        radius: f32,
    ) -> io::Result<()> {
        let r = point_nearest::nearest_by_rings(
            &self.nums,
            &self.reals,
            &self.ints,
            &self.map,
            &self.pool,
            &self.spots,
            &self.cells,
            centre,
            radius,
        );
        let near = r.nearest;
        let handle = near.handle;
        let x = in_sixteenths(near.position.x);
        let y = in_sixteenths(near.position.y);
        println!(rt;
            "{what},{},{},{},{},{x},{y},{},{},{}",
            near.answer, near.count, handle.slot, handle.version, near.obj, near.tracker, r.rings
        )
    }
}

fn in_sixteenths(x: f32) -> i32 {
    cells::whole(x * 16.0)
}

fn at(x: f32, y: f32) -> Position {
    Position { x, y }
}

// Point i of many: a step of 37 across and of 101 up within 1280 by 720, and i % 16 sixteenths both ways, so that no two coincide.
fn across(i: u32) -> u16
    requires { i < 65536 }
{
    (i * 37 % 1280 * 16 + i % 16) as u16
}

fn up(i: u32) -> u16
    requires { i < 65536 }
{
    (i * 101 % 720 * 16 + i % 16) as u16
}

fn of_many(i: u16) -> Position {
    at(across(i as u32) as f32 / 16.0, up(i as u32) as f32 / 16.0)
}

fn among_many(rt: &impl Print, grid: &mut Grid) -> io::Result<()> {
    let made = grid.new();
    for i in 0..4096 {
        grid.insert(i, of_many(i));
    }
    grid.tell_built(rt, made)?;
    grid.nearest(rt, "middle", at(640.0, 360.0), 60.0)?;
    grid.nearest(rt, "on a point", of_many(2021), 60.0)?;
    grid.nearest(rt, "radius 0", of_many(2021), 0.0)?;
    grid.nearest(rt, "corner of a cell", at(640.0, 352.0), 60.0)?;
    grid.nearest(rt, "far outside", at(-300.0, 360.0), 400.0)
}

// Of three points two are equally near to the origin.
fn among_three(rt: &impl Print, grid: &mut Grid) -> io::Result<()> {
    let made = grid.new();
    grid.insert(0, at(-0.0, 300.0));
    grid.insert(1, at(300.0, -0.0));
    grid.insert(2, at(600.0, 700.0));
    grid.tell_built(rt, made)?;
    grid.nearest(rt, "past eight rings", at(350.0, 500.0), 400.0)?;
    grid.nearest(rt, "-0.0", at(-0.0, -0.0), 400.0)
}

fn main(rt: HostRuntime) -> io::Result<()> {
    let mut grid = Grid {
        nums: [[0; 4]; SLOTS],
        reals: [[0.0; 4]; SLOTS],
        ints: [[0; 4]; SLOTS],
        map: [0; 67],
        pool: [[0; 2]; SLOTS],
        spots: [[0.0; 2]; SLOTS],
        cells: [[0; 2]; SLOTS],
    };
    among_many(&rt, &mut grid)?;
    among_three(&rt, &mut grid)
}
