// A first frame at a desk, on a grid of two slots that three trackers share, then a slot at its last version, then points that rest: what a person
// reads is what the gate compares. Each line is a call, its answer and its numbers.
#![tactic(auto)]

use geometry::Position;
use replies::Count;
use slots::{Handle, Row};
use std::io;

// The numbers of the three trackers.
const HANDS: u32 = 1;

const LAMPS: u32 = 2;

const FACES: u32 = 7;

// No tracker's number.
const NOBODY: u32 = 8;

const SLOTS: usize = 2;

// What an output holds before a call: so it shows which places the call leaves alone.
const MARK: u32 = 77;

const FAR_MARK: f32 = 77.0;

// The seven tables of a grid. Each call is told in a line.
#[derive(Drop)]
struct Grid {
    nums: [Row; SLOTS],
    reals: [[f32; 4]; SLOTS],
    ints: [[i32; 4]; SLOTS],
    map: [u64; 4],
    pool: [[u64; 2]; SLOTS],
    spots: [[f32; 2]; SLOTS],
    cells: [[u64; 2]; SLOTS],
}

impl Grid {
    // Cells of 10.
    fn new(&mut self, rt: &impl Print) -> io::Result<()> {
        let answer = points::new(
            &mut self.nums,
            &self.reals,
            &self.ints,
            &mut self.map,
            &self.pool,
            &self.spots,
            &self.cells,
            10,
        );
        println!(rt; "new {answer},0,0")
    }

    // A tracker's point comes in: answer, slot, version.
    fn insert(&mut self, rt: &impl Print, at: Position, obj: u32, tracker: u32) -> io::Result<()> {
        let r = points::insert(
            &mut self.nums,
            &mut self.reals,
            &mut self.ints,
            &mut self.map,
            &mut self.pool,
            &mut self.spots,
            &mut self.cells,
            at,
            obj,
            tracker,
        );
        println!(rt;
            "insert {},{},{}",
            r.answer, r.handle.slot, r.handle.version
        )
    }

    // An object that came first into its slot is sent by a tracker: answer, slot, and the bits of the x that it is sent to.
    fn set_position(
        &mut self,
        rt: &impl Print,
        slot: u32,
        at: Position,
        tracker: u32,
    ) -> io::Result<()> {
        let h = Handle { slot, version: 1 };
        let answer = points::set_position(
            &mut self.nums,
            &mut self.reals,
            &mut self.ints,
            &self.map,
            &self.pool,
            &self.spots,
            &mut self.cells,
            h,
            at,
            tracker,
        );
        let bits = zero_bits(at.x);
        println!(rt; "set {answer},{slot},{bits}")
    }

    // Seven deferred calls with one check: a far move, two removals of one object, a move of what is removed, a handle that was never issued, and of an
    // object that is another tracker's a move and a removal. The answer of the batch, and what its calls got.
    fn batch(&mut self, rt: &impl Print) -> io::Result<()> {
        let kinds = [0, 1, 1, 0, 0, 0, 1];
        let handles = [
            [0, 1, HANDS],
            [1, 1, LAMPS],
            [1, 1, LAMPS],
            [1, 1, LAMPS],
            [0, 2, HANDS],
            [0, 1, FACES],
            [0, 1, LAMPS],
        ];
        let positions = [
            [300.0, -0.5],
            [0.0, 0.0],
            [0.0, 0.0],
            [1.0, 1.0],
            [0.0, 0.0],
            [1.0, 1.0],
            [0.0, 0.0],
        ];
        let mut out = [[9; 2]; 7];
        let r = points::batch(
            &mut self.nums,
            &mut self.reals,
            &mut self.ints,
            &self.map,
            &self.pool,
            &self.spots,
            &mut self.cells,
            &kinds,
            &handles,
            &positions,
            &mut out,
        );
        let [a, b, c, d, e, f, g] = out;
        println!(rt; "batch {},{},{}", r.answer, a[0], b[0])?;
        println!(rt; "removed {},{},{}", b[1], c[0], c[1])?;
        println!(rt; "refused {},{},{}", d[0], e[0], e[1])?;
        println!(rt; "foreign {},{},{}", f[0], g[0], g[1])
    }

    // The frame ends: answer, how many moved, how many were removed.
    fn maintain(&mut self, rt: &impl Print) -> io::Result<()> {
        let r = points::maintain(
            &mut self.nums,
            &mut self.reals,
            &mut self.ints,
            &mut self.map,
            &mut self.pool,
            &mut self.spots,
            &mut self.cells,
        );
        println!(rt; "maintain {},{},{}", r.answer, r.moved, r.removed)
    }

    // The object of slot 0 is taken out by its tracker at the last version, which is set in the table: no history of a few calls gets there.
    // Answer, data, and the tracker that asked.
    fn retire(&mut self, rt: &impl Print, tracker: u32) -> io::Result<()> {
        self.nums[0][0] = slots::LAST_VERSION;
        let h = Handle {
            slot: 0,
            version: slots::LAST_VERSION,
        };
        let r = points::remove_maintain(
            &mut self.nums,
            &self.reals,
            &self.ints,
            &mut self.map,
            &mut self.pool,
            &mut self.spots,
            &mut self.cells,
            h,
            tracker,
        );
        println!(rt; "taken {},{},{tracker}", r.answer, r.obj)
    }

    // Everything is taken out: answer, how many objects, data and tracker of the first.
    fn clear(&mut self, rt: &impl Print) -> io::Result<()> {
        let mut places = [[FAR_MARK; 2]; SLOTS];
        let mut objs = [[MARK; 2]; SLOTS];
        let r = points::clear(
            &mut self.nums,
            &self.reals,
            &self.ints,
            &mut self.map,
            &self.pool,
            &self.spots,
            &self.cells,
            &mut places,
            &mut objs,
        );
        let [obj, tracker] = objs[0];
        println!(rt; "clear {},{},{obj},{tracker}", r.answer, r.count)
    }

    // A handle is asked for: answer, data, and its version.
    fn get(&self, rt: &impl Print, slot: u32, version: u32) -> io::Result<()> {
        let h = Handle { slot, version };
        let r = points::get(
            &self.nums,
            &self.reals,
            &self.ints,
            &self.map,
            &self.pool,
            &self.spots,
            &self.cells,
            h,
        );
        println!(rt; "get {},{},{version}", r.answer, r.obj)
    }

    // What the grid has, told into a buffer that is one short.
    fn handles(&self, rt: &impl Print) -> io::Result<()> {
        let mut one = [[7; 2]; 1];
        let r = points::handles(
            &self.nums,
            &self.reals,
            &self.ints,
            &self.map,
            &self.pool,
            &self.spots,
            &self.cells,
            &mut one,
        );
        println!(rt; "handles {},{},{}", r.answer, r.count, one[0][0])
    }

    // A table in the place of another is found out.
    fn handles_of_wrong_pool(&self, rt: &impl Print) -> io::Result<()> {
        let mut one = [[7; 2]; 1];
        let r = points::handles(
            &self.nums,
            &self.reals,
            &self.ints,
            &self.map,
            &self.cells,
            &self.spots,
            &self.cells,
            &mut one,
        );
        println!(rt; "handles {},{},{}", r.answer, r.count, one[0][0])
    }

    // A circle of radius 8 round the origin.
    fn around(
        &self,
        found: &mut [[u32; 2]],
        places: &mut [[f32; 2]],
        objs: &mut [[u32; 2]],
    ) -> Count {
        let centre = Position { x: 0.0, y: 0.0 };
        points::query_around(
            &self.nums,
            &self.reals,
            &self.ints,
            &self.map,
            &self.pool,
            &self.spots,
            &self.cells,
            centre,
            8.0,
            found,
            places,
            objs,
        )
    }

    // Its answer, how many it finds, the slot, the data and the tracker of the last.
    fn circle(&self, rt: &impl Print) -> io::Result<()> {
        let mut found = [[MARK; 2]; SLOTS];
        let mut places = [[FAR_MARK; 2]; SLOTS];
        let mut objs = [[MARK; 2]; SLOTS];
        let r = self.around(&mut found, &mut places, &mut objs);
        let [obj, tracker] = objs[1];
        println!(rt;
            "circle {},{},{},{obj},{tracker}",
            r.answer, r.count, found[1][0]
        )
    }

    // The same with too few places for data and tracker alone: answer, how many it finds, and the marks, which stand in all three outputs.
    fn short_circle(&self, rt: &impl Print) -> io::Result<()> {
        let mut found = [[MARK; 2]; SLOTS];
        let mut places = [[FAR_MARK; 2]; SLOTS];
        let mut objs = [[MARK; 2]; 1];
        let r = self.around(&mut found, &mut places, &mut objs);
        let [obj, tracker] = objs[0];
        println!(rt; "short {},{},{obj},{tracker}", r.answer, r.count)?;
        let first = mark_of(places[0]);
        let second = mark_of(places[1]);
        println!(rt; "kept {},{},{first},{second}", found[0][0], found[1][0])
    }

    // The same with a place too many for them: answer, how many it finds, data and tracker of the last, and the mark behind it.
    fn long_circle(&self, rt: &impl Print) -> io::Result<()> {
        let mut found = [[MARK; 2]; SLOTS];
        let mut places = [[FAR_MARK; 2]; SLOTS];
        let mut objs = [[MARK; 2]; 3];
        let r = self.around(&mut found, &mut places, &mut objs);
        let [obj, tracker] = objs[1];
        println!(rt;
            "long {},{},{obj},{tracker},{}",
            r.answer, r.count, objs[2][0]
        )
    }

    // What `get` says of the first object: answer, data, tracker, the bits of its x; and a circle: answer, how many it finds, then the same of the first.
    fn show_zero(&self, rt: &impl Print) -> io::Result<()> {
        let h = Handle {
            slot: 0,
            version: 1,
        };
        let g = points::get(
            &self.nums,
            &self.reals,
            &self.ints,
            &self.map,
            &self.pool,
            &self.spots,
            &self.cells,
            h,
        );
        let bits = zero_bits(g.position.x);
        println!(rt; "get {},{},{},{bits}", g.answer, g.obj, g.tracker)?;
        let mut found = [[MARK; 2]; SLOTS];
        let mut places = [[FAR_MARK; 2]; SLOTS];
        let mut objs = [[MARK; 2]; SLOTS];
        let r = self.around(&mut found, &mut places, &mut objs);
        let [obj, tracker] = objs[0];
        let bits = zero_bits(places[0][0]);
        println!(rt; "circle {},{},{obj},{tracker},{bits}", r.answer, r.count)
    }
}

// A position that is still the mark is shown as the mark, another as 0.
fn mark_of(p: [f32; 2]) -> u32 {
    if p[0] == FAR_MARK { MARK } else { 0 }
}

// The bits of a zero: 0, or 2147483648 with its minus. Another number is shown as 77.
fn zero_bits(x: f32) -> u32 {
    if x == 0.0 { x.to_bits() } else { 77 }
}

// Each tracker's point comes, and the third finds no slot. A number that is no tracker's is refused before that.
fn open(rt: &impl Print, grid: &mut Grid) -> io::Result<()> {
    let home = Position { x: 0.0, y: 0.0 };
    let near = Position { x: 5.0, y: 5.0 };
    grid.new(rt)?;
    grid.insert(rt, home, 7, HANDS)?;
    grid.insert(rt, near, 8, LAMPS)?;
    grid.insert(rt, near, 9, FACES)?;
    grid.insert(rt, near, 9, NOBODY)
}

// What is pending is not seen before the frame ends: then one point has moved and one is removed, and the circle finds neither near the origin.
fn frame(rt: &impl Print, grid: &mut Grid) -> io::Result<()> {
    grid.batch(rt)?;
    grid.circle(rt)?;
    grid.short_circle(rt)?;
    grid.long_circle(rt)?;
    grid.handles(rt)?;
    grid.handles_of_wrong_pool(rt)?;
    grid.maintain(rt)?;
    grid.circle(rt)
}

// All that the retired slot had is gone, version 0 was never issued, and the next point takes the other slot; once that is emptied its handle
// is gone too.
fn last(rt: &impl Print, grid: &mut Grid) -> io::Result<()> {
    let home = Position { x: 0.0, y: 0.0 };
    grid.new(rt)?;
    grid.insert(rt, home, 7, HANDS)?;
    grid.retire(rt, LAMPS)?;
    grid.retire(rt, HANDS)?;
    for version in [slots::LAST_VERSION, slots::LAST_VERSION - 1, 1, 0] {
        grid.get(rt, 0, version)?;
    }
    grid.insert(rt, home, 8, FACES)?;
    grid.clear(rt)?;
    grid.get(rt, 1, 1)
}

// A point is sent where it is but for a zero's sign, and back: it has not moved, and takes the bits. Another tracker cannot send it. Then one rests,
// and another goes by the least step that there is from 16: it alone has moved.
fn rest(rt: &impl Print, grid: &mut Grid) -> io::Result<()> {
    let plus = Position { x: 0.0, y: 5.0 };
    let minus = Position { x: -0.0, y: 5.0 };
    grid.new(rt)?;
    grid.insert(rt, plus, 7, HANDS)?;
    grid.set_position(rt, 0, minus, HANDS)?;
    grid.set_position(rt, 0, plus, LAMPS)?;
    grid.maintain(rt)?;
    grid.show_zero(rt)?;
    grid.set_position(rt, 0, plus, HANDS)?;
    grid.maintain(rt)?;
    grid.show_zero(rt)?;
    let there = Position { x: 16.0, y: 5.0 };
    let step = Position {
        x: 16.0000019073486328125,
        y: 5.0,
    };
    grid.insert(rt, there, 8, LAMPS)?;
    grid.set_position(rt, 0, plus, HANDS)?;
    grid.set_position(rt, 1, step, LAMPS)?;
    grid.maintain(rt)
}

fn main(rt: HostRuntime) -> io::Result<()> {
    let mut grid = Grid {
        nums: [[0; 4]; SLOTS],
        reals: [[0.0; 4]; SLOTS],
        ints: [[0; 4]; SLOTS],
        map: [0; 4],
        pool: [[0; 2]; SLOTS],
        spots: [[0.0; 2]; SLOTS],
        cells: [[0; 2]; SLOTS],
    };
    open(&rt, &mut grid)?;
    frame(&rt, &mut grid)?;
    last(&rt, &mut grid)?;
    rest(&rt, &mut grid)
}
