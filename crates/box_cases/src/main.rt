// Runs cases of boxes: the box test that holds by rounding, boxes and queries of 4,096 and of 4,160 cells, and a slot at its last version.
// Each line is a call, its answer and its number.
#![tactic(auto)]

use geometry::{Aabb, Position};
use slots::{Handle, Row};
use std::io;

const SLOTS: usize = 4;

// A grid of four slots in a pool of the most entries. Each call is told in a line.
#[derive(Drop)]
struct Grid {
    nums: [Row; SLOTS],
    reals: [[f32; 4]; SLOTS],
    map: [u64; 4],
    pool: [[u64; 2]; basics::MOST_ENTRIES],
}

impl Grid {
    fn new(&mut self, rt: &impl Print, size: u32) -> io::Result<()> {
        let answer = boxes::new(&mut self.nums, &self.reals, &mut self.map, &self.pool, size);
        println!(rt; "new {answer},{size}")
    }

    // Answer, and the version of the handle.
    fn insert(&mut self, rt: &impl Print, b: Aabb) -> io::Result<()> {
        let r = boxes::insert(
            &mut self.nums,
            &mut self.reals,
            &mut self.map,
            &mut self.pool,
            b,
            7,
        );
        println!(rt; "insert {},{}", r.answer, r.handle.version)
    }

    // Answer, and how many boxes it finds.
    fn query(&self, rt: &impl Print, q: Aabb) -> io::Result<()> {
        let mut found = [[0; 2]; SLOTS];
        let mut areas = [[0.0; 4]; SLOTS];
        let mut objs = [0; SLOTS];
        let r = boxes::query(
            &self.nums,
            &self.reals,
            &self.map,
            &self.pool,
            q,
            &mut found,
            &mut areas,
            &mut objs,
        );
        println!(rt; "query {},{}", r.answer, r.count)
    }

    // Answer, and the version that was asked for.
    fn get(&self, rt: &impl Print, h: Handle) -> io::Result<()> {
        let r = boxes::get(&self.nums, &self.reals, &self.map, &self.pool, h);
        println!(rt; "get {},{}", r.answer, h.version)
    }

    // The box of slot 0 is taken out at the last version, which is set in the table: no history of a few calls gets there.
    fn retire(&mut self, rt: &impl Print) -> io::Result<()> {
        self.nums[0][0] = slots::LAST_VERSION;
        let r = boxes::remove(
            &mut self.nums,
            &self.reals,
            &mut self.map,
            &mut self.pool,
            handle(0, slots::LAST_VERSION),
        );
        println!(rt; "remove {},{}", r.answer, r.obj)
    }

    // A box in the next usable slot, which is told; then everything is taken out.
    fn refill(&mut self, rt: &impl Print) -> io::Result<()> {
        let r = boxes::insert(
            &mut self.nums,
            &mut self.reals,
            &mut self.map,
            &mut self.pool,
            corners(0.0, 0.0, 1.0, 1.0),
            8,
        );
        println!(rt; "slot {},{}", r.answer, r.handle.slot)?;
        let mut areas = [[0.0; 4]; SLOTS];
        let mut objs = [0; SLOTS];
        let c = boxes::clear(
            &mut self.nums,
            &self.reals,
            &mut self.map,
            &self.pool,
            &mut areas,
            &mut objs,
        );
        println!(rt; "clear {},{}", c.answer, c.count)
    }
}

fn corners(left: f32, low: f32, right: f32, high: f32) -> Aabb {
    Aabb {
        ll: Position { x: left, y: low },
        ur: Position { x: right, y: high },
    }
}

fn handle(slot: u32, version: u32) -> Handle {
    Handle { slot, version }
}

// The stored box ends at 1 - 2^-24: at size 10 it shares a cell with the query, at size 1 it does not.
fn rounding(rt: &impl Print, grid: &mut Grid, size: u32) -> io::Result<()> {
    grid.new(rt, size)?;
    grid.insert(rt, corners(0.0, 0.0, 0.99999994, 0.0))?;
    grid.query(rt, corners(1.0, 0.0, 3.0, 0.0))
}

// At size 1: 64 by 64 cells, then 65 by 64.
fn wide(rt: &impl Print, grid: &mut Grid) -> io::Result<()> {
    grid.insert(rt, corners(0.0, 0.0, 63.0, 63.0))?;
    grid.insert(rt, corners(0.0, 0.0, 64.0, 63.0))?;
    grid.query(rt, corners(0.0, 0.0, 63.0, 63.0))?;
    grid.query(rt, corners(0.0, 0.0, 64.0, 63.0))?;
    grid.insert(rt, corners(0.0, 0.0, 63.0, 63.0))
}

// All that the retired slot had is gone, and version 0 was never issued; a box that `clear` took out is gone too.
fn last(rt: &impl Print, grid: &mut Grid) -> io::Result<()> {
    grid.new(rt, 10)?;
    grid.insert(rt, corners(0.0, 0.0, 1.0, 1.0))?;
    grid.retire(rt)?;
    for version in [slots::LAST_VERSION, slots::LAST_VERSION - 1, 1, 0] {
        grid.get(rt, handle(0, version))?;
    }
    grid.refill(rt)?;
    grid.get(rt, handle(1, 1))
}

fn main(rt: HostRuntime) -> io::Result<()> {
    let mut grid = Grid {
        nums: [[0; 4]; SLOTS],
        reals: [[0.0; 4]; SLOTS],
        map: [0; 4],
        pool: [[0; 2]; basics::MOST_ENTRIES],
    };
    rounding(&rt, &mut grid, 10)?;
    rounding(&rt, &mut grid, 1)?;
    wide(&rt, &mut grid)?;
    last(&rt, &mut grid)
}
