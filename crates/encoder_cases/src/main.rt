// The cases of the encoder's map, run, each from the grids as given. A line is what was asked, the answer, and the bytes that are not 0 with their places;
// of a refused call how many bytes are as they were.
#![tactic(auto)]

use geometry::{Aabb, Position};
use slots::{Handle, Row};
use std::io;

// How far a frame has come: nothing is asked for; the third point is sent far away and the second marked removed; both are settled.
#[derive(Clone, Copy, PartialEq, Eq)]
enum Frame {
    Begun,
    Sent,
    Settled,
}

// A case: more points than are given, how far the frame has come, the cell sizes of both grids, and the circles.
#[derive(Clone, Copy)]
struct Case<'a> {
    more: &'a [[f32; 2]],
    frame: Frame,
    size: u32,
    box_size: u32,
    circles: &'a [[f32; 3]],
}

// What is not said otherwise.
const GIVEN: Case<'static> = Case {
    more: &[],
    frame: Frame::Begun,
    size: 16,
    box_size: 16,
    circles: &[[8.0, 8.0, 1.0]],
};

// What every byte of a map is before its call.
const MARK: u8 = 7;

const BYTES: usize = 3600;

// The tables of a point grid of eight slots.
#[derive(Drop)]
struct Points {
    nums: [Row; 8],
    reals: [[f32; 4]; 8],
    ints: [[i32; 4]; 8],
    map: [u64; 4],
    pool: [[u64; 2]; 8],
    spots: [[f32; 2]; 8],
    cells: [[u64; 2]; 8],
}

impl Points {
    fn new(size: u32) -> Points {
        let mut t = Points {
            nums: [[0; 4]; 8],
            reals: [[0.0; 4]; 8],
            ints: [[0; 4]; 8],
            map: [0; 4],
            pool: [[0; 2]; 8],
            spots: [[0.0; 2]; 8],
            cells: [[0; 2]; 8],
        };
        points::new(
            &mut t.nums,
            &t.reals,
            &t.ints,
            &mut t.map,
            &t.pool,
            &t.spots,
            &t.cells,
            size,
        );
        t
    }

    fn insert(&mut self, places: &[[f32; 2]]) {
        for place in places {
            points::insert(
                &mut self.nums,
                &mut self.reals,
                &mut self.ints,
                &mut self.map,
                &mut self.pool,
                &mut self.spots,
                &mut self.cells,
                at(*place),
                7,
                0,
            );
        }
    }

    fn send(&mut self, slot: u32, place: [f32; 2]) {
        points::set_position(
            &mut self.nums,
            &mut self.reals,
            &mut self.ints,
            &self.map,
            &self.pool,
            &self.spots,
            &mut self.cells,
            Handle { slot, version: 1 },
            at(place),
            0,
        );
    }

    fn remove(&mut self, slot: u32) {
        points::remove(
            &mut self.nums,
            &mut self.reals,
            &mut self.ints,
            &self.map,
            &self.pool,
            &self.spots,
            &mut self.cells,
            Handle { slot, version: 1 },
            0,
        );
    }

    fn maintain(&mut self) {
        points::maintain(
            &mut self.nums,
            &mut self.reals,
            &mut self.ints,
            &mut self.map,
            &mut self.pool,
            &mut self.spots,
            &mut self.cells,
        );
    }
}

// The tables of a box grid of four slots.
#[derive(Drop)]
struct Boxes {
    nums: [Row; 4],
    reals: [[f32; 4]; 4],
    map: [u64; 4],
    pool: [[u64; 2]; 16],
}

impl Boxes {
    fn new(size: u32) -> Boxes {
        let mut t = Boxes {
            nums: [[0; 4]; 4],
            reals: [[0.0; 4]; 4],
            map: [0; 4],
            pool: [[0; 2]; 16],
        };
        boxes::new(&mut t.nums, &t.reals, &mut t.map, &t.pool, size);
        t
    }

    fn insert(&mut self, b: Aabb) {
        boxes::insert(
            &mut self.nums,
            &mut self.reals,
            &mut self.map,
            &mut self.pool,
            b,
            7,
        );
    }
}

fn at([x, y]: [f32; 2]) -> Position {
    Position { x, y }
}

// The six points that are given, and more; and what the frame asks of them.
fn points_of(case: Case) -> Points {
    let mut points = Points::new(case.size);
    points.insert(&[
        [8.0, 8.0],
        [24.0, 8.0],
        [40.0, 8.0],
        [1279.0, 719.0],
        [1280.0, 8.0],
        [-1.0, 8.0],
    ]);
    points.insert(case.more);
    if case.frame != Frame::Begun {
        points.send(2, [200.0, 200.0]);
        points.remove(1);
    }
    if case.frame == Frame::Settled {
        points.maintain();
    }
    points
}

// The box that is given.
fn boxes_of(case: Case) -> Boxes {
    let mut boxes = Boxes::new(case.box_size);
    boxes.insert(Aabb {
        ll: at([48.0, 0.0]),
        ur: at([64.0, 16.0]),
    });
    boxes
}

fn tell(rt: &impl Print, what: &str, answer: u32, bytes: &[u8]) -> io::Result<()> {
    print!(rt; "{what}: {answer}")?;
    if answer == 0 {
        for (place, byte) in bytes.iter().enumerate() {
            if *byte != 0 {
                print!(rt; " {place}:{byte}")?;
            }
        }
    } else {
        let kept = bytes.iter().filter(|byte| **byte == MARK).count();
        print!(rt; " {kept}")?;
    }
    println!(rt; "")
}

fn run(rt: &impl Print, what: &str, case: Case, bytes: &mut [u8]) -> io::Result<()> {
    let p = points_of(case);
    let b = boxes_of(case);
    let answer = encoder::fill_map(
        &p.nums,
        &p.reals,
        &p.ints,
        &p.map,
        &p.pool,
        &p.spots,
        &p.cells,
        &b.nums,
        &b.reals,
        &b.map,
        &b.pool,
        case.circles,
        bytes,
    );
    tell(rt, what, answer, bytes)
}

// With as many bytes as a map has.
fn run_whole(rt: &impl Print, what: &str, case: Case) -> io::Result<()> {
    run(rt, what, case, &mut [MARK; BYTES])
}

// What is accepted.
fn accepted(rt: &impl Print) -> io::Result<()> {
    run_whole(rt, "as given", GIVEN)?;
    run_whole(
        rt,
        "sent and marked",
        Case {
            frame: Frame::Sent,
            ..GIVEN
        },
    )?;
    run_whole(
        rt,
        "settled",
        Case {
            frame: Frame::Settled,
            ..GIVEN
        },
    )?;
    run_whole(
        rt,
        "no circle",
        Case {
            circles: &[],
            ..GIVEN
        },
    )?;
    run_whole(
        rt,
        "two points",
        Case {
            more: &[[16.0, 16.0], [-0.0, 32.0]],
            ..GIVEN
        },
    )?;
    run_whole(
        rt,
        "two circles",
        Case {
            more: &[[50.0, 8.0]],
            circles: &[[8.0, 8.0, 1.0], [56.0, 8.0, 9.0]],
            ..GIVEN
        },
    )?;
    run_whole(
        rt,
        "radius 511",
        Case {
            circles: &[[0.0, 0.0, 511.0]],
            ..GIVEN
        },
    )
}

// 7 alone, and 6 before 7: a later circle outside the domain counts more than an earlier one that is too wide.
fn refused_circles(rt: &impl Print) -> io::Result<()> {
    let zero = 0.0f32;
    run_whole(
        rt,
        "radius 512",
        Case {
            circles: &[[0.0, 0.0, 512.0]],
            ..GIVEN
        },
    )?;
    run_whole(
        rt,
        "then -1",
        Case {
            circles: &[[0.0, 0.0, 512.0], [0.0, 0.0, -1.0]],
            ..GIVEN
        },
    )?;
    run_whole(
        rt,
        "then NaN",
        Case {
            circles: &[[0.0, 0.0, 512.0], [0.0, 0.0, zero / zero]],
            ..GIVEN
        },
    )
}

// A byte too few, one too many, a circle too many, and cells of 8 in either grid.
fn refused_tables(rt: &impl Print) -> io::Result<()> {
    run(rt, "3,599 bytes", GIVEN, &mut [MARK; 3599])?;
    run(rt, "3,601 bytes", GIVEN, &mut [MARK; 3601])?;
    run_whole(
        rt,
        "17 circles",
        Case {
            circles: &[[8.0, 8.0, 1.0]; 17],
            ..GIVEN
        },
    )?;
    run_whole(
        rt,
        "boxes of size 8",
        Case {
            box_size: 8,
            ..GIVEN
        },
    )?;
    run_whole(rt, "points of size 8", Case { size: 8, ..GIVEN })
}

fn main(rt: HostRuntime) -> io::Result<()> {
    accepted(&rt)?;
    refused_circles(&rt)?;
    refused_tables(&rt)
}
