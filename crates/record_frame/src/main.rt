// A small history on a table of records that is made by value: an object that is on its way to another cell is asked for, is settled, and is
// asked for again; tables that are no grid are refused. Each line is what was asked, get's answer, the data and the tracker, and the state of the
// record: 0 unchanged, 1 new position, 2 relocate, 3 removed. The columns are scratch. Before it, who may send the object there: the tracker and the answer.
#![tactic(auto)]

ghost use Rattle.std.specs.Prelude.{◌≡◌};
ghost use Rattle.record_maintain.specs.Meaning.Calls.{maintain_on};
ghost use Rattle.record_get.specs.Meaning.Calls.{get_on};
ghost use Rattle.point_tables.specs.Meaning.Tables.{tables};

use cells::Cell;
use geometry::Position;
use point_get::Got;
use point_records::{Record, State, Tracker};
use slots::{Handle, Row};
use std::io;

// ---- a call on a table that is handed over by value
fn maintain_in2(
    t: [Record; 2],
    nums: &mut [Row],
    reals: &mut [[f32; 4]],
    ints: &mut [[i32; 4]],
    map: &mut [u64],
    pool: &mut [[u64; 2]],
    spots: &mut [[f32; 2]],
    cells: &mut [[u64; 2]],
) -> [Record; 2]
    ensures { result ≡ (maintain_on t (tables nums.old reals.old ints.old map.old pool.old spots.old cells.old)).records }
{
    let mut u = t;
    record_maintain::maintain(&mut u, nums, reals, ints, map, pool, spots, cells);
    u
}

fn get_in2(
    t: [Record; 2],
    nums: &mut [Row],
    reals: &mut [[f32; 4]],
    ints: &mut [[i32; 4]],
    map: &mut [u64],
    pool: &mut [[u64; 2]],
    spots: &mut [[f32; 2]],
    cells: &mut [[u64; 2]],
    h: Handle,
) -> Got
    ensures { result ≡ (get_on t (tables nums.old reals.old ints.old map.old pool.old spots.old cells.old) h).result }
{
    let u = t;
    record_get::get(&u, nums, reals, ints, map, pool, spots, cells, h)
}

// The object of slot 0, a tracker's, at the origin, of a version, on its way to (16, 0), which is of cell (1, 0); slot 1 is free.
fn table(version: u32, target: Cell, tracker: Tracker) -> [Record; 2] {
    let home = Cell { x: 0, y: 0 };
    let origin = Position { x: 0.0, y: 0.0 };
    let state = State::Relocate(Position { x: 16.0, y: 0.0 }, target);
    let moving = Record {
        version,
        phase: slots::LIVE,
        obj: 7,
        position: origin,
        cell: home,
        state,
        tracker,
    };
    let nothing = Record {
        version: 1,
        phase: slots::FREE,
        obj: 0,
        position: origin,
        cell: home,
        state: State::Unchanged,
        tracker: Tracker::T0,
    };
    [moving, nothing]
}

// The columns of two slots: scratch for the calls on a table of records.
#[derive(Drop)]
struct Columns {
    nums: [Row; 2],
    reals: [[f32; 4]; 2],
    ints: [[i32; 4]; 2],
    map: [u64; 4],
    pool: [[u64; 2]; 2],
    spots: [[f32; 2]; 2],
    cells: [[u64; 2]; 2],
}

impl Columns {
    fn ask(&mut self, rt: &impl Print, what: &str, t: [Record; 2]) -> io::Result<()> {
        let one = Handle {
            slot: 0,
            version: 1,
        };
        let g = get_in2(
            t,
            &mut self.nums,
            &mut self.reals,
            &mut self.ints,
            &mut self.map,
            &mut self.pool,
            &mut self.spots,
            &mut self.cells,
            one,
        );
        let tag = point_records::tag_of(t[0].state);
        println!(rt; "{what} {},{},{},{tag}", g.answer, g.obj, g.tracker)
    }

    fn maintain(&mut self, t: [Record; 2]) -> [Record; 2] {
        maintain_in2(
            t,
            &mut self.nums,
            &mut self.reals,
            &mut self.ints,
            &mut self.map,
            &mut self.pool,
            &mut self.spots,
            &mut self.cells,
        )
    }

    // A tracker sends the object to (16, 0): its number and the answer.
    fn send(&mut self, rt: &impl Print, h: Handle, tracker: u32) -> io::Result<()> {
        let away = Position { x: 16.0, y: 0.0 };
        let answer = points::set_position(
            &mut self.nums,
            &mut self.reals,
            &mut self.ints,
            &self.map,
            &self.pool,
            &self.spots,
            &mut self.cells,
            h,
            away,
            tracker,
        );
        println!(rt; "sent by {tracker} {answer}")
    }

    // A grid of cells of 10 with the object at the origin, which is tracker 1's; tracker 2 asks first.
    fn sent(&mut self, rt: &impl Print) -> io::Result<()> {
        let origin = Position { x: 0.0, y: 0.0 };
        points::new(
            &mut self.nums,
            &self.reals,
            &self.ints,
            &mut self.map,
            &self.pool,
            &self.spots,
            &self.cells,
            10,
        );
        let r = points::insert(
            &mut self.nums,
            &mut self.reals,
            &mut self.ints,
            &mut self.map,
            &mut self.pool,
            &mut self.spots,
            &mut self.cells,
            origin,
            7,
            1,
        );
        self.send(rt, r.handle, 2)?;
        self.send(rt, r.handle, 1)
    }
}

fn history(rt: &impl Print, columns: &mut Columns) -> io::Result<()> {
    let next = Cell { x: 1, y: 0 };
    let moving = table(1, next, Tracker::T1);
    columns.ask(rt, "moving", moving)?;
    columns.ask(rt, "of tracker 2", table(1, next, Tracker::T2))?;
    let wrong = table(1, Cell { x: 5, y: 0 }, Tracker::T1);
    columns.ask(rt, "wrong target", wrong)?;
    let same = columns.maintain(wrong);
    columns.ask(rt, "not maintained", same)?;
    columns.ask(rt, "version 0", table(0, next, Tracker::T1))?;
    let settled = columns.maintain(moving);
    columns.ask(rt, "maintained", settled)
}

fn main(rt: HostRuntime) -> io::Result<()> {
    let mut columns = Columns {
        nums: [[0; 4]; 2],
        reals: [[0.0; 4]; 2],
        ints: [[0; 4]; 2],
        map: [0; 4],
        pool: [[0; 2]; 2],
        spots: [[0.0; 2]; 2],
        cells: [[0; 2]; 2],
    };
    columns.sent(&rt)?;
    history(&rt, &mut columns)
}
