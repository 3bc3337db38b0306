// The deferred calls of trackers: `set_position` and `remove`. Nothing moves before maintain.
// Each public call checks the tables first.
#![tactic(auto)]

ghost use Rattle.std.specs.Prelude.{◌≡◌};
ghost use Rattle.point_tables.specs.Meaning.Outcome.{outcome};
ghost use Rattle.point_deferred.specs.Inner.Ask.{ask_of};
ghost use Rattle.point_deferred.specs.Meaning.Moves.{set_position_of, remove_of};
ghost use Rattle.replies.specs.Meaning.Replies.{reply};
ghost use Rattle.point_tables.specs.Meaning.Tables.{tables};

mod call;
mod rows;

use basics::Refusal;
// for a batch of them
pub use call::{deferred, unmarked};
use geometry::Position;
use replies::Reply;
use slots::{Handle, Row};

// What a deferred call asks for an object.
#[derive(Clone, Copy)]
pub enum Ask {
    SetPosition(Position),
    Remove,
}

impl Ask {
    // As a batch lends it: kind 0 is a new position, any other a removal.
    pub fn of_kind(kind: u32, at: Position) -> Ask
        ensures { result ≡ ask_of kind at }
    {
        match kind {
            0 => Ask::SetPosition(at),
            _ => Ask::Remove,
        }
    }
}

// The object, which is this tracker's, takes `at` as its new position, pending: a relocation if the cell of `at` is not its recorded cell.
pub fn set_position(
    nums: &mut [Row],
    reals: &mut [[f32; 4]],
    ints: &mut [[i32; 4]],
    map: &[u64],
    pool: &[[u64; 2]],
    spots: &[[f32; 2]],
    cells: &mut [[u64; 2]],
    h: Handle,
    at: Position,
    tracker: u32,
) -> u32
    ensures { outcome (reply result 0) (tables nums.new reals.new ints.new map.now pool.now spots.now cells.new) ≡ set_position_of (tables nums.old reals.old ints.old map.now pool.now spots.now cells.old) h at tracker }
{
    if !point_tables::check(nums, reals, ints, map, pool, spots, cells) {
        return Refusal::Tables.number();
    }
    let ask = Ask::SetPosition(at);
    Reply::from(call::deferred(nums, reals, ints, map, cells, ask, h, tracker)).answer
}

// The object, which is this tracker's, is marked as removed, and its data returned; a second one before maintain returns it again.
pub fn remove(
    nums: &mut [Row],
    reals: &mut [[f32; 4]],
    ints: &mut [[i32; 4]],
    map: &[u64],
    pool: &[[u64; 2]],
    spots: &[[f32; 2]],
    cells: &mut [[u64; 2]],
    h: Handle,
    tracker: u32,
) -> Reply
    ensures { outcome result (tables nums.new reals.new ints.new map.now pool.now spots.now cells.new) ≡ remove_of (tables nums.old reals.old ints.old map.now pool.now spots.now cells.old) h tracker }
{
    if !point_tables::check(nums, reals, ints, map, pool, spots, cells) {
        return Reply::from(Err(Refusal::Tables));
    }
    call::deferred(nums, reals, ints, map, cells, Ask::Remove, h, tracker).into()
}
