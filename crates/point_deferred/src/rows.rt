// What a deferred call writes into the rows of a slot, row by row and by value.
ghost use Rattle.std.specs.Prelude.{◌≡◌};
ghost use Rattle.cells.specs.Meaning.Size.{SizeInDomain};
ghost use Rattle.point_records.specs.Meaning.Columns.{position_in};
ghost use Rattle.point_deferred.specs.Inner.Ask.{kind_of, place_of, Allowed};
ghost use Rattle.point_deferred.specs.Inner.Held.{state_for};
ghost use Rattle.point_deferred.specs.Inner.Rows.{cell_in, with_pending, with_target, returned_in};

use crate::Ask;
use cells::Cell;
use geometry::Position;
use point_records::State;
use slots::Row;

// The recorded cell.
pub fn cell_in(z: [i32; 4]) -> Cell
    ensures { result ≡ cell_in z }
{
    Cell { x: z[0], y: z[1] }
}

// The recorded position.
pub fn position_in(q: [f32; 4]) -> Position
    ensures { result ≡ position_in q }
{
    Position { x: q[0], y: q[1] }
}

// What becomes pending for an object of cell c: a new position leads to its own cell or to another, and a removal nowhere.
// Inlined, as `pend` is.
#[inline(always)]
pub fn state_for(size: u64, c: Cell, ask: Ask) -> State
    requires { SizeInDomain size × Allowed ask }
    ensures { result ≡ state_for size c (kind_of ask) (place_of ask) }
{
    match ask {
        Ask::SetPosition(at) => {
            let to = cells::cell_at(size, at);
            if to == c {
                State::NewPos(at)
            } else {
                State::Relocate(at, to)
            }
        }
        Ask::Remove => State::Removed,
    }
}

pub fn with_pending(q: [f32; 4], at: Position) -> [f32; 4]
    ensures { result ≡ with_pending q at }
{
    [q[0], q[1], at.x, at.y]
}

pub fn with_target(z: [i32; 4], to: Cell) -> [i32; 4]
    ensures { result ≡ with_target z to }
{
    [z[0], z[1], to.x, to.y]
}

// A removal returns the data, a new position nothing.
pub fn returned_in(n: Row, ask: Ask) -> u32
    ensures { result ≡ returned_in n (kind_of ask) }
{
    match ask {
        Ask::SetPosition(_) => 0,
        Ask::Remove => n[2],
    }
}
