// The entries of the lists, and the columns that they stand in: a row of pool has the key of the cell and the slot, a row of spots the position.
ghost use Rattle.std.specs.Prelude.{◌<◌, ◌≡◌};
ghost use Rattle.basics.specs.Words.{length};
ghost use Rattle.point_records.specs.Inner.Listed.{spot_at, listed_at, entry_row, entry_spot};

use crate::Entry;
use geometry::Position;

// The position of the entry at place j: a test of it need not read the slot.
pub fn spot_at(spots: &[[f32; 2]], j: usize) -> Position
    requires { j < length spots.now }
    ensures { result ≡ spot_at spots.now j }
{
    let spot = spots[j];
    Position {
        x: spot[0],
        y: spot[1],
    }
}

pub fn entry_at(pool: &[[u64; 2]], spots: &[[f32; 2]], j: usize) -> Entry
    requires { (j < length pool.now) × (j < length spots.now) }
    ensures { result ≡ listed_at pool.now spots.now j }
{
    Entry {
        slot: pool[j][1] as usize,
        position: spot_at(spots, j),
    }
}

// The row of an entry in the list of this key.
pub fn entry_row(key: u64, e: Entry) -> [u64; 2]
    ensures { result ≡ entry_row key e }
{
    [key, e.slot as u64]
}

// The position of an entry, as a row of spots.
pub fn entry_spot(e: Entry) -> [f32; 2]
    ensures { result ≡ entry_spot e }
{
    [e.position.x, e.position.y]
}
