// The ways of all slots, each at its item.
ghost use Rattle.std.specs.Prelude.{◌+◌, ◌<◌, ◌≡◌};
ghost use Rattle.basics.specs.Words.{true, length};
ghost use Rattle.basics.specs.Meaning.Says.{Says};
ghost use Rattle.cells.specs.Inner.Key.{column_of};
ghost use Rattle.box_tables.specs.Inner.Check.{SlotsOk, Room, WaysTo, put_in};

use crate::ITEMS;
use crate::guess::rate_of;
use crate::way::{Way, slot_way};
use slots::Row;

// By items: the key that comes next, the last column, the step, and the end, which is the key behind the last. An array for each, since the
// pass over the entries reads no end, and a step at the last column alone.
#[derive(Drop)]
pub struct Ways {
    pub nexts: [u64; ITEMS],
    pub stops: [u32; ITEMS],
    pub jumps: [u64; ITEMS],
    pub ends: [u64; ITEMS],
}

impl Ways {
    // The way goes to the place of its item.
    fn put(&mut self, way: Way)
        requires { (way.item < 512) × (way.last + way.jump < 18446744073709551616) }
        ensures { self.new ≡ put_in self.old way }
    {
        let i = way.item as usize;
        self.nexts[i] = way.first;
        self.stops[i] = stop_of(way.last);
        self.jumps[i] = way.jump;
        self.ends[i] = way.last + way.jump;
    }
}

// The column of a key.
pub fn stop_of(key: u64) -> u32
    ensures { result ≡ column_of key }
{
    cells::column_of(key) as u32
}

// Whether every slot holds; the ways are then those of the slots, each at its item.
pub fn slots_ok(nums: &[Row], reals: &[[f32; 4]], map: &[u64], ways: &mut Ways) -> bool
    requires { Room nums.now reals.now map.now × WaysTo nums.now reals.now map.now ways.old 0 }
    ensures says { Says result (SlotsOk nums.now reals.now map.now) }
    ensures ways { result ≡ true → WaysTo nums.now reals.now map.now ways.new (length nums.now) }
{
    let size = map[0];
    let rate = rate_of(size);
    for s in 0..nums.len() {
        let Some(way) = slot_way(nums, reals, map, size, rate, s) else {
            return false;
        };
        ways.put(way);
    }
    slots::past_ok(map, nums.len())
}
