// The pass over the entries: each is the next on the way of its item, and all ways are gone to their end.
ghost use Rattle.std.specs.Prelude.{◌+◌, ◌<◌, ◌≡◌};
ghost use Rattle.basics.specs.Meaning.Says.{Says};
ghost use Rattle.box_tables.specs.Inner.Way.{behind};
ghost use Rattle.box_tables.specs.Inner.Check.{Passes, Ready, Gone, Met};

use crate::ITEMS;
use crate::slot_ways::{Ways, stop_of};

// The key behind k on a way.
fn next_on(stop: u32, jump: u64, k: u64) -> u64
    requires { k + jump + 1 < 18446744073709551616 }
    ensures { result ≡ behind stop jump k }
{
    if stop_of(k) == stop { k + jump } else { k + 1 }
}

impl Ways {
    // How many entries are in order, each the next at its item: a count, which costs less for each entry than whether they all are. Past the
    // last key of a way there are further ones: `all_met` asks for the end.
    fn pass(&mut self, pool: &[[u64; 2]], used: usize) -> usize
        requires { Ready pool.now self.old used }
        ensures gone { result ≡ used → Gone pool.now self.old self.new used }
        ensures all { Passes pool.now self.old used → result ≡ used }
    {
        let mut before = 0;
        for (j, row) in pool[..used].iter().enumerate() {
            let key = row[0];
            let i = row[1] as usize;
            if key < before || ITEMS <= i || key != self.nexts[i] {
                return j;
            }
            self.nexts[i] = next_on(self.stops[i], self.jumps[i], key);
            before = key;
        }
        used
    }

    // Whether every way is at its end.
    fn all_met(&self) -> bool
        ensures { Says result (Met self.now) }
    {
        self.nexts == self.ends
    }
}

// Whether the entries are in order, each the next at its item, and all ways are gone to their end.
pub fn pool_ok(pool: &[[u64; 2]], used: usize, ways: &mut Ways) -> bool
    requires { Ready pool.now ways.old used }
    ensures { Says result (Passes pool.now ways.old used) }
{
    ways.pass(pool, used) == used && ways.all_met()
}
