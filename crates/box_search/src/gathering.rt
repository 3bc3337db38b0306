// Collecting the slots that the entries of a range name, each once.
ghost use Rattle.std.specs.Prelude.{◌≤◌, ◌≡◌};
ghost use Rattle.basics.specs.Words.{map, length, take};
ghost use Rattle.basics.specs.Meaning.Limits.{most_boxes};
ghost use Rattle.storage.specs.Inner.Keyed.{Sorted};
ghost use Rattle.storage.specs.Meaning.Entries.{row_key};
ghost use Rattle.box_tables.specs.Meaning.Tables.{slot_of};
ghost use Rattle.box_search.specs.Meaning.Firsts.{firsts};
ghost use Rattle.box_search.specs.Inner.Gather.{Slots, inside, slots_in};
ghost use Rattle.box_search.specs.Inner.Collected.{Collected, Collectable};

// Collects the slots of a stretch that have no mark behind the first n of `found`, and marks them. Returns how many there are then.
fn gather_run(
    pool: &[[u64; 2]],
    from: usize,
    to: usize,
    n: usize,
    marks: &mut [bool; basics::MOST_BOXES],
    found: &mut [u32; basics::MOST_BOXES],
) -> usize
    requires { Collectable pool.now from to n marks.old found.old }
    ensures { Collected marks.old found.old n (slots_in pool.now from to) marks.new found.new result }
{
    let mut k = n;
    for j in from..to {
        let s = (pool[j][1] / 2) as usize;
        if !marks[s] {
            found[k] = s as u32;
            k += 1;
        }
        marks[s] = true;
    }
    k
}

// One walk of the range from the key `low` to the key `high`: the slots that are met, each at its first place. Returns how many there are.
pub fn gather(
    pool: &[[u64; 2]],
    used: usize,
    low: u64,
    high: u64,
    found: &mut [u32; basics::MOST_BOXES],
) -> usize
    requires { (used ≤ length pool.now) × Sorted row_key (take used pool.now) × Slots pool.now used × (length found.old ≡ most_boxes) }
    ensures { (result ≤ most_boxes) × (take result found.new ≡ firsts (map slot_of (inside low high (take used pool.now)))) × (length found.new ≡ most_boxes) }
{
    let mut marks = [false; basics::MOST_BOXES];
    let mut n = 0;
    let mut i = 0;
    // A `for` would go on by one: i goes on to the end of what was found.
    while i < used {
        let run = storage::next_run(pool, used, i, low, high);
        n = gather_run(pool, run.from, run.to, n, &mut marks, found);
        i = run.to;
    }
    n
}
