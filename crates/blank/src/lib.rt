// Slots that are all free: what building a grid starts from, whatever the tables held.
#![tactic(auto)]

ghost use Rattle.std.specs.Prelude.{◌+◌, ◌≤◌, ◌≡◌, ◌∷◌, ◌++◌};
ghost use Rattle.basics.specs.Words.{length, take, drop};
ghost use Rattle.basics.specs.Meaning.Limits.{most_slots};
ghost use Rattle.basics.specs.Meaning.Answers.{answer_of};
ghost use Rattle.basics.specs.Meaning.Refusals.{first_of};
ghost use Rattle.slots.specs.Meaning.Map.{words_for};
ghost use Rattle.blank.specs.Meaning.Blank.{free_word, free_words, blank_nums, blank_map, build_tests};

use basics::Refusal;
use slots::Row;

// Whether a grid can be built: not where the tables have not its lengths, nor for a size of cells outside its limits.
pub fn check(sized: bool, size: u32) -> Result<(), Refusal>
    ensures { answer_of result ≡ first_of (build_tests sized size) }
{
    if !sized {
        return Err(Refusal::Tables);
    }
    if !cells::size_in_domain(size as u64) {
        return Err(Refusal::CellSize);
    }
    Ok(())
}

// Every slot is free at version 1.
pub fn free_slots(nums: &mut [Row])
    ensures { nums.new ≡ blank_nums (length nums.old) }
{
    nums.fill([1, slots::FREE, 0, 0]);
}

// The word of n slots that are left, each usable.
fn free_word(n: usize) -> u64
    ensures { result ≡ free_word n }
{
    if n >= 64 { u64::MAX } else { (1u64 << n) - 1 }
}

// The words of n slots, behind the head words.
fn free_words(map: &mut [u64], n: usize)
    requires { (length map.old ≡ 3 + words_for n) × (n ≤ most_slots) }
    ensures { map.new ≡ take 3 map.old ++ free_words (words_for n) n }
{
    for w in 0..slots::words_for(n) {
        map[3 + w] = free_word(n - 64 * w);
    }
}

// The head words of a grid with no entry.
fn new_head(map: &mut [u64], size: u32)
    requires { 3 ≤ length map.old }
    ensures { map.new ≡ size ∷ 0 ∷ 0 ∷ drop 3 map.old }
{
    map[0] = size as u64;
    map[1] = 0;
    map[2] = 0;
}

// The map of n slots that are all free.
pub fn new_map(map: &mut [u64], n: usize, size: u32)
    requires { (length map.old ≡ 3 + words_for n) × (n ≤ most_slots) }
    ensures { map.new ≡ blank_map n size }
{
    free_words(map, n);
    new_head(map, size);
}
