// Handles, versions and the slot map: what the Rust's SlotMap becomes.
#![tactic(auto)]

ghost use Rattle.std.specs.Prelude.{◌+◌, ◌*◌, ◌/◌, ◌%◌, ◌^◌, ◌≤◌, ◌<◌, ◌≡◌};
ghost use Rattle.basics.specs.Words.{length, eqb};
ghost use Rattle.basics.specs.Meaning.Limits.{most_slots};
ghost use Rattle.basics.specs.Meaning.Answers.{answer_of};
ghost use Rattle.basics.specs.Meaning.Says.{Says};
ghost use Rattle.basics.specs.Meaning.Refusals.{pick};
ghost use Rattle.slots.specs.Meaning.Map.{words_for, usable, taken, given_back, lowest_usable};
ghost use Rattle.slots.specs.Inner.Map.{usable_below, NonePast};
ghost use Rattle.slots.specs.Meaning.Slot.{last_version, version_at, good, gone, handle_refusal, next_version, next_phase, emptied_row, emptied_nums, emptied_map};
ghost use Rattle.slots.specs.Meaning.Slot.{SlotHolds};

use basics::Refusal;

// The row of a slot: version, phase, data, state.
pub type Row = [u32; 4];

// The phases of a slot: numbers, since the rows are lent from C.
pub const FREE: u32 = 0;

pub const LIVE: u32 = 1;

pub const RETIRED: u32 = 2;

// A slot that is emptied at this version is retired.
pub const LAST_VERSION: u32 = 4294967295;

// No slot's version.
pub const NO_VERSION: u32 = 0;

#[derive(Clone, Copy, Debug, PartialEq, Eq)]
pub struct Handle {
    pub slot: u32,
    pub version: u32,
}

// The handle of the object in slot s.
pub fn handle_at(nums: &[Row], s: usize) -> Handle
    requires { (s < length nums.now) × (length nums.now ≤ most_slots) }
    ensures { result ≡ record { slot = s; version = version_at nums.now s } }
{
    Handle {
        slot: s as u32,
        version: nums[s][0],
    }
}

// Whether the handle's slot is occupied at its version.
#[tactic(auto, unfolding(crate::specs::Meaning::Slot::good))]
pub fn is_good(nums: &[Row], h: Handle) -> bool
    ensures { result ≡ good nums.now h.slot h.version }
{
    let s = h.slot as usize;
    s < nums.len() && nums[s][1] == LIVE && nums[s][0] == h.version
}

// Whether the handle's object has been taken out: its slot is past its version, or retired at it.
#[tactic(auto, unfolding(crate::specs::Meaning::Slot::gone))]
pub fn is_gone(nums: &[Row], h: Handle) -> bool
    ensures { result ≡ gone nums.now h.slot h.version }
{
    let s = h.slot as usize;
    if s >= nums.len() {
        return false;
    }
    let [version, phase, _, _] = nums[s];
    (h.version != NO_VERSION && h.version < version) || (phase == RETIRED && h.version == version)
}

// Whether a handle is good, or why it is refused: every call that takes one asks here.
pub fn check_handle(nums: &[Row], h: Handle) -> Result<(), Refusal>
    ensures { answer_of result ≡ handle_refusal nums.now h }
{
    if is_good(nums, h) {
        Ok(())
    } else if is_gone(nums, h) {
        Err(Refusal::Gone)
    } else {
        Err(Refusal::NeverIssued)
    }
}

// Words of 64 bits for n slots.
pub fn words_for(n: usize) -> usize
    requires { n ≤ most_slots }
    ensures { result ≡ words_for n }
{
    (n + 63) / 64
}

// The bit of slot s, alone in its word.
fn bit_of(s: usize) -> u64
    ensures { result ≡ 2 ^ (s % 64) }
{
    1u64 << (s % 64)
}

// The lowest usable slot of n: the lowest bit of the first word that has one.
pub fn lowest(map: &[u64], n: usize) -> Option<usize>
    requires { (length map.now ≡ 3 + words_for n) × (n ≤ most_slots) × NonePast map.now n }
    ensures { result ≡ lowest_usable map.now n }
{
    for w in 0..words_for(n) {
        let x = map[3 + w];
        if x != 0 {
            return Some(w * 64 + x.trailing_zeros() as usize);
        }
    }
    None
}

// How many of n slots are usable: the ones of the words.
pub fn count_usable(map: &[u64], n: usize) -> usize
    requires { (length map.now ≡ 3 + words_for n) × (n ≤ most_slots) }
    ensures { result ≡ usable_below map.now (words_for n * 64) }
{
    let mut count = 0;
    for w in 0..words_for(n) {
        count += map[3 + w].count_ones() as usize;
    }
    count
}

// Whether the map has slot s as usable.
pub fn is_usable(map: &[u64], s: usize) -> bool
    requires { 3 + s / 64 < length map.now }
    ensures { Says result (usable map.now s ≡ 1) }
{
    (map[3 + s / 64] >> (s % 64)) % 2 == 1
}

// Slot s is usable no more.
pub fn take(map: &mut [u64], s: usize)
    requires { 3 + s / 64 < length map.old }
    ensures { map.new ≡ taken map.old s }
{
    let w = 3 + s / 64;
    map[w] ^= map[w] & bit_of(s);
}

// Slot s is usable again.
pub fn give_back(map: &mut [u64], s: usize)
    requires { 3 + s / 64 < length map.old }
    ensures { map.new ≡ given_back map.old s }
{
    map[3 + s / 64] |= bit_of(s);
}

// The version of a slot after it is emptied: one more, except at the last.
pub fn next_version(v: u32) -> u32
    ensures { result ≡ next_version v }
{
    if v == LAST_VERSION { v } else { v + 1 }
}

// The phase of a slot after it is emptied: retired at the last version, else free.
pub fn next_phase(v: u32) -> u32
    ensures { result ≡ next_phase v }
{
    if v == LAST_VERSION { RETIRED } else { FREE }
}

// Slot s gives its bit back to the map, unless its version was the last.
fn release(map: &mut [u64], s: usize, v: u32)
    requires { 3 + s / 64 < length map.old }
    ensures { map.new ≡ pick (eqb v last_version) map.old (given_back map.old s) }
{
    if v != LAST_VERSION {
        give_back(map, s);
    }
}

// The row of a slot that is emptied: the two numbers behind version and phase stay.
fn emptied_row(row: Row) -> Row
    ensures { result ≡ emptied_row row }
{
    let [version, _, obj, word] = row;
    [next_version(version), next_phase(version), obj, word]
}

// Slot s is emptied: its version rises and the map has it again, or it is retired.
#[tactic(auto, unfolding(crate::specs::Meaning::Slot::emptied_nums, crate::specs::Meaning::Slot::emptied_map))]
pub fn empty(nums: &mut [Row], map: &mut [u64], s: usize)
    requires { (s < length nums.old) × (3 + s / 64 < length map.old) }
    ensures nums { nums.new ≡ emptied_nums nums.old s }
    ensures map { map.new ≡ emptied_map nums.old map.old s }
{
    let row = nums[s];
    nums[s] = emptied_row(row);
    release(map, s, row[0]);
}

// Whether a slot holds, by its version, its phase and whether the map has it.
pub fn slot_ok(version: u32, phase: u32, mapped: bool) -> bool
    ensures { Says result (SlotHolds version phase (pick mapped 1 0)) }
{
    version != NO_VERSION
        && match phase {
            FREE => mapped,
            LIVE => !mapped,
            RETIRED => !mapped && version == LAST_VERSION,
            _ => false,
        }
}

// Whether no bit past the last of n slots is set: only the last word can have one.
pub fn past_ok(map: &[u64], n: usize) -> bool
    requires { length map.now ≡ 3 + words_for n }
    ensures { Says result (NonePast map.now n) }
{
    n % 64 == 0 || map[3 + n / 64] >> (n % 64) == 0
}
