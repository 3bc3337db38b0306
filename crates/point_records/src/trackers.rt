// The tracker of an object, and the number of a slot's row that has it beside the tag of the state.
ghost use Rattle.std.specs.Prelude.{◌≤◌, ◌≡◌};
ghost use Rattle.basics.specs.Meaning.Answers.{answer_of};
ghost use Rattle.basics.specs.Meaning.Refusals.{first_of};
ghost use Rattle.point_records.specs.Meaning.Word.{word_of, parts_of, word_in, tag_in, tracker_in};
ghost use Rattle.point_records.specs.Meaning.Trackers.{last_tracker, tracker_number, tracker_of, own_tests};
ghost use Rattle.point_records.specs.Inner.Rows.{with_tag};

use crate::{Parts, Tracker};
use basics::Refusal;
use slots::{Handle, Row};

pub const LAST_TRACKER: u32 = 7;

impl From<Tracker> for u32 {
    ghost from_gives = { λ t n. n ≡ tracker_number t };

    fn from(t: Tracker) -> u32 {
        t as u32
    }
}

pub fn tracker_of(k: u32) -> Tracker
    ensures { result ≡ tracker_of k }
{
    match k {
        0 => Tracker::T0,
        1 => Tracker::T1,
        2 => Tracker::T2,
        3 => Tracker::T3,
        4 => Tracker::T4,
        5 => Tracker::T5,
        6 => Tracker::T6,
        _ => Tracker::T7,
    }
}

pub fn word_of(tracker: u32, tag: u32) -> u32
    requires { (tracker ≤ last_tracker) × (tag ≤ 3) }
    ensures { result ≡ word_of tracker tag }
{
    4 * tracker + tag
}

// The fourth number taken apart: no other code reads it.
pub fn parts_in(row: Row) -> Parts
    ensures { result ≡ parts_of (word_in row) }
{
    let w = row[3];
    Parts {
        fits: w <= 31,
        tracker: w / 4 % 8,
        tag: w % 4,
    }
}

pub fn tag_in(row: Row) -> u32
    ensures { result ≡ tag_in row }
{
    parts_in(row).tag
}

pub fn tracker_in(row: Row) -> u32
    ensures { result ≡ tracker_in row }
{
    parts_in(row).tracker
}

// The row with another tag: the tracker stays.
pub fn with_tag(n: Row, tag: u32) -> Row
    requires { tag ≤ 3 }
    ensures { result ≡ with_tag n tag }
{
    [n[0], n[1], n[2], word_of(tracker_in(n), tag)]
}

// Whether a call that names this tracker may move or remove the object of a handle, or why not.
#[tactic(auto, unfolding(slots::specs::Meaning::Slot::good))]
pub fn check_own(nums: &[Row], h: Handle, tracker: u32) -> Result<(), Refusal>
    ensures { answer_of result ≡ first_of (own_tests nums.now h tracker) }
{
    if tracker > LAST_TRACKER {
        return Err(Refusal::NoTracker);
    }
    slots::check_handle(nums, h)?;
    if tracker_in(nums[h.slot as usize]) != tracker {
        return Err(Refusal::OtherTracker);
    }
    Ok(())
}
