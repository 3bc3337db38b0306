// Reading a box grid: `get`, `len`, `handles`. Each checks the tables first.
#![tactic(auto)]

ghost use Rattle.std.specs.Prelude.{◌≡◌};
ghost use Rattle.basics.specs.Meaning.Answers.{number_of};
ghost use Rattle.box_get.specs.Meaning.Reads.{got, get_of, len_of, handles_of, listing};
ghost use Rattle.geometry.specs.Meaning.Zero.{zero-aabb};
ghost use Rattle.box_tables.specs.Meaning.Tables.{tables};

use basics::Refusal;
use geometry::{Aabb, Position};
use replies::Count;
use slots::{Handle, Row};

// The box and the data of an object beside the answer.
#[derive(Clone, Copy)]
pub struct Got {
    pub answer: u32,
    pub aabb: Aabb,
    pub obj: u32,
}

impl Got {
    // What a `get` that is refused gives: the number, and zeros.
    pub fn refused(why: Refusal) -> Got
        ensures { result ≡ got (number_of why) zero-aabb 0 }
    {
        let zero = Position { x: 0.0, y: 0.0 };
        Got {
            answer: why.number(),
            aabb: Aabb { ll: zero, ur: zero },
            obj: 0,
        }
    }
}

#[tactic(auto, using(crate::proofs::Reading::getting))]
pub fn get(nums: &[Row], reals: &[[f32; 4]], map: &[u64], pool: &[[u64; 2]], h: Handle) -> Got
    ensures { result ≡ get_of (tables nums.now reals.now map.now pool.now) h }
{
    if !box_tables::check(nums, reals, map, pool) {
        return Got::refused(Refusal::Tables);
    }
    if let Err(why) = slots::check_handle(nums, h) {
        return Got::refused(why);
    }
    let s = h.slot as usize;
    Got {
        answer: 0,
        aabb: box_tables::load_box(reals, s),
        obj: nums[s][2],
    }
}

// The number of objects: they are the live slots.
#[tactic(auto, using(crate::proofs::Reading::counting))]
pub fn len(nums: &[Row], reals: &[[f32; 4]], map: &[u64], pool: &[[u64; 2]]) -> Count
    ensures { result ≡ len_of (tables nums.now reals.now map.now pool.now) }
{
    if !box_tables::check(nums, reals, map, pool) {
        return Count::from(Err(Refusal::Tables));
    }
    Count::from(Ok(slot_walks::count_live(nums)))
}

// The handles of the objects, ascending by slot.
#[tactic(auto, using(crate::proofs::Reading::naming))]
pub fn handles(
    nums: &[Row],
    reals: &[[f32; 4]],
    map: &[u64],
    pool: &[[u64; 2]],
    out: &mut [[u32; 2]],
) -> Count
    ensures { listing result out.new ≡ handles_of (tables nums.now reals.now map.now pool.now) out.old }
{
    if !box_tables::check(nums, reals, map, pool) {
        return Count::from(Err(Refusal::Tables));
    }
    let n = slot_walks::count_live(nums);
    if out.len() < n as usize {
        return Count::short(n);
    }
    slot_walks::put_handles(nums, out);
    Count::from(Ok(n))
}
