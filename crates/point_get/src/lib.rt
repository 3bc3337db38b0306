// Reading a point grid: `get`, `len`, `handles`. Each checks the tables first.
#![tactic(auto)]

ghost use Rattle.std.specs.Prelude.{◌≡◌};
ghost use Rattle.basics.specs.Meaning.Answers.{number_of};
ghost use Rattle.geometry.specs.Meaning.Zero.{zero-position};
ghost use Rattle.point_get.specs.Meaning.{got, get_of, len_of, handles_of, listing};
ghost use Rattle.point_tables.specs.Meaning.Tables.{tables};

use basics::Refusal;
use geometry::Position;
use replies::Count;
use slots::{Handle, Row};

// The recorded position, the data and the tracker of an object beside the answer.
#[derive(Clone, Copy)]
pub struct Got {
    pub answer: u32,
    pub position: Position,
    pub obj: u32,
    pub tracker: u32,
}

impl Got {
    // A refusal: zeros.
    pub fn refused(why: Refusal) -> Got
        ensures { result ≡ got (number_of why) zero-position 0 0 }
    {
        Got {
            answer: why.number(),
            position: Position { x: 0.0, y: 0.0 },
            obj: 0,
            tracker: 0,
        }
    }
}

#[tactic(auto, using(crate::proofs::Reading::getting))]
pub fn get(
    nums: &[Row],
    reals: &[[f32; 4]],
    ints: &[[i32; 4]],
    map: &[u64],
    pool: &[[u64; 2]],
    spots: &[[f32; 2]],
    cells: &[[u64; 2]],
    h: Handle,
) -> Got
    ensures { result ≡ get_of (tables nums.now reals.now ints.now map.now pool.now spots.now cells.now) h }
{
    if !point_tables::check(nums, reals, ints, map, pool, spots, cells) {
        return Got::refused(Refusal::Tables);
    }
    if let Err(why) = slots::check_handle(nums, h) {
        return Got::refused(why);
    }
    let n = nums[h.slot as usize];
    let q = reals[h.slot as usize];
    Got {
        answer: 0,
        position: Position { x: q[0], y: q[1] },
        obj: n[2],
        tracker: point_records::tracker_in(n),
    }
}

// The number of objects: each has one entry, so the entries in use are as many.
#[tactic(auto, using(crate::proofs::Reading::counting))]
pub fn len(
    nums: &[Row],
    reals: &[[f32; 4]],
    ints: &[[i32; 4]],
    map: &[u64],
    pool: &[[u64; 2]],
    spots: &[[f32; 2]],
    cells: &[[u64; 2]],
) -> Count
    ensures { result ≡ len_of (tables nums.now reals.now ints.now map.now pool.now spots.now cells.now) }
{
    if !point_tables::check(nums, reals, ints, map, pool, spots, cells) {
        return Count::from(Err(Refusal::Tables));
    }
    Count::from(Ok(map[1] as u32))
}

// The handles of the objects, ascending by slot.
#[tactic(auto, using(crate::proofs::Reading::naming))]
pub fn handles(
    nums: &[Row],
    reals: &[[f32; 4]],
    ints: &[[i32; 4]],
    map: &[u64],
    pool: &[[u64; 2]],
    spots: &[[f32; 2]],
    cells: &[[u64; 2]],
    out: &mut [[u32; 2]],
) -> Count
    ensures { listing result out.new ≡ handles_of (tables nums.now reals.now ints.now map.now pool.now spots.now cells.now) out.old }
{
    if !point_tables::check(nums, reals, ints, map, pool, spots, cells) {
        return Count::from(Err(Refusal::Tables));
    }
    let n = map[1] as u32;
    if out.len() < n as usize {
        return Count::short(n);
    }
    slot_walks::put_handles(nums, out);
    Count::from(Ok(n))
}
