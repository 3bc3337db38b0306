// The queries of a box grid: `query_broad` and `query`. Each checks the tables first.
#![tactic(auto)]

ghost use Rattle.std.specs.Prelude.{◌≡◌};
ghost use Rattle.basics.specs.Words.{length};
ghost use Rattle.basics.specs.Meaning.Limits.{most_boxes};
ghost use Rattle.replies.specs.Inner.Results.{count_of};
ghost use Rattle.box_query.specs.Meaning.Queries.{handles_of, broad_of, findings, query_of};
ghost use Rattle.box_query.specs.Inner.Look.{Looked};
ghost use Rattle.box_tables.specs.Meaning.Tables.{tables};

use basics::Refusal;
use box_search::{gather, keep, put_findings, put_handles};
use box_tables::span_of;
use cells::key_of;
use geometry::{Aabb, aabb_in_domain};
use replies::Count;
use slots::Row;

// The slots of the boxes in the cells of q, each once, in the first places of `found`, and how many they are; or the refusal.
fn look(
    nums: &[Row],
    reals: &[[f32; 4]],
    map: &[u64],
    pool: &[[u64; 2]],
    q: Aabb,
    found: &mut [u32; basics::MOST_BOXES],
) -> Result<u32, Refusal>
    requires { length found.old ≡ most_boxes }
    ensures { Looked (tables nums.now reals.now map.now pool.now) q (count_of result) found.new }
{
    let held = box_tables::check(nums, reals, map, pool);
    if !held {
        return Err(Refusal::Tables);
    }
    if !aabb_in_domain(q) {
        return Err(Refusal::OutsideDomain);
    }
    let span = span_of(map[0], q);
    if basics::MOST_CELLS < span.cells {
        return Err(Refusal::TooManyCells);
    }
    let low = key_of(span.low);
    let high = key_of(span.high);
    let n = gather(pool, map[1] as usize, low, high, found);
    Ok(n as u32)
}

// The boxes in the cells of q.
pub fn query_broad(
    nums: &[Row],
    reals: &[[f32; 4]],
    map: &[u64],
    pool: &[[u64; 2]],
    q: Aabb,
    handles: &mut [[u32; 2]],
) -> Count
    ensures { handles_of result handles.new ≡ broad_of (tables nums.now reals.now map.now pool.now) q handles.old }
{
    let mut found = [0; basics::MOST_BOXES];
    match look(nums, reals, map, pool, q, &mut found) {
        Err(why) => Count::from(Err(why)),
        Ok(n) => {
            if handles.len() < n as usize {
                return Count::short(n);
            }
            put_handles(nums, &found, n as usize, handles);
            Count::from(Ok(n))
        }
    }
}

// Those of them that q intersects: handle, box and data of each.
pub fn query(
    nums: &[Row],
    reals: &[[f32; 4]],
    map: &[u64],
    pool: &[[u64; 2]],
    q: Aabb,
    handles: &mut [[u32; 2]],
    boxes: &mut [[f32; 4]],
    objs: &mut [u32],
) -> Count
    ensures { findings result handles.new boxes.new objs.new ≡ query_of (tables nums.now reals.now map.now pool.now) q handles.old boxes.old objs.old }
{
    let mut found = [0; basics::MOST_BOXES];
    match look(nums, reals, map, pool, q, &mut found) {
        Err(why) => Count::from(Err(why)),
        Ok(met) => {
            let n = keep(reals, q, met as usize, &mut found);
            let number = n as u32;
            let room = handles.len().min(boxes.len().min(objs.len()));
            if room < n {
                return Count::short(number);
            }
            put_findings(nums, reals, &found, n, handles, boxes, objs);
            Count::from(Ok(number))
        }
    }
}
