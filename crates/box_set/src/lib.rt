// `set_aabb`: if both corner cells stay, only the record changes; otherwise the box leaves its old lists and enters its new ones.
// It checks the tables first.
#![tactic(auto)]

ghost use Rattle.std.specs.Prelude.{◌<◌, ◌≡◌};
ghost use Rattle.basics.specs.Words.{length, set};
ghost use Rattle.box_tables.specs.Meaning.Outcome.{outcome};
ghost use Rattle.box_tables.specs.Meaning.Tables.{corners_of, tables};
ghost use Rattle.box_set.specs.Meaning.SetAabb.{set_aabb_of};
ghost use Rattle.box_set.specs.Inner.Steps.{stay_in, shifted_map, shifted_pool, relisted_map, relisted_pool, Shifting, Judged};

use basics::Refusal;
use box_tables::Span;
use geometry::Aabb;
use slots::{Handle, Row};

// The old and the new range of cells.
#[derive(Clone, Copy)]
struct Change {
    old: Span,
    new: Span,
}

// Both ranges, or the first refusal that applies. The box's old entries make room for its new ones.
fn judge(
    nums: &[Row],
    reals: &[[f32; 4]],
    map: &[u64],
    pool: &[[u64; 2]],
    h: Handle,
    b: Aabb,
) -> Result<Change, Refusal>
    ensures { Judged (tables nums.now reals.now map.now pool.now) h b result }
{
    if !box_tables::check(nums, reals, map, pool) {
        return Err(Refusal::Tables);
    }
    if !geometry::aabb_in_domain(b) {
        return Err(Refusal::OutsideDomain);
    }
    slots::check_handle(nums, h)?;
    let new = box_tables::span_of(map[0], b);
    let n = new.cells;
    if n > basics::MOST_CELLS {
        return Err(Refusal::TooManyCells);
    }
    let there = box_tables::load_box(reals, h.slot as usize);
    let old = box_tables::span_of(map[0], there);
    let o = old.cells;
    if map[1] + n > pool.len() as u64 + o {
        return Err(Refusal::PoolFull);
    }
    Ok(Change { old, new })
}

// Whether both corner cells stay.
fn stays(p: Span, q: Span) -> bool
    ensures { result ≡ stay_in p q }
{
    p.low == q.low && p.high == q.high
}

// The box of slot s goes from the cells of p to those of q.
fn shift(map: &mut [u64], pool: &mut [[u64; 2]], s: usize, p: Span, q: Span)
    requires { Shifting map.old pool.old s p q }
    ensures map { map.new ≡ shifted_map s p q map.old pool.old }
    ensures pool { pool.new ≡ shifted_pool s p q map.old pool.old }
{
    let old = box_tables::item_of(s, p.cells == 1);
    let new = box_tables::item_of(s, q.cells == 1);
    let left = box_cover::leave(pool, map[1] as usize, p.low, p.high, old);
    box_cover::enter(pool, left, q.low, q.high, new);
    map[1] = left as u64 + q.cells;
}

// Its lists change only if a corner cell does.
fn relist(map: &mut [u64], pool: &mut [[u64; 2]], s: usize, p: Span, q: Span)
    requires { Shifting map.old pool.old s p q }
    ensures map { map.new ≡ relisted_map s p q map.old pool.old }
    ensures pool { pool.new ≡ relisted_pool s p q map.old pool.old }
{
    if !stays(p, q) {
        shift(map, pool, s, p, q);
    }
}

// Box b takes the place of the box of slot s, which goes from the cells of p to those of q.
fn place(
    reals: &mut [[f32; 4]],
    map: &mut [u64],
    pool: &mut [[u64; 2]],
    s: usize,
    b: Aabb,
    p: Span,
    q: Span,
)
    requires { (s < length reals.old) × Shifting map.old pool.old s p q }
    ensures reals { reals.new ≡ set reals.old s (corners_of b) }
    ensures map { map.new ≡ relisted_map s p q map.old pool.old }
    ensures pool { pool.new ≡ relisted_pool s p q map.old pool.old }
{
    box_insert::store_box(reals, s, b);
    relist(map, pool, s, p, q);
}

pub fn set_aabb(
    nums: &[Row],
    reals: &mut [[f32; 4]],
    map: &mut [u64],
    pool: &mut [[u64; 2]],
    h: Handle,
    b: Aabb,
) -> u32
    ensures { outcome result (tables nums.now reals.new map.new pool.new) ≡ set_aabb_of (tables nums.now reals.old map.old pool.old) h b }
{
    match judge(nums, reals, map, pool, h, b) {
        Err(why) => why.number(),
        Ok(c) => {
            place(reals, map, pool, h.slot as usize, b, c.old, c.new);
            0
        }
    }
}
