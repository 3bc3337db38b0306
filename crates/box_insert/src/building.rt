// Building: every slot is free at version 1, and no list has an entry.
ghost use Rattle.std.specs.Prelude.{◌≡◌};
ghost use Rattle.box_tables.specs.Meaning.Outcome.{outcome};
ghost use Rattle.box_insert.specs.Meaning.New.{new_of};
ghost use Rattle.box_tables.specs.Meaning.Tables.{tables};

use slots::Row;

// A grid of cells of `size` with no object, in tables of the right lengths, whatever they held.
pub fn new(
    nums: &mut [Row],
    reals: &[[f32; 4]],
    map: &mut [u64],
    pool: &[[u64; 2]],
    size: u32,
) -> u32
    ensures { outcome result (tables nums.new reals.now map.new pool.now) ≡ new_of (tables nums.old reals.now map.old pool.now) size }
{
    let sized = box_tables::lengths_ok(nums.len(), reals.len(), map.len(), pool.len());
    if let Err(why) = blank::check(sized, size) {
        return why.number();
    }
    blank::new_map(map, nums.len(), size);
    blank::free_slots(nums);
    0
}
