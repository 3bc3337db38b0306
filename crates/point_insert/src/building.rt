// Building: every slot is free at version 1, and no list has an entry.
ghost use Rattle.std.specs.Prelude.{◌≡◌};
ghost use Rattle.point_tables.specs.Meaning.Outcome.{outcome};
ghost use Rattle.point_insert.specs.Meaning.New.{new_of};
ghost use Rattle.point_tables.specs.Meaning.Tables.{tables};

use slots::Row;

// A grid of cells of `size` with no object, in tables of the right lengths, whatever they held.
pub fn new(
    nums: &mut [Row],
    reals: &[[f32; 4]],
    ints: &[[i32; 4]],
    map: &mut [u64],
    pool: &[[u64; 2]],
    spots: &[[f32; 2]],
    cells: &[[u64; 2]],
    size: u32,
) -> u32
    ensures { outcome result (tables nums.new reals.now ints.now map.new pool.now spots.now cells.now) ≡ new_of (tables nums.old reals.now ints.now map.old pool.now spots.now cells.now) size }
{
    let sized = point_tables::lengths_ok(
        nums.len(),
        reals.len(),
        ints.len(),
        map.len(),
        pool.len(),
        spots.len(),
        cells.len(),
    );
    if let Err(why) = blank::check(sized, size) {
        return why.number();
    }
    blank::new_map(map, nums.len(), size);
    blank::free_slots(nums);
    0
}
