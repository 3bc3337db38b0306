// Writing what was found into the outputs.
ghost use Rattle.std.specs.Prelude.{◌≤◌, ◌≡◌};
ghost use Rattle.basics.specs.Words.{map, length, take};
ghost use Rattle.storage.specs.Meaning.Keyed.{written};
ghost use Rattle.box_search.specs.Inner.Put.{Found, Reportable, Reported};
ghost use Rattle.slot_walks.specs.Meaning.Live.{handle_at};

use slots::Row;

// Slot and version.
pub fn put_handles(
    nums: &[Row],
    found: &[u32; basics::MOST_BOXES],
    n: usize,
    handles: &mut [[u32; 2]],
)
    requires { Found (length nums.now) found.now n × (n ≤ length handles.old) }
    ensures { handles.new ≡ written (map (handle_at nums.now) (take n found.now)) handles.old }
{
    for (k, s) in found[..n].iter().enumerate() {
        handles[k] = [*s, nums[*s as usize][0]];
    }
}

// Handle, box and data.
pub fn put_findings(
    nums: &[Row],
    reals: &[[f32; 4]],
    found: &[u32; basics::MOST_BOXES],
    n: usize,
    handles: &mut [[u32; 2]],
    boxes: &mut [[f32; 4]],
    objs: &mut [u32],
)
    requires { Reportable nums.now reals.now found.now n handles.old boxes.old objs.old }
    ensures { Reported nums.now reals.now (take n found.now) handles.old boxes.old objs.old handles.new boxes.new objs.new }
{
    for (k, s) in found[..n].iter().enumerate() {
        let j = *s as usize;
        handles[k] = [*s, nums[j][0]];
        boxes[k] = reals[j];
        objs[k] = nums[j][2];
    }
}
