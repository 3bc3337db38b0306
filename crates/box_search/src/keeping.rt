// Keeping the boxes that a query box intersects.
ghost use Rattle.std.specs.Prelude.{◌≤◌, ◌≡◌};
ghost use Rattle.basics.specs.Words.{length, take};
ghost use Rattle.basics.specs.Meaning.Limits.{most_boxes};
ghost use Rattle.box_search.specs.Inner.Put.{Found, intersecting};

use geometry::Aabb;

// Of the first n slots of `found` those whose box q intersects go to the front, in the same order. Returns how many they are.
pub fn keep(reals: &[[f32; 4]], q: Aabb, n: usize, found: &mut [u32; basics::MOST_BOXES]) -> usize
    requires { Found (length reals.now) found.old n }
    ensures { (result ≤ n) × (take result found.new ≡ intersecting q reals.now (take n found.old)) × (length found.new ≡ most_boxes) }
{
    let mut k = 0;
    for j in 0..n {
        let s = found[j];
        if geometry::intersects(q, box_tables::load_box(reals, s as usize)) {
            found[k] = s;
            k += 1;
        }
    }
    k
}
