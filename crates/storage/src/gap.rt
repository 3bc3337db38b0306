// Elements that move up to let one in, or down to close a gap.
ghost use Rattle.std.specs.Prelude.{◌≤◌, ◌<◌, ◌≡◌};
ghost use Rattle.basics.specs.Words.{length, get_or, set};
ghost use Rattle.storage.specs.Inner.Places.{opened, closed};

pub fn open<T: Copy>(s: &mut [T], p: usize, k: usize, v: T)
    requires { (p ≤ k) × (k < length s.old) }
    ensures { s.new ≡ opened s.old p k v }
{
    s.copy_within(p..k, p + 1);
    s[p] = v;
}

pub fn close<T: Copy>(s: &mut [T], p: usize, k: usize)
    requires { (p < k) × (k ≤ length s.old) }
    ensures { s.new ≡ closed s.old p k }
{
    s.copy_within(p + 1..k, p);
}

// The element at j goes to place i, and its own place is closed.
pub fn pull<T: Copy>(s: &mut [T], i: usize, j: usize, k: usize)
    requires { (i ≤ j) × (j < k) × (k ≤ length s.old) }
    ensures { (d : T) → s.new ≡ closed (set s.old i (get_or s.old j d)) j k }
{
    s[i] = s[j];
    close(s, j, k);
}
