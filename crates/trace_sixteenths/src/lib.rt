// Coordinates as counts of sixteenths, and as binary32 numbers.
#![tactic(auto)]

ghost use Rattle.std.specs.Prelude.{◌≤◌, ◌≡◌};
ghost use Rattle.basics.specs.Words.{nat_abs};
ghost use Rattle.trace_sixteenths.specs.Meaning.Sixteenth.{sixteenth, sixteenths_of};

use cells::whole;

// The number of k sixteenths.
pub fn from_sixteenths(k: i32) -> f32
    requires { nat_abs k ≤ 1048576 }
    ensures { result ≡ sixteenth k }
{
    k as f32 / 16.0
}

// The sixteenths in x.
pub fn sixteenths(x: f32) -> i32
    ensures { result ≡ sixteenths_of x }
{
    whole(x * 16.0)
}
