// What the answer of a grid's call says in the trace, and the places that a request names.
#![tactic(auto)]

ghost use Rattle.std.specs.Prelude.{◌≡◌};
ghost use Rattle.trace_lines.specs.Inner.Texts.{SpotInRange};
ghost use Rattle.trace_telling.specs.Meaning.Places.{place_of, box_of};
ghost use Rattle.trace_telling.specs.Meaning.Tells.{tells};

use geometry::{Aabb, Position};
use trace_lines::Spot;
use trace_printing::Said;

pub fn place(s: Spot) -> Position
    requires { SpotInRange s }
    ensures { result ≡ place_of s }
{
    Position {
        x: trace_sixteenths::from_sixteenths(s.x),
        y: trace_sixteenths::from_sixteenths(s.y),
    }
}

pub fn corners(ll: Spot, ur: Spot) -> Aabb
    requires { SpotInRange ll × SpotInRange ur }
    ensures { result ≡ box_of ll ur }
{
    Aabb {
        ll: place(ll),
        ur: place(ur),
    }
}

// What is told of an answer: a refusal says its number alone, and 0 is followed by what there is to say.
pub fn told(answer: u32, said: Said) -> Said
    ensures { result ≡ tells answer said }
{
    if answer == 0 {
        said
    } else {
        Said::Refused(answer)
    }
}
