// What the word of a record asks for, and no field more.
ghost use Rattle.std.specs.Prelude.{◌≡◌, unwrap_or};
ghost use Rattle.trace_lines.specs.Meaning.Requests.{arguments_of, unreadable as Requests-unreadable, whole as Requests-whole};
ghost use Rattle.trace_lines.specs.Inner.Cursor.{fields_from};

use crate::fields::take_if;
use crate::{Asks, Request};

// What is behind the word, if it reads so.
#[tactic(auto, unfolding(crate::specs::Meaning::Requests::arguments_of))]
pub fn arguments(asks: Asks, b: &[u8], at: usize) -> Option<Request>
    ensures { unwrap_or result Requests-unreadable ≡ Requests-whole (arguments_of asks (fields_from b.now at)) }
{
    let (h, at) = take_if(b, at, asks.handle)?;
    let (p, at) = take_if(b, at, 0 < asks.places)?;
    let (q, at) = take_if(b, at, 1 < asks.places)?;
    let (far, at) = take_if(b, at, asks.radius)?;
    let (n, at) = take_if(b, at, asks.number)?;
    let (k, at) = take_if(b, at, asks.tracker)?;
    if b.len() < at {
        return Some(Request {
            line: asks.line,
            h,
            p,
            q,
            far,
            n,
            k,
        });
    }
    None
}
