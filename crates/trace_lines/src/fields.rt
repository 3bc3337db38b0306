// The fields of a record from a place on: a number, a count, a spot, a handle, as they are asked for. No field is past the record's end.
ghost use Rattle.std.specs.Prelude.{◌≡◌, ◌∷◌, MatchOption};
ghost use Rattle.basics.specs.Words.{[]};
ghost use Rattle.trace_lines.specs.Meaning.Taken.{if_asked};
ghost use Rattle.trace_lines.specs.Inner.Cursor.{fields_from, taken_at};

use crate::{NO_SPOT, NOBODY, Spot};
use slots::Handle;

// The field that begins at `at`, and the place of the next one.
pub fn field_at(b: &[u8], at: usize) -> Option<(&[u8], usize)>
    ensures { MatchOption result (fields_from b.now at ≡ []) (λ f. fields_from b.now at ≡ f.0.now ∷ fields_from b.now f.1) }
{
    let rest = b.get(at..)?;
    let n = rest.iter().position(|c| *c == b',').unwrap_or(rest.len());
    Some((&rest[..n], at + n + 1))
}

// What can be taken from the fields from a place on: the value, and the place of the next field.
pub trait Take: Sized {
    ghost use Rattle.trace_lines.specs.Meaning.Taken.{Taker};

    ghost taker: { Taker Self };

    ghost NONE: { Self };

    // The value where none is asked for.
    const NONE: Self;

    fn take(b: &[u8], at: usize) -> Option<(Self, usize)>
        ensures { taken_at b.now result ≡ taker (fields_from b.now at) };
}

impl Take for u32 {
    ghost use Rattle.trace_lines.specs.Meaning.Taken.{take_number};

    ghost taker = { take_number };

    ghost NONE = { 0 };

    const NONE: u32 = 0;

    fn take(b: &[u8], at: usize) -> Option<(u32, usize)> {
        let (field, next) = field_at(b, at)?;
        Some((trace_decimals::read_number(field)?, next))
    }
}

impl Take for i32 {
    ghost use Rattle.basics.specs.Words.{pos};
    ghost use Rattle.trace_lines.specs.Meaning.Taken.{take_count};

    ghost taker = { take_count };

    ghost NONE = { pos 0 };

    const NONE: i32 = 0;

    fn take(b: &[u8], at: usize) -> Option<(i32, usize)> {
        let (field, next) = field_at(b, at)?;
        Some((trace_decimals::read_count(field)?, next))
    }
}

impl Take for Handle {
    ghost use Rattle.trace_lines.specs.Meaning.Taken.{take_handle, nobody};

    ghost taker = { take_handle };

    ghost NONE = { nobody };

    const NONE: Handle = NOBODY;

    fn take(b: &[u8], at: usize) -> Option<(Handle, usize)> {
        let (slot, next) = u32::take(b, at)?;
        let (version, end) = u32::take(b, next)?;
        Some((Handle { slot, version }, end))
    }
}

impl Take for Spot {
    ghost use Rattle.trace_lines.specs.Meaning.Taken.{take_spot, no_spot};

    ghost taker = { take_spot };

    ghost NONE = { no_spot };

    const NONE: Spot = NO_SPOT;

    fn take(b: &[u8], at: usize) -> Option<(Spot, usize)> {
        let (x, next) = i32::take(b, at)?;
        let (y, end) = i32::take(b, next)?;
        Some((Spot { x, y }, end))
    }
}

// Where a value is not asked for no field is taken, and the value is zero.
pub fn take_if<T: Take>(b: &[u8], at: usize, asked: bool) -> Option<(T, usize)>
    ensures { taken_at b.now result ≡ if_asked asked T.NONE T.taker (fields_from b.now at) }
{
    if asked {
        T::take(b, at)
    } else {
        Some((T::NONE, at))
    }
}
