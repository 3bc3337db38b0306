// Decimals in the fields of a record: read from a slice, and written into one from a place on.
#![tactic(auto)]

ghost use Rattle.std.specs.Prelude.{◌+◌, ◌≤◌, ◌<◌, ◌≡◌, ◌∷◌};
ghost use Rattle.basics.specs.Words.{[], length};
ghost use Rattle.trace_decimals.specs.Meaning.Text.{decimal, signed_text};
ghost use Rattle.trace_decimals.specs.Meaning.Fields.{digits_from, up_to, number_of, count_of, plain as Fields-plain, negative as Fields-negative};
ghost use Rattle.trace_decimals.specs.Inner.Fields.{Short};
ghost use Rattle.trace_decimals.specs.Meaning.Written.{buffer, put_text};

// The digits of b, none of which takes the number past `most`.
#[tactic(auto, using(std::proofs::lemmas::List::drop_more), unfolding(crate::specs::Meaning::Fields::digits_from))]
fn read_digits(b: &[u8], most: u32) -> Option<u32>
    ensures { result ≡ digits_from most 0 b.now }
{
    let limit = most as u64;
    let mut v: u64 = 0;
    for &c in b {
        if !c.is_ascii_digit() {
            return None;
        }
        let n = v * 10 + (c - b'0') as u64;
        if limit < n {
            return None;
        }
        v = n;
    }
    Some(v as u32)
}

// The byte with which a number of several digits does not begin.
const ZERO: u8 = b'0';

// The number up to `most` that b holds.
#[tactic(auto, unfolding(crate::specs::Meaning::Fields::up_to))]
fn read_up_to(b: &[u8], most: u32) -> Option<u32>
    ensures { result ≡ up_to most b.now }
{
    match b {
        [] | [ZERO, _, ..] => None,
        _ => read_digits(b, most),
    }
}

// The number that b holds.
#[tactic(auto, unfolding(crate::specs::Meaning::Fields::number_of))]
pub fn read_number(b: &[u8]) -> Option<u32>
    ensures { result ≡ number_of b.now }
{
    read_up_to(b, u32::MAX)
}

// What was read with no minus before it.
fn plain(n: Option<u32>) -> Option<i32>
    requires { Short n }
    ensures { result ≡ Fields-plain n }
{
    n.map(|v| v as i32)
}

// What was read behind a minus.
fn negative(n: Option<u32>) -> Option<i32>
    requires { Short n }
    ensures { result ≡ Fields-negative n }
{
    n.filter(|v| *v != 0).map(|v| -(v as i32))
}

// The farthest count of sixteenths from 0.
const FARTHEST: u32 = 1048576;

// The count of sixteenths that b holds.
#[tactic(auto, using(crate::proofs::laws::CountLaws::short), unfolding(crate::specs::Meaning::Fields::count_of))]
pub fn read_count(b: &[u8]) -> Option<i32>
    ensures { result ≡ count_of b.now }
{
    match b {
        [b'-', digits @ ..] => negative(read_up_to(digits, FARTHEST)),
        _ => plain(read_up_to(b, FARTHEST)),
    }
}

// One byte at `at`, as all that is written here: answers where the next one goes.
#[tactic(auto, using(crate::proofs::laws::WrittenLaws::one_byte))]
pub fn put_byte(out: &mut [u8], at: usize, c: u8) -> usize
    requires { at < length out.old }
    ensures { buffer out.new result ≡ put_text (buffer out.old at) (c ∷ []) }
{
    out[at] = c;
    at + 1
}

// The digits of n.
fn put_digits(out: &mut [u8], at: usize, n: u32) -> usize
    requires { at + length (decimal n) ≤ length out.old }
    ensures { buffer out.new result ≡ put_text (buffer out.old at) (decimal n) }
{
    let last = b'0' + (n % 10) as u8;
    if n < 10 {
        return put_byte(out, at, last);
    }
    let end = put_digits(out, at, n / 10);
    put_byte(out, end, last)
}

// n in decimal. The longest text has 10 digits.
pub fn put_number(out: &mut [u8], at: usize, n: u32) -> usize
    requires { at + 10 ≤ length out.old }
    ensures { buffer out.new result ≡ put_text (buffer out.old at) (decimal n) }
{
    put_digits(out, at, n)
}

// k in decimal. The longest text has a minus and 10 digits.
pub fn put_count(out: &mut [u8], at: usize, k: i32) -> usize
    requires { at + 11 ≤ length out.old }
    ensures { buffer out.new result ≡ put_text (buffer out.old at) (signed_text k) }
{
    let next = if k < 0 { put_byte(out, at, b'-') } else { at };
    put_number(out, next, k.unsigned_abs())
}
