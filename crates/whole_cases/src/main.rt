// `whole`, run where its shifts begin, turn round and end, and for what lies outside the domain. Each line is the bits of a binary32 and its whole
// number.
#![tactic(auto)]

ghost use Rattle.std.specs.Prelude.{◌≡◌};
ghost use Rattle.std.specs.Float.{binary32};
ghost use Rattle.std.specs.Float.Ieee.{of_bits};

use std::io;

// The binary32 that has these bits. No bits of a NaN may be handed to `from_bits`: it comes of a division.
fn number_of(bits: u32) -> f32
    ensures { result ≡ of_bits binary32 bits }
{
    if 2139095040 < bits % 2147483648 {
        return 0.0 / 0.0;
    }
    f32::from_bits(bits)
}

fn line(rt: &impl Print, bits: u32) -> io::Result<()> {
    let n = cells::whole(number_of(bits));
    println!(rt; "0x{bits:08x},{n}")
}

// Below 1 nothing is left.
fn below_one(rt: &impl Print) -> io::Result<()> {
    line(rt, 0x00000000)?;
    line(rt, 0x80000000)?; // -0.0
    line(rt, 0x00000001)?; // the least above 0
    line(rt, 0x3f7fffff) // 1 - 2^-24
}

fn to_the_right(rt: &impl Print) -> io::Result<()> {
    line(rt, 0x3f800000)?; // 1.0, by 23 places
    line(rt, 0xbfffffff)?; // just above -2
    line(rt, 0xc1180000)?; // -9.5
    line(rt, 0x49800000)?; // 1048576.0, where the domain ends
    line(rt, 0xc9800000)?;
    line(rt, 0x4affffff) // 8388607.5, by one place
}

fn to_the_left(rt: &impl Print) -> io::Result<()> {
    line(rt, 0x4b000000)?; // 8388608.0, by none
    line(rt, 0x4b7fffff)?; // 16777215.0
    line(rt, 0x4b800000)?; // 16777216.0, by one place
    line(rt, 0x4effffff)?; // 2147483520.0, by seven
    line(rt, 0xceffffff)
}

// From 2^31 on the outermost numbers; 0 for what is no number.
fn outside(rt: &impl Print) -> io::Result<()> {
    line(rt, 0x4f000000)?; // 2^31
    line(rt, 0xcf000000)?;
    line(rt, 0x7f800000)?; // infinity
    line(rt, 0xff800000)?;
    line(rt, 0x7fc00000)?; // NaN
    line(rt, 0xffc00000)
}

fn main(rt: HostRuntime) -> io::Result<()> {
    below_one(&rt)?;
    to_the_right(&rt)?;
    to_the_left(&rt)?;
    outside(&rt)
}
