// Positions and boxes, which of them are in the domain, and the tests of circle, rectangle and box: src/lib.rs of the Rust.
#![tactic(auto)]

ghost use Rattle.std.specs.Prelude.{◌≡◌};
ghost use Rattle.basics.specs.Words.{false};
ghost use Rattle.std.specs.Float.Ieee.{is_nan};
ghost use Rattle.basics.specs.Meaning.Says.{Says};
ghost use Rattle.geometry.specs.Meaning.Domain.{in_domain, position_in_domain, radius_in_domain, aabb_in_domain};
ghost use Rattle.geometry.specs.Meaning.Circle.{distance_squared, in_circle, corner_below, corner_above};
ghost use Rattle.geometry.specs.Meaning.Rectangle;
ghost use Rattle.geometry.specs.Meaning.Rectangle.{lower_corner, upper_corner, in_rectangle};
ghost use Rattle.geometry.specs.Meaning.Intersects;

#[derive(Clone, Copy, Debug)]
pub struct Position {
    pub x: f32,
    pub y: f32,
}

// Lower left and upper right.
#[derive(Clone, Copy, Debug)]
pub struct Aabb {
    pub ll: Position,
    pub ur: Position,
}

// Whether a coordinate is finite and at most 2^20 in magnitude. A NaN fails both comparisons.
pub fn in_domain(x: f32) -> bool
    ensures { result ≡ in_domain x }
{
    (-1048576.0 <= x) & (x <= 1048576.0)
}

pub fn position_in_domain(p: Position) -> bool
    ensures { result ≡ position_in_domain p }
{
    in_domain(p.x) & in_domain(p.y)
}

// -0.0 counts as 0.
pub fn radius_in_domain(radius: f32) -> bool
    ensures { result ≡ radius_in_domain radius }
{
    (0.0 <= radius) & (radius <= 1048576.0)
}

// Both corners are in the domain, and the box is not reversed.
pub fn aabb_in_domain(b: Aabb) -> bool
    ensures { result ≡ aabb_in_domain b }
{
    let corners = position_in_domain(b.ll) & position_in_domain(b.ur);
    corners & ((b.ll.x <= b.ur.x) & (b.ll.y <= b.ur.y))
}

pub fn distance_squared(p: Position, centre: Position) -> f32
    ensures { result ≡ distance_squared p centre }
{
    let dx = p.x - centre.x;
    let dy = p.y - centre.y;
    dx * dx + dy * dy
}

// Whether p is nearer to the centre than the radius.
pub fn in_circle(p: Position, centre: Position, radius: f32) -> bool
    ensures { result ≡ in_circle p centre radius }
{
    distance_squared(p, centre) < radius * radius
}

// The corners of the range that a circle is searched in. They may leave the domain.
pub fn corner_below(centre: Position, radius: f32) -> Position
    ensures { result ≡ corner_below centre radius }
{
    Position {
        x: centre.x - radius,
        y: centre.y - radius,
    }
}

pub fn corner_above(centre: Position, radius: f32) -> Position
    ensures { result ≡ corner_above centre radius }
{
    Position {
        x: centre.x + radius,
        y: centre.y + radius,
    }
}

// Written out, and no `f32::min`: of two zeros it is the first that counts, as in the Rust.
pub fn lesser(a: f32, b: f32) -> f32
    ensures { result ≡ Rectangle.lesser a b }
{
    if a <= b { a } else { b }
}

fn greater(a: f32, b: f32) -> f32
    ensures { result ≡ Rectangle.greater a b }
{
    if b <= a { a } else { b }
}

// The corners of a rectangle that is given by any two opposite ones.
pub fn lower_corner(a: Position, b: Position) -> Position
    ensures { result ≡ lower_corner a b }
{
    Position {
        x: lesser(a.x, b.x),
        y: lesser(a.y, b.y),
    }
}

pub fn upper_corner(a: Position, b: Position) -> Position
    ensures { result ≡ upper_corner a b }
{
    Position {
        x: greater(a.x, b.x),
        y: greater(a.y, b.y),
    }
}

// Whether p lies between the corners, edges included.
pub fn in_rectangle(p: Position, ll: Position, ur: Position) -> bool
    ensures { result ≡ in_rectangle p ll ur }
{
    ((ll.x <= p.x) & (p.x <= ur.x)) & ((ll.y <= p.y) & (p.y <= ur.y))
}

// The number without its sign. A zero is asked for by itself, since -0.0 is not below 0.0.
fn absolute(x: f32) -> f32
    ensures { result ≡ Intersects.absolute x }
{
    if x == 0.0 {
        return 0.0;
    }
    if x < 0.0 { -x } else { x }
}

// On one axis: twice the centres' distance is at most the sum of the widths.
fn overlaps(lo: f32, hi: f32, blo: f32, bhi: f32) -> bool
    ensures { result ≡ Intersects.overlaps lo hi blo bhi }
{
    absolute((lo + hi) - (blo + bhi)) <= hi - lo + bhi - blo
}

// The box test of the Rust, a the query box: it is what binary32 makes of it, and not exact.
#[tactic(auto, unfolding(crate::specs::Meaning::Intersects::intersects))]
pub fn intersects(a: Aabb, b: Aabb) -> bool
    ensures { result ≡ Intersects.intersects a b }
{
    let x = overlaps(a.ll.x, a.ur.x, b.ll.x, b.ur.x);
    let y = overlaps(a.ll.y, a.ur.y, b.ll.y, b.ur.y);
    x & y
}

// The same number, with the same sign of zero, and no NaN.
pub fn same_bits(a: f32, b: f32) -> bool
    ensures { Says result ((a ≡ b) × (is_nan a ≡ false)) }
{
    // a NaN is not equal to itself
    a == a && b == b && a.to_bits() == b.to_bits()
}

pub fn same_position(p: Position, q: Position) -> bool
    ensures { Says result ((p ≡ q) × (is_nan p.x ≡ false) × (is_nan p.y ≡ false)) }
{
    same_bits(p.x, q.x) & same_bits(p.y, q.y)
}
