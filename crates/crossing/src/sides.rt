// Whether two closed segments meet, by signs of whole numbers: they do unless a gap in one coordinate or the line through one of them separates them.
// No product of two coordinates passes 2^60, and no sum of three such 2^62.
ghost use Rattle.std.specs.Prelude.{◌≡◌, min, max};
ghost use Rattle.crossing.specs.Sides as Sides;

use crate::Place;
use geo::Point;

// z counted from -360,000,000.
fn raised(z: i32) -> u64
    ensures { result ≡ Sides.raised z }
{
    if z < -360000000 {
        return 0;
    }
    ((z as i64) + 360000000) as u64
}

pub fn place(p: Point) -> Place
    ensures { result ≡ Sides.place_of p }
{
    Place {
        y: raised(p.lat),
        x: raised(p.lon),
    }
}

fn low(p: u64, q: u64) -> u64
    ensures { result ≡ min p q }
{
    if p < q {
        return p;
    }
    q
}

fn high(p: u64, q: u64) -> u64
    ensures { result ≡ max p q }
{
    if p < q {
        return q;
    }
    p
}

// Whether there is a gap between p to q and r to s.
fn apart(p: u64, q: u64, r: u64, s: u64) -> bool
    ensures { result ≡ Sides.apart p q r s }
{
    if high(p, q) < low(r, s) {
        return true;
    }
    high(r, s) < low(p, q)
}

// Twice the area of the triangle a, b, c is side(a, b, c) less side(b, a, c): more than 0 where c lies left of the line from a to b.
fn side(a: Place, b: Place, c: Place) -> u64
    requires { Sides.Small a × (Sides.Small b × Sides.Small c) }
    ensures { result ≡ Sides.side a b c }
{
    b.x * c.y + b.y * a.x + a.y * c.x
}

// Whether c and e lie strictly on one side of the line from a to b.
fn beside(a: Place, b: Place, c: Place, e: Place) -> bool
    requires { Sides.Small a × (Sides.Small b × (Sides.Small c × Sides.Small e)) }
    ensures { result ≡ Sides.beside a b c e }
{
    let c_left = side(a, b, c);
    let c_right = side(b, a, c);
    let e_left = side(a, b, e);
    let e_right = side(b, a, e);
    if c_right < c_left {
        return e_right < e_left;
    }
    if c_left < c_right {
        return e_left < e_right;
    }
    false
}

// Whether the segments a to b and c to e have a common point.
pub fn meets(a: Place, b: Place, c: Place, e: Place) -> bool
    requires { Sides.Small a × (Sides.Small b × (Sides.Small c × Sides.Small e)) }
    ensures { result ≡ Sides.meets a b c e }
{
    if apart(a.y, b.y, c.y, e.y) {
        return false;
    }
    if apart(a.x, b.x, c.x, e.x) {
        return false;
    }
    if beside(a, b, c, e) {
        return false;
    }
    !beside(c, e, a, b)
}
