// The bearing of a vector in whole numbers, rounded to a single float at the end. One degree is 2 ^ 32.
ghost use Rattle.std.specs.Prelude.{◌≡◌, ◌-◌, ◌*◌, ◌/◌, ◌^◌, ◌<◌, ◌≤◌, true, from_bits};
ghost use Rattle.std.specs.Float.{binary32};
ghost use Rattle.num.specs.Order.{is_finite};
ghost use Rattle.angle.specs.Bearing as Bearing;
ghost use Rattle.angle.specs.Significand.{IsSignificand};

use refusal::Refusal;

// A magnitude, digits * 2 ^ shift of the smallest single float.
#[derive(Clone, Copy, PartialEq, Eq, Debug)]
pub struct Scaled {
    pub digits: u64,
    pub shift: u64,
}

// Of a pattern with its sign clear, below the infinity's. A field of 0 has no leading digit.
fn significand(b: u32) -> Scaled
    requires { b < 2139095040 }
    ensures { IsSignificand b result }
{
    let field = (b / 8388608) as u64;
    let low = (b % 8388608) as u64;
    if field == 0 {
        Scaled {
            digits: low,
            shift: 0,
        }
    } else {
        Scaled {
            digits: 8388608 + low,
            shift: field - 1,
        }
    }
}

// The smaller magnitude by the larger, in 2 ^ -31, cut. The patterns are in the order of their magnitudes.
fn ratio(lo: u32, hi: u32) -> u64
    requires { (0 < hi) × ((lo ≤ hi) × (hi < 2139095040)) }
    ensures { (result ≡ Bearing.ratio (Bearing.magnitude (from_bits binary32 lo)) (Bearing.magnitude (from_bits binary32 hi))) × (result ≤ 2147483648) }
{
    let a = significand(lo);
    let b = significand(hi);
    let whole = a.digits * 2147483648 / b.digits;
    let shift = b.shift - a.shift;
    if 63 < shift { 0 } else { whole >> shift }
}

// c - s * p, s in 2 ^ -31, the product cut.
fn term(c: u64, s: u64, p: u64) -> u64
    requires { (s ≤ 2147483648) × ((p ≤ c) × (c < 4294967296)) }
    ensures { (result ≡ c - s * p / 2 ^ 31) × (result ≤ c) }
{
    c - s * p / 2147483648
}

// The arc tangent of q / 2 ^ 31.
fn arc(q: u64) -> u64
    requires { q ≤ 2147483648 }
    ensures { result ≡ Bearing.arc q }
{
    let s = q * q / 2147483648;
    let p8 = term(36368934, s, 5709920);
    let p7 = term(108764466, s, p8);
    let p6 = term(210785525, s, p7);
    let p5 = term(315340625, s, p6);
    let p4 = term(418090437, s, p5);
    let p3 = term(547776545, s, p4);
    let p2 = term(768869740, s, p3);
    let p1 = term(1281678797, s, p2);
    let p0 = term(3845054597, s, p1);
    (q * p0 / 33554432).min(193273528320)
}

// The angle from north to east of a vector whose parts are not negative and not both zero, by their patterns.
fn quarter(east: u32, north: u32) -> u64
    requires { (0 < east) × ((east < 2139095040) × (north < 2139095040)) }
    ensures { (result ≡ Bearing.quarter (Bearing.magnitude (from_bits binary32 east)) (Bearing.magnitude (from_bits binary32 north))) × (result ≤ 386547056640) }
{
    if east <= north {
        arc(ratio(east, north))
    } else {
        386547056640 - arc(ratio(north, east))
    }
}

fn southern(north: f32, a: u64) -> u64
    requires { a ≤ 386547056640 }
    ensures { (result ≡ Bearing.southern north a) × (result ≤ 773094113280) }
{
    if north < 0.0 { 773094113280 - a } else { a }
}

fn western(east: f32, a: u64) -> u64
    requires { a ≤ 773094113280 }
    ensures { result ≡ Bearing.western east a }
{
    if east < 0.0 { 1546188226560 - a } else { a }
}

// The bearing of a finite vector.
fn degrees(east: f32, north: f32) -> f32
    requires { (is_finite east ≡ true) × (is_finite north ≡ true) }
    ensures { result ≡ Bearing.degrees east north }
{
    if east == 0.0 {
        if num::order::is_sign_negative(north) {
            return 180.0;
        }
        return east;
    }
    let a = quarter(
        f32::to_bits(east) % 2147483648,
        f32::to_bits(north) % 2147483648,
    );
    let b = western(east, southern(north, a));
    num::convert::nearest(b, 1042)
}

// The bearing of a vector. A figure that is not finite is 8.
#[tactic(auto, unfolding(crate::specs::Bearing::bearing))]
pub fn bearing(east: f32, north: f32) -> Result<f32, Refusal>
    ensures { result ≡ Bearing.bearing east north }
{
    if num::order::is_finite(east) && num::order::is_finite(north) {
        Ok(degrees(east, north))
    } else {
        Err(Refusal::OutOfRange)
    }
}
