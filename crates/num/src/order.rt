// The float helpers that Rust has as methods. std's `min` and `max` leave open which of two zeros they answer, and its `clamp`, `is_sign_negative` and
// `total_cmp` ask that nothing is not-a-number: these answer for every value.
ghost use Rattle.std.specs.Prelude.{◌≡◌};
ghost use Rattle.num.specs.Order as Order;

use std::cmp::Ordering;

// Rust's `a.min(b)`.
pub fn min(a: f32, b: f32) -> f32
    ensures { result ≡ Order.min a b }
{
    if a.is_nan() || b < a { b } else { a }
}

// Rust's `a.max(b)`.
pub fn max(a: f32, b: f32) -> f32
    ensures { result ≡ Order.max a b }
{
    if a.is_nan() || a < b { b } else { a }
}

// Rust's `x.clamp(lo, hi)`. Rust stops the program where lo is above hi or either is not-a-number; here the same steps are taken.
pub fn clamp(x: f32, lo: f32, hi: f32) -> f32
    ensures { result ≡ Order.clamp x lo hi }
{
    if x < lo {
        lo
    } else if hi < x {
        hi
    } else {
        x
    }
}

// Rust's `x.is_sign_negative()`.
pub fn is_sign_negative(x: f32) -> bool
    ensures { result ≡ Order.is_sign_negative x }
{
    !x.is_nan() && x.is_sign_negative()
}

// libm's fabsf.
#[tactic(auto, using(crate::proofs::OrderLaws::abs_is))]
pub fn fabsf(x: f32) -> f32
    ensures { result ≡ Order.fabsf x }
{
    x.abs()
}

// Rust's `x.is_finite()`.
#[tactic(auto, using(crate::proofs::OrderLaws::finite_is))]
pub fn is_finite(x: f32) -> bool
    ensures { result ≡ Order.is_finite x }
{
    x.is_finite()
}

// Of two equal values: -0 before +0.
fn by_sign(a: f32, b: f32) -> Ordering
    ensures { result ≡ Order.by_sign (Order.is_sign_negative a) (Order.is_sign_negative b) }
{
    match (is_sign_negative(a), is_sign_negative(b)) {
        (true, false) => Ordering::Less,
        (false, true) => Ordering::Greater,
        (true, true) | (false, false) => Ordering::Equal,
    }
}

// Rust's `a.total_cmp(&b)`.
pub fn total_cmp(a: f32, b: f32) -> Ordering
    ensures { result ≡ Order.total_cmp a b }
{
    if a < b {
        return Ordering::Less;
    }
    if b < a {
        return Ordering::Greater;
    }
    if a == b {
        return by_sign(a, b);
    }
    match (a.is_nan(), b.is_nan()) {
        (true, true) => Ordering::Equal,
        (true, false) => Ordering::Greater,
        (false, _) => Ordering::Less,
    }
}
