// Whole numbers and doubles to single floats, each rounded once: to nearest, ties to even.
ghost use Rattle.std.specs.Prelude.{◌≡◌, ◌^◌, ◌<◌, ◌≤◌, pos, from_bits};
ghost use Rattle.std.specs.Float.{binary32, binary64};
ghost use Rattle.std.specs.Float.Ieee.{of_int};
ghost use Rattle.std.specs.Float.Ieee.Nearest.{closest};
ghost use Rattle.num.specs.Convert.{nearest_to, narrow};

// m without its `cut` low binary digits, rounded to nearest, ties to even. One digit more than is kept tells the halves apart, and what lies below it a tie.
fn kept(m: u64, cut: u64) -> u64
    requires { (0 < cut) × (cut ≤ 64) }
    ensures { result ≡ closest m (2 ^ cut) }
{
    let more = m >> (cut - 1);
    let whole = more / 2;
    if more % 2 == 0 {
        return whole;
    }
    if more << (cut - 1) < m {
        return whole + 1;
    }
    whole + whole % 2
}

// The pattern of the single float nearest to n * 2 ^ i / 2 ^ 1074. The count of leading zeros gives the exponent: n * 2 ^ i has `top` digits.
// A float's digits are 24, fewer where its exponent is the least; from 2 ^ 128 on it is the infinity.
fn nearest_bits(n: u64, i: u64) -> u32
    requires { (0 < n) × (i < 2 ^ 32) }
    ensures { (from_bits binary32 result ≡ nearest_to n i) × (result ≤ 2139095040) }
{
    let zeros = u64::leading_zeros(n) as u64;
    let top = 64 - zeros + i;
    if 1203 <= top {
        return 2139095040;
    }
    let m = n << zeros;
    if 949 <= top {
        return ((top - 949) * 8388608 + kept(m, 40)) as u32;
    }
    if top < 925 {
        return 0;
    }
    kept(m, 989 - top) as u32
}

// The single float nearest to n * 2 ^ i / 2 ^ 1074: every whole number of 64 bits, scaled by any power of two that a double has.
pub fn nearest(n: u64, i: u32) -> f32
    ensures { result ≡ nearest_to n i }
{
    if n == 0 {
        return 0.0;
    }
    f32::from_bits(nearest_bits(n, i as u64))
}

// Rust's `n as f32`. To 2^24 the language's own cast loses nothing, and is the faster one.
pub fn f32_of_u32(n: u32) -> f32
    ensures { result ≡ of_int binary32 (pos n) }
{
    f32_of_usize(n as usize)
}

// Rust's `n as f32` of a count.
pub fn f32_of_usize(n: usize) -> f32
    ensures { result ≡ of_int binary32 (pos n) }
{
    if n <= 16777216 {
        n as f32
    } else {
        nearest(n as u64, 1074)
    }
}

// A large number rounded: its size, and then its sign.
fn rounded_i64(z: i64) -> f32
    ensures { result ≡ of_int binary32 z }
{
    let size = nearest(z.unsigned_abs(), 1074);
    if z < 0 { -size } else { size }
}

// Rust's `z as f32`.
pub fn f32_of_i64(z: i64) -> f32
    ensures { result ≡ of_int binary32 z }
{
    if -16777216 <= z && z <= 16777216 {
        z as f32
    } else {
        rounded_i64(z)
    }
}

// Rust's `z as f32`.
pub fn f32_of_i32(z: i32) -> f32
    ensures { result ≡ of_int binary32 z }
{
    f32_of_i64(z as i64)
}

// Rust's `n as f32` of a byte, which a single float holds exactly.
pub fn f32_of_u8(n: u8) -> f32
    ensures { result ≡ of_int binary32 (pos n) }
{
    n as f32
}

// The same of a pattern with its sign clear that is no NaN's: a field of 0 has no leading digit. It goes by `nearest`, as docs/DECISIONS.md has it ("One conversion"),
// though std has this cast too.
fn narrow_bits(b: u64) -> f32
    requires { b ≤ 9218868437227405312 }
    ensures { result ≡ narrow (from_bits binary64 b) }
{
    let field = b / 4503599627370496;
    let digits = b % 4503599627370496;
    if field == 0 {
        return nearest(digits, 0);
    }
    nearest(4503599627370496 + digits, (field - 1) as u32)
}

// Rust's `x as f32`.
pub fn f32_of_f64(x: f64) -> f32
    ensures { result ≡ narrow x }
{
    if x != x {
        return 0.0 / 0.0;
    }
    let b = f64::to_bits(x);
    if b < 9223372036854775808 {
        return narrow_bits(b);
    }
    -narrow_bits(b - 9223372036854775808)
}
