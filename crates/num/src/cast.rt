// Rust's casts from floats to whole numbers, which cut toward zero, hold to the range and make 0 of not-a-number, and the casts that keep low bits.
ghost use Rattle.std.specs.Prelude.{◌≡◌, min, true, false, T, pos};
ghost use Rattle.std.specs.Float.{fin};
ghost use Rattle.std.specs.Float.Ieee.{lt, to_signed, to_unsigned};
ghost use Rattle.num.specs.Cast.{bits32, low_bits, low16};

// By how many digits a float is shifted, 31 at most: from 24 on nothing of its 24 digits is left.
fn cut(n: u32) -> u32
    ensures { result ≡ min n 31 }
{
    n.min(31)
}

// The whole part of a float between -2^24 and 2^24, which is its digits times 2^(exponent - 150). Each choice is between two numbers, which the compiler
// makes without a jump: the floats of a match go either way, and std's cast has a branch for each sign.
fn whole_part(x: f32) -> i32
    requires above_least { T (lt (fin true 1 (pos 24)) x) }
    requires below_most { T (lt x (fin false 1 (pos 24))) }
    ensures { result ≡ to_signed 31 x }
{
    let bits = f32::to_bits(x);
    let size = bits % 2147483648;
    let digits = size % 8388608 + 8388608;
    let n = digits >> cut(150 - size / 8388608);
    if bits < 2147483648 {
        return n as i32;
    }
    0 - (n as i32)
}

// Rust's `x as i64`. The others hold its answer to their own range as whole numbers.
pub fn i64_of_f32(x: f32) -> i64
    ensures { result ≡ to_signed 63 x }
{
    if x > -16777216.0 && x < 16777216.0 {
        return whole_part(x) as i64;
    }
    std::num::saturating_f32_to_i64(x)
}

// Rust's `x as i32`.
pub fn i32_of_f32(x: f32) -> i32
    ensures { result ≡ to_signed 31 x }
{
    i64_of_f32(x).clamp(-2147483648, 2147483647) as i32
}

// Rust's `x as i16`.
pub fn i16_of_f32(x: f32) -> i16
    ensures { result ≡ to_signed 15 x }
{
    i64_of_f32(x).clamp(-32768, 32767) as i16
}

// Rust's `x as u32`.
pub fn u32_of_f32(x: f32) -> u32
    ensures { result ≡ to_unsigned 32 x }
{
    i64_of_f32(x).clamp(0, 4294967295) as u32
}

// Rust's `x as u8`.
pub fn u8_of_f32(x: f32) -> u8
    ensures { result ≡ to_unsigned 8 x }
{
    i64_of_f32(x).clamp(0, 255) as u8
}

// Rust's `x as u64` of a double.
pub fn u64_of_f64(x: f64) -> u64
    ensures { result ≡ to_unsigned 64 x }
{
    std::num::saturating_f64_to_u64(x)
}

// Rust's `z as u32`.
pub fn u32_of_i32(z: i32) -> u32
    ensures { result ≡ bits32 z }
{
    z.cast_unsigned()
}

// The low 16 bits of z.
fn low_bits(z: i32) -> u32
    ensures { result ≡ low_bits z }
{
    u32_of_i32(z) % 65536
}

// Rust's `z as u16`.
pub fn u16_of_i16(z: i16) -> u16
    ensures { result ≡ low_bits z }
{
    i16::cast_unsigned(z)
}

// Rust's `z as i16`.
pub fn i16_of_i32(z: i32) -> i16
    ensures { result ≡ low16 z }
{
    (low_bits(z) as u16).cast_signed()
}
