// The square root of a single float, correctly rounded, by whole numbers, none of which is wider than 32 bits, as the types show: root and remainder of the
// value's digits so far are carried, never the value. Each digit of the root takes two of the value's. (std's `sqrt` is the machine's own operation, which would
// be trusted; this one is proved.)
ghost use Rattle.std.specs.Prelude.{◌≡◌, ◌+◌, ◌*◌, ◌^◌, ◌<◌, ◌≤◌, ◌⊎◌, from_bits};
ghost use Rattle.std.specs.Float.{binary32};
ghost use Rattle.num.specs.Root.{square, whole_root, near_root, square_root};

// A whole root, and the remainder: what its number has above the root's square, at most twice the root.
#[derive(Clone, Copy, PartialEq, Eq, Debug)]
struct Parts {
    whole: u32,
    rest: u32,
}

// 1 where a is below b, else 0: a number to add or take away in place of a branch, which on the digits of a root would go either way.
fn below(a: u32, b: u32) -> u32
    ensures { ((a < b) × (result ≡ 1)) ⊎ ((b ≤ a) × (result ≡ 0)) }
{
    if a < b { 1 } else { 0 }
}

// The root, of four digits, of a number of seven or eight. The line from (64, 8) to (256, 16) runs below the root's curve, by less than 1.
fn first(x: u32) -> Parts
    requires { (64 ≤ x) × (x < 256) }
    ensures { (square result.whole + result.rest ≡ x) × (result.rest ≤ 2 * result.whole) }
{
    let least = (x + 128) / 24;
    let whole = least + below(least * (least + 2), x);
    Parts {
        whole,
        rest: x - whole * whole,
    }
}

// Further digits of a root at once, as many as b, a power of two, has zeros; the number's own that follow, twice as many, come as high and low. The remainder
// with high, divided by twice the root, gives the root's digits, or one too many where their square is more than what is left. No sum or product here has
// more than 28 digits.
fn longer(p: Parts, b: u32, high: u32, low: u32) -> Parts
    requires { (p.rest ≤ 2 * p.whole) × ((p.whole < 8192) × ((b ≤ 4096) × ((b ≤ p.whole) × ((high < b) × (low < b))))) }
    ensures { (square result.whole + result.rest ≡ (square p.whole + p.rest) * (b * b) + high * b + low) × (result.rest ≤ 2 * result.whole) }
{
    let twice = p.whole * 2;
    let part = p.rest * b + high;
    let next = part / twice;
    let left = part % twice * b + low;
    let whole = p.whole * b + next;
    let taken = next * next;
    let extra = below(left, taken);
    Parts {
        whole: whole - extra,
        rest: left + extra * (whole * 2 - 1) - taken,
    }
}

// The whole root, of 25 digits, of x * 2 ^ 24, of which no number holds the 49 or 50 digits: 4, 3, 6 and 12 of the root's, for 8, 6, 12 and 24 of them.
fn root_of(x: u32) -> u32
    requires { (16777216 ≤ x) × (x < 67108864) }
    ensures { result ≡ whole_root (x * 16777216) }
{
    let four = first(x / 0x4_0000);
    let seven = longer(four, 8, x / 0x8000 % 8, x / 0x1000 % 8);
    let thirteen = longer(seven, 64, x / 64 % 64, x % 64);
    let all = longer(thirteen, 4096, 0, 0);
    all.whole
}

// The pattern of the root of m * 2 ^ s of the smallest values. m is scaled to 49 or 50 digits, so that its whole root has 25: the last of them rounds,
// and no tie can occur, since the square of a midpoint is odd.
fn rounded(m: u32, s: u32) -> u32
    requires { (0 < m) × ((m < 16777216) × (s ≤ 253)) }
    ensures { (from_bits binary32 result ≡ near_root binary32 (m * 2 ^ s * 2 ^ 149)) × (result < 2139095040) }
{
    let digits = 32 - u32::leading_zeros(m);
    let t = s + digits;
    let root = root_of(m << (25 - digits + t % 2));
    (t / 2 + 51) * 0x80_0000 + (root + 1) / 2
}

// The pattern of the root, of the pattern of a positive finite value.
fn root_bits(b: u32) -> u32
    requires { (0 < b) × (b < 2139095040) }
    ensures { (from_bits binary32 result ≡ square_root binary32 (from_bits binary32 b)) × (result < 2139095040) }
{
    let field = b / 0x80_0000;
    let low = b % 0x80_0000;
    if field == 0 {
        return rounded(low, 0);
    }
    rounded(0x80_0000 + low, field - 1)
}

// libm's sqrtf.
pub fn sqrt(x: f32) -> f32
    ensures { result ≡ square_root binary32 x }
{
    if x != x {
        return x;
    }
    let b = f32::to_bits(x);
    if b == 0 {
        return x;
    }
    if b < 2139095040 {
        return f32::from_bits(root_bits(b));
    }
    if b == 2139095040 {
        return x;
    }
    if b == 2147483648 {
        return x;
    }
    0.0 / 0.0
}
