// The printed profile page: a heading and up to fifty samples, a line of 40 characters each, with metres ahead, rise in metres and a bar.
ghost use Rattle.std.specs.Prelude.{◌≡◌, true, ◌++◌, ◌+◌, ◌-◌, ◌≤◌, ◌<◌, length, take, drop, replicate, nat_abs, ◌-ℤ◌, IfOk};
ghost use Rattle.std.specs.Int.Signed.{le_z};
ghost use Rattle.profile_text.specs.Text as Text;
ghost use Rattle.profile_text.specs.Page as Page;
ghost use Rattle.profile_text.specs.Appended.{Appended};

use crate::{ROOM, put, put_bytes, put_number, size};
use refusal::Refusal;

// The lowest and the highest sample of a road.
#[derive(Clone, Copy, PartialEq, Eq, Debug)]
struct Heights {
    low: i16,
    high: i16,
}

fn range(samples: &[i16]) -> Heights
    ensures lowest { result.low ≡ Page.lowest samples.now }
    ensures highest { result.high ≡ Page.highest samples.now }
{
    let Some((first, rest)) = samples.split_first() else {
        return Heights { low: 0, high: 0 };
    };
    let mut r = Heights {
        low: *first,
        high: *first,
    };
    for z in rest {
        r = Heights {
            low: r.low.min(*z),
            high: (*z).max(r.high),
        };
    }
    r
}

// How many decimetres z lies above `low`.
fn above(low: i16, z: i16) -> u32
    requires { le_z low z ≡ true }
    ensures { (result ≡ nat_abs (z -ℤ low)) × (result < 65536) }
{
    (i32::from(z) - i32::from(low)) as u32
}

#[tactic(auto, using(std::proofs::lemmas::Bool::Decides::nat_tests, crate::proofs::Pages::bar_flat, crate::proofs::Pages::bar_part))]
fn bar_length(r: Heights, z: i16) -> usize
    requires { (le_z r.low z ≡ true) × (le_z z r.high ≡ true) }
    ensures { result ≡ Page.bar_length r.low r.high z }
{
    let height = above(r.low, r.high);
    if height == 0 {
        0
    } else {
        (25 * above(r.low, z) / height) as usize
    }
}

// How many digits a number has; so many turns does the loop take.
fn width(n: u32) -> usize
    ensures { result ≡ length (Text.decimal n) }
{
    let mut digits = 1;
    let mut left = n;
    while 10 <= left {
        left /= 10;
        digits += 1;
    }
    digits
}

// A byte n times.
fn put_many(out: &mut [u8; ROOM], at: usize, b: u8, n: usize) -> usize
    requires { at + n ≤ 6026 }
    ensures { Appended out.old at (replicate n b) out.new result }
{
    out[at..at + n].fill(b);
    at + n
}

// Metres ahead, right in 6.
fn put_ahead(out: &mut [u8; ROOM], at: usize, i: usize) -> usize
    requires { (i < 501) × (at + 11 ≤ 6026) }
    ensures appended { Appended out.old at (Page.ahead i) out.new result }
    ensures value { result ≡ at + 6 }
{
    let metres = (i * 20) as u32;
    let next = put_many(out, at, b' ', 6 - width(metres));
    put_number(out, next, metres)
}

fn sign(z: i16) -> u8
    ensures { result ≡ Page.sign z }
{
    if z < 0 { b'-' } else { b'+' }
}

// Metres with one decimal.
fn put_tenths(out: &mut [u8; ROOM], at: usize, n: u32) -> usize
    requires { (n ≤ 32768) × (at + 10 ≤ 6026) }
    ensures { Appended out.old at (Page.tenths n) out.new result }
{
    let a = put_number(out, at, n / 10);
    let b = put(out, a, b'.');
    put_number(out, b, n % 10)
}

// The rise with its sign, right in 9: sign, point and decimal are three of them.
fn put_rise(out: &mut [u8; ROOM], at: usize, z: i16) -> usize
    requires { at + 17 ≤ 6026 }
    ensures appended { Appended out.old at (Page.right_in 9 (Page.rise z)) out.new result }
    ensures value { result ≡ at + 9 }
{
    let n = size(z);
    let a = put_many(out, at, b' ', 6 - width(n / 10));
    let b = put(out, a, sign(z));
    put_tenths(out, b, n)
}

// The bar and the line's end.
fn put_bar(out: &mut [u8; ROOM], at: usize, n: usize) -> usize
    requires { (n ≤ 25) × (at + 26 ≤ 6026) }
    ensures appended { Appended out.old at (Page.bar n) out.new result }
    ensures value { result ≡ at + 26 }
{
    let a = put_many(out, at, b'#', n);
    let b = put_many(out, a, b' ', 25 - n);
    put(out, b, b'\n')
}

fn put_page_line(out: &mut [u8; ROOM], at: usize, i: usize, r: Heights, z: i16) -> usize
    requires sample_number { i < 501 }
    requires line_fits { at + 41 ≤ 6026 }
    requires height_between { (le_z r.low z ≡ true) × (le_z z r.high ≡ true) }
    ensures appended { Appended out.old at (Page.page_line r.low r.high i z) out.new result }
    ensures value { result ≡ at + 41 }
{
    let a = put_ahead(out, at, i);
    let b = put_rise(out, a, z);
    put_bar(out, b, bar_length(r, z))
}

// The page of the samples from one index up to another, at most fifty of them.
fn put_page(out: &mut [u8; ROOM], samples: &[i16], from: usize, to: usize) -> usize
    requires { (from ≤ to) × ((to ≤ from + 50) × ((to ≤ length samples.now) × (to ≤ 501))) }
    ensures { Appended out.old 0 (Page.page_of samples.now from (take (to - from) (drop from samples.now))) out.new result }
{
    let r = range(samples);
    let mut at = put_bytes(out, 0, b" ahead     rise                         \n");
    for i in from..to {
        at = put_page_line(out, at, i, r, samples[i]);
    }
    at
}

// Page p of a road of at most 501 samples. `BadState` where there are more samples, `NoRoom` where `out` is too short; then nothing is written. What follows the page in `out` is as it was.
pub fn page(samples: &[i16], p: u32, out: &mut [u8]) -> Result<usize, Refusal>
    ensures value { result ≡ Page.printed samples.now p (length out.old) }
    ensures fits { IfOk result (λ n. n ≤ length out.old) }
    ensures out_after { out.new ≡ Page.written samples.now p out.old }
{
    if 501 < samples.len() {
        return Err(Refusal::BadState);
    }
    let from = (p as usize * 50).min(samples.len());
    let to = (from + 50).min(samples.len());
    let mut text = [0u8; ROOM];
    let len = put_page(&mut text, samples, from, to);
    if out.len() < len {
        return Err(Refusal::NoRoom);
    }
    out[..len].copy_from_slice(&text[..len]);
    Ok(len)
}
