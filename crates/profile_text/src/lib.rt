// The text that the program `profile` prints: a heading and a line for each sample, metres ahead and rise in whole metres.
// `drive` has the line that the program `drive` prints for a fix, `page` the printed page.
#![tactic(auto)]

pub mod drive;
pub mod page;

ghost use Rattle.std.specs.Prelude.{◌≡◌, [], ◌∷◌, ◌++◌, ◌+◌, ◌*◌, ◌<◌, ◌≤◌, length, drop, get_or, nat_abs};
ghost use Rattle.num.specs.Cast.{signed16};
ghost use Rattle.profile_text.specs.Text as Text;
ghost use Rattle.profile_text.specs.Appended.{Appended};

// A heading of 14 bytes and 501 lines of 12 at most.
pub const ROOM: usize = 6026;

// A byte at a place, and the next place. The writers take the lent array and the place and give the next one: as methods of a struct that held both, each would
// have to promise besides that the struct still holds the same array.
fn put(out: &mut [u8; ROOM], at: usize, b: u8) -> usize
    requires { at < 6026 }
    ensures { Appended out.old at (b ∷ []) out.new result }
{
    out[at] = b;
    at + 1
}

fn put_bytes(out: &mut [u8; ROOM], at: usize, text: &[u8]) -> usize
    requires { at + length text.now ≤ 6026 }
    ensures { Appended out.old at text.now out.new result }
{
    let end = at + text.len();
    out[at..end].copy_from_slice(text);
    end
}

// A number below 100,000, the digits of highest weight first: those before the leading one are left out. By hand, since std's `write!` may fail and says nothing of
// when it does not, and what is printed here can't fail; a loop, since how many digits there are is known at its end alone.
fn put_number(out: &mut [u8; ROOM], at: usize, n: u32) -> usize
    requires { (n < 100000) × (at + 5 ≤ 6026) }
    ensures { Appended out.old at (Text.decimal n) out.new result }
{
    let mut digits = [0u8; 5];
    let mut first = 5;
    let mut left = n;
    loop {
        first -= 1;
        digits[first] = (48 + left % 10) as u8;
        left /= 10;
        if left == 0 {
            break;
        }
    }
    put_bytes(out, at, &digits[first..])
}

// Decimetres in whole metres, rounded to nearest, halves away from zero.
pub fn whole_metres(dm: i16) -> i16
    ensures { result ≡ Text.whole_metres dm }
{
    let cut = dm / 10;
    // what was cut, with the sign of `dm`
    let rest = dm % 10;
    if 5 <= rest {
        cut + 1
    } else if rest <= -5 {
        cut - 1
    } else {
        cut
    }
}

// The sample at index i: bytes 2 i and 2 i + 1, the low one first.
fn sample(input: &[u8], i: usize) -> i16
    requires { i * 2 + 1 < length input.now }
    ensures { result ≡ signed16 (get_or input.now (i * 2) 0 + get_or input.now (i * 2 + 1) 0 * 256) }
{
    i16::from_le_bytes([input[i * 2], input[i * 2 + 1]])
}

// The size of a height, without its sign.
fn size(z: i16) -> u32
    ensures { (result ≡ nat_abs z) × (result ≤ 32768) }
{
    u32::from(z.unsigned_abs())
}

fn put_signed(out: &mut [u8; ROOM], at: usize, z: i16) -> usize
    requires { at + 6 ≤ 6026 }
    ensures { Appended out.old at (Text.signed z) out.new result }
{
    if z < 0 {
        let next = put(out, at, b'-');
        return put_number(out, next, size(z));
    }
    put_number(out, at, size(z))
}

fn put_line(out: &mut [u8; ROOM], at: usize, i: usize, dm: i16) -> usize
    requires { (i < 501) × (at + 12 ≤ 6026) }
    ensures { Appended out.old at (Text.line i dm) out.new result }
{
    let a = put_number(out, at, (i * 20) as u32);
    let b = put(out, a, b' ');
    let c = put_signed(out, b, whole_metres(dm));
    put(out, c, b'\n')
}

// The text of an input: its length, and `out` begins with it. What follows in `out` is as it was.
pub fn text(input: &[u8], out: &mut [u8; ROOM]) -> usize
    ensures value { result ≡ length (Text.profile input.now) }
    ensures out_after { out.new ≡ Text.profile input.now ++ drop (length (Text.profile input.now)) out.old }
{
    if 1002 < input.len() || input.len() % 2 != 0 {
        return put_bytes(out, 0, b"bad input\n");
    }
    let count = input.len() / 2;
    let mut at = put_bytes(out, 0, b"distance rise\n");
    for i in 0..count {
        at = put_line(out, at, i, sample(input, i));
    }
    at
}
