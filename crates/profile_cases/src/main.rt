// The cases of `profile` besides the sample, through the same function: no input, one sample, the ends of 16 bits, small values of either sign, halves and
// what lies beside them, an odd byte, 501 samples and 502. Then whole metres of every 16-bit number.
#![tactic(auto)]

ghost use Rattle.std.specs.Prelude.{◌≤◌};

use profile_text::ROOM;
use std::io;

fn show(rt: &impl Print, input: &[u8]) -> io::Result<()> {
    let mut out = [0u8; ROOM];
    let len = profile_text::text(input, &mut out);
    rt.write_all(&out[..len])
}

// 1 where whole metres are others than these.
fn unlike(dm: i16, metres: i16) -> u32
    ensures { result ≤ 1 }
{
    if profile_text::whole_metres(dm) == metres {
        0
    } else {
        1
    }
}

// How many of all 16-bit numbers have other whole metres than a count by single decimetres from zero, upward and downward: the first metre
// begins with the fifth decimetre, and each tenth one begins another.
fn differing() -> u32 {
    let mut metres: u32 = 0;
    let mut since: u32 = 5;
    let mut found: u32 = 0;
    for dm in 0..32768u32 {
        found += unlike(dm as i16, metres as i16);
        metres += (since + 1) / 10;
        since = (since + 1) % 10;
        found += unlike(-1 - (dm as i16), -(metres as i16));
    }
    found
}

fn main(rt: HostRuntime) -> io::Result<()> {
    show(&rt, b"")?;
    show(&rt, b"\x19\x00")?;
    show(&rt, b"\x00\x80\xff\x7f")?;
    show(&rt, b"\x09\x00\x0a\x00\xf7\xff\xf6\xff\xf5\xff\xff\xff")?;
    show(
        &rt,
        b"\x04\x00\x05\x00\x06\x00\xfc\xff\xfb\xff\xfa\xff\x0e\x00\x0f\x00\xf2\xff\xf1\xff\x19\x00\xe7\xff",
    )?;
    show(&rt, b"\x19")?;
    show(&rt, b"\x19\x00\x19")?;
    let most = [1u8; 1002];
    show(&rt, &most)?;
    let more = [1u8; 1004];
    show(&rt, &more)?;
    let found = differing();
    println!(rt; "{found} of 65536 differ")
}
