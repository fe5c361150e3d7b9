// The cases of the printed page besides the sample, through the same function: no sample, 501 samples on all their pages, 50, 51, all equal, both ends of 16 bits,
// the last page number, 502 samples, an output that is longer than the page, and one that is a byte too short.
#![tactic(auto)]

ghost use Rattle.std.specs.Prelude.{◌≡◌, length};

use profile_text::page::page;
use refusal::Refusal;
use std::{array, io};

// The heading and fifty lines, of 41 bytes each.
const PAGE: usize = 2091;

fn refused(rt: &impl Print, e: Refusal) -> io::Result<()> {
    println!(rt; "refused {}", e.number())
}

fn show(rt: &impl Print, samples: &[i16], p: u32) -> io::Result<()> {
    let mut out = [0u8; PAGE];
    match page(samples, p, &mut out) {
        Ok(len) => rt.write_all(&out[..len]),
        Err(e) => refused(rt, e),
    }
}

// Page 0 into an output, and all that the output holds then.
fn show_whole(rt: &impl Print, samples: &[i16], out: &mut [u8]) -> io::Result<()> {
    if let Err(e) = page(samples, 0, out) {
        refused(rt, e)?;
    }
    rt.write_all(out)?;
    println!(rt)
}

// Heights all over the 16 bits.
fn uneven() -> [i16; 502]
    ensures { 502 ≡ length result }
{
    array::from_fn(|i| (i as i16).wrapping_mul(1237))
}

fn show_all(rt: &impl Print, samples: &[i16]) -> io::Result<()> {
    for p in 0..12 {
        show(rt, samples, p)?;
    }
    Ok(())
}

fn main(rt: HostRuntime) -> io::Result<()> {
    let uneven = uneven();
    show_all(&rt, &uneven[0..501])?;
    show(&rt, &[], 0)?;
    show(&rt, &uneven[0..50], 0)?;
    show(&rt, &uneven[0..50], 1)?;
    show(&rt, &uneven[0..51], 0)?;
    show(&rt, &uneven[0..51], 1)?;
    show(&rt, &uneven[0..501], 4294967295)?;
    show(&rt, &uneven[0..502], 0)?;
    let flat = [7i16; 3];
    show(&rt, &flat, 0)?;
    let ends = [-32768i16, 32767, 0, -1];
    show(&rt, &ends, 0)?;
    let mut long = [b'-'; 210];
    show_whole(&rt, &ends, &mut long)?;
    let mut short = [b'-'; 204];
    show_whole(&rt, &ends, &mut short)
}
