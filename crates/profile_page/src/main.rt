// Prints the profile as pages for a printer: `profile_page [P]`, heights on standard input as `profile` reads them. With P it prints that page, without it every
// page that has a sample, or page 0 where there is none, with a form feed between two.
#![tactic(auto)]

ghost use Rattle.std.specs.Prelude.{◌≡◌, length};

use profile_text::page::page;
use std::io;
use std::rt::Env;

// The heading and fifty lines, of 41 bytes each.
const PAGE: usize = 2091;

// More than any good input has: what is longer is bad input, however long it is.
const MOST: usize = 4096;

// Heights in the longest good input.
const HEIGHTS: usize = 501;

fn bad_input(rt: &impl Print) -> io::Result<()> {
    println!(rt; "bad input")
}

// Two bytes each, the low one first; zeros behind them.
fn heights(input: &[u8]) -> [i16; HEIGHTS]
    ensures { 501 ≡ length result }
{
    let mut samples = [0; HEIGHTS];
    for (sample, pair) in samples.iter_mut().zip(input.chunks_exact(2)) {
        *sample = i16::from_le_bytes([pair[0], pair[1]]);
    }
    samples
}

fn show(rt: &impl Print, samples: &[i16], p: u32) -> io::Result<()> {
    let mut out = [0u8; PAGE];
    match page(samples, p, &mut out) {
        Ok(len) => rt.write_all(&out[..len]),
        Err(_) => bad_input(rt),
    }
}

fn show_all(rt: &impl Print, samples: &[i16]) -> io::Result<()> {
    show(rt, samples, 0)?;
    for p in (1..11).take_while(|p| *p as usize * 50 < samples.len()) {
        rt.write_all(b"\x0c")?;
        show(rt, samples, p)?;
    }
    Ok(())
}

// One digit or more, and nothing else. A number past the last page's has no sample either, so that it prints the same.
fn number(word: &[u8]) -> Option<u32> {
    if word.is_empty() || !word.iter().all(u8::is_ascii_digit) {
        return None;
    }
    let value = word.iter().fold(0u32, |n, digit| {
        n.saturating_mul(10).saturating_add(u32::from(digit % 16))
    });
    Some(value)
}

// The page that the argument names. One longer than the buffer is no number.
fn show_named(rt: &(impl Env + Print), samples: &[i16]) -> io::Result<()> {
    let mut word = [0u8; 4096];
    let n = reading::argument(rt, 1, &mut word);
    match number(&word[..n]) {
        Some(p) => show(rt, samples, p),
        None => bad_input(rt),
    }
}

fn print(rt: &(impl Env + Print), input: &[u8]) -> io::Result<()> {
    if 1002 < input.len() || input.len() % 2 != 0 || reading::has_argument(rt, 2) {
        return bad_input(rt);
    }
    let all = heights(input);
    let samples = &all[..input.len() / 2];
    if reading::has_argument(rt, 1) {
        show_named(rt, samples)
    } else {
        show_all(rt, samples)
    }
}

fn main(rt: HostRuntime) -> io::Result<()> {
    let mut input = [0u8; MOST];
    let n = reading::read_full(&mut rt.reader(), &mut input)?;
    print(&rt, &input[..n])
}
