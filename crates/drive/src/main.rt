// Drives an engine along a list of GPS fixes: `drive PACK DRIVE [K]`. For each fix it prints a line with the match and the road ahead, and at the
// end the heights of the last road; `profile_text` has both texts.
//
// PACK is a pack's file. DRIVE is a text with a line for each fix: latitude and longitude in 1e-7 degrees, and the time in milliseconds. With K
// every K-th read of the pack is reported missed, as a card in the cold misses reads.
#![tactic(auto)]

mod show;

use engine::{Engine, Status};
use refusal::Refusal;
use ride::fixes::Line;
use ride::host::{Card, Ride};
use ride::{fixes, host};
use std::fs::File;
use std::rt::{Env, Files};
use std::{fs, io};

// 24 pages: twelve for the road ahead, beside the twelve that a road leaves free.
const ARENA: usize = 196608;

// How far ahead the road is followed, in metres.
const HORIZON: f32 = 10000.0;

// The most bytes of a drive, and one more that tells a longer one.
const DRIVE: usize = 65535;

// Why a drive ends before its time.
fn say(rt: &impl Print, why: &str) -> io::Result<()> {
    println!(rt; "drive: {why}")
}

fn say_line(rt: &impl Print, number: u16) -> io::Result<()> {
    println!(rt; "drive: line {number} is not latitude, longitude and time")
}

fn is_no_pack(status: Result<Status, Refusal>) -> bool {
    matches!(status, Ok(Status::NoPack))
}

// The fixes of a text, one after the other, up to the first that finds no pack.
fn drive(rt: &impl Print, card: Card<'_>, text: &[u8], arena: &mut [u8]) -> io::Result<()> {
    let engine = Engine::new(&arena[..], HORIZON);
    let mut ride = Ride { engine, reads: 0 };
    let mut at = 0;
    for number in 1..=65535u16 {
        let line = fixes::read_line(text, at);
        match line {
            Line::Fix(fix, next) => {
                let t = host::driven(card, ride, arena, fix);
                show::fix(rt, number, t, &arena[..])?;
                let status = t.status;
                if is_no_pack(status) {
                    return say(rt, "the pack is refused, or eight reads of it failed");
                }
                ride = t.ride;
                at = next;
            }
            Line::End => return show::road(rt, ride, &arena[..]),
            Line::Bad => return say_line(rt, number),
        }
    }
    say(rt, "more than 65534 fixes")
}

// The drive's file, read whole.
fn drive_file(rt: &impl Print, card: Card<'_>, mut list: File) -> io::Result<()> {
    let mut text = [0u8; DRIVE + 1];
    let n = reading::read_full(&mut list, &mut text)?;
    if DRIVE < n {
        return say(rt, "the drive is longer than 65535 bytes");
    }
    if n == 0 {
        return say(rt, "the drive has no fixes");
    }
    let mut arena = [0u8; ARENA];
    show::heading(rt)?;
    drive(rt, card, &text[..n], &mut arena)
}

// Which reads are to be missed: every K-th by the third argument, 0 for none without it; nothing where it is no number.
fn missed(rt: &impl Env) -> Option<u64> {
    if !reading::has_argument(rt, 3) {
        return Some(0);
    }
    let mut word = [0u8; 4096];
    let n = reading::argument(rt, 3, &mut word);
    let (every, _) = fixes::read_number(&word[..n], 0, 0)?;
    Some(every)
}

// A file that an argument names, opened; none where it can't be, and that is told.
fn opened(rt: &(impl Env + Files<File = File> + Print), i: usize) -> io::Result<Option<File>> {
    let mut path = [0u8; 4096];
    let n = reading::argument(rt, i, &mut path);
    if let Ok(name) = str::from_utf8(&path[..n]) {
        if let Ok(file) = fs::open(rt, name) {
            return Ok(Some(file));
        }
    }
    print!(rt; "drive: can't read ")?;
    rt.write_all(&path[..n])?;
    println!(rt)?;
    Ok(None)
}

fn main(rt: HostRuntime) -> io::Result<()> {
    if !reading::has_argument(&rt, 2) || reading::has_argument(&rt, 4) {
        return say(&rt, "usage: drive PACK DRIVE [K]");
    }
    let Some(every) = missed(&rt) else {
        return say(&rt, "K is not a number");
    };
    let Some(pack) = opened(&rt, 1)? else {
        return Ok(());
    };
    let Some(list) = opened(&rt, 2)? else {
        return Ok(());
    };
    let card = Card { file: &pack, every };
    drive_file(&rt, card, list)
}
