// Draws a pack as one picture: `map PACK [DRIVE] >PICTURE`. The picture is an SVG for an upright A4, in black and white: the grid with every leg by its class and
// every junction, tiles that are damaged or missing, and where there is a drive its fixes, the leg that each was matched to, and the road ahead of the
// last one, on the map to the end of its leg and below as heights.
//
// PACK is a pack's file, DRIVE a text as `drive` reads it. What can't be read is told on standard error in one line, and then nothing is drawn.
#![tactic(auto)]

mod page;
mod profile;
mod svg;
mod tiles;
mod trip;

use pack::Header;
use page::Frame;
use ride::host::Card;
use std::fs::File;
use std::rt::{Env, Files};
use std::{fs, io};

// 24 pages, as `drive` has them.
const ARENA: usize = 196608;

// The most bytes of a drive, and one more that tells a longer one.
const DRIVE: usize = 65535;

// The most places of a grid that is drawn.
const PLACES: u64 = 1048576;

fn say(err: &impl Print, why: &str) -> io::Result<()> {
    println!(err; "map: {why}")
}

// A bar of so many metres, a third of the map's width or less.
fn bar(rt: &impl Print, f: Frame) -> io::Result<()> {
    let metres = page::round_below(page::third(f));
    let wide = page::length(f, metres);
    svg::field(
        rt,
        b"<path class=\"line scale\" stroke-width=\"40\" d=\"M19000 2100v150h-",
        wide,
    )?;
    svg::field(
        rt,
        b"v-150\"/><text class=\"small\" text-anchor=\"end\" x=\"19000\" y=\"1950\">",
        metres,
    )?;
    svg::put(rt, b" m</text>\n")
}

fn title(rt: &(impl Env + Print)) -> io::Result<()> {
    let mut path = [0u8; 4096];
    let n = reading::argument(rt, 1, &mut path);
    svg::put(rt, b"<text class=\"title\" x=\"2000\" y=\"1950\">")?;
    svg::name(rt, &path[..n])?;
    svg::put(rt, b"</text>\n")
}

// The picture; a drive without a line has no fixes.
fn draw(
    rt: &(impl Env + Print),
    card: Card<'_>,
    h: Header,
    text: &[u8],
    arena: &mut [u8],
    room: &mut [u8],
) -> io::Result<()> {
    let f = page::frame_of(h);
    svg::head(rt)?;
    title(rt)?;
    bar(rt, f)?;
    tiles::all(rt, card.file, h, f, room, false)?;
    trip::drive(rt, card, h, f, text, arena, room, true)?;
    tiles::all(rt, card.file, h, f, room, true)?;
    trip::drive(rt, card, h, f, text, arena, room, false)?;
    svg::legend(rt)?;
    svg::put(rt, b"</svg>\n")
}

// A pack whose header is good, with a drive whose lines are fixes.
fn drawn(
    rt: &(impl Env + Print),
    err: &impl Print,
    card: Card<'_>,
    h: Header,
    text: &[u8],
) -> io::Result<()> {
    if PLACES < page::places(h) {
        return say(err, "the grid has more than 1048576 places");
    }
    if let Some(bad) = trip::first_bad(text) {
        return println!(err; "map: line {bad} is not latitude, longitude and time");
    }
    let mut arena = [0u8; ARENA];
    let mut room = [0u8; tiles::ROOM];
    draw(rt, card, h, text, &mut arena, &mut room)
}

// The header of the pack's file.
fn pack_file(
    rt: &(impl Env + Print),
    err: &impl Print,
    file: &File,
    text: &[u8],
) -> io::Result<()> {
    let mut sector = [0u8; 512];
    if ride::host::read_at(file, 0, &mut sector).is_err() {
        return say(err, "the pack is shorter than its header");
    }
    match Header::parse(&sector) {
        Err(refusal) => {
            let number = refusal.number();
            println!(err; "map: the pack is refused with {number}")
        }
        Ok(h) => {
            let card = Card { file, every: 0 };
            drawn(rt, err, card, h, text)
        }
    }
}

// A file that an argument names, opened; none where it can't be, and that is told.
fn opened(
    rt: &(impl Env + Files<File = File>),
    err: &impl Print,
    i: usize,
) -> io::Result<Option<File>> {
    let mut path = [0u8; 4096];
    let n = reading::argument(rt, i, &mut path);
    if let Ok(name) = str::from_utf8(&path[..n]) {
        if let Ok(file) = fs::open(rt, name) {
            return Ok(Some(file));
        }
    }
    print!(err; "map: can't read ")?;
    err.write_all(&path[..n])?;
    println!(err)?;
    Ok(None)
}

// The pack with a drive's file, read whole.
fn with_drive(
    rt: &(impl Env + Print),
    err: &impl Print,
    pack: &File,
    mut list: File,
) -> io::Result<()> {
    let mut text = [0u8; DRIVE + 1];
    let n = reading::read_full(&mut list, &mut text)?;
    if DRIVE < n {
        return say(err, "the drive is longer than 65535 bytes");
    }
    if n == 0 {
        return say(err, "the drive has no fixes");
    }
    pack_file(rt, err, pack, &text[..n])
}

fn main(rt: HostRuntime) -> io::Result<()> {
    let err = rt.stderr();
    if !reading::has_argument(&rt, 1) || reading::has_argument(&rt, 3) {
        return say(&err, "usage: map PACK [DRIVE]");
    }
    let Some(pack) = opened(&rt, &err, 1)? else {
        return Ok(());
    };
    if !reading::has_argument(&rt, 2) {
        return pack_file(&rt, &err, &pack, b"");
    }
    let Some(list) = opened(&rt, &err, 2)? else {
        return Ok(());
    };
    with_drive(&rt, &err, &pack, list)
}
