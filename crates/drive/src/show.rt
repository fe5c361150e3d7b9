// What is printed: a line for each fix, the heights of the last road, and why a drive stops.
ghost use Rattle.std.specs.Prelude.{◌≡◌, ◌≤◌, length};

use engine::{Ahead, Status};
use matcher::Matched;
use profile_text::ROOM;
use profile_text::drive::{FixLine, Place};
use refusal::Refusal;
use ride::host::{Ride, Turned};
use std::io;

pub fn heading(rt: &impl Print) -> io::Result<()> {
    println!(rt; "fix status row col edge way offset samples end confidence")
}

// Both enums are of other crates, so no `From` can stand here; nor for the ends of a road.
fn status_of(status: Result<Status, Refusal>) -> profile_text::drive::Status {
    match status {
        Ok(Status::Idle) => profile_text::drive::Status::Idle,
        Ok(Status::Working) | Ok(Status::Fetch(_, _)) => profile_text::drive::Status::Working,
        Ok(Status::NoPack) => profile_text::drive::Status::NoPack,
        Ok(Status::OffMap) => profile_text::drive::Status::OffMap,
        Err(_) => profile_text::drive::Status::Refused,
    }
}

fn end_of(end: engine::End) -> profile_text::drive::End {
    match end {
        engine::End::Horizon => profile_text::drive::End::Horizon,
        engine::End::Fork => profile_text::drive::End::Fork,
        engine::End::DeadEnd => profile_text::drive::End::DeadEnd,
        engine::End::MapEdge => profile_text::drive::End::MapEdge,
        engine::End::Uncertain => profile_text::drive::End::Uncertain,
        engine::End::Memory => profile_text::drive::End::Memory,
    }
}

// A number held to 16 bits.
fn short(n: u64) -> u16 {
    u16::try_from(n).unwrap_or(u16::MAX)
}

// Metres in decimetres, cut.
fn decimetres(m: f32) -> u16 {
    short(num::cast::u32_of_f32(m * 10.0) as u64)
}

fn place_of(matched: Option<Matched>) -> Option<Place> {
    let m = matched?;
    let tile = m.tile;
    let key = tile.key;
    Some(Place {
        row: key.row,
        col: key.col,
        edge: m.edge,
        forward: m.forward,
        offset_dm: decimetres(m.offset_m),
    })
}

fn put(rt: &impl Print, line: FixLine) -> io::Result<()> {
    let mut out = [0u8; ROOM];
    let len = profile_text::drive::fix_line(line, &mut out);
    rt.write_all(&out[..len])
}

// How the last call after a fix ended, and the road that is published; an empty one where it is refused.
fn line_of(number: u16, status: Result<Status, Refusal>, road: Result<Ahead, Refusal>) -> FixLine {
    let status = status_of(status);
    match road {
        Ok(a) => FixLine {
            number,
            status,
            place: place_of(a.matched),
            samples: short(a.len as u64),
            end: end_of(a.end),
            confidence: a.confidence,
        },
        Err(_) => FixLine {
            number,
            status,
            place: None,
            samples: 0,
            end: profile_text::drive::End::Uncertain,
            confidence: 0,
        },
    }
}

// The line of a fix.
pub fn fix(rt: &impl Print, number: u16, t: Turned, arena: &[u8]) -> io::Result<()> {
    let ride = t.ride;
    let e = ride.engine;
    put(rt, line_of(number, t.status, e.ahead(arena)))
}

// The heights of a road as the program `profile` reads them: decimetres of 16 bits, the low byte first.
fn heights(a: Ahead) -> [u8; 1002]
    ensures { 1002 ≡ length result }
{
    let mut out = [0u8; 1002];
    for (pair, z) in out.chunks_exact_mut(2).zip(a.samples) {
        pair.copy_from_slice(&num::cast::u16_of_i16(z).to_le_bytes());
    }
    out
}

// Bytes of so many heights, at most 501.
fn byte_count(heights: usize) -> usize
    ensures { result ≤ 1002 }
{
    heights.min(501) * 2
}

fn put_heights(rt: &impl Print, input: &[u8]) -> io::Result<()> {
    let mut out = [0u8; ROOM];
    let n = profile_text::text(input, &mut out);
    rt.write_all(&out[..n])
}

// Metres ahead and rise of the last road; the heading alone where there is none.
pub fn road(rt: &impl Print, ride: Ride, arena: &[u8]) -> io::Result<()> {
    let e = ride.engine;
    match e.ahead(arena) {
        Ok(a) => {
            let input = heights(a);
            let len = byte_count(a.len);
            put_heights(rt, &input[..len])
        }
        Err(_) => put_heights(rt, b""),
    }
}
