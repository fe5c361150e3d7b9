// The fixes of a drive on the map, and the leg that each was matched to.
use crate::page::Frame;
use crate::{page, profile, svg, tiles};
use engine::{Engine, Fix, Matched};
use pack::{Header, TileKey};
use ride::fixes::Line;
use ride::host::{Card, Ride};
use std::io;
use tile::Edge;

// How far ahead the road is followed, in metres.
const HORIZON: f32 = 10000.0;

// A place of the page.
#[derive(Clone, Copy)]
struct Spot {
    x: u64,
    y: u64,
}

// Where a fix lies, if it lies in the grid.
fn spot_of(h: Header, f: Frame, fix: Fix) -> Option<Spot> {
    match h.key(fix.lat, fix.lon) {
        Ok(None) | Err(_) => None,
        Ok(Some(_)) => Some(Spot {
            x: page::across(f, page::past(fix.lon, h.west)),
            y: page::down(f, page::past(fix.lat, h.south)),
        }),
    }
}

fn match_of(r: Ride, arena: &[u8]) -> Option<Matched> {
    let e = r.engine;
    e.ahead(arena).ok()?.matched
}

// What a fix was matched to, in words.
fn put_match(rt: &impl Print, m: Option<Matched>) -> io::Result<()> {
    match m {
        None => svg::put(rt, b": no road"),
        Some(n) => {
            let id = n.tile;
            let key = id.key;
            svg::field(rt, b": row ", key.row as u64)?;
            svg::field(rt, b", column ", key.col as u64)?;
            svg::field(rt, b", edge ", n.edge as u64)
        }
    }
}

// A fix: a dot, its number where there is room, and its match for who points at it.
fn put_fix(rt: &impl Print, number: u16, s: Option<Spot>, m: Option<Matched>) -> io::Result<()> {
    let Some(s) = s else {
        return Ok(());
    };
    svg::field(rt, b"<circle class=\"fix\" cx=\"", s.x)?;
    svg::field(rt, b"\" cy=\"", s.y)?;
    svg::field(rt, b"\" r=\"70\"><title>fix ", number as u64)?;
    put_match(rt, m)?;
    svg::put(rt, b"</title></circle>\n")?;
    if 30 < number && number % 10 != 0 {
        return Ok(());
    }
    svg::field(rt, b"<text class=\"small\" x=\"", s.x.wrapping_add(130))?;
    svg::field(rt, b"\" y=\"", s.y)?;
    svg::field(rt, b"\">", number as u64)?;
    svg::put(rt, b"</text>\n")
}

// The leg of a match, under the others.
fn put_leg(
    rt: &impl Print,
    card: Card<'_>,
    h: Header,
    f: Frame,
    m: Option<Matched>,
    room: &mut [u8],
) -> io::Result<()> {
    let Some(n) = m else {
        return Ok(());
    };
    let id = n.tile;
    let key = id.key;
    match tiles::get(card.file, h, key, room) {
        Ok(None) | Err(_) => Ok(()),
        Ok(Some(bytes)) => tiles::matched(rt, bytes, h, f, key, n.edge),
    }
}

// The points of a leg that lie ahead of a segment; what lies past its last point is left out.
fn rest(
    rt: &impl Print,
    bytes: &[u8],
    h: Header,
    f: Frame,
    key: TileKey,
    e: Edge,
    segment: u16,
    forward: bool,
) -> io::Result<()> {
    let next = (segment as usize) + 1;
    if forward {
        return tiles::points(
            rt,
            bytes,
            h,
            f,
            key,
            e,
            next,
            view::through::points(e),
            true,
        );
    }
    tiles::points(rt, bytes, h, f, key, e, segment as usize, next, false)
}

fn rest_of(
    rt: &impl Print,
    bytes: &[u8],
    h: Header,
    f: Frame,
    key: TileKey,
    m: Matched,
    forward: bool,
) -> io::Result<()> {
    match view::through::edge(bytes, m.edge) {
        Err(_) => Ok(()),
        Ok(e) => rest(rt, bytes, h, f, key, e, m.segment, forward),
    }
}

// From the last fix to the end of its leg.
fn put_ahead(
    rt: &impl Print,
    card: Card<'_>,
    h: Header,
    f: Frame,
    s: Spot,
    m: Matched,
    forward: bool,
    room: &mut [u8],
) -> io::Result<()> {
    let id = m.tile;
    let key = id.key;
    match tiles::get(card.file, h, key, room) {
        Ok(None) | Err(_) => Ok(()),
        Ok(Some(bytes)) => {
            svg::put(rt, b"<polyline class=\"ahead\" points=\"")?;
            svg::point(rt, s.x, s.y)?;
            rest_of(rt, bytes, h, f, key, m, forward)?;
            svg::put(rt, b"\"/>\n")
        }
    }
}

fn ahead(
    rt: &impl Print,
    card: Card<'_>,
    h: Header,
    f: Frame,
    s: Option<Spot>,
    m: Option<Matched>,
    room: &mut [u8],
) -> io::Result<()> {
    let (Some(s), Some(n)) = (s, m) else {
        return Ok(());
    };
    match n.forward {
        None => Ok(()),
        Some(on) => put_ahead(rt, card, h, f, s, n, on, room),
    }
}

// What stands under the map and ahead of the last fix.
fn end(
    rt: &impl Print,
    card: Card<'_>,
    h: Header,
    f: Frame,
    s: Option<Spot>,
    r: Ride,
    arena: &[u8],
    room: &mut [u8],
) -> io::Result<()> {
    ahead(rt, card, h, f, s, match_of(r, arena), room)?;
    let e = r.engine;
    match e.ahead(arena) {
        Ok(a) => profile::show(rt, &a.samples[..a.len.min(predict::MAX_SAMPLES)]),
        Err(_) => profile::show(rt, &[]),
    }
}

// A fix's leg, or itself.
fn mark(
    rt: &impl Print,
    card: Card<'_>,
    h: Header,
    f: Frame,
    number: u16,
    fix: Fix,
    m: Option<Matched>,
    room: &mut [u8],
    legs: bool,
) -> io::Result<()> {
    if legs {
        return put_leg(rt, card, h, f, m, room);
    }
    put_fix(rt, number, spot_of(h, f, fix), m)
}

// One fix driven and drawn.
fn one(
    rt: &impl Print,
    card: Card<'_>,
    h: Header,
    f: Frame,
    r: Ride,
    arena: &mut [u8],
    room: &mut [u8],
    number: u16,
    fix: Fix,
    legs: bool,
) -> io::Result<Ride> {
    let t = ride::host::driven(card, r, arena, fix);
    let next = t.ride;
    let m = match_of(next, &arena[..]);
    mark(rt, card, h, f, number, fix, m, room, legs)?;
    Ok(next)
}

// A drive's fixes from the first to the last: their legs, or themselves with what follows the last one. It goes up to the first line that is no fix.
fn show(
    rt: &impl Print,
    card: Card<'_>,
    h: Header,
    f: Frame,
    text: &[u8],
    arena: &mut [u8],
    room: &mut [u8],
    legs: bool,
) -> io::Result<()> {
    let engine = Engine::new(&arena[..], HORIZON);
    let mut r = Ride { engine, reads: 0 };
    let mut s = None;
    let mut at = 0;
    for number in 1..=65535u16 {
        let line = ride::fixes::read_line(text, at);
        match line {
            Line::Fix(fix, next) => {
                r = one(rt, card, h, f, r, arena, room, number, fix, legs)?;
                s = spot_of(h, f, fix);
                at = next;
            }
            Line::End | Line::Bad => {
                if !legs {
                    end(rt, card, h, f, s, r, &arena[..], room)?;
                }
                return Ok(());
            }
        }
    }
    Ok(())
}

// The same, and nothing where there is no drive.
pub fn drive(
    rt: &impl Print,
    card: Card<'_>,
    h: Header,
    f: Frame,
    text: &[u8],
    arena: &mut [u8],
    room: &mut [u8],
    legs: bool,
) -> io::Result<()> {
    if text.is_empty() {
        return Ok(());
    }
    show(rt, card, h, f, text, arena, room, legs)
}

// The number of the first line that is no fix, or of the last that a drive may have.
pub fn first_bad(text: &[u8]) -> Option<u16> {
    let mut at = 0;
    for number in 1..=65535u16 {
        let line = ride::fixes::read_line(text, at);
        match line {
            Line::Fix(_, next) => at = next,
            Line::End => return None,
            Line::Bad => return Some(number),
        }
    }
    Some(65535)
}
