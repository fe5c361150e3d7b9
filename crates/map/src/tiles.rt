// Tiles read from the pack's file and drawn: legs, junctions, and which tile is damaged.
ghost use Rattle.std.specs.Prelude.{◌≤◌};

use crate::page::Frame;
use crate::{page, svg};
use pack::{Header, TileKey};
use refusal::Refusal;
use std::fs::File;
use std::io;
use tile::{Edge, Node};

// The longest tile.
pub const ROOM: usize = 49152;

// What the directory says of a key; an entry that can't be read is as one that is refused.
fn located(file: &File, h: Header, key: TileKey) -> Result<Option<(u32, u32)>, Refusal> {
    let offset = h.entry(key)?;
    let mut entry = [0u8; 8];
    ride::host::read_at(file, offset, &mut entry)?;
    h.locate(&entry)
}

// The tile at an offset of the file, read into the room: its bytes there.
fn read<'a>(
    file: &File,
    h: Header,
    key: TileKey,
    offset: u32,
    len: u32,
    room: &'a mut [u8],
) -> Result<&'a [u8], Refusal> {
    let tile = room.get_mut(..len as usize).ok_or(Refusal::NoRoom)?;
    ride::host::read_at(file, offset as u64, tile)?;
    tile::parse(tile, key, h.tile)?;
    Ok(tile)
}

// A tile's bytes in the room; none where the directory has none; a refusal where they can't be read or are damaged.
pub fn get<'a>(
    file: &File,
    h: Header,
    key: TileKey,
    room: &'a mut [u8],
) -> Result<Option<&'a [u8]>, Refusal> {
    match located(file, h, key)? {
        None => Ok(None),
        Some((offset, len)) => Ok(Some(read(file, h, key, offset, len, room)?)),
    }
}

fn put_node(rt: &impl Print, h: Header, f: Frame, key: TileKey, n: Node) -> io::Result<()> {
    svg::point(rt, page::node_x(h, f, key, n), page::node_y(h, f, key, n))
}

// A point of an edge.
fn put_point(
    rt: &impl Print,
    bytes: &[u8],
    h: Header,
    f: Frame,
    key: TileKey,
    e: Edge,
    index: usize,
) -> io::Result<()> {
    match view::through::point(bytes, e, index) {
        Err(_) => Ok(()),
        Ok(n) => put_node(rt, h, f, key, n),
    }
}

fn nth(from: usize, k: usize, forward: bool) -> usize {
    if forward {
        from.wrapping_add(k)
    } else {
        from.wrapping_sub(k)
    }
}

// So many points of an edge, from one on, in its direction or against it.
pub fn points(
    rt: &impl Print,
    bytes: &[u8],
    h: Header,
    f: Frame,
    key: TileKey,
    e: Edge,
    from: usize,
    count: usize,
    forward: bool,
) -> io::Result<()> {
    for k in 0..count {
        put_point(rt, bytes, h, f, key, e, nth(from, k, forward))?;
    }
    Ok(())
}

// The line of a whole edge, of a class or a kind.
fn put_leg(
    rt: &impl Print,
    bytes: &[u8],
    h: Header,
    f: Frame,
    key: TileKey,
    e: Edge,
) -> io::Result<()> {
    svg::field(rt, b"<polyline class=\"leg c", e.class as u64)?;
    if e.has(tile::flag::ONEWAY) {
        svg::put(rt, b" oneway")?;
    }
    svg::put(rt, b"\" points=\"")?;
    points(rt, bytes, h, f, key, e, 0, view::through::points(e), true)?;
    svg::put(rt, b"\"/>\n")
}

// The line of an edge that a fix was matched to.
fn put_matched(
    rt: &impl Print,
    bytes: &[u8],
    h: Header,
    f: Frame,
    key: TileKey,
    e: Edge,
) -> io::Result<()> {
    svg::put(rt, b"<polyline class=\"matched\" points=\"")?;
    points(rt, bytes, h, f, key, e, 0, view::through::points(e), true)?;
    svg::put(rt, b"\"/>\n")
}

pub fn matched(
    rt: &impl Print,
    bytes: &[u8],
    h: Header,
    f: Frame,
    key: TileKey,
    edge: u16,
) -> io::Result<()> {
    match view::through::edge(bytes, edge) {
        Err(_) => Ok(()),
        Ok(e) => put_matched(rt, bytes, h, f, key, e),
    }
}

fn leg(rt: &impl Print, bytes: &[u8], h: Header, f: Frame, key: TileKey, i: u16) -> io::Result<()> {
    match view::through::edge(bytes, i) {
        Err(_) => Ok(()),
        Ok(e) => put_leg(rt, bytes, h, f, key, e),
    }
}

// A loop over counts of its own in each of `legs` and `junctions`: one function of both would take two closures more and be no plainer.
fn legs(rt: &impl Print, bytes: &[u8], h: Header, f: Frame, key: TileKey) -> io::Result<()> {
    let count = u16::try_from(view::through::edge_count(bytes)).unwrap_or(u16::MAX);
    for i in 0..count {
        leg(rt, bytes, h, f, key, i)?;
    }
    Ok(())
}

fn junction(
    rt: &impl Print,
    bytes: &[u8],
    h: Header,
    f: Frame,
    key: TileKey,
    i: u16,
) -> io::Result<()> {
    match view::through::node(bytes, i) {
        Err(_) => Ok(()),
        Ok(n) => {
            svg::field(
                rt,
                b"<circle class=\"node\" cx=\"",
                page::node_x(h, f, key, n),
            )?;
            svg::field(rt, b"\" cy=\"", page::node_y(h, f, key, n))?;
            svg::put(rt, b"\" r=\"40\"/>\n")
        }
    }
}

fn junctions(rt: &impl Print, bytes: &[u8], h: Header, f: Frame, key: TileKey) -> io::Result<()> {
    let count = u16::try_from(view::through::node_count(bytes)).unwrap_or(u16::MAX);
    for i in 0..count {
        junction(rt, bytes, h, f, key, i)?;
    }
    Ok(())
}

// A corner of a tile as a place in it.
fn corner(x: u16, y: u16) -> Node {
    Node { x, y, z: 0 }
}

fn short(n: u32) -> u16 {
    u16::try_from(n).unwrap_or(u16::MAX)
}

// A tile's box: the four corners, from the south-west one on.
fn put_box(rt: &impl Print, h: Header, f: Frame, key: TileKey) -> io::Result<()> {
    let size = short(h.tile);
    put_node(rt, h, f, key, corner(0, 0))?;
    put_node(rt, h, f, key, corner(size, 0))?;
    put_node(rt, h, f, key, corner(size, size))?;
    put_node(rt, h, f, key, corner(0, size))
}

// A tile that is damaged: a crossed box with the word.
fn put_damaged(rt: &impl Print, h: Header, f: Frame, key: TileKey) -> io::Result<()> {
    let size = short(h.tile);
    svg::put(rt, b"<polygon class=\"damaged\" points=\"")?;
    put_box(rt, h, f, key)?;
    put_node(rt, h, f, key, corner(0, 0))?;
    put_node(rt, h, f, key, corner(size, size))?;
    put_node(rt, h, f, key, corner(size, 0))?;
    put_node(rt, h, f, key, corner(0, size))?;
    let middle = corner(size / 2, size / 2);
    svg::field(
        rt,
        b"\"/>\n<text class=\"tick\" x=\"",
        page::node_x(h, f, key, middle),
    )?;
    svg::field(rt, b"\" y=\"", page::node_y(h, f, key, middle))?;
    svg::put(rt, b"\">damaged</text>\n")
}

// The ground of a place of the grid: white under a tile, crossed where it is damaged, hatched where there is none.
fn put_ground(
    rt: &impl Print,
    h: Header,
    f: Frame,
    key: TileKey,
    got: Result<Option<&[u8]>, Refusal>,
) -> io::Result<()> {
    match got {
        Err(_) => put_damaged(rt, h, f, key),
        Ok(Some(_)) => {
            svg::put(rt, b"<polygon class=\"box tile\" points=\"")?;
            put_box(rt, h, f, key)?;
            svg::put(rt, b"\"/>\n")
        }
        Ok(None) => {
            svg::put(rt, b"<polygon class=\"box missing\" points=\"")?;
            put_box(rt, h, f, key)?;
            svg::put(rt, b"\"/>\n")
        }
    }
}

// A tile's legs and junctions.
fn put_roads(
    rt: &impl Print,
    h: Header,
    f: Frame,
    key: TileKey,
    got: Result<Option<&[u8]>, Refusal>,
) -> io::Result<()> {
    match got {
        Ok(None) | Err(_) => Ok(()),
        Ok(Some(bytes)) => {
            legs(rt, bytes, h, f, key)?;
            junctions(rt, bytes, h, f, key)
        }
    }
}

// A place of the grid, its ground or its roads.
fn place(
    rt: &impl Print,
    file: &File,
    h: Header,
    f: Frame,
    key: TileKey,
    room: &mut [u8],
    roads: bool,
) -> io::Result<()> {
    let got = get(file, h, key, room);
    if roads {
        put_roads(rt, h, f, key, got)
    } else {
        put_ground(rt, h, f, key, got)
    }
}

// The key of a place, by its number.
fn key_of(cols: u16, n: u32) -> TileKey {
    if cols == 0 {
        return TileKey { row: 0, col: 0 };
    }
    TileKey {
        row: short(n / (cols as u32)),
        col: short(n % (cols as u32)),
    }
}

// Every place of the grid, row by row; `main` draws none of a grid with more.
pub fn all(
    rt: &impl Print,
    file: &File,
    h: Header,
    f: Frame,
    room: &mut [u8],
    roads: bool,
) -> io::Result<()> {
    for n in 0..page::short(page::places(h)) {
        place(rt, file, h, f, key_of(h.cols, n), room, roads)?;
    }
    Ok(())
}
