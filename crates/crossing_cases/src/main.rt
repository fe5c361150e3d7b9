// Worked cases of `crossing`: what meets and what just does not, degenerate segments and transects, the ends of the grid, and each refusal just inside and just outside.
// A case is a name and the transect's two ends, latitude before longitude. Where several segments meet, the answer names one of them.
#![tactic(auto)]

use geo::Point;
use pack::{Header, TileKey};
use refusal::Refusal;
use std::io;

// A header of a grid of square tiles from its south-west corner on.
fn grid(tile: u32, from: i32, side: u16, data: u32) -> Header {
    Header {
        tile,
        south: from,
        west: from,
        rows: side,
        cols: side,
        directory: 512,
        data,
        total: data,
        tiles: 1,
        created: 0,
        attribution_offset: 0,
        attribution_len: 0,
    }
}

fn say(rt: &impl Print, name: &str, answer: Result<Option<(u16, u32)>, Refusal>) -> io::Result<()> {
    match answer {
        Ok(Some((edge, segment))) => println!(rt; "{name}: edge {edge} segment {segment}"),
        Ok(None) => println!(rt; "{name}: none"),
        Err(e) => {
            let n = e.number();
            println!(rt; "{name}: refused {n}")
        }
    }
}

fn ask(
    rt: &impl Print,
    name: &str,
    a: Point,
    b: Point,
    header: Header,
    key: TileKey,
    bytes: &[u8],
) -> io::Result<()> {
    say(rt, name, crossing::crossing(a, b, header, key, bytes))
}

// The tile of the small grid, key (0, 0), corner (0, 0). Its edges: 0 from (100, 100) to (100, 500); 1 from there by (200, 600), twice, to (500, 500), so that its
// segment 1 has no length; 2 from (900, 900) to the same node. The node at (950, 950) has no edge.
fn in_sample(
    rt: &impl Print,
    name: &str,
    a: Point,
    b: Point,
    header: Header,
    key: TileKey,
) -> io::Result<()> {
    ask(
        rt,
        name,
        a,
        b,
        header,
        key,
        b"\x56\x54\x01\x00\x00\x00\x00\x00\x05\x00\x03\x00\x02\x00\x00\x00\x5b\xb2\x01\x00\x00\x00\x00\x00\x6b\x03\x09\x4e\x00\x00\x00\x00\x64\x00\x64\x00\xc4\x09\x00\x00\xf4\x01\x64\x00\xc4\x09\x01\x00\xf4\x01\xf4\x01\xc4\x09\x03\x00\x84\x03\x84\x03\xc4\x09\x04\x00\xb6\x03\xb6\x03\xc4\x09\x06\x00\x00\x00\x01\x00\x02\x00\x03\x00\x04\x00\x05\x00\x00\x00\x01\x00\x00\x00\x00\x00\x00\x00\x05\x00\x00\x00\x00\x00\x01\x00\x02\x00\x00\x00\x00\x00\x02\x00\x05\x00\x00\x00\x00\x00\x03\x00\x03\x00\x02\x00\x00\x00\x00\x00\x05\x00\x00\x00\x00\x00\x58\x02\xc8\x00\xc4\x09\x58\x02\xc8\x00\xc4\x09",
    )
}

fn sample(
    rt: &impl Print,
    name: &str,
    lat: i32,
    lon: i32,
    to_lat: i32,
    to_lon: i32,
) -> io::Result<()> {
    in_sample(
        rt,
        name,
        Point { lat, lon },
        Point {
            lat: to_lat,
            lon: to_lon,
        },
        grid(1000, 0, 2, 544),
        TileKey { row: 0, col: 0 },
    )
}

// Tiles of a grid that reaches from -360,000,000 to 360,000,000: its last one, with an edge from (359,940,000, 359,940,000) by (360,005,535, 360,005,535), past the
// grid, to (360,000,000, 360,000,000); the one at (0, 180,000,000), with an edge 1,000 north from there; the first one, with an edge from its corner 1,000 north and east.
fn last_tile(
    rt: &impl Print,
    name: &str,
    lat: i32,
    lon: i32,
    to_lat: i32,
    to_lon: i32,
) -> io::Result<()> {
    ask(
        rt,
        name,
        Point { lat, lon },
        Point {
            lat: to_lat,
            lon: to_lon,
        },
        grid(60000, -360000000, 12000, 1152000512),
        TileKey {
            row: 11999,
            col: 11999,
        },
        b"\x56\x54\x01\x00\xdf\x2e\xdf\x2e\x02\x00\x01\x00\x01\x00\x00\x00\x5b\xb2\x01\x00\x00\x00\x00\x00\x1b\x61\xd5\xa7\x00\x00\x00\x00\x00\x00\x00\x00\xc4\x09\x00\x00\x60\xea\x60\xea\xc4\x09\x01\x00\x00\x00\x01\x00\x00\x00\x01\x00\x00\x00\x00\x00\x01\x00\x05\x00\x00\x00\x00\x00\xff\xff\xff\xff\xc4\x09",
    )
}

fn meridian_tile(
    rt: &impl Print,
    name: &str,
    lat: i32,
    lon: i32,
    to_lat: i32,
    to_lon: i32,
) -> io::Result<()> {
    ask(
        rt,
        name,
        Point { lat, lon },
        Point {
            lat: to_lat,
            lon: to_lon,
        },
        grid(60000, -360000000, 12000, 1152000512),
        TileKey {
            row: 6000,
            col: 9000,
        },
        b"\x56\x54\x01\x00\x70\x17\x28\x23\x02\x00\x01\x00\x00\x00\x00\x00\x5b\xb2\x01\x00\x00\x00\x00\x00\xe6\x96\xbc\x81\x00\x00\x00\x00\x00\x00\x00\x00\xc4\x09\x00\x00\x00\x00\xe8\x03\xc4\x09\x01\x00\x00\x00\x01\x00\x00\x00\x01\x00\x00\x00\x00\x00\x00\x00\x05\x00\x00\x00\x00\x00",
    )
}

fn first_tile(
    rt: &impl Print,
    name: &str,
    lat: i32,
    lon: i32,
    to_lat: i32,
    to_lon: i32,
) -> io::Result<()> {
    ask(
        rt,
        name,
        Point { lat, lon },
        Point {
            lat: to_lat,
            lon: to_lon,
        },
        grid(60000, -360000000, 12000, 1152000512),
        TileKey { row: 0, col: 0 },
        b"\x56\x54\x01\x00\x00\x00\x00\x00\x02\x00\x01\x00\x00\x00\x00\x00\x5b\xb2\x01\x00\x00\x00\x00\x00\x5e\x4a\x60\x90\x00\x00\x00\x00\x00\x00\x00\x00\xc4\x09\x00\x00\xe8\x03\xe8\x03\xc4\x09\x01\x00\x00\x00\x01\x00\x00\x00\x01\x00\x00\x00\x00\x00\x00\x00\x05\x00\x00\x00\x00\x00",
    )
}

fn crossings(rt: &impl Print) -> io::Result<()> {
    sample(rt, "across an edge without vertices", 0, 300, 200, 300)?;
    sample(
        rt,
        "across the first segment of an edge with vertices",
        150,
        0,
        150,
        999,
    )?;
    sample(rt, "across its last segment", 300, 0, 300, 999)?;
    sample(rt, "parallel, one millionth off", 101, 0, 101, 400)?;
    sample(rt, "through the end of a segment", 0, 101, 200, 99)?;
    sample(rt, "past it by half a millionth", 0, 101, 200, 98)
}

fn touching(rt: &impl Print) -> io::Result<()> {
    sample(rt, "the transect ends on a segment", 0, 300, 100, 300)?;
    sample(rt, "it ends one millionth before", 0, 300, 99, 300)?;
    sample(rt, "it ends where an edge begins", 0, 0, 100, 100)?;
    sample(rt, "it ends one millionth before that", 0, 0, 99, 99)?;
    sample(rt, "an edge ends on the transect", 500, 0, 500, 999)?;
    sample(rt, "an edge ends one millionth before it", 501, 0, 501, 999)
}

fn collinear(rt: &impl Print) -> io::Result<()> {
    sample(rt, "inside a segment, along it", 100, 300, 100, 400)?;
    sample(rt, "over all of a segment, along it", 100, 0, 100, 500)?;
    sample(rt, "along its line, touching one end", 100, 0, 100, 100)?;
    sample(rt, "along its line, one millionth apart", 100, 0, 100, 99)?;
    sample(
        rt,
        "along its line, one millionth past its other end",
        100,
        501,
        100,
        999,
    )
}

fn points(rt: &impl Print) -> io::Result<()> {
    sample(
        rt,
        "a transect of no length on a segment",
        100,
        300,
        100,
        300,
    )?;
    sample(rt, "a transect of no length off it", 101, 300, 101, 300)?;
    sample(
        rt,
        "a transect of no length at a vertex",
        200,
        600,
        200,
        600,
    )?;
    sample(
        rt,
        "a segment of no length on the transect",
        800,
        900,
        999,
        900,
    )?;
    sample(rt, "a segment of no length off it", 800, 901, 999, 901)?;
    sample(rt, "both of no length, at one place", 900, 900, 900, 900)?;
    sample(rt, "both of no length, apart", 900, 901, 900, 901)?;
    sample(rt, "a node that no edge touches", 950, 0, 950, 999)
}

fn limits(rt: &impl Print) -> io::Result<()> {
    last_tile(
        rt,
        "from end to end of the grid, along an edge",
        -360000000,
        -360000000,
        360000000,
        360000000,
    )?;
    last_tile(
        rt,
        "along the north end, to its corner",
        360000000,
        -360000000,
        360000000,
        360000000,
    )?;
    last_tile(
        rt,
        "one millionth short of its corner",
        360000000,
        -360000000,
        360000000,
        359999999,
    )?;
    first_tile(
        rt,
        "from the south-west corner on",
        -360000000,
        -360000000,
        360000000,
        360000000,
    )?;
    first_tile(
        rt,
        "between the other two corners",
        -360000000,
        360000000,
        360000000,
        -360000000,
    )?;
    first_tile(
        rt,
        "the corner alone",
        -360000000,
        -360000000,
        -360000000,
        -360000000,
    )?;
    meridian_tile(rt, "along 180 degrees east", 0, 180000000, 1000, 180000000)?;
    meridian_tile(
        rt,
        "along 180 degrees west",
        0,
        -180000000,
        1000,
        -180000000,
    )
}

fn beyond(rt: &impl Print) -> io::Result<()> {
    sample(rt, "first latitude at the limit", 360000000, 300, 100, 300)?;
    sample(rt, "first latitude beyond", 360000001, 300, 100, 300)?;
    sample(rt, "first longitude beyond", 100, -360000001, 100, 300)?;
    sample(rt, "second latitude beyond", 100, 300, -360000001, 300)?;
    sample(
        rt,
        "second longitude at the limit",
        100,
        300,
        100,
        360000000,
    )?;
    sample(rt, "second longitude beyond", 100, 300, 100, 360000001)
}

fn refusals(rt: &impl Print) -> io::Result<()> {
    let a = Point { lat: 100, lon: 300 };
    let b = Point {
        lat: 360000001,
        lon: 300,
    };
    let key = TileKey { row: 0, col: 0 };
    let east = TileKey { row: 0, col: 2 };
    in_sample(
        rt,
        "tile size 0, before an end beyond",
        a,
        b,
        grid(0, 0, 2, 544),
        key,
    )?;
    in_sample(rt, "tile size 65,536", a, a, grid(65536, 0, 2, 544), key)?;
    in_sample(rt, "tile size 65,535", a, a, grid(65535, 0, 2, 544), key)?;
    in_sample(
        rt,
        "an end beyond, before a key outside",
        a,
        b,
        grid(1000, 0, 2, 544),
        east,
    )?;
    in_sample(
        rt,
        "a column outside, before bytes of another key",
        a,
        a,
        grid(1000, 0, 2, 544),
        east,
    )?;
    in_sample(
        rt,
        "a row outside",
        a,
        a,
        grid(1000, 0, 2, 544),
        TileKey { row: 2, col: 0 },
    )?;
    in_sample(
        rt,
        "bytes of another key",
        a,
        a,
        grid(1000, 0, 2, 544),
        TileKey { row: 1, col: 1 },
    )?;
    in_sample(
        rt,
        "a node at the tile's end",
        a,
        a,
        grid(950, 0, 2, 544),
        key,
    )?;
    in_sample(
        rt,
        "a node past the tile's end",
        a,
        a,
        grid(949, 0, 2, 544),
        key,
    )?;
    ask(rt, "no bytes", a, a, grid(1000, 0, 2, 544), key, b"")
}

fn main(rt: HostRuntime) -> io::Result<()> {
    crossings(&rt)?;
    touching(&rt)?;
    collinear(&rt)?;
    points(&rt)?;
    limits(&rt)?;
    beyond(&rt)?;
    refusals(&rt)
}
