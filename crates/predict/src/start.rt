// Where a road starts: the start tested against its tile, and its place as a point.
ghost use Rattle.std.specs.Prelude.{◌≡◌, ◌+ℤ◌, ◌-ℤ◌};
ghost use Rattle.predict.specs.Start as Start;

use crate::outgoing::Leg;
use geo::Point;
use matcher::Matched;
use pack::Header;
use tile::Edge;

// A number of 64 bits held to 32.
fn held(z: i64) -> i32
    ensures { result ≡ Start.held z }
{
    if z < -2147483648 {
        return -2147483648;
    }
    if 2147483647 < z {
        return 2147483647;
    }
    z as i32
}

// a less b, held to 32 bits.
pub(crate) fn less(a: i32, b: i32) -> i32
    ensures { result ≡ Start.less a b }
{
    held((a as i64) - (b as i64))
}

// a, and the part `t` of the way to b, cut toward zero.
fn part_way(a: i32, b: i32, t: f32) -> i32
    ensures { result ≡ Start.part_way a b t }
{
    let whole = num::convert::f32_of_i64((b as i64) - (a as i64));
    let part = num::cast::i32_of_f32(whole * t);
    held((a as i64) + (part as i64))
}

// The point part of the way from one to another.
pub(crate) fn between(a: Point, b: Point, t: f32) -> Point
    ensures { result ≡ Start.between a b t }
{
    Point {
        lat: part_way(a.lat, b.lat, t),
        lon: part_way(a.lon, b.lon, t),
    }
}

// Whether edge, segment, fraction and height of a start are within its tile and the rules: else 10.
pub(crate) fn start_ok(bytes: &[u8], start: Matched) -> bool
    ensures { result ≡ Start.start_ok bytes.now start }
{
    let head = tile::read::head(bytes);
    if head.edges <= start.edge {
        return false;
    }
    let edge = tile::raw::edge(bytes, start.edge);
    if edge.vertices < start.segment {
        return false;
    }
    if !(start.fraction >= 0.0) {
        return false;
    }
    if !(start.fraction <= 1.0) {
        return false;
    }
    if start.z_dm < -1000000 {
        return false;
    }
    start.z_dm <= 1000000
}

// The number along a leg of the first point past a segment of its edge.
pub(crate) fn first_of(leg: Leg, segment: u16) -> u32
    ensures { result ≡ Start.first_of leg segment }
{
    let edge = leg.edge;
    let last = (edge.vertices as u32) + 1;
    let at = segment as u32;
    if leg.forward {
        return at + 1;
    }
    if last < at {
        return 0;
    }
    last - at
}

// The start's place on its segment.
pub(crate) fn place(header: Header, bytes: &[u8], edge: Edge, start: Matched) -> Point
    ensures { result ≡ Start.place header bytes.now edge start }
{
    let id = start.tile;
    let segment = start.segment as usize;
    let a = geo::flat::point(header, id.key, tile::raw::point(bytes, edge, segment));
    let b = geo::flat::point(header, id.key, tile::raw::point(bytes, edge, segment + 1));
    between(a, b, start.fraction)
}
