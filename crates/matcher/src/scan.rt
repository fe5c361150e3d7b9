// The segment of an edge that is closest to a fix, and the way along the edge to it.
ghost use Rattle.std.specs.Prelude.{◌≡◌, ◌+◌, ◌<◌, ◌^◌};
ghost use Rattle.tile.specs.Layout as Layout;
ghost use Rattle.matcher.specs.Scan as Scan;
ghost use Rattle.matcher.specs.Standing as Standing;

use crate::Nearest;
use geo::{Metres, Point};
use pack::{Header, TileKey};
use tile::{Edge, Node};

// A scan of an edge's segments so far: its last point in metres from the fix, and the closest segment.
#[derive(Drop)]
pub(crate) struct Scanned {
    pub at: Metres,
    pub nearest: Option<Nearest>,
}

// The way along an edge so far: its last point, and the metres to it.
#[derive(Drop)]
pub(crate) struct Along {
    pub at: Point,
    pub metres: f32,
}

// The point `index` of an edge of a tile.
pub(crate) fn point_of(
    header: Header,
    bytes: &[u8],
    key: TileKey,
    edge: Edge,
    index: usize,
) -> Point
    ensures { result ≡ Scan.point_of header bytes.now key edge index }
{
    let node = tile::raw::point(bytes, edge, index);
    geo::flat::point(header, key, node)
}

// Where the first vertex of an edge stands: it is worked out once for all of them.
fn vertices_at(bytes: &[u8], edge: Edge) -> usize
    ensures value { result ≡ Layout.vertex_start bytes.now edge.first_vertex }
    ensures upper_bound { result < 2 ^ 40 }
{
    let nodes = pack::bytes::u16_at(bytes, 8) as usize;
    let edges = pack::bytes::u16_at(bytes, 10) as usize;
    32 + nodes * 8 + edges * 20 + (edge.first_vertex as usize) * 6
}

// Where the point behind segment `i` of an edge stands, its first vertex being at `base`: a vertex, and past them the end node.
fn next_at(base: usize, edge: Edge, i: u16) -> usize
    requires { base < 2 ^ 40 }
    ensures value { result ≡ Standing.next_at base edge i }
    ensures upper_bound { result < 2 ^ 41 }
{
    if i < edge.vertices {
        return base + (i as usize) * 6;
    }
    32 + (edge.to as usize) * 8
}

// The x and y that stand at `at`, with no elevation: out of a slice of their own where the four bytes are there, so that one test is made for both numbers.
fn xy_at(bytes: &[u8], at: usize) -> Node
    requires { at < 2 ^ 41 }
    ensures { result ≡ Standing.xy_at bytes.now at }
{
    if bytes.len() < at + 4 {
        return Node {
            x: pack::bytes::u16_at(bytes, at),
            y: pack::bytes::u16_at(bytes, at + 2),
            z: 0,
        };
    }
    let four = &bytes[at..at + 4];
    Node {
        x: pack::bytes::u16_at(four, 0),
        y: pack::bytes::u16_at(four, 2),
        z: 0,
    }
}

// The point behind segment `i` of an edge. Its elevation is not read.
fn next_point(header: Header, bytes: &[u8], key: TileKey, edge: Edge, base: usize, i: u16) -> Point
    requires base_value { base ≡ Layout.vertex_start bytes.now edge.first_vertex }
    requires base_bound { base < 2 ^ 40 }
    ensures { result ≡ Scan.point_of header bytes.now key edge (i + 1) }
{
    let at = next_at(base, edge, i);
    let node = xy_at(bytes, at);
    geo::flat::point(header, key, node)
}

// Whether both ends lie further than 40 m on one side.
fn rejected(a: Metres, b: Metres) -> bool
    ensures { result ≡ Scan.rejected a b }
{
    if a.east > 40.0 && b.east > 40.0 {
        return true;
    }
    if a.east < -40.0 && b.east < -40.0 {
        return true;
    }
    if a.north > 40.0 && b.north > 40.0 {
        return true;
    }
    if a.north < -40.0 {
        return b.north < -40.0;
    }
    false
}

// Whether a distance is in reach and less than the closest so far.
fn is_closer(nearest: Option<Nearest>, distance: f32) -> bool
    ensures { result ≡ Scan.is_closer nearest distance }
{
    if distance <= 40.0 {
        return match nearest {
            None => true,
            Some(n) => distance < n.distance,
        };
    }
    false
}

// One segment more: the one number `i`, from the last point to `b`.
fn segment_step(s: Scanned, b: Metres, i: u16) -> Scanned
    ensures { result ≡ Scan.segment_step s b i }
{
    let a = s.at;
    let nearest = s.nearest;
    if rejected(a, b) {
        return Scanned { at: b, nearest };
    }
    let here = Metres {
        east: 0.0,
        north: 0.0,
    };
    let p = geo::flat::project(here, a, b);
    if is_closer(nearest, p.distance) {
        let n = Nearest {
            segment: i,
            fraction: p.fraction,
            distance: p.distance,
            a,
            b,
        };
        return Scanned {
            at: b,
            nearest: Some(n),
        };
    }
    Scanned { at: b, nearest }
}

// The closest segment of an edge, if one is in reach of the fix.
pub(crate) fn scan(
    header: Header,
    bytes: &[u8],
    key: TileKey,
    edge: Edge,
    fix: Point,
    lon_um: u32,
) -> Option<Nearest>
    ensures { result ≡ Scan.scan header bytes.now key edge fix lon_um }
{
    let first = geo::flat::metres(point_of(header, bytes, key, edge, 0), fix, lon_um);
    let mut s = Scanned {
        at: first,
        nearest: None,
    };
    let base = vertices_at(bytes, edge);
    for i in 0..=edge.vertices {
        let b = geo::flat::metres(next_point(header, bytes, key, edge, base, i), fix, lon_um);
        s = segment_step(s, b, i);
    }
    s.nearest
}

// One point more along the edge.
fn along_step(s: Along, b: Point, lon_um: u32) -> Along
    ensures { result ≡ Scan.along_step s b lon_um }
{
    let a = s.at;
    let m = geo::flat::metres(b, a, lon_um);
    Along {
        at: b,
        metres: s.metres + geo::flat::length(m.east, m.north),
    }
}

// Metres along an edge from its `from` node to the projected fix.
#[tactic(auto, using(num::proofs::FoldLaws::up_start, num::proofs::FoldLaws::up_turn), unfolding(crate::specs::Scan::along_to))]
pub(crate) fn along_to(
    header: Header,
    bytes: &[u8],
    key: TileKey,
    edge: Edge,
    n: Nearest,
    lon_um: u32,
) -> f32
    ensures { result ≡ Scan.along_of header bytes.now key edge n lon_um }
{
    let a = n.a;
    let b = n.b;
    let into = n.fraction * geo::flat::length(b.east - a.east, b.north - a.north);
    let mut s = Along {
        at: point_of(header, bytes, key, edge, 0),
        metres: into,
    };
    for i in 0..usize::from(n.segment) {
        let p = point_of(header, bytes, key, edge, i + 1);
        s = along_step(s, p, lon_um);
    }
    s.metres
}
