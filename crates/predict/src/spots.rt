// Where the points of an edge stand in the bytes of its tile, and how far apart two points lie, in numbers. A record that one function writes and
// another reads goes through memory, and costs more there than the arithmetic: so the functions of every point hand numbers on.
ghost use Rattle.std.specs.Prelude.{◌≡◌, ◌^◌, ◌<◌};
ghost use Rattle.tile.specs.Layout as Layout;
ghost use Rattle.predict.specs.Cost as Cost;
ghost use Rattle.predict.specs.Vertex as Vertex;
ghost use Rattle.predict.specs.Spots as Spots;

use crate::outgoing::Leg;
use tile::Node;

// Where a tile's vertices begin.
pub(crate) fn vertices_at(bytes: &[u8]) -> usize
    ensures value { result ≡ Spots.vertices_at bytes.now }
    ensures upper_bound { result < 2 ^ 32 }
{
    let nodes = pack::bytes::u16_at(bytes, 8) as usize;
    let edges = pack::bytes::u16_at(bytes, 10) as usize;
    32 + nodes * 8 + edges * 20
}

// Where point `index` of an edge stands, by the numbers of the edge.
fn spot(base: usize, from: u16, to: u16, first: u32, vertices: u16, index: u32) -> usize
    requires { base < 2 ^ 32 }
    ensures value { result ≡ Spots.spot_by base from to first vertices index }
    ensures upper_bound { result < 2 ^ 40 }
{
    if index == 0 {
        return 32 + (from as usize) * 8;
    }
    if (vertices as u32) < index {
        return 32 + (to as usize) * 8;
    }
    base + ((first as usize) + (index as usize) - 1) * 6
}

// Where point number `i` along the leg stands.
fn spot_of(base: usize, leg: Leg, i: u32) -> usize
    requires { base < 2 ^ 32 }
    ensures value { result ≡ Spots.spot_of base leg i }
    ensures upper_bound { result < 2 ^ 40 }
{
    let edge = leg.edge;
    if leg.forward {
        return spot(
            base,
            edge.from,
            edge.to,
            edge.first_vertex,
            edge.vertices,
            i,
        );
    }
    let last = (edge.vertices as u32) + 1;
    if last < i {
        return spot(
            base,
            edge.from,
            edge.to,
            edge.first_vertex,
            edge.vertices,
            0,
        );
    }
    spot(
        base,
        edge.from,
        edge.to,
        edge.first_vertex,
        edge.vertices,
        last - i,
    )
}

// Point number `i` along the leg with its height, from 0 at its start.
pub(crate) fn node_at(base: usize, leg: Leg, bytes: &[u8], i: u32) -> Node
    requires base_bound { base < 2 ^ 32 }
    requires base_value { base ≡ Spots.vertices_at bytes.now }
    ensures { result ≡ Vertex.node_at leg bytes.now i }
{
    let at = spot_of(base, leg, i);
    Node {
        x: pack::bytes::u16_at(bytes, at),
        y: pack::bytes::u16_at(bytes, at + 2),
        z: pack::bytes::u16_at(bytes, at + 4),
    }
}

// Metres east, from one longitude to another. The difference is taken in 64 bits, so that any two have one.
pub(crate) fn east(to: i32, from: i32, lon_um: u32) -> f32
    ensures { result ≡ Spots.east_of to from lon_um }
{
    let micro = num::convert::f32_of_i64((to as i64) - (from as i64));
    micro * num::convert::f32_of_u32(lon_um) * 0.000001
}

// Metres north, from one latitude to another.
pub(crate) fn north(to: i32, from: i32) -> f32
    ensures { result ≡ Spots.north_of to from }
{
    let micro = num::convert::f32_of_i64((to as i64) - (from as i64));
    micro * geo::LAT_UM * 0.000001
}

// The flags of an edge.
fn flags_at(bytes: &[u8], index: u16) -> u8
    ensures { result ≡ (Layout.edge_of bytes.now index).flags }
{
    let nodes = pack::bytes::u16_at(bytes, 8) as usize;
    let edges = pack::bytes::u16_at(bytes, 10) as usize;
    let at = 32 + nodes * 8 + edges * 4 + (index as usize) * 16;
    pack::bytes::byte_at(bytes, at + 11)
}

// Whether an edge has a flag.
pub(crate) fn has_flag(bytes: &[u8], index: u16, flag: u8) -> bool
    ensures { result ≡ Cost.has_flag (Layout.edge_of bytes.now index).flags flag }
{
    flags_at(bytes, index) & flag != 0
}
