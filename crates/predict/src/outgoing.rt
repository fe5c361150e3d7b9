// The heading that leaves a junction along an edge, over its first 25 m.
ghost use Rattle.std.specs.Prelude.{◌≡◌, ◌^◌, ◌<◌};
ghost use Rattle.predict.specs.Outgoing as Outgoing;
ghost use Rattle.predict.specs.Spots as Spots;

use geo::Point;
use pack::{Header, TileKey};
use tile::Edge;

// An edge of a tile, followed from one of its ends.
#[derive(Clone, Copy)]
pub struct Leg {
    pub header: Header,
    pub key: TileKey,
    pub edge: Edge,
    pub forward: bool,
}

// Point number `i` along the leg, from 0 at its start.
fn point_at(base: usize, leg: Leg, bytes: &[u8], i: u32) -> Point
    requires base_bound { base < 2 ^ 32 }
    requires base_value { base ≡ Spots.vertices_at bytes.now }
    ensures { result ≡ Outgoing.point_at leg bytes.now i }
{
    let node = crate::spots::node_at(base, leg, bytes, i);
    geo::flat::point(leg.header, leg.key, node)
}

// Whether a point lies 25 m or more from another.
fn reaches(far: Point, origin: Point, lon_um: u32) -> bool
    ensures { result ≡ Outgoing.reaches far origin lon_um }
{
    crate::vertex::step_of(origin, far, lon_um) >= 25.0
}

// The first point along the leg that lies 25 m or more from its start, or its last.
fn far_point(base: usize, leg: Leg, bytes: &[u8], lon_um: u32, origin: Point) -> Point
    requires base_bound { base < 2 ^ 32 }
    requires base_value { base ≡ Spots.vertices_at bytes.now }
    requires origin_value { origin ≡ Outgoing.point_at leg bytes.now 0 }
    ensures { result ≡ Outgoing.far_point leg bytes.now lon_um }
{
    let edge = leg.edge;
    let last = (edge.vertices as u32) + 1;
    let mut i: u32 = 1;
    loop {
        let far = point_at(base, leg, bytes, i);
        if i == last {
            return far;
        }
        if reaches(far, origin, lon_um) {
            return far;
        }
        i += 1;
    }
}

// The bearing from the leg's start to that point.
pub(crate) fn outgoing_of(leg: Leg, bytes: &[u8], lon_um: u32) -> f32
    ensures { result ≡ Outgoing.outgoing_of leg bytes.now lon_um }
{
    let base = crate::spots::vertices_at(bytes);
    let origin = point_at(base, leg, bytes, 0);
    let far = far_point(base, leg, bytes, lon_um, origin);
    let east = crate::spots::east(far.lon, origin.lon, lon_um);
    let north = crate::spots::north(far.lat, origin.lat);
    geo::flat::bearing(east, north)
}
