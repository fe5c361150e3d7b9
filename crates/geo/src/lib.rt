// Flat-earth geometry around a point, good to a few centimetres over the few kilometres one computation spans: the Rust's geo.rs.
// The module `flat` has the arithmetic, total for every figure; here stand the functions with their refusals.
#![tactic(auto)]

pub mod flat;

ghost use Rattle.std.specs.Prelude.{◌≡◌};
ghost use Rattle.angle.specs.Bearing as Bearing;
ghost use Rattle.geo.specs.Points as Points;
ghost use Rattle.geo.specs.Flat as Flat;

use pack::{Header, TileKey};
use refusal::Refusal;
use tile::{Edge, Node};

// Micrometres per micro-degree of latitude (spherical Earth, as the builder of packs uses).
pub const LAT_UM: f32 = 111195.0;

// A point in micro-degrees.
#[derive(Clone, Copy, PartialEq, Eq, Debug)]
pub struct Point {
    pub lat: i32,
    pub lon: i32,
}

// Metres east and north of an origin.
#[derive(Clone, Copy, PartialEq, Debug)]
pub struct Metres {
    pub east: f32,
    pub north: f32,
}

// Where a point projects onto a segment: the fraction along it, 0 to 1, and the distance.
#[derive(Clone, Copy, PartialEq, Debug)]
pub struct Projected {
    pub fraction: f32,
    pub distance: f32,
}

impl Point {
    // A node's point: 12 for the header, 9 for a key outside the grid.
    #[tactic(auto, unfolding(crate::specs::Points::point))]
    pub fn of(header: Header, key: TileKey, node: Node) -> Result<Point, Refusal>
        ensures { result ≡ Points.point header key node }
    {
        if !header.rules() {
            return Err(Refusal::BadState);
        }
        if !pack::grid::in_grid(header, key) {
            return Err(Refusal::OutsideGrid);
        }
        Ok(flat::point(header, key, node))
    }

    // Metres east and north of `origin`, with `lon_um` micrometres per micro-degree of longitude: 8 for a point beyond 360 degrees.
    #[tactic(auto, unfolding(crate::specs::Flat::metres_from))]
    pub fn metres_from(self, origin: Point, lon_um: u32) -> Result<Metres, Refusal>
        ensures { result ≡ Flat.metres_from self origin lon_um }
    {
        if !pack::grid::is_point(self.lat, self.lon) {
            return Err(Refusal::OutOfRange);
        }
        if !pack::grid::is_point(origin.lat, origin.lon) {
            return Err(Refusal::OutOfRange);
        }
        Ok(flat::metres(self, origin, lon_um))
    }
}

// The length of a vector: 8 for a figure that is not finite.
#[tactic(auto, unfolding(crate::specs::Flat::length))]
pub fn length(east: f32, north: f32) -> Result<f32, Refusal>
    ensures { result ≡ Flat.length east north }
{
    if num::order::is_finite(east) && num::order::is_finite(north) {
        Ok(flat::length(east, north))
    } else {
        Err(Refusal::OutOfRange)
    }
}

// The compass bearing of a vector, degrees clockwise from north: 8 for a figure that is not finite.
pub fn bearing(east: f32, north: f32) -> Result<f32, Refusal>
    ensures { result ≡ Bearing.bearing east north }
{
    angle::bearing(east, north)
}

// Signed turn from bearing `from` to bearing `to`, above -180 and up to 180: 8 for a heading that is not a number or beyond 360 either way.
#[tactic(auto, unfolding(crate::specs::Flat::turn))]
pub fn turn(from: f32, to: f32) -> Result<f32, Refusal>
    ensures { result ≡ Flat.turn from to }
{
    if flat::is_heading(from) && flat::is_heading(to) {
        Ok(flat::turn(from, to))
    } else {
        Err(Refusal::OutOfRange)
    }
}

// Where `p` projects onto segment a-b, all in metres of one local frame: 8 for a figure that is not finite.
#[tactic(auto, unfolding(crate::specs::Flat::project))]
pub fn project(p: Metres, a: Metres, b: Metres) -> Result<Projected, Refusal>
    ensures { result ≡ Flat.project p a b }
{
    if flat::are_finite(p) && flat::are_finite(a) && flat::are_finite(b) {
        Ok(flat::project(p, a, b))
    } else {
        Err(Refusal::OutOfRange)
    }
}

// The tile point at `index` of `edge`, as a global point and elevation: 12 for the header, 9 for a tile outside the grid, 7 for a point that is not there.
#[tactic(auto, unfolding(crate::specs::Points::edge_point))]
pub fn edge_point(
    header: Header,
    bytes: &[u8],
    edge: Edge,
    index: usize,
) -> Result<(Point, i32), Refusal>
    ensures { result ≡ Points.edge_point header bytes.now edge index }
{
    if !header.rules() {
        return Err(Refusal::BadState);
    }
    let head = tile::read::head(bytes);
    let key = head.key;
    if !pack::grid::in_grid(header, key) {
        return Err(Refusal::OutsideGrid);
    }
    if !tile::raw::has_point(bytes, edge, index) {
        return Err(Refusal::PastTile);
    }
    let node = tile::raw::point(bytes, edge, index);
    Ok((flat::point(header, key, node), flat::z_dm(node)))
}
