// The arithmetic of geo, total for every figure: what the public functions answer once their arguments have passed.
// Functions that work out their own points and figures call these.
ghost use Rattle.std.specs.Prelude.{◌≡◌, pos, ◌+ℤ◌};
ghost use Rattle.pack.specs.Grid.{held};
ghost use Rattle.geo.specs.Points as Points;
ghost use Rattle.geo.specs.Flat as Flat;

use crate::{Metres, Point, Projected};
use pack::{Header, TileKey};
use tile::Node;

// from + n, held to 32 bits from above, which no point of a grid within its rules reaches.
fn beyond(from: i32, n: u16) -> i32
    ensures { result ≡ held (from +ℤ pos n) }
{
    let z = (from as i64) + (n as i64);
    if 2147483647 < z {
        return 2147483647;
    }
    z as i32
}

// A node's point.
#[tactic(auto, unfolding(crate::specs::Points::point_of))]
pub fn point(header: Header, key: TileKey, node: Node) -> Point
    ensures { result ≡ Points.point_of header key node }
{
    let corner = pack::grid::corner_of(header, key);
    Point {
        lat: beyond(corner.south, node.y),
        lon: beyond(corner.west, node.x),
    }
}

// A node's elevation in decimetres.
pub fn z_dm(node: Node) -> i32
    ensures { result ≡ Points.z_dm node }
{
    (node.z as i32) * tile::Z_STEP_DM - tile::Z_OFFSET_DM
}

// Metres east and north of `origin`. The differences are taken in 64 bits, so that any two points have them.
pub fn metres(p: Point, origin: Point, lon_um: u32) -> Metres
    ensures { result ≡ Flat.metres_of p origin lon_um }
{
    let east = num::convert::f32_of_i64((p.lon as i64) - (origin.lon as i64));
    let north = num::convert::f32_of_i64((p.lat as i64) - (origin.lat as i64));
    Metres {
        east: east * num::convert::f32_of_u32(lon_um) * 0.000001,
        north: north * crate::LAT_UM * 0.000001,
    }
}

#[tactic(auto, unfolding(crate::specs::Flat::length_of))]
pub fn length(east: f32, north: f32) -> f32
    ensures { result ≡ Flat.length_of east north }
{
    num::root::sqrt(east * east + north * north)
}

// The bearing of a vector as a figure; one that is not finite counts as north.
#[tactic(auto, using(crate::proofs::Literals::literal_0), unfolding(crate::specs::Flat::bearing_of))]
pub fn bearing(east: f32, north: f32) -> f32
    ensures { result ≡ Flat.bearing_of east north }
{
    angle::bearing(east, north).unwrap_or(0.0)
}

#[tactic(auto, using(crate::proofs::Literals::literal_360))]
pub fn is_heading(d: f32) -> bool
    ensures { result ≡ Flat.is_heading d }
{
    d >= -360.0 && d <= 360.0
}

#[tactic(auto, using(crate::proofs::Literals::literal_180, crate::proofs::Literals::literal_360))]
fn lowered(d: f32) -> f32
    ensures { result ≡ Flat.lowered d }
{
    if d > 180.0 {
        return d - 360.0;
    }
    d
}

#[tactic(auto, using(crate::proofs::Literals::literal_180, crate::proofs::Literals::literal_360))]
fn raised(d: f32) -> f32
    ensures { result ≡ Flat.raised d }
{
    if d <= -180.0 {
        return d + 360.0;
    }
    d
}

// The signed turn between two headings of at most 360 degrees either way.
#[tactic(auto, unfolding(crate::specs::Flat::turn_of))]
pub fn turn(from: f32, to: f32) -> f32
    ensures { result ≡ Flat.turn_of from to }
{
    raised(raised(lowered(lowered(to - from))))
}

pub fn are_finite(m: Metres) -> bool
    ensures { result ≡ Flat.are_finite m }
{
    num::order::is_finite(m.east) && num::order::is_finite(m.north)
}

#[tactic(auto, using(crate::proofs::Literals::literal_0, crate::proofs::Literals::literal_1))]
fn fraction(p: Metres, a: Metres, dx: f32, dy: f32) -> f32
    ensures { result ≡ Flat.fraction_of p a dx dy }
{
    let len2 = dx * dx + dy * dy;
    if len2 > 0.0 {
        let dot = (p.east - a.east) * dx + (p.north - a.north) * dy;
        return num::order::clamp(dot / len2, 0.0, 1.0);
    }
    0.0
}

// Where `p` projects onto segment a-b.
#[tactic(auto, unfolding(crate::specs::Flat::project_of))]
pub fn project(p: Metres, a: Metres, b: Metres) -> Projected
    ensures { result ≡ Flat.project_of p a b }
{
    let dx = b.east - a.east;
    let dy = b.north - a.north;
    let t = fraction(p, a, dx, dy);
    let x = a.east + t * dx;
    let y = a.north + t * dy;
    Projected {
        fraction: t,
        distance: length(p.east - x, p.north - y),
    }
}
