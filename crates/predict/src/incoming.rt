// The points passed last, and the heading at the end of an edge that they give.
ghost use Rattle.std.specs.Prelude.{◌≡◌, [], length};
ghost use Rattle.predict.specs.Incoming as Incoming;

use crate::History;
use geo::Point;

// The history of a road of which one point was passed.
pub(crate) fn first(point: Point) -> History
    ensures { result ≡ Incoming.first point }
{
    let lats = [point.lat; 16];
    let lons = [point.lon; 16];
    let distances = [0.0f32; 16];
    History {
        lats,
        lons,
        distances,
        len: 1,
    }
}

// The prover has the length of an array from one that goes by value alone: this tells it, and does nothing.
fn sixteen(v: [i32; 16])
    ensures { length v ≡ 16 }
{}

// The same of distances.
fn sixteen_distances(v: [f32; 16])
    ensures { length v ≡ 16 }
{}

// The oldest out, and the last place taken twice.
fn shift(v: &mut [i32; 16])
    ensures { v.new ≡ Incoming.shifted v.old }
{
    sixteen(*v);
    for i in 0..15 {
        v[i] = v[i + 1];
    }
}

// The same of distances.
fn shift_distances(v: &mut [f32; 16])
    ensures { v.new ≡ Incoming.shifted v.old }
{
    sixteen_distances(*v);
    for i in 0..15 {
        v[i] = v[i + 1];
    }
}

// A latitude or longitude more behind `n` of them; past the sixteenth in the place of the oldest.
pub(crate) fn keep(v: &mut [i32; 16], n: usize, x: i32)
    ensures { v.new ≡ Incoming.kept v.old n x }
{
    if n < 16 {
        v[n] = x;
        return;
    }
    shift(v);
    v[15] = x;
}

// The same of a distance.
pub(crate) fn keep_distance(v: &mut [f32; 16], n: usize, x: f32)
    ensures { v.new ≡ Incoming.kept v.old n x }
{
    if n < 16 {
        v[n] = x;
        return;
    }
    shift_distances(v);
    v[15] = x;
}

// How many they are then.
pub(crate) fn more(n: usize) -> usize
    ensures { result ≡ Incoming.more n }
{
    if n < 16 {
        return n + 1;
    }
    n
}

// The latest point with one after it that lies 25 m or more back along the road.
fn back_at(v: &[f32; 16], len: usize, distance: f32) -> Option<usize>
    ensures { result ≡ Incoming.back_at (record { lats = []; lons = []; distances = v.now; len = len }) distance }
{
    sixteen_distances(*v);
    if len == 0 {
        return None;
    }
    let mut i = len - 1;
    while 0 < i {
        i -= 1;
        if i < 16 {
            if distance - v[i] >= 25.0 {
                return Some(i);
            }
        }
    }
    None
}

// How far along the way from one point to the next the road 25 m back lies.
fn back_part(from: f32, to: f32, distance: f32) -> f32
    ensures { result ≡ Incoming.back_part from to distance }
{
    let want = distance - 25.0;
    if to > from {
        return num::order::clamp((want - from) / (to - from), 0.0, 1.0);
    }
    0.0
}

fn point_at(lats: &[i32; 16], lons: &[i32; 16], i: usize) -> Point
    ensures { result ≡ Incoming.point_at (record { lats = lats.now; lons = lons.now; distances = []; len = 0 }) i }
{
    sixteen(*lats);
    sixteen(*lons);
    if i < 16 {
        return Point {
            lat: lats[i],
            lon: lons[i],
        };
    }
    Point { lat: 0, lon: 0 }
}

fn distance_at(distances: &[f32; 16], i: usize) -> f32
    ensures { result ≡ Incoming.distance_at (record { lats = []; lons = []; distances = distances.now; len = 0 }) i }
{
    sixteen_distances(*distances);
    if i < 16 {
        return distances[i];
    }
    0.0
}

// The road 25 m back, on the segment that spans it; else the oldest point kept.
fn back_of(
    lats: &[i32; 16],
    lons: &[i32; 16],
    distances: &[f32; 16],
    len: usize,
    distance: f32,
) -> Point
    ensures { result ≡ Incoming.back_of (record { lats = lats.now; lons = lons.now; distances = distances.now; len = len }) distance }
{
    match back_at(distances, len, distance) {
        None => point_at(lats, lons, 0),
        Some(i) => {
            crate::start::between(
                point_at(lats, lons, i),
                point_at(lats, lons, i + 1),
                back_part(
                    distance_at(distances, i),
                    distance_at(distances, i + 1),
                    distance,
                ),
            )
        }
    }
}

// The heading at the end of an edge; where nothing was passed, the one of the approach.
pub(crate) fn incoming(
    lats: &[i32; 16],
    lons: &[i32; 16],
    distances: &[f32; 16],
    len: usize,
    here: Point,
    distance: f32,
    lon_um: u32,
    approach: f32,
) -> f32
    ensures { result ≡ Incoming.incoming (record { lats = lats.now; lons = lons.now; distances = distances.now; len = len }) here distance lon_um approach }
{
    let back = back_of(lats, lons, distances, len, distance);
    let east = crate::spots::east(here.lon, back.lon, lon_um);
    let north = crate::spots::north(here.lat, back.lat);
    if geo::flat::length(east, north) > 0.0 {
        return geo::flat::bearing(east, north);
    }
    approach
}
