// One point more along an edge: its sample, and whether the horizon lies before it.
ghost use Rattle.std.specs.Prelude.{◌≡◌, [], ◌^◌, ◌<◌};
ghost use Rattle.predict.specs.Vertex as Vertex;
ghost use Rattle.predict.specs.Spots as Spots;

use crate::outgoing::Leg;
use crate::{Course, Mark, Trip};
use geo::Point;

// The length of the way from one point to another.
pub(crate) fn step_of(from: Point, to: Point, lon_um: u32) -> f32
    ensures { result ≡ Vertex.step_of from to lon_um }
{
    let east = crate::spots::east(to.lon, from.lon, lon_um);
    let north = crate::spots::north(to.lat, from.lat);
    geo::flat::length(east, north)
}

// What part of a step lies before the horizon.
fn part_of(left: f32, step: f32) -> f32
    ensures { result ≡ Vertex.part_of left step }
{
    if step > 0.0 {
        return num::order::clamp(left / step, 0.0, 1.0);
    }
    1.0
}

// The height part of the way from the last road point to the next.
fn height_there(m: Mark, z: i32, t: f32) -> i32
    ensures { result ≡ Vertex.height_there m z t }
{
    let rise = num::convert::f32_of_i64((z as i64) - (m.z as i64));
    num::cast::i32_of_f32(num::convert::f32_of_i32(m.z) + rise * t)
}

// The horizon lies before the next point: the road stops exactly there. It reads and changes no history.
fn reach(trip: Trip, t: Course, step: f32, z: i32, heights: &mut [i16]) -> Course
    ensures value { result ≡ Vertex.course_of (Vertex.reached trip (Vertex.track_of t [] [] []) step z heights.old).track }
    ensures heights_after { heights.new ≡ (Vertex.reached trip (Vertex.track_of t [] [] []) step z heights.old).heights }
{
    let horizon = trip.horizon_m;
    let part = part_of(horizon - t.distance, step);
    let old = t.mark;
    let there = height_there(old, z, part);
    let mark = crate::samples::push_on(old, heights, horizon, there);
    let here = t.here;
    Course {
        here,
        distance: horizon,
        mark,
        len: t.len,
        over: true,
    }
}

// On to the next point.
fn pass(
    t: Course,
    distance: f32,
    point: Point,
    z: i32,
    heights: &mut [i16],
    lats: &mut [i32; 16],
    lons: &mut [i32; 16],
    distances: &mut [f32; 16],
) -> Course
    ensures value { result ≡ Vertex.course_of (Vertex.passed (Vertex.track_of t lats.old lons.old distances.old) distance point z heights.old).track }
    ensures heights_after { heights.new ≡ (Vertex.passed (Vertex.track_of t lats.old lons.old distances.old) distance point z heights.old).heights }
    ensures lats_after { lats.new ≡ (Vertex.passed (Vertex.track_of t lats.old lons.old distances.old) distance point z heights.old).track.history.lats }
    ensures lons_after { lons.new ≡ (Vertex.passed (Vertex.track_of t lats.old lons.old distances.old) distance point z heights.old).track.history.lons }
    ensures distances_after { distances.new ≡ (Vertex.passed (Vertex.track_of t lats.old lons.old distances.old) distance point z heights.old).track.history.distances }
{
    let old = t.mark;
    let mark = crate::samples::push_due(old, heights, distance, z);
    let n = t.len;
    crate::incoming::keep(lats, n, point.lat);
    crate::incoming::keep(lons, n, point.lon);
    crate::incoming::keep_distance(distances, n, distance);
    let len = crate::incoming::more(n);
    Course {
        here: point,
        distance,
        mark,
        len,
        over: 501 <= mark.len,
    }
}

// Point number `i` along the leg. `base` is where the tile's vertices begin.
pub(crate) fn advance(
    trip: Trip,
    leg: Leg,
    bytes: &[u8],
    lon_um: u32,
    base: usize,
    t: Course,
    i: u32,
    heights: &mut [i16],
    lats: &mut [i32; 16],
    lons: &mut [i32; 16],
    distances: &mut [f32; 16],
) -> Course
    requires base_bound { base < 2 ^ 32 }
    requires base_value { base ≡ Spots.vertices_at bytes.now }
    ensures value { result ≡ Vertex.course_of (Vertex.advanced trip leg bytes.now lon_um (Vertex.track_of t lats.old lons.old distances.old) i heights.old).track }
    ensures heights_after { heights.new ≡ (Vertex.advanced trip leg bytes.now lon_um (Vertex.track_of t lats.old lons.old distances.old) i heights.old).heights }
    ensures lats_after { lats.new ≡ (Vertex.advanced trip leg bytes.now lon_um (Vertex.track_of t lats.old lons.old distances.old) i heights.old).track.history.lats }
    ensures lons_after { lons.new ≡ (Vertex.advanced trip leg bytes.now lon_um (Vertex.track_of t lats.old lons.old distances.old) i heights.old).track.history.lons }
    ensures distances_after { distances.new ≡ (Vertex.advanced trip leg bytes.now lon_um (Vertex.track_of t lats.old lons.old distances.old) i heights.old).track.history.distances }
{
    let node = crate::spots::node_at(base, leg, bytes, i);
    let point = geo::flat::point(leg.header, leg.key, node);
    let z = crate::start::less(geo::flat::z_dm(node), trip.z_dm);
    let step = step_of(t.here, point, lon_um);
    let distance = t.distance + step;
    if distance >= trip.horizon_m {
        return reach(trip, t, step, z, heights);
    }
    pass(t, distance, point, z, heights, lats, lons, distances)
}
