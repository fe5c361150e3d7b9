// The road just ridden, back along the matched edge: `ridden` of the Rust's predict.rs.
ghost use Rattle.std.specs.Prelude.{◌≡◌};
ghost use Rattle.predict.specs.Ridden as Ridden;

use crate::outgoing::Leg;
use crate::{Mark, Trip};
use geo::Point;
use matcher::Matched;

// How far back the road has been followed. It is over where the ride began.
#[derive(Clone, Copy)]
pub struct Back {
    pub here: Point,
    pub distance: f32,
    pub mark: Mark,
    pub over: bool,
}

// The samples written behind the rider, and the distance to the last of them.
#[derive(Clone, Copy)]
pub struct Behind {
    pub len: usize,
    pub m: f32,
}

// The height where the ride began, between the last road point and the next.
fn height_back(m: Mark, z: i32, reach: f32, step: f32) -> i32
    ensures { result ≡ Ridden.height_back m z reach step }
{
    let rise = num::convert::f32_of_i64((z as i64) - (m.z as i64));
    let value = num::convert::f32_of_i32(m.z) + rise * (reach - m.distance) / step;
    num::cast::i32_of_f32(value)
}

// One point more, back along the leg; nothing more once the ride's beginning is passed.
fn back_step(
    trip: Trip,
    leg: Leg,
    bytes: &[u8],
    lon_um: u32,
    reach: f32,
    b: Back,
    i: u32,
    heights: &mut [i16],
) -> Back
    ensures value { result ≡ (Ridden.back_step trip leg bytes.now lon_um reach b i heights.old).back }
    ensures heights_after { heights.new ≡ (Ridden.back_step trip leg bytes.now lon_um reach b i heights.old).heights }
{
    let node = crate::spots::node_at(crate::spots::vertices_at(bytes), leg, bytes, i);
    let point = geo::flat::point(leg.header, leg.key, node);
    let z = crate::start::less(geo::flat::z_dm(node), trip.z_dm);
    let step = crate::vertex::step_of(b.here, point, lon_um);
    let distance = b.distance + step;
    let old = b.mark;
    if distance >= reach {
        let there = height_back(old, z, reach, step);
        let mark = crate::samples::push_on(old, heights, reach, there);
        let here = b.here;
        return Back {
            here,
            distance: reach,
            mark,
            over: true,
        };
    }
    let mark = crate::samples::push_on(old, heights, distance, z);
    Back {
        here: point,
        distance,
        mark,
        over: !(distance < reach),
    }
}

// The road back along the leg, as far as the ride goes, and never past the edge's end.
fn go_back(
    trip: Trip,
    leg: Leg,
    bytes: &[u8],
    lon_um: u32,
    reach: f32,
    from: u32,
    b: Back,
    heights: &mut [i16],
) -> Back
    ensures value { result ≡ (Ridden.backs trip leg bytes.now lon_um reach from b heights.old).back }
    ensures heights_after { heights.new ≡ (Ridden.backs trip leg bytes.now lon_um reach from b heights.old).heights }
{
    let edge = leg.edge;
    let last = (edge.vertices as u32) + 1;
    let mut d = b;
    let mut i = from;
    while i <= last {
        if d.over {
            return d;
        }
        d = back_step(trip, leg, bytes, lon_um, reach, d, i, heights);
        i += 1;
    }
    d
}

// One sample more where the ride began between two of them; it keeps the low 16 bits of its height.
fn last_sample(b: Back, heights: &mut [i16]) -> Behind
    ensures value { result ≡ (Ridden.last_sample b heights.old).behind }
    ensures heights_after { heights.new ≡ (Ridden.last_sample b heights.old).heights }
{
    let mark = b.mark;
    let len = mark.len;
    let mut before = len;
    if 0 < len {
        before = len - 1;
    }
    let sampled = crate::samples::sample_at(before);
    if b.distance - sampled >= 1.0 {
        if len < heights.len() {
            heights[len] = num::cast::i16_of_i32(mark.z);
            return Behind {
                len: len + 1,
                m: b.distance,
            };
        }
    }
    Behind { len, m: sampled }
}

// The road that was ridden to `here` in this direction, at most 200 m of it, without a decision at any junction.
pub(crate) fn ridden(
    trip: Trip,
    leg: Leg,
    bytes: &[u8],
    lon_um: u32,
    start: Matched,
    here: Point,
    heights: &mut [i16],
) -> Behind
    ensures value { result ≡ (Ridden.ridden trip leg bytes.now lon_um start here heights.old).behind }
    ensures heights_after { heights.new ≡ (Ridden.ridden trip leg bytes.now lon_um start here heights.old).heights }
{
    let reach = num::order::min(start.ridden_m, 200.0);
    let none = Mark {
        len: 0,
        distance: 0.0,
        z: 0,
    };
    let mark = crate::samples::push_on(none, heights, 0.0, 0);
    let b = Back {
        here,
        distance: 0.0,
        mark,
        over: !(0.0 < reach),
    };
    let from = crate::start::first_of(leg, start.segment);
    let d = go_back(trip, leg, bytes, lon_um, reach, from, b, heights);
    last_sample(d, heights)
}
