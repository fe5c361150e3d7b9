// The edge loop: left from inside the loop over an edge's points at the horizon, or with the last sample.
ghost use Rattle.std.specs.Prelude.{◌≡◌};
ghost use Rattle.predict.specs.Vertex as Vertex;
ghost use Rattle.predict.specs.Walk as Walks;

use crate::outgoing::Leg;
use crate::{Course, End, Ending, Followed, History, Track, Trip, Walk, Walked, Way};
use pack::Header;

fn goes_on(ending: Ending) -> bool
    ensures { result ≡ Walks.goes_on ending }
{
    match ending {
        Ending::Going => true,
        Ending::Stops(_) | Ending::Need(_) | Ending::Stale => false,
    }
}

// The edge of a way, followed from one of its ends.
pub(crate) fn leg_of(header: Header, way: Way, bytes: &[u8]) -> Leg
    ensures { result ≡ Walks.leg_of header way bytes.now }
{
    let key = way.tile;
    let edge = tile::raw::edge(bytes, way.edge);
    Leg {
        header,
        key,
        edge,
        forward: way.forward,
    }
}

// The walk at the horizon.
fn reached(w: Walk) -> Walk
    ensures { result ≡ Walks.reached w }
{
    crate::enter::with_ending(w, Ending::Stops(End::Horizon))
}

// At most 2,000 edges.
fn edges(
    start: Walk,
    first: Course,
    arena: &[u8],
    trip: Trip,
    budget: usize,
    looks: &mut [u32; cache::ages::LOOKUPS],
    visited: &mut [u32; crate::VISITED],
    met: &mut [u64; crate::MET],
    heights: &mut [i16],
    lats: &mut [i32; 16],
    lons: &mut [i32; 16],
    distances: &mut [f32; 16],
) -> Walked
    ensures value { result ≡ Walks.walked (Walks.follow looks.old visited.old met.old arena.now trip budget start (Vertex.track_of first lats.old lons.old distances.old) heights.old) }
    ensures looks_after { looks.new ≡ (Walks.follow looks.old visited.old met.old arena.now trip budget start (Vertex.track_of first lats.old lons.old distances.old) heights.old).carried }
    ensures visited_after { visited.new ≡ (Walks.follow looks.old visited.old met.old arena.now trip budget start (Vertex.track_of first lats.old lons.old distances.old) heights.old).visited }
    ensures met_after { met.new ≡ (Walks.follow looks.old visited.old met.old arena.now trip budget start (Vertex.track_of first lats.old lons.old distances.old) heights.old).met }
    ensures heights_after { heights.new ≡ (Walks.follow looks.old visited.old met.old arena.now trip budget start (Vertex.track_of first lats.old lons.old distances.old) heights.old).heights }
    ensures lats_after { lats.new ≡ (Walks.follow looks.old visited.old met.old arena.now trip budget start (Vertex.track_of first lats.old lons.old distances.old) heights.old).track.history.lats }
    ensures lons_after { lons.new ≡ (Walks.follow looks.old visited.old met.old arena.now trip budget start (Vertex.track_of first lats.old lons.old distances.old) heights.old).track.history.lons }
    ensures distances_after { distances.new ≡ (Walks.follow looks.old visited.old met.old arena.now trip budget start (Vertex.track_of first lats.old lons.old distances.old) heights.old).track.history.distances }
{
    let header = trip.header;
    let mut w = start;
    let mut t = first;
    let mut n: usize = 0;
    'edges: while n < 2000 {
        let e = crate::enter::enter(w, arena, header.tile, budget, looks, visited, met);
        w = e.walk;
        let ending = w.ending;
        if !goes_on(ending) {
            break 'edges;
        }
        let bytes = cache::ages::run_bytes(arena, e.first, e.len);
        let head = tile::read::head(bytes);
        let leg = leg_of(header, w.way, bytes);
        let edge = leg.edge;
        let last = (edge.vertices as u32) + 1;
        if t.over {
            w = reached(w);
            break 'edges;
        }
        let base = crate::spots::vertices_at(bytes);
        let mut i = w.from;
        'points: while i <= last {
            t = crate::vertex::advance(
                trip,
                leg,
                bytes,
                head.lon_um,
                base,
                t,
                i,
                heights,
                lats,
                lons,
                distances,
            );
            if t.over {
                w = reached(w);
                break 'edges;
            }
            i += 1;
        }
        w = crate::turn::crossed(
            w,
            t,
            arena,
            looks,
            &*visited,
            bytes,
            leg,
            &*lats,
            &*lons,
            &*distances,
        );
        n += 1;
    }
    Walked { walk: w, course: t }
}

// A track without the arrays of its history.
fn course_of(first: Track) -> Course
    ensures { result ≡ Vertex.course_of first }
{
    let h = first.history;
    let here = first.here;
    let mark = first.mark;
    Course {
        here,
        distance: first.distance,
        mark,
        len: h.len,
        over: first.over,
    }
}

// The road ahead: the arrays of its history are taken out, lent from point to point, and put back at its end.
pub(crate) fn follow(
    start: Walk,
    first: Track,
    arena: &[u8],
    trip: Trip,
    budget: usize,
    looks: &mut [u32; cache::ages::LOOKUPS],
    visited: &mut [u32; crate::VISITED],
    met: &mut [u64; crate::MET],
    heights: &mut [i16],
) -> Followed
    ensures value { result ≡ Walks.followed (Walks.follow looks.old visited.old met.old arena.now trip budget start first heights.old) }
    ensures looks_after { looks.new ≡ (Walks.follow looks.old visited.old met.old arena.now trip budget start first heights.old).carried }
    ensures visited_after { visited.new ≡ (Walks.follow looks.old visited.old met.old arena.now trip budget start first heights.old).visited }
    ensures met_after { met.new ≡ (Walks.follow looks.old visited.old met.old arena.now trip budget start first heights.old).met }
    ensures heights_after { heights.new ≡ (Walks.follow looks.old visited.old met.old arena.now trip budget start first heights.old).heights }
{
    let h = first.history;
    let mut lats = h.lats;
    let mut lons = h.lons;
    let mut distances = h.distances;
    let course = course_of(first);
    let walked = edges(
        start,
        course,
        arena,
        trip,
        budget,
        looks,
        visited,
        met,
        heights,
        &mut lats,
        &mut lons,
        &mut distances,
    );
    let walk = walked.walk;
    let end = walked.course;
    let history = History {
        lats,
        lons,
        distances,
        len: end.len,
    };
    let there = end.here;
    let last = end.mark;
    let track = Track {
        here: there,
        distance: end.distance,
        mark: last,
        history,
        over: end.over,
    };
    Followed { walk, track }
}
