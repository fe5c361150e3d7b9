// From the end of an edge onto the next one.
ghost use Rattle.std.specs.Prelude.{◌≡◌};
ghost use Rattle.predict.specs.Vertex as Vertex;
ghost use Rattle.predict.specs.Walk as Walks;

use crate::cost::{Bound, Road};
use crate::outgoing::Leg;
use crate::{Arrival, Course, Crossing, Decision, Ending, Walk};
use cache::Lookup;
use matcher::Heading;
use refusal::Refusal;
use tile::Edge;

// The walk with another heading of entry and of approach.
fn with_entry(w: Walk, entry: Heading, approach: f32) -> Walk
    ensures { result ≡ Walks.with_entry w entry approach }
{
    let way = w.way;
    let road = w.road;
    let ending = w.ending;
    Walk {
        way,
        from: w.from,
        entry,
        approach,
        road,
        confidence: w.confidence,
        ending,
    }
}

// The heading with which a roundabout was entered: on it, that of the approach, kept; off it, none.
fn turned(w: Walk, edge: Edge, incoming: f32) -> Walk
    ensures { result ≡ Walks.turned w edge incoming }
{
    let entry = w.entry;
    if !edge.has(tile::flag::ROUNDABOUT) {
        return with_entry(w, Heading::Nothing, incoming);
    }
    match entry {
        Heading::Degrees(_) => w,
        Heading::Nothing => with_entry(w, Heading::Degrees(w.approach), w.approach),
    }
}

// The heading that turns are judged by: on a roundabout the one it was entered with.
fn bound_of(entry: Heading, incoming: f32) -> Bound
    ensures { result ≡ Walks.bound_of entry incoming }
{
    match entry {
        Heading::Nothing => Bound {
            heading: incoming,
            round: false,
        },
        Heading::Degrees(d) => Bound {
            heading: d,
            round: true,
        },
    }
}

// The heading at the end of the edge.
fn incoming_of(
    t: Course,
    approach: f32,
    lon_um: u32,
    lats: &[i32; 16],
    lons: &[i32; 16],
    distances: &[f32; 16],
) -> f32
    ensures { result ≡ Walks.incoming_of (Vertex.track_of t lats.now lons.now distances.now) approach lon_um }
{
    let here = t.here;
    crate::incoming::incoming(
        lats, lons, distances, t.len, here, t.distance, lon_um, approach,
    )
}

// The junction's node.
fn node_of(leg: Leg) -> u16
    ensures { result ≡ Walks.node_of leg }
{
    let edge = leg.edge;
    if leg.forward {
        return edge.to;
    }
    edge.from
}

// A roundabout belongs to no road: the one it was entered on stays the one to prefer when leaving it.
fn road_of(road: Road, next: Edge) -> Road
    ensures { result ≡ Walks.road_of road next }
{
    if next.has(tile::flag::ROUNDABOUT) {
        return road;
    }
    Road {
        class: next.class,
        group: next.group,
        flags: next.flags,
    }
}

// The way that was decided on.
fn taken(w: Walk, d: Decision) -> Walk
    ensures { result ≡ Walks.taken w d }
{
    let mut v = w;
    let way = d.way;
    let ending = d.ending;
    v.way = way;
    v.from = 1;
    v.confidence = d.confidence;
    crate::enter::with_ending(v, ending)
}

// What the lookup of the next edge's tile gives.
fn next_by(w: Walk, answer: Result<Lookup, Refusal>, arena: &[u8]) -> Walk
    ensures { result ≡ Walks.next_by w answer arena.now }
{
    let way = w.way;
    let key = way.tile;
    match answer {
        Ok(Lookup::Ready(first, len)) => {
            let next = tile::raw::edge(cache::ages::run_bytes(arena, first, len), way.edge);
            let old = w.road;
            let road = road_of(old, next);
            let mut d = w;
            d.road = road;
            d
        }
        Err(_) => crate::enter::with_ending(w, Ending::Stale),
        Ok(Lookup::Missing) | Ok(Lookup::Absent) => crate::enter::with_ending(w, Ending::Need(key)),
    }
}

// On by the way that was decided on, if there is one.
fn decided(
    w: Walk,
    arena: &[u8],
    size: u32,
    looks: &mut [u32; cache::ages::LOOKUPS],
    d: Decision,
) -> Walk
    ensures value { result ≡ (Walks.decided looks.old arena.now size w d).walk }
    ensures looks_after { looks.new ≡ (Walks.decided looks.old arena.now size w d).carried }
{
    let ending = d.ending;
    let v = taken(w, d);
    match ending {
        Ending::Going => {
            let way = v.way;
            let key = way.tile;
            let answer = cache::ages::look_up(looks, arena, size, key);
            next_by(v, answer, arena)
        }
        Ending::Stops(_) | Ending::Need(_) | Ending::Stale => v,
    }
}

// On from a junction whose ways on are known.
fn onward(
    w: Walk,
    arena: &[u8],
    size: u32,
    looks: &mut [u32; cache::ages::LOOKUPS],
    x: Crossing,
) -> Walk
    ensures value { result ≡ (Walks.onward looks.old arena.now size w x).walk }
    ensures looks_after { looks.new ≡ (Walks.onward looks.old arena.now size w x).carried }
{
    let ending = x.ending;
    match ending {
        Ending::Going => {
            let choices = x.choices;
            let d = crate::decide::decide(choices, x.blocked, w.confidence);
            decided(w, arena, size, looks, d)
        }
        Ending::Stops(_) | Ending::Need(_) | Ending::Stale => {
            crate::enter::with_ending(w, ending)
        }
    }
}

// The junction at the end of the walk's edge.
pub(crate) fn crossed(
    w: Walk,
    t: Course,
    arena: &[u8],
    looks: &mut [u32; cache::ages::LOOKUPS],
    visited: &[u32; crate::VISITED],
    bytes: &[u8],
    leg: Leg,
    lats: &[i32; 16],
    lons: &[i32; 16],
    distances: &[f32; 16],
) -> Walk
    ensures value { result ≡ (Walks.crossed looks.old visited.now arena.now leg.header w (Vertex.track_of t lats.now lons.now distances.now) bytes.now leg).walk }
    ensures looks_after { looks.new ≡ (Walks.crossed looks.old visited.now arena.now leg.header w (Vertex.track_of t lats.now lons.now distances.now) bytes.now leg).carried }
{
    let head = tile::read::head(bytes);
    let incoming = incoming_of(t, w.approach, head.lon_um, lats, lons, distances);
    let d = turned(w, leg.edge, incoming);
    let way = d.way;
    let road = d.road;
    let entry = d.entry;
    let bound = bound_of(entry, incoming);
    let header = leg.header;
    let arrival = Arrival {
        header,
        way,
        bound,
        road,
    };
    let node = node_of(leg);
    let none = crate::choose::no_choices();
    let choices = crate::consider::consider(none, arrival, visited, bytes, way.tile, node);
    let at = tile::raw::node(bytes, node);
    let twins = crate::twins::boundary_twins(at.x, at.y, (header.tile % 65536) as u16);
    let x = crate::cross::cross(arena, arrival, visited, looks, choices, twins);
    onward(d, arena, header.tile, looks, x)
}
