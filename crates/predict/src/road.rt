// The road ahead of a start, once the state and the start's key have passed.
ghost use Rattle.std.specs.Prelude.{◌≡◌};
ghost use Rattle.predict.specs.Predict as Predict;

use crate::cost::Road;
use crate::outgoing::Leg;
use crate::ridden::Behind;
use crate::{End, Ending, Followed, Mark, Outcome, Predicted, Prediction, Track, Trip, Walk, Way};
use cache::{Cache, Lookup};
use geo::Point;
use matcher::{Heading, Matched};
use pack::Header;
use refusal::Refusal;
use tile::Edge;

pub(crate) fn refused(c: Cache, refusal: Refusal) -> Predicted
    ensures { result ≡ Predict.refused c refusal }
{
    Predicted {
        answer: Err(refusal),
        cache: c,
    }
}

// Without a direction there is no road.
fn no_direction() -> Result<Outcome, Refusal>
    ensures { result ≡ Predict.uncertain }
{
    let p = Prediction {
        len: 0,
        behind: 0,
        behind_m: 0.0,
        end: End::Uncertain,
        end_m: 0.0,
        confidence: 0,
    };
    Ok(Outcome::Road(p))
}

fn prediction(f: Followed, end: End, b: Behind) -> Prediction
    ensures { result ≡ Predict.prediction f.walk f.track end b }
{
    let w = f.walk;
    let t = f.track;
    let mark = t.mark;
    let sure = num::order::clamp(w.confidence * 100.0, 0.0, 100.0);
    Prediction {
        len: mark.len,
        behind: b.len,
        behind_m: b.m,
        end,
        end_m: t.distance,
        confidence: num::cast::u8_of_f32(sure),
    }
}

// What a walk answers. One that went on to its last edge is Uncertain.
fn outcome(f: Followed, b: Behind) -> Result<Outcome, Refusal>
    ensures { result ≡ Predict.outcome f.walk f.track b }
{
    let w = f.walk;
    let ending = w.ending;
    match ending {
        Ending::Going => Ok(Outcome::Road(prediction(f, End::Uncertain, b))),
        Ending::Stops(end) => Ok(Outcome::Road(prediction(f, end, b))),
        Ending::Need(key) => Ok(Outcome::Need(key)),
        Ending::Stale => Err(Refusal::BadState),
    }
}

// The state afterwards: after a late 12 the one given, else with the clock and the ages that the lookups left.
fn closed(
    c: Cache,
    looks: &[u32; cache::ages::LOOKUPS],
    answer: Result<Outcome, Refusal>,
) -> Predicted
    ensures { result ≡ Predict.closed c looks.now answer }
{
    match answer {
        Err(refusal) => {
            if refusal.number() == 12 {
                return refused(c, refusal);
            }
            let d = cache::ages::aged(c, looks);
            Predicted { answer, cache: d }
        }
        Ok(_) => {
            let d = cache::ages::aged(c, looks);
            Predicted { answer, cache: d }
        }
    }
}

fn no_mark() -> Mark
    ensures { result ≡ Predict.no_mark }
{
    Mark {
        len: 0,
        distance: 0.0,
        z: 0,
    }
}

// How far the road has been followed before its first edge.
fn track_from(here: Point, mark: Mark) -> Track
    ensures { result ≡ Predict.track_from here mark }
{
    let history = crate::incoming::first(here);
    Track {
        here,
        distance: 0.0,
        mark,
        history,
        over: false,
    }
}

// The walk before its first edge.
fn walk_from(start: Matched, leg: Leg) -> Walk
    ensures { result ≡ Predict.walk_from start leg }
{
    let edge = leg.edge;
    let tile = leg.key;
    let way = Way {
        tile,
        edge: start.edge,
        forward: leg.forward,
    };
    let road = Road {
        class: edge.class,
        group: edge.group,
        flags: edge.flags,
    };
    Walk {
        way,
        from: crate::start::first_of(leg, start.segment),
        entry: Heading::Nothing,
        approach: 0.0,
        road,
        confidence: num::convert::f32_of_u8(start.confidence) / 100.0,
        ending: Ending::Going,
    }
}

// The edge of the start, followed forward or back.
fn leg_of(header: Header, start: Matched, edge: Edge, forward: bool) -> Leg
    ensures { result ≡ Predict.leg_of header start edge forward }
{
    let id = start.tile;
    let key = id.key;
    Leg {
        header,
        key,
        edge,
        forward,
    }
}

// The road of a start that has passed: behind it, then ahead.
fn road_of(
    arena: &[u8],
    trip: Trip,
    pages: usize,
    start: Matched,
    forward: bool,
    looks: &mut [u32; cache::ages::LOOKUPS],
    bytes: &[u8],
    samples: &mut [i16],
    behind: &mut [i16],
) -> Result<Outcome, Refusal>
    ensures value { result ≡ (Predict.road_of looks.old arena.now pages trip start forward bytes.now samples.old behind.old).answer }
    ensures looks_after { looks.new ≡ (Predict.road_of looks.old arena.now pages trip start forward bytes.now samples.old behind.old).carried }
    ensures samples_after { samples.new ≡ (Predict.road_of looks.old arena.now pages trip start forward bytes.now samples.old behind.old).samples }
    ensures behind_after { behind.new ≡ (Predict.road_of looks.old arena.now pages trip start forward bytes.now samples.old behind.old).behind }
{
    let header = trip.header;
    let head = tile::read::head(bytes);
    let edge = tile::raw::edge(bytes, start.edge);
    let here = crate::start::place(header, bytes, edge, start);
    let back = leg_of(header, start, edge, !forward);
    let b = crate::ridden::ridden(trip, back, bytes, head.lon_um, start, here, behind);
    let none = no_mark();
    let mark = crate::samples::push_on(none, samples, 0.0, 0);
    let leg = leg_of(header, start, edge, forward);
    let w = walk_from(start, leg);
    let t = track_from(here, mark);
    let mut visited = [0u32; crate::VISITED];
    let mut met = [0u64; crate::MET];
    let f = crate::follow::follow(
        w,
        t,
        arena,
        trip,
        crate::meets::budget(pages),
        looks,
        &mut visited,
        &mut met,
        samples,
    );
    outcome(f, b)
}

// The start's tile was found: 6 where it is another one, 10 where the start lies outside it.
fn from_tile(
    arena: &[u8],
    trip: Trip,
    pages: usize,
    start: Matched,
    forward: bool,
    looks: &mut [u32; cache::ages::LOOKUPS],
    bytes: &[u8],
    samples: &mut [i16],
    behind: &mut [i16],
) -> Result<Outcome, Refusal>
    ensures value { result ≡ (Predict.from_tile looks.old arena.now pages trip start forward bytes.now samples.old behind.old).answer }
    ensures looks_after { looks.new ≡ (Predict.from_tile looks.old arena.now pages trip start forward bytes.now samples.old behind.old).carried }
    ensures samples_after { samples.new ≡ (Predict.from_tile looks.old arena.now pages trip start forward bytes.now samples.old behind.old).samples }
    ensures behind_after { behind.new ≡ (Predict.from_tile looks.old arena.now pages trip start forward bytes.now samples.old behind.old).behind }
{
    let id = tile::read::id(bytes);
    if !matcher::score::same_id(id, start.tile) {
        return Ok(Outcome::Rematch);
    }
    if !crate::start::start_ok(bytes, start) {
        return Err(Refusal::BadStart);
    }
    road_of(
        arena, trip, pages, start, forward, looks, bytes, samples, behind,
    )
}

// What the lookup of the start's tile gives.
fn started_by(
    arena: &[u8],
    header: Header,
    pages: usize,
    answer: Result<Lookup, Refusal>,
    start: Matched,
    forward: bool,
    horizon_m: f32,
    looks: &mut [u32; cache::ages::LOOKUPS],
    samples: &mut [i16],
    behind: &mut [i16],
) -> Result<Outcome, Refusal>
    ensures value { result ≡ (Predict.started_by looks.old arena.now pages header answer start forward horizon_m samples.old behind.old).answer }
    ensures looks_after { looks.new ≡ (Predict.started_by looks.old arena.now pages header answer start forward horizon_m samples.old behind.old).carried }
    ensures samples_after { samples.new ≡ (Predict.started_by looks.old arena.now pages header answer start forward horizon_m samples.old behind.old).samples }
    ensures behind_after { behind.new ≡ (Predict.started_by looks.old arena.now pages header answer start forward horizon_m samples.old behind.old).behind }
{
    let id = start.tile;
    let key = id.key;
    match answer {
        Ok(Lookup::Missing) => Ok(Outcome::Rematch),
        Ok(Lookup::Absent) => Ok(Outcome::Need(key)),
        Err(_) => Err(Refusal::BadState),
        Ok(Lookup::Ready(first, len)) => {
            let trip = Trip {
                header,
                horizon_m,
                z_dm: start.z_dm,
            };
            let bytes = cache::ages::run_bytes(arena, first, len);
            from_tile(
                arena, trip, pages, start, forward, looks, bytes, samples, behind,
            )
        }
    }
}

// The road ahead of a start whose key lies in the grid, over the numbers that lookups go by.
pub fn from_looks(
    looks: &mut [u32; cache::ages::LOOKUPS],
    pages: usize,
    arena: &[u8],
    header: Header,
    start: Matched,
    horizon_m: f32,
    samples: &mut [i16],
    behind: &mut [i16],
) -> Result<Outcome, Refusal>
    ensures value { result ≡ (Predict.from_looks looks.old arena.now pages header start horizon_m samples.old behind.old).answer }
    ensures looks_after { looks.new ≡ (Predict.from_looks looks.old arena.now pages header start horizon_m samples.old behind.old).carried }
    ensures samples_after { samples.new ≡ (Predict.from_looks looks.old arena.now pages header start horizon_m samples.old behind.old).samples }
    ensures behind_after { behind.new ≡ (Predict.from_looks looks.old arena.now pages header start horizon_m samples.old behind.old).behind }
{
    let forward = start.forward;
    match forward {
        None => no_direction(),
        Some(along) => {
            let id = start.tile;
            let found = cache::ages::look_up(looks, arena, header.tile, id.key);
            started_by(
                arena, header, pages, found, start, along, horizon_m, looks, samples, behind,
            )
        }
    }
}

// The road ahead of a start whose key lies in the grid.
fn directed(
    c: Cache,
    arena: &[u8],
    header: Header,
    start: Matched,
    horizon_m: f32,
    samples: &mut [i16],
    behind: &mut [i16],
) -> Predicted
    ensures value { result ≡ (Predict.predicted_in c arena.now header start horizon_m samples.old behind.old).predicted }
    ensures samples_after { samples.new ≡ (Predict.predicted_in c arena.now header start horizon_m samples.old behind.old).samples }
    ensures behind_after { behind.new ≡ (Predict.predicted_in c arena.now header start horizon_m samples.old behind.old).behind }
{
    let mut looks = cache::ages::lookups_of(c);
    let answer = from_looks(
        &mut looks,
        c.pages.count,
        arena,
        header,
        start,
        horizon_m,
        samples,
        behind,
    );
    closed(c, &looks, answer)
}

// `predict` past number 12's test, for a caller that has made it: 9 for the start's key.
pub fn predicted(
    c: Cache,
    arena: &[u8],
    header: Header,
    start: Matched,
    horizon_m: f32,
    samples: &mut [i16],
    behind: &mut [i16],
) -> Predicted
    ensures value { result ≡ (Predict.predict_tested c arena.now header start horizon_m samples.old behind.old).predicted }
    ensures samples_after { samples.new ≡ (Predict.predict_tested c arena.now header start horizon_m samples.old behind.old).samples }
    ensures behind_after { behind.new ≡ (Predict.predict_tested c arena.now header start horizon_m samples.old behind.old).behind }
{
    let id = start.tile;
    if !pack::grid::in_grid(header, id.key) {
        return refused(c, Refusal::OutsideGrid);
    }
    directed(c, arena, header, start, horizon_m, samples, behind)
}
