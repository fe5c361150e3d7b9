// A match and a road on words, and a fix off the map: what they read is taken out, and the words that change are put. Clock and ages come first, which is all that changes of the cache, and
// a match goes on from the words with them.
ghost use Rattle.std.specs.Prelude.{◌≡◌, ◌≤◌, true};
ghost use Rattle.cache.specs.Uses as Uses;
ghost use Rattle.matcher.specs.Gather as Gather;
ghost use Rattle.engine.specs.Plans as Plans;
ghost use Rattle.engine.specs.Work as Work;
ghost use Rattle.engine.specs.declared.Status.TheVariants as Statuses;
ghost use Rattle.words.specs.Words as Words;
ghost use Rattle.words.specs.Worked as Worked;

use crate::{decode, encode};
use cache::Aging;
use engine::{Ahead, Due, Fix, Matched, Status};
use geo::Point;
use matcher::{Landings, Matcher, Searched};
use predict::{End, Outcome, Prediction};
use refusal::Refusal;

// ---- a match

// What is due, and the step counted.
fn asks(ws: &mut [u32; crate::WORDS], due: Due)
    requires { Words.accepted ws.old ≡ true }
    ensures { ws.new ≡ Words.words (Worked.asked (Words.engine_of ws.old) due) }
{
    let n = std::num::wrapping_add_u32(ws[1149], 1);
    encode::put_due(due, ws);
    encode::put_word(ws, 1149, n);
}

// And the matcher.
fn match_found(ws: &mut [u32; crate::WORDS], m: Matcher, due: Due)
    requires { Words.accepted ws.old ≡ true }
    ensures { ws.new ≡ Words.words (Worked.found (Words.engine_of ws.old) m due) }
{
    let n = std::num::wrapping_add_u32(ws[1149], 1);
    encode::put_matcher(m, ws);
    encode::put_due(due, ws);
    encode::put_word(ws, 1149, n);
}

// And the published road, which goes.
fn match_lost(ws: &mut [u32; crate::WORDS], m: Matcher, due: Due, at_ms: u64)
    requires { Words.accepted ws.old ≡ true }
    ensures { ws.new ≡ Words.words (Worked.lost (Words.engine_of ws.old) m due at_ms) }
{
    let n = std::num::wrapping_add_u32(ws[1149], 1);
    let a = decode::ahead(&*ws);
    let empty = engine::work::emptied(a, at_ms, End::Uncertain);
    encode::put_matcher(m, ws);
    encode::put_due(due, ws);
    encode::put_ahead(empty, ws);
    encode::put_word(ws, 1149, n);
}

// The match is made; without one a road that is published goes.
fn match_made(ws: &mut [u32; crate::WORDS], fix: Fix, m: Matcher)
    requires { Words.accepted ws.old ≡ true }
    ensures { ws.new ≡ Words.words (Worked.made (Words.engine_of ws.old) fix m) }
{
    let due = decode::due(&*ws);
    let published = decode::current(&*ws, 614);
    let current = m.current;
    let next = engine::work::matched_due(due, current, published, fix.at_ms);
    if engine::work::is_matched(current) || !engine::work::is_matched(published) {
        match_found(ws, m, next);
        return;
    }
    match_lost(ws, m, next, fix.at_ms);
}

// How a step that matched ends: clock and ages first, and then what goes by the match. On the late 12 nothing changes.
fn match_ended(
    ws: &mut [u32; crate::WORDS],
    fix: Fix,
    at: Landings,
    u: Searched,
) -> Result<Status, Refusal>
    requires ws_value { Words.accepted ws.old ≡ true }
    requires tiles_bound { u.tiles ≤ 4 }
    ensures value { result ≡ (Plans.match_made (Words.engine_of ws.old) fix (Gather.made_by at (Uses.uses_of (Words.engine_of ws.old).shared.cache) u)).answer }
    ensures ws_after { ws.new ≡ Words.words (Plans.match_made (Words.engine_of ws.old) fix (Gather.made_by at (Uses.uses_of (Words.engine_of ws.old).shared.cache) u)).engine }
{
    let m = u.matcher;
    let outcome = u.answer?;
    crate::look::use_tiles(ws, at, u.tiles);
    match outcome {
        matcher::Outcome::Found(_) | matcher::Outcome::Nothing => {
            match_made(ws, fix, m);
            Ok(Status::Working)
        }
        matcher::Outcome::Need(key) => {
            let due = decode::due(&*ws);
            let pages = decode::size(ws[399]);
            let asked = engine::work::asking_due(due, pages, key);
            asks(ws, asked);
            Ok(engine::work::match_tells(due, pages, u.answer))
        }
    }
}

// The newest fix matched.
pub(crate) fn match_step(
    ws: &mut [u32; crate::WORDS],
    arena: &[u8],
    fix: Fix,
) -> Result<Status, Refusal>
    requires { Words.accepted ws.old ≡ true }
    ensures value { result ≡ (Work.match_step (Words.engine_of ws.old) arena.now (Work.counted (Words.engine_of ws.old).follower) fix).answer }
    ensures ws_after { ws.new ≡ Words.words (Work.match_step (Words.engine_of ws.old) arena.now (Work.counted (Words.engine_of ws.old).follower) fix).engine }
{
    let m = decode::matcher(&*ws);
    let header = decode::header(&*ws);
    let heading = decode::heading(ws[577], ws[578]);
    let point = Point {
        lat: fix.lat,
        lon: fix.lon,
    };
    let near = matcher::near::near_of(header, point);
    let at = crate::look::landings(&*ws, near);
    let u = matcher::gather::searched(m, at, arena, header, point, heading, near);
    match_ended(ws, fix, at, u)
}

// ---- a road

// Clock and ages, the step counted, and no matcher, so that the fix is matched again.
fn road_rematch(ws: &mut [u32; crate::WORDS], uses: Aging)
    requires { Words.accepted ws.old ≡ true }
    ensures { ws.new ≡ Words.words (Worked.rematched (Words.engine_of ws.old) uses) }
{
    let n = std::num::wrapping_add_u32(ws[1149], 1);
    let mut due = decode::due(&*ws);
    due.matching = true;
    let none = Matcher::reset();
    encode::put_uses(uses, ws);
    encode::put_matcher(none, ws);
    encode::put_due(due, ws);
    encode::put_word(ws, 1149, n);
}

// The road of a match, over the heights given.
fn road_of(
    generation: u32,
    at_ms: u64,
    found: Matched,
    p: Prediction,
    samples: [i16; predict::MAX_SAMPLES],
    behind: [i16; predict::BEHIND_SAMPLES],
) -> Ahead
    ensures { result ≡ Worked.road_of generation at_ms found p samples behind }
{
    let end = p.end;
    Ahead {
        generation: std::num::wrapping_add_u32(generation, 1),
        at_ms,
        matched: Some(found),
        start_z_dm: found.z_dm,
        samples,
        len: p.len,
        behind,
        behind_len: p.behind,
        behind_m: p.behind_m,
        end,
        end_m: p.end_m,
        confidence: p.confidence,
    }
}

// Clock and ages, the step counted, and the road, which is published at the fix's time.
fn road_publish(ws: &mut [u32; crate::WORDS], uses: Aging, at_ms: u64, road: Ahead)
    requires { Words.accepted ws.old ≡ true }
    ensures { ws.new ≡ Words.words (Worked.published (Words.engine_of ws.old) uses at_ms road) }
{
    let n = std::num::wrapping_add_u32(ws[1149], 1);
    let due = decode::due(&*ws);
    let done = engine::work::road_done(due, at_ms);
    encode::put_uses(uses, ws);
    encode::put_due(done, ws);
    encode::put_ahead(road, ws);
    encode::put_word(ws, 1149, n);
}

// A road needs a tile first; past the limit the road is Memory.
fn road_needs(
    ws: &mut [u32; crate::WORDS],
    uses: Aging,
    fix: Fix,
    found: Matched,
    key: pack::TileKey,
)
    requires { Words.accepted ws.old ≡ true }
    ensures { ws.new ≡ Words.words (Worked.road_needs (Words.engine_of ws.old) uses fix found key) }
{
    let due = decode::due(&*ws);
    if engine::work::may_ask(due, decode::size(ws[399])) {
        let asked = engine::work::asking(due, key, due.reloads + 1);
        encode::put_uses(uses, ws);
        asks(ws, asked);
        return;
    }
    let a = decode::ahead(&*ws);
    let samples = a.samples;
    let behind = a.behind;
    let none = engine::work::no_road();
    let road = road_of(a.generation, fix.at_ms, found, none, samples, behind);
    road_publish(ws, uses, fix.at_ms, road);
}

// How a step that worked out a road ends.
fn road_ended(
    ws: &mut [u32; crate::WORDS],
    fix: Fix,
    found: Matched,
    answer: Result<Outcome, Refusal>,
    uses: Aging,
    samples: [i16; predict::MAX_SAMPLES],
    behind: [i16; predict::BEHIND_SAMPLES],
) -> Result<Status, Refusal>
    requires { Words.accepted ws.old ≡ true }
    ensures value { result ≡ (Worked.road_ended (Words.engine_of ws.old) fix found answer uses samples behind).answer }
    ensures ws_after { ws.new ≡ Words.words (Worked.road_ended (Words.engine_of ws.old) fix found answer uses samples behind).engine }
{
    if let Some(refusal) = engine::work::road_refusal(answer) {
        return Err(refusal);
    }
    match answer {
        Ok(Outcome::Road(r)) => {
            let road = road_of(ws[611], fix.at_ms, found, r, samples, behind);
            road_publish(ws, uses, fix.at_ms, road);
            Ok(Status::Working)
        }
        Ok(Outcome::Need(key)) => {
            road_needs(ws, uses, fix, found, key);
            Ok(Status::Working)
        }
        Ok(Outcome::Rematch) | Err(_) => {
            road_rematch(ws, uses);
            Ok(Status::Working)
        }
    }
}

// The road ahead of a match, worked out over heights of 0.
pub(crate) fn road_step(
    ws: &mut [u32; crate::WORDS],
    arena: &[u8],
    fix: Fix,
    found: Matched,
) -> Result<Status, Refusal>
    requires { Words.accepted ws.old ≡ true }
    ensures value { result ≡ (Work.road_step (Words.engine_of ws.old) arena.now (Work.counted (Words.engine_of ws.old).follower) fix found).answer }
    ensures ws_after { ws.new ≡ Words.words (Work.road_step (Words.engine_of ws.old) arena.now (Work.counted (Words.engine_of ws.old).follower) fix found).engine }
{
    let mut looks = crate::look::lookups(&*ws);
    let header = decode::header(&*ws);
    let horizon_m = decode::float(ws[1148]);
    let mut samples = [0i16; predict::MAX_SAMPLES];
    let mut behind = [0i16; predict::BEHIND_SAMPLES];
    let answer = predict::road::from_looks(
        &mut looks,
        decode::size(ws[399]),
        arena,
        header,
        found,
        horizon_m,
        &mut samples,
        &mut behind,
    );
    let uses = cache::ages::uses_from(&looks);
    road_ended(ws, fix, found, answer, uses, samples, behind)
}

// A road was due without a match: it is due no more.
pub(crate) fn road_dropped(ws: &mut [u32; crate::WORDS]) -> Status
    requires { Words.accepted ws.old ≡ true }
    ensures value { result ≡ Statuses.Idle }
    ensures ws_after { ws.new ≡ Words.words (Plans.road_dropped (Words.engine_of ws.old)).engine }
{
    let n = std::num::wrapping_add_u32(ws[1149], 1);
    encode::put_word(ws, 604, 0);
    encode::put_word(ws, 1149, n);
    Status::Idle
}

// ---- off the map

// A road that is published goes, and its match.
fn road_gone(ws: &mut [u32; crate::WORDS], at_ms: u64)
    requires { Words.accepted ws.old ≡ true }
    ensures { ws.new ≡ Words.words (Worked.road_gone (Words.engine_of ws.old) at_ms) }
{
    let a = decode::ahead(&*ws);
    let empty = engine::work::emptied(a, at_ms, End::MapEdge);
    let none = Matcher::reset();
    encode::put_matcher(none, ws);
    encode::put_ahead(empty, ws);
}

// The fix lies outside the grid: no match is due, and a road that is published goes.
pub(crate) fn left_map(ws: &mut [u32; crate::WORDS], fix: Fix) -> Status
    requires { Words.accepted ws.old ≡ true }
    ensures value { result ≡ Statuses.OffMap }
    ensures ws_after { ws.new ≡ Words.words (Plans.left_map (Words.engine_of ws.old) fix).engine }
{
    let n = std::num::wrapping_add_u32(ws[1149], 1);
    if ws[614] == 1 {
        road_gone(ws, fix.at_ms);
    }
    encode::put_word(ws, 603, 0);
    encode::put_word(ws, 1149, n);
    Status::OffMap
}
