// The work of a step that needs no read: off the map, a match, a road, or nothing. What these functions ask of the state is what number 12's
// test has shown.
ghost use Rattle.std.specs.Prelude.{◌≡◌, true};
ghost use Rattle.pack.specs.Grid.{in_grid};
ghost use Rattle.engine.specs.Plans as Plans;
ghost use Rattle.engine.specs.Work as Work;

use crate::{Ahead, Due, Engine, Fix, Follower, Status, Stepped};
use geo::Point;
use matcher::{Made, Matched, Matcher};
use pack::TileKey;
use predict::{End, Outcome, Prediction};
use refusal::Refusal;

// One step more was counted, and nothing else.
pub(crate) fn counted(f: Follower) -> Follower
    ensures { result ≡ Work.counted f }
{
    let mut d = f;
    d.steps = std::num::wrapping_add_u32(d.steps, 1);
    d
}

pub fn is_matched(c: Option<Matched>) -> bool
    ensures { result ≡ Work.is_matched c }
{
    match c {
        None => false,
        Some(_) => true,
    }
}

// A road that is published goes, for a reason.
pub fn emptied(a: Ahead, at_ms: u64, end: End) -> Ahead
    ensures { result ≡ Work.emptied a at_ms end }
{
    let matched = a.matched;
    if is_matched(matched) {
        return crate::publish::without_match(a, at_ms, end);
    }
    a
}

// The fix lies outside the grid.
fn off_map(f: Follower, fix: Fix) -> Follower
    ensures { result ≡ Work.off_map f fix }
{
    let mut d = f;
    let a = d.ahead;
    let matched = a.matched;
    if is_matched(matched) {
        let none = Matcher::reset();
        d.matcher = none;
    }
    let ahead = emptied(a, fix.at_ms, End::MapEdge);
    d.ahead = ahead;
    let mut due = d.due;
    due.matching = false;
    d.due = due;
    d
}

// ---- a tile is needed first

// A tile asked for, as the next attempt's number.
pub fn asking(d: Due, key: TileKey, reloads: u16) -> Due
    ensures { result ≡ Work.asking d key reloads }
{
    let last_road = d.last_road;
    Due {
        matching: d.matching,
        road: d.road,
        last_road,
        need: Some(key),
        reloads,
    }
}

// Whether the attempt under way may ask for another tile.
pub fn may_ask(d: Due, pages: usize) -> bool
    ensures { result ≡ Work.may_ask d pages }
{
    (d.reloads as usize) < crate::state::reload_limit(pages)
}

// ---- a match

// Whether a match is on another edge than the one published.
fn is_other(found: Matched, published: Option<Matched>) -> bool
    ensures { result ≡ Work.is_other found published }
{
    match published {
        None => true,
        Some(m) => !matcher::score::is_on(m, found.tile, found.edge),
    }
}

// Whether two seconds have passed since the last road.
fn is_time(last: Option<u64>, now_ms: u64) -> bool
    ensures { result ≡ Work.is_time last now_ms }
{
    match last {
        None => true,
        Some(at) => {
            if now_ms < at {
                return false;
            }
            2000 <= now_ms - at
        }
    }
}

// What is due once a match is made: a road where it is on another edge, or it is time.
pub fn matched_due(
    due: Due,
    current: Option<Matched>,
    published: Option<Matched>,
    at_ms: u64,
) -> Due
    ensures { result ≡ Plans.matched_due due current published at_ms }
{
    let mut d = due;
    d.reloads = 0;
    d.matching = false;
    match current {
        None => d,
        Some(found) => {
            let last = d.last_road;
            if is_other(found, published) || is_time(last, at_ms) {
                d.road = true;
            }
            d
        }
    }
}

// The match is made; one that found nothing takes the road that is published away.
fn matched(f: Follower, m: Matcher, fix: Fix) -> Follower
    ensures { result ≡ Work.matched f m fix }
{
    let mut d = f;
    d.matcher = m;
    let current = m.current;
    let a = d.ahead;
    let published = a.matched;
    let before = d.due;
    let due = matched_due(before, current, published, fix.at_ms);
    d.due = due;
    if is_matched(current) {
        return d;
    }
    let ahead = emptied(a, fix.at_ms, End::Uncertain);
    d.ahead = ahead;
    d
}

// What is due once a match needs a tile first; past the limit the match is given up.
pub fn asking_due(due: Due, pages: usize, key: TileKey) -> Due
    ensures { result ≡ Plans.asking_due due pages key }
{
    if may_ask(due, pages) {
        return asking(due, key, due.reloads + 1);
    }
    let mut d = due;
    d.reloads = 0;
    d.matching = false;
    d
}

fn match_asks(f: Follower, pages: usize, key: TileKey) -> Follower
    ensures { result ≡ Work.match_asks f pages key }
{
    let mut d = f;
    let before = d.due;
    let due = asking_due(before, pages, key);
    d.due = due;
    d
}

// The newest fix matched.
pub(crate) fn match_step(e: Engine, arena: &[u8], fix: Fix) -> Stepped
    ensures { result ≡ Work.match_step e arena.now (Work.counted e.follower) fix }
{
    let s = e.shared;
    let c = s.cache;
    let header = s.header;
    let f = e.follower;
    let m = f.matcher;
    let sight = f.sight;
    let heading = sight.heading;
    let point = Point {
        lat: fix.lat,
        lon: fix.lon,
    };
    let u = matcher::gather::made(m, c, arena, header, point, heading);
    match_ended(e, fix, u)
}

// The follower that a match leaves.
fn match_leaves(
    f: Follower,
    m: Matcher,
    fix: Fix,
    pages: usize,
    answer: Result<matcher::Outcome, Refusal>,
) -> Follower
    ensures { result ≡ Plans.match_leaves answer f m fix pages }
{
    match answer {
        Ok(matcher::Outcome::Found(_)) => matched(f, m, fix),
        Ok(matcher::Outcome::Nothing) => matched(f, m, fix),
        Ok(matcher::Outcome::Need(key)) => match_asks(f, pages, key),
        Err(_) => matched(f, m, fix),
    }
}

// How a step that matched ends, where the match is not refused.
// Generic over the refusal: the function is public and named in docs/, and takes a match that was refused with any number, or with a `Refusal`.
pub fn match_tells<E: Copy>(due: Due, pages: usize, answer: Result<matcher::Outcome, E>) -> Status
    ensures { result ≡ Plans.match_tells answer due pages }
{
    match answer {
        Ok(matcher::Outcome::Found(_)) => Status::Working,
        Ok(matcher::Outcome::Nothing) => Status::Working,
        Ok(matcher::Outcome::Need(_)) => {
            if may_ask(due, pages) {
                return Status::Working;
            }
            Status::Idle
        }
        Err(_) => Status::Working,
    }
}

// What a match that ended makes of the engine, which is written in place.
fn match_ended(mut e: Engine, fix: Fix, u: Made) -> Stepped
    ensures { result ≡ Plans.match_made e fix u }
{
    let answer = u.answer;
    if let Err(refusal) = answer {
        return crate::state::refused(e, refusal);
    }
    let mut s = e.shared;
    let old = s.cache;
    let uses = u.uses;
    let c = cache::uses::with_uses(old, uses);
    s.cache = c;
    e.shared = s;
    let before = e.follower;
    let f = counted(before);
    let due = f.due;
    let pages = c.pages;
    let m = u.matcher;
    let after = match_leaves(f, m, fix, pages.count, answer);
    e.follower = after;
    let told = match_tells(due, pages.count, answer);
    Stepped {
        answer: Ok(told),
        engine: e,
    }
}

// ---- a road

pub fn no_road() -> Prediction
    ensures { result ≡ Work.no_road }
{
    Prediction {
        len: 0,
        behind: 0,
        behind_m: 0.0,
        end: End::Memory,
        end_m: 0.0,
        confidence: 0,
    }
}

// A road was worked out at the fix's time.
pub fn road_done(d: Due, at_ms: u64) -> Due
    ensures { result ≡ Work.road_done d at_ms }
{
    let need = d.need;
    Due {
        matching: d.matching,
        road: false,
        last_road: Some(at_ms),
        need,
        reloads: 0,
    }
}

// The road published, with the heights in `a`.
fn published(f: Follower, a: Ahead, fix: Fix, found: Matched, p: Prediction) -> Follower
    ensures { result ≡ Work.published f a fix found p }
{
    let mut d = f;
    let due = d.due;
    let done = road_done(due, fix.at_ms);
    d.due = done;
    let ahead = crate::publish::with_match(a, fix.at_ms, found, p);
    d.ahead = ahead;
    d
}

// A road needs a tile first; past the limit the road is Memory.
fn road_asks(f: Follower, pages: usize, fix: Fix, found: Matched, key: TileKey) -> Follower
    ensures { result ≡ Work.road_asks f pages fix found key }
{
    let due = f.due;
    if may_ask(due, pages) {
        let mut d = f;
        let asked = asking(due, key, due.reloads + 1);
        d.due = asked;
        return d;
    }
    let a = f.ahead;
    let p = no_road();
    published(f, a, fix, found, p)
}

// The start is no longer its tile's: the fix is matched again.
fn rematch(f: Follower) -> Follower
    ensures { result ≡ Work.rematch f }
{
    let mut d = f;
    let none = Matcher::reset();
    d.matcher = none;
    let mut due = d.due;
    due.matching = true;
    d.due = due;
    d
}

// The follower that a road leaves; `a` has the heights.
fn road_leaves(
    f: Follower,
    a: Ahead,
    pages: usize,
    fix: Fix,
    found: Matched,
    answer: Result<Outcome, Refusal>,
) -> Follower
    ensures { result ≡ Plans.road_leaves answer f a pages fix found }
{
    match answer {
        Ok(Outcome::Road(r)) => published(f, a, fix, found, r),
        Ok(Outcome::Need(key)) => road_asks(f, pages, fix, found, key),
        Ok(Outcome::Rematch) => rematch(f),
        Err(_) => rematch(f),
    }
}

// The number that a road is refused with, 0 where it is not.
// A number and no `Refusal`: the function is public and named in docs/, and takes a road that was refused with any number.
pub fn road_number(answer: Result<Outcome, u32>) -> u32
    ensures { result ≡ Plans.road_number answer }
{
    match answer {
        Ok(_) => 0,
        Err(number) => number,
    }
}

// Whether a road refuses the step: after 10 the fix is matched again.
// A number and no `Refusal`: the function is public and named in docs/, and takes a road that was refused with any number.
pub fn road_fails(answer: Result<Outcome, u32>) -> bool
    ensures { result ≡ Plans.road_fails answer }
{
    answer.is_err() && road_number(answer) != 10
}

// The refusal of a step that worked out a road, if its number fails the step.
pub fn road_refusal(answer: Result<Outcome, Refusal>) -> Option<Refusal>
    ensures { result ≡ Plans.road_refusal answer }
{
    match answer {
        Ok(_) => None,
        Err(refusal) => {
            if road_fails(Err(refusal.number())) {
                return Some(refusal);
            }
            None
        }
    }
}

// The road ahead of a match, worked out over heights of 0. The engine is written in place.
pub(crate) fn road_step(mut e: Engine, arena: &[u8], fix: Fix, found: Matched) -> Stepped
    requires { in_grid e.shared.header found.tile.key ≡ true }
    ensures { result ≡ Work.road_step e arena.now (Work.counted e.follower) fix found }
{
    let mut s = e.shared;
    let old = s.cache;
    let header = s.header;
    let mut samples = [0i16; predict::MAX_SAMPLES];
    let mut behind = [0i16; predict::BEHIND_SAMPLES];
    let p = predict::road::predicted(
        old,
        arena,
        header,
        found,
        e.follower.horizon_m,
        &mut samples,
        &mut behind,
    );
    let answer = p.answer;
    if let Some(refusal) = road_refusal(answer) {
        return crate::state::refused(e, refusal);
    }
    let c = p.cache;
    s.cache = c;
    e.shared = s;
    let before = e.follower;
    let f = counted(before);
    let mut a = f.ahead;
    a.samples = samples;
    a.behind = behind;
    let pages = c.pages;
    let after = road_leaves(f, a, pages.count, fix, found, answer);
    e.follower = after;
    Stepped {
        answer: Ok(Status::Working),
        engine: e,
    }
}

// A road was due without a match: it is due no more.
pub(crate) fn road_dropped(mut e: Engine) -> Stepped
    ensures { result ≡ Plans.road_dropped e }
{
    let before = e.follower;
    let mut f = counted(before);
    let mut due = f.due;
    due.road = false;
    f.due = due;
    e.follower = f;
    Stepped {
        answer: Ok(Status::Idle),
        engine: e,
    }
}

// The fix lies outside the grid.
pub(crate) fn left_map(mut e: Engine, fix: Fix) -> Stepped
    ensures { result ≡ Plans.left_map e fix }
{
    let before = e.follower;
    let counted = counted(before);
    let f = off_map(counted, fix);
    e.follower = f;
    Stepped {
        answer: Ok(Status::OffMap),
        engine: e,
    }
}
