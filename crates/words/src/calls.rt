// The matcher's and predict's own calls on the cache in an engine's words. Number 12 is tested on the words, and of them clock and ages alone are written.
ghost use Rattle.std.specs.Prelude.{◌≡◌};
ghost use Rattle.words.specs.Calls as Calls;
ghost use Rattle.words.specs.Opens as Opens;
ghost use Rattle.words.specs.Worked as Worked;

use crate::{decode, encode};
use geo::Point;
use matcher::{Heading, Matched, Matcher};
use pack::Header;
use predict::Outcome;
use refusal::Refusal;

// An answer, and the matcher after it.
#[derive(Clone, Copy)]
pub struct Matching {
    pub answer: Result<matcher::Outcome, Refusal>,
    pub matcher: Matcher,
}

// Whether the words are an engine's, and the causes of number 12 in a call that is given its cache, a header and an arena of `size` bytes.
fn given_ok(ws: &[u32; crate::WORDS], header: Header, size: usize) -> bool
    ensures { result ≡ Opens.given_tested ws.now header size }
{
    if !crate::pages::cache_ok(ws) {
        return false;
    }
    if !header.rules() {
        return false;
    }
    let pending = decode::pending(ws[536], ws[537]);
    if !cache::state::entry_in(pending, header) {
        return false;
    }
    decode::size(ws[399]) <= size / cache::PAGE_BYTES
}

fn refused(m: Matcher, refusal: Refusal) -> Matching
    ensures answer_value { result.answer ≡ Err refusal }
    ensures matcher_value { result.matcher ≡ m }
{
    Matching {
        answer: Err(refusal),
        matcher: m,
    }
}

// Match one fix.
pub fn update(
    ws: &mut [u32; crate::WORDS],
    arena: &[u8],
    m: Matcher,
    header: Header,
    fix: Point,
    heading: Heading,
) -> Matching
    ensures answer_value { result.answer ≡ (Calls.update ws.old arena.now m header fix heading).answer }
    ensures matcher_value { result.matcher ≡ (Calls.update ws.old arena.now m header fix heading).matcher }
    ensures ws_after { ws.new ≡ Calls.left ws.old (Calls.update ws.old arena.now m header fix heading).cache }
{
    if !given_ok(&*ws, header, arena.len()) {
        return refused(m, Refusal::BadState);
    }
    if !matcher::state::matcher_ok(m, header) {
        return refused(m, Refusal::BadState);
    }
    if !pack::grid::is_point(fix.lat, fix.lon) {
        return refused(m, Refusal::OutOfRange);
    }
    if !matcher::state::heading_ok(heading) {
        return refused(m, Refusal::OutOfRange);
    }
    let near = matcher::near::near_of(header, fix);
    let at = crate::look::landings(&*ws, near);
    let u = matcher::gather::searched(m, at, arena, header, fix, heading, near);
    crate::look::use_tiles(ws, at, u.tiles);
    let answer = u.answer;
    let matcher = u.matcher;
    Matching { answer, matcher }
}

// Whether clock and ages stay as they were: after a late 12.
fn is_stale(answer: Result<Outcome, Refusal>) -> bool
    ensures { result ≡ Worked.is_stale answer }
{
    match answer {
        Ok(_) => false,
        Err(refusal) => refusal.number() == 12,
    }
}

// The road from a match on, for up to `horizon_m`.
pub fn predict(
    ws: &mut [u32; crate::WORDS],
    arena: &[u8],
    header: Header,
    start: Matched,
    horizon_m: f32,
    samples: &mut [i16],
    behind: &mut [i16],
) -> Result<Outcome, Refusal>
    ensures value { result ≡ (Calls.predict ws.old arena.now header start horizon_m samples.old behind.old).predicted.answer }
    ensures ws_after { ws.new ≡ Calls.left ws.old (Calls.predict ws.old arena.now header start horizon_m samples.old behind.old).predicted.cache }
    ensures samples_after { samples.new ≡ (Calls.predict ws.old arena.now header start horizon_m samples.old behind.old).samples }
    ensures behind_after { behind.new ≡ (Calls.predict ws.old arena.now header start horizon_m samples.old behind.old).behind }
{
    if !given_ok(&*ws, header, arena.len()) {
        return Err(Refusal::BadState);
    }
    let id = start.tile;
    if !pack::grid::in_grid(header, id.key) {
        return Err(Refusal::OutsideGrid);
    }
    let mut looks = crate::look::lookups(&*ws);
    let answer = predict::road::from_looks(
        &mut looks,
        decode::size(ws[399]),
        arena,
        header,
        start,
        horizon_m,
        samples,
        behind,
    );
    if is_stale(answer) {
        return answer;
    }
    let uses = cache::ages::uses_from(&looks);
    encode::put_uses(uses, ws);
    answer
}
