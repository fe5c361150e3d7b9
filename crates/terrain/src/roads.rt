// The matcher's and predict's calls for other languages. A matcher is 22 words of its own, laid out as those of an engine; the cache is the one in an engine's words. Words that
// nothing has are refused with 12 and stay as they were.
ghost use Rattle.std.specs.Prelude.{◌≡◌};
ghost use Rattle.matcher.specs.Calls as Calls;
ghost use Rattle.terrain.specs.Records as Records;
ghost use Rattle.words.specs.Words as Words;
ghost use Rattle.terrain.specs.Parts as Parts;
ghost use Rattle.terrain.specs.Roads as Roads;

use crate::host::MatchTold;
use crate::records::{TerrainHeader, TerrainKey, TerrainPoint};
use matcher::{Heading, Matched, Matcher, NearKey, NearKeys};
use predict::Prediction;
use refusal::Refusal;
use tile::TileId;

pub const MATCHER_WORDS: usize = 22;

// The tiles that a search around a fix needs, `len` of them.
#[repr(C)]
#[derive(Clone, Copy)]
pub struct TerrainNear {
    pub number: u32,
    pub len: usize,
    pub keys: [TerrainKey; 4],
}

#[repr(C)]
#[derive(Clone, Copy)]
pub struct TerrainCurrent {
    pub number: u32,
    pub matched: MatchTold,
}

// A heading: 0 none, 1 degrees.
#[repr(C)]
#[derive(Clone, Copy)]
pub struct TerrainHeading {
    pub known: u32,
    pub degrees: f32,
}

// 0 Found with the match, 1 Nothing, 2 Need with the key, 3 refused.
#[repr(C)]
#[derive(Clone, Copy)]
pub struct TerrainUpdated {
    pub number: u32,
    pub outcome: u32,
    pub matched: MatchTold,
    pub key: TerrainKey,
}

// 0 Road with the rest, 1 Need with the key, 2 Rematch, 3 refused.
#[repr(C)]
#[derive(Clone, Copy)]
pub struct TerrainPredicted {
    pub number: u32,
    pub outcome: u32,
    pub key: TerrainKey,
    pub len: usize,
    pub behind: usize,
    pub behind_m: f32,
    pub end: u32,
    pub end_m: f32,
    pub confidence: u8,
}

// ---- a match

// A match as it is given: none where the flag does not say one, or the direction is none of the three.
fn is_given(m: MatchTold) -> bool
    ensures { result ≡ Roads.is_given m }
{
    if m.matched != 1 {
        return false;
    }
    m.forward < 3
}

fn given(m: MatchTold) -> Matched
    ensures { result ≡ Roads.given m }
{
    let key = pack::TileKey {
        row: m.row,
        col: m.col,
    };
    let tile = tile::TileId {
        key,
        crc: m.crc,
        edges: m.edges,
    };
    let forward = words::decode::forward(m.forward);
    Matched {
        tile,
        edge: m.edge,
        segment: m.segment,
        fraction: m.fraction,
        forward,
        offset_m: m.offset_m,
        z_dm: m.z_dm,
        class: m.class,
        flags: m.flags,
        confidence: m.confidence,
        ridden_m: m.ridden_m,
    }
}

// ---- a matcher's words

fn matched_in(ws: &[u32; MATCHER_WORDS]) -> Matched
    ensures { result ≡ Words.matched_by (Words.from ws.now 0) }
{
    let tile = words::decode::id(ws[1], ws[2], ws[3]);
    let forward = words::decode::forward(ws[7]);
    Matched {
        tile,
        edge: words::decode::short(ws[4]),
        segment: words::decode::short(ws[5]),
        fraction: words::decode::float(ws[6]),
        forward,
        offset_m: words::decode::float(ws[8]),
        z_dm: pack::bytes::signed_32(ws[9]),
        class: words::decode::byte(ws[10]),
        flags: words::decode::byte(ws[11]),
        confidence: words::decode::byte(ws[12]),
        ridden_m: words::decode::float(ws[13]),
    }
}

fn current_in(ws: &[u32; MATCHER_WORDS]) -> Option<Matched>
    ensures { result ≡ Words.current_by (Words.from ws.now 0) }
{
    if ws[0] == 1 {
        let found = matched_in(ws);
        return Some(found);
    }
    None
}

fn challenger_in(ws: &[u32; MATCHER_WORDS]) -> Option<(TileId, u16, u8)>
    ensures { result ≡ Words.challenger_by (Words.from ws.now 14) }
{
    if ws[14] == 1 {
        let tile = words::decode::id(ws[15], ws[16], ws[17]);
        return Some((
            tile,
            words::decode::short(ws[18]),
            words::decode::byte(ws[19]),
        ));
    }
    None
}

fn matcher_in(ws: &[u32; MATCHER_WORDS]) -> Matcher
    ensures { result ≡ Words.matcher_of ws.now 0 }
{
    let current = current_in(ws);
    let challenger = challenger_in(ws);
    Matcher {
        current,
        challenger,
        misses: words::decode::byte(ws[20]),
        run_from_m: words::decode::float(ws[21]),
    }
}

fn matcher_out(m: Matcher) -> [u32; MATCHER_WORDS]
    ensures { result ≡ Words.matcher_words m }
{
    let held = m.current;
    let c = words::encode::current(held);
    let other = m.challenger;
    let d = words::encode::challenger(other);
    let misses = words::encode::byte(m.misses);
    let run = words::encode::pattern(m.run_from_m);
    [
        c[0], c[1], c[2], c[3], c[4], c[5], c[6], c[7], c[8], c[9], c[10], c[11], c[12], c[13],
        d[0], d[1], d[2], d[3], d[4], d[5], misses, run,
    ]
}

fn same(a: &[u32], b: &[u32]) -> bool
    ensures { result ≡ Words.same_words a.now b.now }
{
    if a.len() != b.len() {
        return false;
    }
    for i in 0..a.len() {
        if a[i] != b[i] {
            return false;
        }
    }
    true
}

// What was read is written again: words that no matcher has come out as others.
fn is_matcher(ws: &[u32; MATCHER_WORDS]) -> bool
    ensures { result ≡ Roads.is_matcher ws.now }
{
    let again = matcher_out(matcher_in(ws));
    same(&again, ws)
}

fn put_matcher(m: Matcher, out: &mut [u32; MATCHER_WORDS])
    ensures { out.new ≡ Words.matcher_words m }
{
    *out = matcher_out(m);
}

// ---- answers

fn near_key(place: NearKey) -> TerrainKey
    ensures { result ≡ Roads.near_key place }
{
    let key = place.key;
    match key {
        None => TerrainKey { row: 0, col: 0 },
        Some(k) => crate::records::key_out(k),
    }
}

fn near_keys(near: NearKeys) -> [TerrainKey; 4]
    ensures { result ≡ Roads.near_keys near }
{
    let a = near_key(near.keys[0]);
    let b = near_key(near.keys[1]);
    let c = near_key(near.keys[2]);
    let d = near_key(near.keys[3]);
    [a, b, c, d]
}

fn answer_number(answer: Result<(), Refusal>) -> u32
    ensures { result ≡ Roads.answer_number answer }
{
    match answer {
        Ok(()) => 0,
        Err(e) => e.number(),
    }
}

fn current_out(answer: Result<Option<Matched>, Refusal>) -> TerrainCurrent
    ensures { result ≡ Roads.current_out answer }
{
    match answer {
        Ok(None) => TerrainCurrent {
            number: 256,
            matched: crate::host::unmatched(),
        },
        Ok(Some(m)) => TerrainCurrent {
            number: 0,
            matched: crate::host::matched(m),
        },
        Err(e) => TerrainCurrent {
            number: e.number(),
            matched: crate::host::unmatched(),
        },
    }
}

fn no_match(number: u32, outcome: u32, key: TerrainKey) -> TerrainUpdated
    ensures { result ≡ Roads.no_match number outcome key }
{
    TerrainUpdated {
        number,
        outcome,
        matched: crate::host::unmatched(),
        key,
    }
}

fn updated_out(answer: Result<matcher::Outcome, Refusal>) -> TerrainUpdated
    ensures { result ≡ Roads.updated_out answer }
{
    let none = TerrainKey { row: 0, col: 0 };
    match answer {
        Ok(matcher::Outcome::Found(m)) => TerrainUpdated {
            number: 0,
            outcome: 0,
            matched: crate::host::matched(m),
            key: none,
        },
        Ok(matcher::Outcome::Nothing) => no_match(256, 1, none),
        Ok(matcher::Outcome::Need(k)) => no_match(5, 2, crate::records::key_out(k)),
        Err(e) => no_match(e.number(), 3, none),
    }
}

fn no_road(number: u32, outcome: u32, key: TerrainKey) -> TerrainPredicted
    ensures { result ≡ Roads.no_road number outcome key }
{
    TerrainPredicted {
        number,
        outcome,
        key,
        len: 0,
        behind: 0,
        behind_m: 0.0,
        end: 0,
        end_m: 0.0,
        confidence: 0,
    }
}

fn road(p: Prediction) -> TerrainPredicted
    ensures { result ≡ Roads.road p }
{
    let why = p.end;
    TerrainPredicted {
        number: 0,
        outcome: 0,
        key: TerrainKey { row: 0, col: 0 },
        len: p.len,
        behind: p.behind,
        behind_m: p.behind_m,
        end: crate::host::end(why),
        end_m: p.end_m,
        confidence: p.confidence,
    }
}

fn predicted_out(answer: Result<predict::Outcome, Refusal>) -> TerrainPredicted
    ensures { result ≡ Roads.predicted_out answer }
{
    let none = TerrainKey { row: 0, col: 0 };
    match answer {
        Ok(predict::Outcome::Road(p)) => road(p),
        Ok(predict::Outcome::Need(k)) => no_road(5, 1, crate::records::key_out(k)),
        Ok(predict::Outcome::Rematch) => no_road(6, 2, none),
        Err(e) => no_road(e.number(), 3, none),
    }
}

fn heading_of(heading: TerrainHeading) -> Heading
    ensures { result ≡ Roads.heading_of heading }
{
    if heading.known == 1 {
        return Heading::Degrees(heading.degrees);
    }
    Heading::Nothing
}

// ---- the calls

// The tiles that a search around a fix needs: 12 for the header, 8 for the point.
pub fn terrain_nearby(header: TerrainHeader, fix: TerrainPoint) -> TerrainNear
    ensures { result ≡ Roads.near_out (Calls.nearby (Records.header_of header) (Records.point_of fix)) }
{
    let h = crate::records::header_of(header);
    let read = matcher::nearby(h, crate::records::point_of(fix));
    let answer = read.answer;
    let near = read.near;
    TerrainNear {
        number: answer_number(answer),
        len: near.len,
        keys: near_keys(near),
    }
}

// The words of a matcher that has matched nothing.
pub fn terrain_matcher_reset(matcher: &mut [u32; MATCHER_WORDS])
    ensures { matcher.new ≡ Words.matcher_words Calls.reset }
{
    put_matcher(Matcher::reset(), matcher);
}

// The match as it stands.
pub fn terrain_matcher_current(matcher: &[u32; MATCHER_WORDS]) -> TerrainCurrent
    ensures { result ≡ Roads.current_out (Roads.current matcher.now) }
{
    if !is_matcher(matcher) {
        return current_out(Err(Refusal::BadState));
    }
    current_out(matcher_in(matcher).current())
}

// Match one fix.
pub fn terrain_matcher_update(
    matcher: &mut [u32; MATCHER_WORDS],
    engine: &mut [u32; words::WORDS],
    arena: &[u8],
    header: TerrainHeader,
    fix: TerrainPoint,
    heading: TerrainHeading,
) -> TerrainUpdated
    ensures value { result ≡ Roads.updated_out (Roads.update matcher.old engine.old arena.now (Records.header_of header) (Records.point_of fix) heading).answer }
    ensures matcher_after { matcher.new ≡ Roads.matcher_after matcher.old engine.old arena.now (Records.header_of header) (Records.point_of fix) heading }
    ensures engine_after { engine.new ≡ Roads.engine_after matcher.old engine.old arena.now (Records.header_of header) (Records.point_of fix) heading }
{
    let none = TerrainKey { row: 0, col: 0 };
    if !is_matcher(&*matcher) {
        return no_match(12, 3, none);
    }
    if 1 < heading.known {
        return no_match(12, 3, none);
    }
    let h = crate::records::header_of(header);
    let p = crate::records::point_of(fix);
    let m = matcher_in(&*matcher);
    let u = words::calls::update(engine, arena, m, h, p, heading_of(heading));
    put_matcher(u.matcher, matcher);
    let answer = u.answer;
    updated_out(answer)
}

// The road from a match on, for up to `horizon_m`.
pub fn terrain_predict(
    engine: &mut [u32; words::WORDS],
    arena: &[u8],
    header: TerrainHeader,
    start: MatchTold,
    horizon_m: f32,
    samples: &mut [i16; predict::MAX_SAMPLES],
    behind: &mut [i16; predict::BEHIND_SAMPLES],
) -> TerrainPredicted
    ensures value { result ≡ Roads.predicted_out (Roads.predict engine.old arena.now (Records.header_of header) start horizon_m samples.old behind.old).predicted.answer }
    ensures engine_after { engine.new ≡ Roads.predict_after engine.old arena.now (Records.header_of header) start horizon_m samples.old behind.old }
    ensures samples_after { samples.new ≡ (Roads.predict engine.old arena.now (Records.header_of header) start horizon_m samples.old behind.old).samples }
    ensures behind_after { behind.new ≡ (Roads.predict engine.old arena.now (Records.header_of header) start horizon_m samples.old behind.old).behind }
{
    let none = TerrainKey { row: 0, col: 0 };
    if !is_given(start) {
        return no_road(12, 3, none);
    }
    let h = crate::records::header_of(header);
    let found = given(start);
    let answer = words::calls::predict(engine, arena, h, found, horizon_m, samples, behind);
    predicted_out(answer)
}
