// The cache's calls for other languages, on the cache in an engine's words. Words that no engine has are refused with 12 and stay as they were.
ghost use Rattle.std.specs.Prelude.{◌≡◌, true};
ghost use Rattle.terrain.specs.Records as Records;
ghost use Rattle.words.specs.Words as Words;
ghost use Rattle.terrain.specs.Parts as Parts;

use crate::records::{TerrainHeader, TerrainKey};
use cache::{Cache, Lookup, Progress};
use refusal::Refusal;

#[repr(C)]
#[derive(Clone, Copy)]
pub struct TerrainCount {
    pub number: u32,
    pub count: usize,
}

// 0 Ready with the run's first page and length, 1 Missing, 2 Absent, 3 refused.
#[repr(C)]
#[derive(Clone, Copy)]
pub struct TerrainLookup {
    pub number: u32,
    pub lookup: u32,
    pub first: usize,
    pub len: usize,
}

// 0 Settled, 1 Read with offset and length, 2 refused.
#[repr(C)]
#[derive(Clone, Copy)]
pub struct TerrainRequest {
    pub number: u32,
    pub request: u32,
    pub offset: u64,
    pub len: usize,
}

// 0 Done, 1 More, 2 Failed with 1, 2 or 4, 3 refused.
#[repr(C)]
#[derive(Clone, Copy)]
pub struct TerrainProgress {
    pub number: u32,
    pub progress: u32,
}

// ---- answers

fn count_out(answer: Result<usize, Refusal>) -> TerrainCount
    ensures { result ≡ Parts.count_out answer }
{
    match answer {
        Ok(count) => TerrainCount { number: 0, count },
        Err(e) => TerrainCount {
            number: e.number(),
            count: 0,
        },
    }
}

fn lookup(number: u32, tag: u32) -> TerrainLookup
    ensures { result ≡ Parts.lookup number tag }
{
    TerrainLookup {
        number,
        lookup: tag,
        first: 0,
        len: 0,
    }
}

fn lookup_out(answer: Result<Lookup, Refusal>) -> TerrainLookup
    ensures { result ≡ Parts.lookup_out answer }
{
    match answer {
        Ok(Lookup::Ready(first, len)) => TerrainLookup {
            number: 0,
            lookup: 0,
            first,
            len,
        },
        Ok(Lookup::Missing) => lookup(0, 1),
        Ok(Lookup::Absent) => lookup(0, 2),
        Err(e) => lookup(e.number(), 3),
    }
}

fn request(number: u32, tag: u32) -> TerrainRequest
    ensures { result ≡ Parts.request number tag }
{
    TerrainRequest {
        number,
        request: tag,
        offset: 0,
        len: 0,
    }
}

fn request_out(answer: Result<Option<(u64, usize)>, Refusal>) -> TerrainRequest
    ensures { result ≡ Parts.request_out answer }
{
    match answer {
        Ok(None) => request(0, 0),
        Ok(Some((offset, len))) => TerrainRequest {
            number: 0,
            request: 1,
            offset,
            len,
        },
        Err(e) => request(e.number(), 2),
    }
}

fn progress(number: u32, tag: u32) -> TerrainProgress
    ensures { result ≡ Parts.progress number tag }
{
    TerrainProgress {
        number,
        progress: tag,
    }
}

fn progress_out(answer: Result<Progress, Refusal>) -> TerrainProgress
    ensures { result ≡ Parts.progress_out answer }
{
    match answer {
        Ok(Progress::Done) => progress(0, 0),
        Ok(Progress::More) => progress(0, 1),
        Ok(Progress::Failed(e)) => progress(e.number(), 2),
        Err(e) => progress(e.number(), 3),
    }
}

fn clearing_out(answer: Result<(), Refusal>) -> u32
    ensures { result ≡ Parts.clearing_out answer }
{
    match answer {
        Ok(()) => 0,
        Err(e) => e.number(),
    }
}

// ---- the words

// Whether the words are those of an engine, and its cache.
#[derive(Drop)]
pub(crate) struct Cached {
    pub accepted: bool,
    pub cache: Cache,
}

pub(crate) fn held(ws: &[u32; words::WORDS]) -> Cached
    ensures accepted_value { result.accepted ≡ Words.accepted ws.now }
    ensures cache_value { result.cache ≡ Parts.cache_of ws.now }
{
    let accepted = words::accepted(ws);
    let cache = words::cache(ws);
    Cached { accepted, cache }
}

// The words of the engine with another cache: the cache's alone are written.
pub(crate) fn leave(c: Cache, ws: &mut [u32; words::WORDS])
    requires { Words.accepted ws.old ≡ true }
    ensures { ws.new ≡ Words.words (Parts.with_cache c (Words.engine_of ws.old)) }
{
    words::put_cache(c, ws);
}

// ---- what is there

pub fn terrain_cache_capacity(engine: &[u32; words::WORDS], arena: &[u8]) -> TerrainCount
    ensures { result ≡ Parts.count_out (Parts.capacity engine.now arena.now) }
{
    let at = held(engine);
    if !at.accepted {
        return count_out(Err(Refusal::BadState));
    }
    count_out(at.cache.capacity(arena))
}

pub fn terrain_cache_loads(engine: &[u32; words::WORDS], arena: &[u8]) -> TerrainCount
    ensures { result ≡ Parts.count_out (Parts.loads engine.now arena.now) }
{
    let at = held(engine);
    if !at.accepted {
        return count_out(Err(Refusal::BadState));
    }
    count_out(at.cache.loads(arena))
}

// Pages that a ready tile takes, one for anything else.
pub fn terrain_cache_pages(
    engine: &[u32; words::WORDS],
    arena: &[u8],
    header: TerrainHeader,
    key: TerrainKey,
) -> TerrainCount
    ensures { result ≡ Parts.count_out (Parts.pages engine.now arena.now (Records.header_of header) (Records.key_of key)) }
{
    let at = held(engine);
    if !at.accepted {
        return count_out(Err(Refusal::BadState));
    }
    let h = crate::records::header_of(header);
    let k = crate::records::key_of(key);
    count_out(at.cache.pages(arena, h, k))
}

pub fn terrain_cache_get(
    engine: &mut [u32; words::WORDS],
    arena: &[u8],
    header: TerrainHeader,
    key: TerrainKey,
) -> TerrainLookup
    ensures value { result ≡ Parts.lookup_out (Parts.get engine.old arena.now (Records.header_of header) (Records.key_of key)).answer }
    ensures engine_after { engine.new ≡ Parts.after engine.old (Parts.get engine.old arena.now (Records.header_of header) (Records.key_of key)).cache }
{
    let at = held(&*engine);
    if !at.accepted {
        return lookup(12, 3);
    }
    let h = crate::records::header_of(header);
    let k = crate::records::key_of(key);
    let got = at.cache.get(arena, h, k);
    leave(got.cache, engine);
    let answer = got.answer;
    lookup_out(answer)
}

// Drop everything, for a pack that changed.
pub fn terrain_cache_clear(engine: &mut [u32; words::WORDS], arena: &[u8]) -> u32
    ensures value { result ≡ Parts.clearing_out (Parts.clear engine.old arena.now).answer }
    ensures engine_after { engine.new ≡ Parts.after engine.old (Parts.clear engine.old arena.now).cache }
{
    let at = held(&*engine);
    if !at.accepted {
        return 12;
    }
    let cleared = at.cache.clear(arena);
    leave(cleared.cache, engine);
    let answer = cleared.answer;
    clearing_out(answer)
}

// ---- bringing tiles in

// The read that the next step towards a tile makes. Nothing changes.
pub fn terrain_cache_fetch(
    engine: &[u32; words::WORDS],
    arena: &[u8],
    header: TerrainHeader,
    key: TerrainKey,
) -> TerrainRequest
    ensures { result ≡ Parts.request_out (Parts.fetch engine.now arena.now (Records.header_of header) (Records.key_of key)) }
{
    let at = held(engine);
    if !at.accepted {
        return request(12, 2);
    }
    let h = crate::records::header_of(header);
    let k = crate::records::key_of(key);
    request_out(cache::load::fetch(at.cache, arena, h, k))
}

// One step towards a tile, with its read answered.
pub fn terrain_cache_load(
    engine: &mut [u32; words::WORDS],
    arena: &mut [u8],
    header: TerrainHeader,
    key: TerrainKey,
    failure: u32,
    bytes: &[u8],
) -> TerrainProgress
    ensures value { result ≡ Parts.progress_out (Parts.load engine.old arena.old (Records.header_of header) (Records.key_of key) failure bytes.now).answer }
    ensures engine_after { engine.new ≡ Parts.after engine.old (Parts.load engine.old arena.old (Records.header_of header) (Records.key_of key) failure bytes.now).cache }
    ensures arena_after { arena.new ≡ (Parts.load engine.old arena.old (Records.header_of header) (Records.key_of key) failure bytes.now).arena }
{
    let at = held(&*engine);
    if !at.accepted {
        return progress(12, 3);
    }
    let h = crate::records::header_of(header);
    let k = crate::records::key_of(key);
    let loaded = cache::load::load(at.cache, arena, h, k, failure, bytes);
    leave(loaded.cache, engine);
    let answer = loaded.answer;
    progress_out(answer)
}

// One step towards a tile over a pack that is lent whole.
pub fn terrain_cache_load_from(
    engine: &mut [u32; words::WORDS],
    arena: &mut [u8],
    header: TerrainHeader,
    key: TerrainKey,
    pack: &[u8],
) -> TerrainProgress
    ensures value { result ≡ Parts.progress_out (Parts.load_from engine.old arena.old (Records.header_of header) (Records.key_of key) pack.now).answer }
    ensures engine_after { engine.new ≡ Parts.after engine.old (Parts.load_from engine.old arena.old (Records.header_of header) (Records.key_of key) pack.now).cache }
    ensures arena_after { arena.new ≡ (Parts.load_from engine.old arena.old (Records.header_of header) (Records.key_of key) pack.now).arena }
{
    let at = held(&*engine);
    if !at.accepted {
        return progress(12, 3);
    }
    let h = crate::records::header_of(header);
    let k = crate::records::key_of(key);
    let loaded = cache::load::load_from(at.cache, arena, h, k, pack);
    leave(loaded.cache, engine);
    let answer = loaded.answer;
    progress_out(answer)
}
