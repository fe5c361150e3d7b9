// The engine's calls for other languages. The host owns the state, as words, and lends it with the arena to every call. Words that are no engine's are refused with 12,
// and then nothing lent is changed; so it is with every other refusal.
ghost use Rattle.std.specs.Prelude.{◌≡◌};
ghost use Rattle.engine.specs.Fixes as Fixes;
ghost use Rattle.engine.specs.Publish as Publish;
ghost use Rattle.engine.specs.State as State;
ghost use Rattle.terrain.specs.Host as Host;
ghost use Rattle.words.specs.Words as Words;

use engine::{Ahead, Changed, End, Engine, Fix, Header, Matched, Status};
use refusal::Refusal;

// ---- what crosses by value

#[repr(C)]
#[derive(Clone, Copy)]
pub struct FixGiven {
    pub lat: i32,
    pub lon: i32,
    pub at_ms: u64,
}

// How a step ended: the refusal's number, or 0; 0 Idle, 1 Working, 2 NoPack, 3 OffMap, 4 Fetch, 5 refused; and the read that a fetch asks for.
#[repr(C)]
#[derive(Clone, Copy)]
pub struct StepTold {
    pub number: u32,
    pub status: u32,
    pub offset: u64,
    pub len: u64,
}

// A match, all zeros where there is none. Forward is 0 unknown, 1 back, 2 ahead.
#[repr(C)]
#[derive(Clone, Copy)]
pub struct MatchTold {
    pub matched: u32,
    pub row: u16,
    pub col: u16,
    pub crc: u32,
    pub edges: u16,
    pub edge: u16,
    pub segment: u16,
    pub fraction: f32,
    pub forward: u32,
    pub offset_m: f32,
    pub z_dm: i32,
    pub class: u8,
    pub flags: u8,
    pub confidence: u8,
    pub ridden_m: f32,
}

// The road ahead. End is 0 horizon, 1 fork, 2 dead end, 3 map edge, 4 uncertain, 5 memory.
#[repr(C)]
#[derive(Clone, Copy)]
pub struct AheadTold {
    pub number: u32,
    pub generation: u32,
    pub at_ms: u64,
    pub matched: MatchTold,
    pub start_z_dm: i32,
    pub samples: [i16; predict::MAX_SAMPLES],
    pub len: usize,
    pub behind: [i16; predict::BEHIND_SAMPLES],
    pub behind_len: usize,
    pub behind_m: f32,
    pub end: u32,
    pub end_m: f32,
    pub confidence: u8,
    pub on_road: u32,
}

// The header, all zeros where it is not known.
#[repr(C)]
#[derive(Clone, Copy)]
pub struct HeaderTold {
    pub number: u32,
    pub known: u32,
    pub tile: u32,
    pub south: i32,
    pub west: i32,
    pub rows: u16,
    pub cols: u16,
    pub directory: u32,
    pub data: u32,
    pub total: u32,
    pub tiles: u32,
    pub created: u64,
    pub attribution_offset: u32,
    pub attribution_len: u32,
}

#[repr(C)]
#[derive(Clone, Copy)]
pub struct HeadingTold {
    pub number: u32,
    pub known: u32,
    pub degrees: f32,
}

#[repr(C)]
#[derive(Clone, Copy)]
pub struct CountTold {
    pub number: u32,
    pub count: u32,
}

// ---- answers

fn taken(answer: Result<(), Refusal>) -> u32
    ensures { result ≡ Host.taken_number answer }
{
    match answer {
        Ok(()) => 0,
        Err(e) => e.number(),
    }
}

// What a call left, in words, and its number.
fn changed(c: Changed, ws: &mut [u32; words::WORDS]) -> u32
    ensures value { result ≡ (Host.changed c).answer }
    ensures ws_after { ws.new ≡ (Host.changed c).words }
{
    let after = c.engine;
    words::write(after, ws);
    let answer = c.answer;
    taken(answer)
}

fn told(number: u32, status: u32) -> StepTold
    ensures { result ≡ Host.told number status }
{
    StepTold {
        number,
        status,
        offset: 0,
        len: 0,
    }
}

fn status(answer: Result<Status, Refusal>) -> StepTold
    ensures { result ≡ Host.status_told answer }
{
    match answer {
        Ok(Status::Idle) => told(0, 0),
        Ok(Status::Working) => told(0, 1),
        Ok(Status::NoPack) => told(0, 2),
        Ok(Status::OffMap) => told(0, 3),
        Ok(Status::Fetch(offset, len)) => StepTold {
            number: 0,
            status: 4,
            offset,
            len: len as u64,
        },
        Err(e) => told(e.number(), 5),
    }
}

fn counted(answer: Result<u32, Refusal>) -> CountTold
    ensures { result ≡ Host.count_told answer }
{
    match answer {
        Ok(count) => CountTold { number: 0, count },
        Err(e) => CountTold {
            number: e.number(),
            count: 0,
        },
    }
}

fn forward(way: Option<bool>) -> u32
    ensures { result ≡ Words.forward_word way }
{
    match way {
        None => 0,
        Some(ahead) => {
            if ahead {
                return 2;
            }
            1
        }
    }
}

pub(crate) fn matched(m: Matched) -> MatchTold
    ensures { result ≡ Host.matched_told m }
{
    let tile = m.tile;
    let key = tile.key;
    let way = m.forward;
    MatchTold {
        matched: 1,
        row: key.row,
        col: key.col,
        crc: tile.crc,
        edges: tile.edges,
        edge: m.edge,
        segment: m.segment,
        fraction: m.fraction,
        forward: forward(way),
        offset_m: m.offset_m,
        z_dm: m.z_dm,
        class: m.class,
        flags: m.flags,
        confidence: m.confidence,
        ridden_m: m.ridden_m,
    }
}

pub(crate) fn unmatched() -> MatchTold
    ensures { result ≡ Host.unmatched }
{
    MatchTold {
        matched: 0,
        row: 0,
        col: 0,
        crc: 0,
        edges: 0,
        edge: 0,
        segment: 0,
        fraction: 0.0,
        forward: 0,
        offset_m: 0.0,
        z_dm: 0,
        class: 0,
        flags: 0,
        confidence: 0,
        ridden_m: 0.0,
    }
}

fn current(c: Option<Matched>) -> MatchTold
    ensures { result ≡ Host.current_told c }
{
    match c {
        None => unmatched(),
        Some(m) => matched(m),
    }
}

pub(crate) fn end(end: End) -> u32
    ensures { result ≡ Words.end_word end }
{
    match end {
        End::Horizon => 0,
        End::Fork => 1,
        End::DeadEnd => 2,
        End::MapEdge => 3,
        End::Uncertain => 4,
        End::Memory => 5,
    }
}

fn bit(b: bool) -> u32
    ensures { result ≡ Words.bit b }
{
    if b {
        return 1;
    }
    0
}

fn road(number: u32, a: Ahead) -> AheadTold
    ensures { result ≡ Host.road_told number a }
{
    let held = a.matched;
    let why = a.end;
    let matched = current(held);
    let samples = a.samples;
    let behind = a.behind;
    AheadTold {
        number,
        generation: a.generation,
        at_ms: a.at_ms,
        matched,
        start_z_dm: a.start_z_dm,
        samples,
        len: a.len,
        behind,
        behind_len: a.behind_len,
        behind_m: a.behind_m,
        end: end(why),
        end_m: a.end_m,
        confidence: a.confidence,
        on_road: bit(a.on_road()),
    }
}

// The road that stands beside a refusal.
fn no_road() -> Ahead
    ensures { result ≡ Publish.nothing_ahead 0 }
{
    let samples = [0i16; predict::MAX_SAMPLES];
    let behind = [0i16; predict::BEHIND_SAMPLES];
    Ahead {
        generation: 0,
        at_ms: 0,
        matched: None,
        start_z_dm: 0,
        samples,
        len: 0,
        behind,
        behind_len: 0,
        behind_m: 0.0,
        end: End::Uncertain,
        end_m: 0.0,
        confidence: 0,
    }
}

fn ahead(answer: Result<Ahead, Refusal>) -> AheadTold
    ensures { result ≡ Host.ahead_told answer }
{
    match answer {
        Ok(a) => road(0, a),
        Err(e) => road(e.number(), no_road()),
    }
}

fn header_record(number: u32, known: u32, h: Header) -> HeaderTold
    ensures { result ≡ Host.header_record number known h }
{
    HeaderTold {
        number,
        known,
        tile: h.tile,
        south: h.south,
        west: h.west,
        rows: h.rows,
        cols: h.cols,
        directory: h.directory,
        data: h.data,
        total: h.total,
        tiles: h.tiles,
        created: h.created,
        attribution_offset: h.attribution_offset,
        attribution_len: h.attribution_len,
    }
}

// The header that C gets where there is none, or its sector is refused.
pub(crate) fn no_header() -> Header
    ensures { result ≡ State.no_header }
{
    Header {
        tile: 0,
        south: 0,
        west: 0,
        rows: 0,
        cols: 0,
        directory: 0,
        data: 0,
        total: 0,
        tiles: 0,
        created: 0,
        attribution_offset: 0,
        attribution_len: 0,
    }
}

fn header(answer: Result<Option<Header>, Refusal>) -> HeaderTold
    ensures { result ≡ Host.header_told answer }
{
    match answer {
        Ok(None) => header_record(0, 0, no_header()),
        Ok(Some(h)) => header_record(0, 1, h),
        Err(e) => header_record(e.number(), 0, no_header()),
    }
}

// ---- the calls

// A new engine over the arena, which follows the road for `horizon_m`, at most 10 km.
pub fn terrain_new(engine: &mut [u32; words::WORDS], arena: &[u8], horizon_m: f32)
    ensures { engine.new ≡ Host.new arena.now horizon_m }
{
    let e = Engine::new(arena, horizon_m);
    words::write(e, engine);
}

// A fix of 1e-7 degrees, cut toward zero.
pub fn terrain_from_e7(lat_e7: i32, lon_e7: i32, at_ms: u64) -> FixGiven
    ensures { result ≡ Host.given (Fixes.from_e7 lat_e7 lon_e7 at_ms) }
{
    let f = Fix::from_e7(lat_e7, lon_e7, at_ms);
    FixGiven {
        lat: f.lat,
        lon: f.lon,
        at_ms: f.at_ms,
    }
}

// A new fix: 0, 8 or 12.
pub fn terrain_fix(
    engine: &mut [u32; words::WORDS],
    arena: &[u8],
    lat: i32,
    lon: i32,
    at_ms: u64,
) -> u32
    ensures value { result ≡ (Host.fix engine.old arena.now (Host.fix_of lat lon at_ms)).answer }
    ensures engine_after { engine.new ≡ (Host.fix engine.old arena.now (Host.fix_of lat lon at_ms)).words }
{
    let r = words::read(&*engine);
    if !r.accepted {
        return 12;
    }
    let e = r.engine;
    let fix = Fix { lat, lon, at_ms };
    let c = e.fix(arena, fix);
    changed(c, engine)
}

// The fixes stopped: 0 or 12.
pub fn terrain_lost(engine: &mut [u32; words::WORDS], arena: &[u8]) -> u32
    ensures value { result ≡ (Host.lost engine.old arena.now).answer }
    ensures engine_after { engine.new ≡ (Host.lost engine.old arena.now).words }
{
    let r = words::read(&*engine);
    if !r.accepted {
        return 12;
    }
    let e = r.engine;
    let c = e.lost(arena);
    changed(c, engine)
}

// The pack was written anew: 0 or 12.
pub fn terrain_reset(engine: &mut [u32; words::WORDS], arena: &[u8]) -> u32
    ensures value { result ≡ (Host.reset engine.old arena.now).answer }
    ensures engine_after { engine.new ≡ (Host.reset engine.old arena.now).words }
{
    let r = words::read(&*engine);
    if !r.accepted {
        return 12;
    }
    let e = r.engine;
    let c = e.reset(arena);
    changed(c, engine)
}

// One bounded unit of work.
pub fn terrain_step(engine: &mut [u32; words::WORDS], arena: &[u8]) -> StepTold
    ensures value { result ≡ (Host.step engine.old arena.now).answer }
    ensures engine_after { engine.new ≡ (Host.step engine.old arena.now).words }
{
    status(words::steps::step(engine, arena))
}

// The open fetch answered: by its bytes with failure 0, or by failure 1 (missed) or 2 (past the pack's end).
pub fn terrain_deliver(
    engine: &mut [u32; words::WORDS],
    arena: &mut [u8],
    failure: u32,
    bytes: &[u8],
) -> StepTold
    ensures value { result ≡ (Host.deliver engine.old arena.old failure bytes.now).answer }
    ensures engine_after { engine.new ≡ (Host.deliver engine.old arena.old failure bytes.now).words }
    ensures arena_after { arena.new ≡ (Host.deliver engine.old arena.old failure bytes.now).arena }
{
    status(words::deliver::deliver(engine, arena, failure, bytes))
}

// One step over a pack that is lent whole.
pub fn terrain_step_from(
    engine: &mut [u32; words::WORDS],
    arena: &mut [u8],
    pack: &[u8],
) -> StepTold
    ensures value { result ≡ (Host.step_from engine.old arena.old pack.now).answer }
    ensures engine_after { engine.new ≡ (Host.step_from engine.old arena.old pack.now).words }
    ensures arena_after { arena.new ≡ (Host.step_from engine.old arena.old pack.now).arena }
{
    status(words::deliver::step_from(engine, arena, pack))
}

// The road ahead as it was published last; refused, an empty one.
pub fn terrain_ahead(engine: &[u32; words::WORDS], arena: &[u8]) -> AheadTold
    ensures { result ≡ Host.ahead engine.now arena.now }
{
    let r = words::read(engine);
    if !r.accepted {
        return ahead(Err(Refusal::BadState));
    }
    let e = r.engine;
    ahead(e.ahead(arena))
}

// The pack's header, once it was read.
pub fn terrain_header(engine: &[u32; words::WORDS], arena: &[u8]) -> HeaderTold
    ensures { result ≡ Host.header engine.now arena.now }
{
    let r = words::read(engine);
    if !r.accepted {
        return header(Err(Refusal::BadState));
    }
    let e = r.engine;
    header(e.header(arena))
}

// The bearing of travel, if the rider moved lately.
pub fn terrain_heading(engine: &[u32; words::WORDS], arena: &[u8]) -> HeadingTold
    ensures { result ≡ Host.heading engine.now arena.now }
{
    let r = words::read(engine);
    if !r.accepted {
        return HeadingTold {
            number: 12,
            known: 0,
            degrees: 0.0,
        };
    }
    let e = r.engine;
    heading(e.heading(arena))
}

fn heading(answer: Result<Option<f32>, Refusal>) -> HeadingTold
    ensures { result ≡ Host.heading_told answer }
{
    match answer {
        Ok(None) => HeadingTold {
            number: 0,
            known: 0,
            degrees: 0.0,
        },
        Ok(Some(degrees)) => HeadingTold {
            number: 0,
            known: 1,
            degrees,
        },
        Err(e) => HeadingTold {
            number: e.number(),
            known: 0,
            degrees: 0.0,
        },
    }
}

// Tiles read since start.
pub fn terrain_loads(engine: &[u32; words::WORDS], arena: &[u8]) -> CountTold
    ensures { result ≡ Host.loads engine.now arena.now }
{
    let r = words::read(engine);
    if !r.accepted {
        return counted(Err(Refusal::BadState));
    }
    let e = r.engine;
    counted(e.loads(arena))
}

// Steps that did work since start.
pub fn terrain_steps(engine: &[u32; words::WORDS], arena: &[u8]) -> CountTold
    ensures { result ≡ Host.steps engine.now arena.now }
{
    let r = words::read(engine);
    if !r.accepted {
        return counted(Err(Refusal::BadState));
    }
    let e = r.engine;
    counted(e.steps(arena))
}
