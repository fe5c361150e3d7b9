// The answer to a fetch on words, open or about to be opened: what it makes of the engine with that fetch open. The fetch itself is written only where it stays open.
ghost use Rattle.std.specs.Prelude.{◌≡◌, ◌≤◌, true, length};
ghost use Rattle.cache.specs.declared.Pending.TheVariants as Pendings;
ghost use Rattle.engine.specs.Calls as Engines;
ghost use Rattle.engine.specs.declared.Phase.TheVariants as Phases;
ghost use Rattle.engine.specs.Deliver as Deliver;
ghost use Rattle.engine.specs.State as State;
ghost use Rattle.engine.specs.Steps as Steps;
ghost use Rattle.words.specs.Calls as Calls;
ghost use Rattle.words.specs.Came as Came;
ghost use Rattle.words.specs.Opens as Opens;
ghost use Rattle.words.specs.Words as Words;

use crate::steps::Planned;
use crate::{decode, encode, steps};
use cache::{Cache, Loaded, Loading, Pending, Progress};
use engine::{Due, Header, Phase, Status};
use pack::TileKey;
use refusal::Refusal;

// Refused: the fetch stays open.
fn refused(
    ws: &mut [u32; crate::WORDS],
    pending: Pending,
    refusal: Refusal,
) -> Result<Status, Refusal>
    requires { Words.accepted ws.old ≡ true }
    ensures value { result ≡ (State.refused (Opens.opened_as (Words.engine_of ws.old) pending) refusal).answer }
    ensures ws_after { ws.new ≡ Words.words (Opens.opened_as (Words.engine_of ws.old) pending) }
{
    encode::put_pending(pending, ws);
    Err(refusal)
}

// ---- the header

// The pack in another phase, with so many failures; a fetch is open no more.
fn put_phase(ws: &mut [u32; crate::WORDS], phase: Phase, failures: u8)
    requires { Words.accepted ws.old ≡ true }
    ensures { ws.new ≡ Words.words (Came.phased (Words.engine_of ws.old) phase (Words.engine_of ws.old).shared.header failures) }
{
    encode::put_word(ws, 1, encode::phase(phase));
    encode::put_pending(Pending::Nothing, ws);
    encode::put_word(ws, 1147, encode::byte(failures));
}

// The header read.
fn put_read(ws: &mut [u32; crate::WORDS], header: Header)
    requires { Words.accepted ws.old ≡ true }
    ensures { ws.new ≡ Words.words (Came.phased (Words.engine_of ws.old) Phases.Ready header 0) }
{
    encode::put_word(ws, 1, 1);
    encode::put_header(header, ws);
    encode::put_pending(Pending::Nothing, ws);
    encode::put_word(ws, 1147, 0);
}

// No readable header: a missed read is tried again, up to the eighth.
fn header_failed(ws: &mut [u32; crate::WORDS], failure: u32) -> Result<Status, Refusal>
    requires { Words.accepted ws.old ≡ true }
    ensures value { result ≡ (Deliver.header_failed (Opens.opened_as (Words.engine_of ws.old) Pendings.Header) failure).answer }
    ensures ws_after { ws.new ≡ Words.words (Deliver.header_failed (Opens.opened_as (Words.engine_of ws.old) Pendings.Header) failure).engine }
{
    let failures = decode::byte(ws[1147]);
    if failure == 1 {
        if failures < 7 {
            put_phase(ws, Phase::Unread, failures + 1);
            return Ok(Status::Working);
        }
    }
    put_phase(ws, Phase::Failed, failures);
    Ok(Status::NoPack)
}

// The header came.
fn header_came(ws: &mut [u32; crate::WORDS], failure: u32, bytes: &[u8]) -> Result<Status, Refusal>
    requires { Words.accepted ws.old ≡ true }
    ensures value { result ≡ (Deliver.header_came (Opens.opened_as (Words.engine_of ws.old) Pendings.Header) failure bytes.now).answer }
    ensures ws_after { ws.new ≡ Words.words (Deliver.header_came (Opens.opened_as (Words.engine_of ws.old) Pendings.Header) failure bytes.now).engine }
{
    if failure != 0 {
        return header_failed(ws, failure);
    }
    let sector = engine::deliver::sector_of(bytes);
    match Header::parse(&sector) {
        Ok(header) => {
            put_read(ws, header);
            Ok(Status::Working)
        }
        Err(refusal) => header_failed(ws, refusal.number()),
    }
}

// ---- a part of the tile that is needed

// The tile is settled: nothing is needed any more.
fn put_done(ws: &mut [u32; crate::WORDS], c: Cache)
    requires { Words.accepted ws.old ≡ true }
    ensures { ws.new ≡ Words.words (Came.done (Words.engine_of ws.old) c) }
{
    let n = std::num::wrapping_add_u32(ws[1149], 1);
    let due = decode::due(&*ws);
    let last_road = due.last_road;
    let rest = Due {
        matching: due.matching,
        road: due.road,
        last_road,
        need: None,
        reloads: due.reloads,
    };
    encode::put_cache(c, ws);
    encode::put_due(rest, ws);
    encode::put_word(ws, 1147, 0);
    encode::put_word(ws, 1149, n);
}

// A part came, and the load goes on.
fn put_more(ws: &mut [u32; crate::WORDS], c: Cache)
    requires { Words.accepted ws.old ≡ true }
    ensures { ws.new ≡ Words.words (Came.more (Words.engine_of ws.old) c) }
{
    let n = std::num::wrapping_add_u32(ws[1149], 1);
    encode::put_cache(c, ws);
    encode::put_word(ws, 1149, n);
}

// A part failed: the eighth failure fails the pack.
fn put_failed(ws: &mut [u32; crate::WORDS], c: Cache) -> Result<Status, Refusal>
    requires { Words.accepted ws.old ≡ true }
    ensures value { result ≡ (Deliver.load_failed (Words.engine_of ws.old) c).answer }
    ensures ws_after { ws.new ≡ Words.words (Deliver.load_failed (Words.engine_of ws.old) c).engine }
{
    let n = std::num::wrapping_add_u32(ws[1149], 1);
    let failures = decode::byte(ws[1147]);
    encode::put_cache(c, ws);
    encode::put_word(ws, 1149, n);
    if failures < 7 {
        encode::put_word(ws, 1147, encode::byte(failures + 1));
        return Ok(Status::Working);
    }
    encode::put_word(ws, 1147, 8);
    encode::put_word(ws, 1, 2);
    Ok(Status::NoPack)
}

// What a step of the load leaves.
fn left(ws: &mut [u32; crate::WORDS], pending: Pending, l: Loaded) -> Result<Status, Refusal>
    requires { Words.accepted ws.old ≡ true }
    ensures value { result ≡ (Deliver.loaded (Opens.opened_as (Words.engine_of ws.old) pending) l).answer }
    ensures ws_after { ws.new ≡ Words.words (Deliver.loaded (Opens.opened_as (Words.engine_of ws.old) pending) l).engine }
{
    let answer = l.answer;
    let c = l.cache;
    match answer {
        Ok(Progress::Done) => {
            put_done(ws, c);
            Ok(Status::Working)
        }
        Ok(Progress::More) => {
            put_more(ws, c);
            Ok(Status::Working)
        }
        Ok(Progress::Failed(_)) => put_failed(ws, c),
        Err(refusal) => refused(ws, pending, refusal),
    }
}

// The tile that is needed is settled without a read.
pub(crate) fn settled(
    ws: &mut [u32; crate::WORDS],
    arena: &[u8],
    key: TileKey,
) -> Result<Status, Refusal>
    requires { Words.accepted ws.old ≡ true }
    ensures value { result ≡ (Came.settled (Words.engine_of ws.old) arena.now key).answer }
    ensures ws_after { ws.new ≡ Words.words (Came.settled (Words.engine_of ws.old) arena.now key).engine }
{
    let c = decode::cache(&*ws);
    let pending = c.pending;
    let header = decode::header(&*ws);
    let l = cache::load::settled(c, arena, header, key);
    left(ws, pending, l)
}

// The entry or a chunk of the needed tile came.
fn part_came(
    ws: &mut [u32; crate::WORDS],
    arena: &mut [u8],
    pending: Pending,
    failure: u32,
    bytes: &[u8],
) -> Result<Status, Refusal>
    requires { Words.accepted ws.old ≡ true }
    ensures value { result ≡ (Deliver.need_came (Opens.opened_as (Words.engine_of ws.old) pending) arena.old failure bytes.now).answer }
    ensures ws_after { ws.new ≡ Words.words (Deliver.need_came (Opens.opened_as (Words.engine_of ws.old) pending) arena.old failure bytes.now).engine }
    ensures arena_after { arena.new ≡ (Deliver.need_came (Opens.opened_as (Words.engine_of ws.old) pending) arena.old failure bytes.now).arena }
{
    let due = decode::due(&*ws);
    let need = due.need;
    match need {
        None => refused(ws, pending, Refusal::NotAsked),
        Some(key) => {
            let before = decode::cache(&*ws);
            let c = engine::fetch::with_pending(before, pending);
            let header = decode::header(&*ws);
            let l = cache::load::loaded(c, arena, header, key, failure, bytes);
            left(ws, pending, l)
        }
    }
}

// The load that an entry begins, by key, page, offset and length: where nothing else is being loaded and there is room for the tile.
fn begins_at(
    ws: &[u32; crate::WORDS],
    key: TileKey,
    offset: u32,
    len: u32,
) -> Option<(TileKey, usize, u32, u32)>
    ensures { result ≡ Came.begins_at (Words.engine_of ws.now) key offset len }
{
    if cache::MAX_TILE_BYTES < len as usize {
        return None;
    }
    match crate::begin::victim_of(ws, len as u16) {
        None => None,
        Some(slot) => Some((key, slot, offset, len)),
    }
}

fn entry_begins(
    ws: &[u32; crate::WORDS],
    failure: u32,
    bytes: &[u8],
) -> Option<(TileKey, usize, u32, u32)>
    requires { Words.accepted ws.now ≡ true }
    ensures { result ≡ Came.begins (Words.engine_of ws.now) failure bytes.now }
{
    if failure != 0 {
        return None;
    }
    if bytes.len() != 8 {
        return None;
    }
    if ws[530] != 0 {
        return None;
    }
    let need = decode::maybe_key(ws[608], ws[609]);
    match need {
        None => None,
        Some(key) => {
            let entry = cache::step::entry_bytes(bytes);
            match pack::grid::locate_of(decode::header(ws), &entry) {
                Ok(None) => None,
                Err(_) => None,
                Ok(Some((offset, len))) => begins_at(ws, key, offset, len),
            }
        }
    }
}

// The load begun.
fn put_begun(ws: &mut [u32; crate::WORDS], key: TileKey, slot: usize, offset: u32, len: u32)
    requires { (Words.accepted ws.old ≡ true) × (len ≤ 49152) }
    ensures { ws.new ≡ Words.words (Came.begun (Words.engine_of ws.old) key slot offset len) }
{
    let n = std::num::wrapping_add_u32(ws[1149], 1);
    crate::begin::begin(ws, slot, key, len as u16);
    let l = Loading {
        key,
        slot,
        offset,
        len,
        done: 0,
    };
    encode::put_loading(Some(l), ws);
    encode::put_pending(Pending::Nothing, ws);
    encode::put_word(ws, 1149, n);
}

// An entry came.
fn entry_came(
    ws: &mut [u32; crate::WORDS],
    arena: &mut [u8],
    key: TileKey,
    failure: u32,
    bytes: &[u8],
) -> Result<Status, Refusal>
    requires ws_value { Words.accepted ws.old ≡ true }
    requires arena_value { State.engine_ok (Opens.opened_as (Words.engine_of ws.old) (Pendings.Entry key)) (length arena.old) ≡ true }
    ensures value { result ≡ (Deliver.need_came (Opens.opened_as (Words.engine_of ws.old) (Pendings.Entry key)) arena.old failure bytes.now).answer }
    ensures ws_after { ws.new ≡ Words.words (Deliver.need_came (Opens.opened_as (Words.engine_of ws.old) (Pendings.Entry key)) arena.old failure bytes.now).engine }
    ensures arena_after { arena.new ≡ (Deliver.need_came (Opens.opened_as (Words.engine_of ws.old) (Pendings.Entry key)) arena.old failure bytes.now).arena }
{
    match entry_begins(&*ws, failure, bytes) {
        None => part_came(ws, arena, Pending::Entry(key), failure, bytes),
        Some((needed, slot, offset, len)) => {
            put_begun(ws, needed, slot, offset, len);
            Ok(Status::Working)
        }
    }
}

// The load with so many bytes of its tile.
fn put_further(ws: &mut [u32; crate::WORDS], l: Loading, done: u32)
    requires { Words.accepted ws.old ≡ true }
    ensures { ws.new ≡ Words.words (Came.further (Words.engine_of ws.old) l done) }
{
    let n = std::num::wrapping_add_u32(ws[1149], 1);
    let key = l.key;
    let more = Loading {
        key,
        slot: l.slot,
        offset: l.offset,
        len: l.len,
        done,
    };
    encode::put_loading(Some(more), ws);
    encode::put_pending(Pending::Nothing, ws);
    encode::put_word(ws, 1149, n);
}

// Whether a chunk's answer is its bytes, and leaves more to come.
fn is_more(l: Loading, failure: u32, len: usize) -> bool
    ensures { result ≡ Came.is_more l failure len }
{
    if failure != 0 {
        return false;
    }
    let n = cache::step::chunk_len(l);
    if len != n as usize {
        return false;
    }
    l.done + n < l.len
}

// A chunk came. One that leaves more to come changes nothing of the pages.
fn chunk_came(
    ws: &mut [u32; crate::WORDS],
    arena: &mut [u8],
    failure: u32,
    bytes: &[u8],
) -> Result<Status, Refusal>
    requires ws_value { Words.accepted ws.old ≡ true }
    requires arena_value { State.engine_ok (Opens.opened_as (Words.engine_of ws.old) Pendings.Chunk) (length arena.old) ≡ true }
    ensures value { result ≡ (Deliver.need_came (Opens.opened_as (Words.engine_of ws.old) Pendings.Chunk) arena.old failure bytes.now).answer }
    ensures ws_after { ws.new ≡ Words.words (Deliver.need_came (Opens.opened_as (Words.engine_of ws.old) Pendings.Chunk) arena.old failure bytes.now).engine }
    ensures arena_after { arena.new ≡ (Deliver.need_came (Opens.opened_as (Words.engine_of ws.old) Pendings.Chunk) arena.old failure bytes.now).arena }
{
    let loading = decode::loading(&*ws);
    if let Some(l) = loading {
        if is_more(l, failure, bytes.len()) {
            cache::step::put(arena, l.slot, l.done, bytes);
            put_further(ws, l, l.done + cache::step::chunk_len(l));
            return Ok(Status::Working);
        }
    }
    part_came(ws, arena, Pending::Chunk, failure, bytes)
}

// ---- the answer

// A fetch answered: what the engine with that fetch open makes of it.
fn came(
    ws: &mut [u32; crate::WORDS],
    arena: &mut [u8],
    pending: Pending,
    failure: u32,
    bytes: &[u8],
) -> Result<Status, Refusal>
    requires ws_value { Words.accepted ws.old ≡ true }
    requires arena_value { State.engine_ok (Opens.opened_as (Words.engine_of ws.old) pending) (length arena.old) ≡ true }
    ensures value { result ≡ (Deliver.delivered (Opens.opened_as (Words.engine_of ws.old) pending) arena.old failure bytes.now).answer }
    ensures ws_after { ws.new ≡ Words.words (Deliver.delivered (Opens.opened_as (Words.engine_of ws.old) pending) arena.old failure bytes.now).engine }
    ensures arena_after { arena.new ≡ (Deliver.delivered (Opens.opened_as (Words.engine_of ws.old) pending) arena.old failure bytes.now).arena }
{
    match pending {
        Pending::Nothing => refused(ws, pending, Refusal::NotAsked),
        Pending::Header => {
            if engine::deliver::fits_header(failure, bytes.len()) {
                return header_came(ws, failure, bytes);
            }
            refused(ws, pending, Refusal::NotAsked)
        }
        Pending::Entry(key) => entry_came(ws, arena, key, failure, bytes),
        Pending::Chunk => chunk_came(ws, arena, failure, bytes),
    }
}

// The open fetch answered: by its bytes with failure 0, or by failure 1 (missed) or 2 (past the pack's end).
pub fn deliver(
    ws: &mut [u32; crate::WORDS],
    arena: &mut [u8],
    failure: u32,
    bytes: &[u8],
) -> Result<Status, Refusal>
    ensures value { result ≡ (Calls.deliver ws.old arena.old failure bytes.now).answer }
    ensures ws_after { ws.new ≡ (Calls.deliver ws.old arena.old failure bytes.now).words }
    ensures arena_after { arena.new ≡ (Calls.deliver ws.old arena.old failure bytes.now).arena }
{
    if !steps::tested(&*ws, arena.len()) {
        return Err(Refusal::BadState);
    }
    let pending = decode::pending(ws[536], ws[537]);
    came(ws, arena, pending, failure, bytes)
}

// A fetch answered from a pack that is lent whole, or with 2 where it passes the pack's end.
fn answered(
    ws: &mut [u32; crate::WORDS],
    arena: &mut [u8],
    pending: Pending,
    offset: u64,
    len: usize,
    pack: &[u8],
) -> Result<Status, Refusal>
    requires ws_value { Words.accepted ws.old ≡ true }
    requires arena_value { State.engine_ok (Opens.opened_as (Words.engine_of ws.old) pending) (length arena.old) ≡ true }
    ensures value { result ≡ (Engines.answered_from (Opens.opened_as (Words.engine_of ws.old) pending) arena.old offset len pack.now).answer }
    ensures ws_after { ws.new ≡ Words.words (Engines.answered_from (Opens.opened_as (Words.engine_of ws.old) pending) arena.old offset len pack.now).engine }
    ensures arena_after { arena.new ≡ (Engines.answered_from (Opens.opened_as (Words.engine_of ws.old) pending) arena.old offset len pack.now).arena }
{
    match pack::read(pack, offset, len) {
        Ok(at) => came(ws, arena, pending, 0, &pack[at..at + len]),
        Err(_) => came(ws, arena, pending, 2, &pack[..0]),
    }
}

// A step that fetches, over a pack that is lent whole.
#[tactic(auto, using(crate::proofs::CameLaws::open_put))]
fn fetched(
    ws: &mut [u32; crate::WORDS],
    arena: &mut [u8],
    pending: Pending,
    pack: &[u8],
) -> Result<Status, Refusal>
    requires ws_value { Words.accepted ws.old ≡ true }
    requires arena_value { State.engine_ok (Opens.opened_as (Words.engine_of ws.old) pending) (length arena.old) ≡ true }
    ensures value { result ≡ (Engines.step_from_by (Steps.opened (Words.engine_of ws.old) pending).answer (Steps.opened (Words.engine_of ws.old) pending) arena.old pack.now).answer }
    ensures ws_after { ws.new ≡ Words.words (Engines.step_from_by (Steps.opened (Words.engine_of ws.old) pending).answer (Steps.opened (Words.engine_of ws.old) pending) arena.old pack.now).engine }
    ensures arena_after { arena.new ≡ (Engines.step_from_by (Steps.opened (Words.engine_of ws.old) pending).answer (Steps.opened (Words.engine_of ws.old) pending) arena.old pack.now).arena }
{
    let request = steps::request(&*ws, pending);
    if let Ok(Status::Fetch(offset, len)) = request {
        return answered(ws, arena, pending, offset, len, pack);
    }
    encode::put_pending(pending, ws);
    request
}

// One step over a pack that is lent whole.
pub fn step_from(
    ws: &mut [u32; crate::WORDS],
    arena: &mut [u8],
    pack: &[u8],
) -> Result<Status, Refusal>
    ensures value { result ≡ (Calls.step_from ws.old arena.old pack.now).answer }
    ensures ws_after { ws.new ≡ (Calls.step_from ws.old arena.old pack.now).words }
    ensures arena_after { arena.new ≡ (Calls.step_from ws.old arena.old pack.now).arena }
{
    match steps::plan_step(&*ws, arena.len())? {
        Planned::Opens(pending) => fetched(ws, arena, pending, pack),
        Planned::Works(plan) => steps::worked(ws, &arena[..], plan),
    }
}
