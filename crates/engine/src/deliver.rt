// The open fetch answered.
ghost use Rattle.std.specs.Prelude.{◌≡◌, ◌≤◌, length};
ghost use Rattle.engine.specs.Calls as Calls;
ghost use Rattle.engine.specs.Deliver as Deliver;
ghost use Rattle.engine.specs.Plans as Plans;

use crate::{Due, Engine, Follower, Phase, Shared, Status, Stepped};
use cache::{Loaded, Pending, Progress};
use pack::{Header, TileKey};
use refusal::Refusal;

// ---- the header

// The pack in another phase; a fetch is open no more.
fn with_phase(s: Shared, phase: Phase, header: Header) -> Shared
    ensures { result ≡ Deliver.with_phase s phase header }
{
    let old = s.cache;
    let cache = crate::fetch::with_pending(old, Pending::Nothing);
    Shared {
        phase,
        header,
        cache,
    }
}

fn with_failures(e: Engine, s: Shared, failures: u8, answer: Result<Status, Refusal>) -> Stepped
    ensures { result ≡ Deliver.with_failures e s failures answer }
{
    let mut f = e.follower;
    f.failures = failures;
    let engine = Engine {
        shared: s,
        follower: f,
    };
    Stepped { answer, engine }
}

// No readable header: a missed read is tried again, up to the eighth.
fn header_failed(e: Engine, failure: u32) -> Stepped
    ensures { result ≡ Deliver.header_failed e failure }
{
    let s = e.shared;
    let header = s.header;
    let f = e.follower;
    if failure == 1 {
        if f.failures < 7 {
            let d = with_phase(s, Phase::Unread, header);
            return with_failures(e, d, f.failures + 1, Ok(Status::Working));
        }
    }
    let d = with_phase(s, Phase::Failed, header);
    with_failures(e, d, f.failures, Ok(Status::NoPack))
}

// The first 512 bytes of an answer that has as many: one copy.
fn whole_sector(bytes: &[u8]) -> [u8; 512]
    requires { 512 ≤ length bytes.now }
    ensures { result ≡ Deliver.sector_of bytes.now }
{
    let mut out = [0u8; 512];
    for i in 0..512 {
        out[i] = bytes[i];
    }
    out
}

// The first 512 bytes of an answer, 0 where it is shorter.
fn short_sector(bytes: &[u8]) -> [u8; 512]
    ensures { result ≡ Deliver.sector_of bytes.now }
{
    let mut out = [0u8; 512];
    for i in 0..512 {
        out[i] = pack::bytes::byte_at(bytes, i);
    }
    out
}

// The first 512 bytes of an answer.
pub fn sector_of(bytes: &[u8]) -> [u8; 512]
    ensures { result ≡ Deliver.sector_of bytes.now }
{
    if bytes.len() < 512 {
        return short_sector(bytes);
    }
    whole_sector(bytes)
}

// The header came.
fn header_came(e: Engine, failure: u32, bytes: &[u8]) -> Stepped
    ensures { result ≡ Deliver.header_came e failure bytes.now }
{
    if failure != 0 {
        return header_failed(e, failure);
    }
    let sector = sector_of(bytes);
    match Header::parse(&sector) {
        Ok(header) => {
            let s = e.shared;
            let d = with_phase(s, Phase::Ready, header);
            with_failures(e, d, 0, Ok(Status::Working))
        }
        Err(refusal) => header_failed(e, refusal.number()),
    }
}

// ---- a part of the tile that is needed

// Nothing is needed any more.
fn needless(d: Due) -> Due
    ensures { result ≡ Deliver.needless d }
{
    let last_road = d.last_road;
    Due {
        matching: d.matching,
        road: d.road,
        last_road,
        need: None,
        reloads: d.reloads,
    }
}

// The follower that a step of a load leaves.
fn load_leaves(f: Follower, progress: Progress) -> Follower
    ensures { result ≡ Plans.load_leaves progress f }
{
    let mut d = crate::work::counted(f);
    match progress {
        Progress::Done => {
            let due = d.due;
            let rest = needless(due);
            d.due = rest;
            d.failures = 0;
            d
        }
        Progress::Failed(_) => {
            if d.failures < 7 {
                d.failures = d.failures + 1;
                return d;
            }
            d.failures = 8;
            d
        }
        Progress::More => d,
    }
}

// Whether a step of a load fails the pack: the eighth failure does.
fn fails_pack(progress: Progress, failures: u8) -> bool
    ensures { result ≡ Plans.fails_pack progress failures }
{
    match progress {
        Progress::Failed(_) => 7 <= failures,
        Progress::Done => false,
        Progress::More => false,
    }
}

fn load_phase(phase: Phase, is_failed: bool) -> Phase
    ensures { result ≡ Plans.load_phase phase is_failed }
{
    if is_failed {
        return Phase::Failed;
    }
    phase
}

fn load_tells(is_failed: bool) -> Status
    ensures { result ≡ Plans.load_tells is_failed }
{
    if is_failed {
        return Status::NoPack;
    }
    Status::Working
}

// What a step of the load makes of the engine, which is written in place.
pub(crate) fn loaded(mut e: Engine, l: Loaded) -> Stepped
    ensures { result ≡ Deliver.loaded e l }
{
    let progress = match l.answer {
        Ok(progress) => progress,
        Err(refusal) => return crate::state::refused(e, refusal),
    };
    let before = e.follower;
    let is_failed = fails_pack(progress, before.failures);
    let after = load_leaves(before, progress);
    e.follower = after;
    let s = e.shared;
    let old = s.phase;
    let phase = load_phase(old, is_failed);
    let header = s.header;
    let cache = l.cache;
    let shared = Shared {
        phase,
        header,
        cache,
    };
    e.shared = shared;
    let told = load_tells(is_failed);
    Stepped {
        answer: Ok(told),
        engine: e,
    }
}

// The entry or a chunk of the needed tile came.
fn part_came(e: Engine, arena: &mut [u8], key: TileKey, failure: u32, bytes: &[u8]) -> Stepped
    ensures value { result ≡ Deliver.told (Deliver.part_came e arena.old key failure bytes.now) }
    ensures arena_after { arena.new ≡ (Deliver.part_came e arena.old key failure bytes.now).arena }
{
    let s = e.shared;
    let c = s.cache;
    let header = s.header;
    let l = cache::load::loaded(c, arena, header, key, failure, bytes);
    loaded(e, l)
}

// ---- the delivery

// Whether an answer fits a read of 512 bytes.
pub fn fits_header(failure: u32, len: usize) -> bool
    ensures { result ≡ Deliver.fits_header failure len }
{
    if failure == 0 {
        return len == 512;
    }
    failure <= 2
}

// A part of the tile that is needed; without one there is nothing that it could fit.
fn need_came(e: Engine, arena: &mut [u8], failure: u32, bytes: &[u8]) -> Stepped
    ensures value { result ≡ Deliver.told (Deliver.need_came e arena.old failure bytes.now) }
    ensures arena_after { arena.new ≡ (Deliver.need_came e arena.old failure bytes.now).arena }
{
    let f = e.follower;
    let due = f.due;
    let need = due.need;
    match need {
        None => crate::state::refused(e, Refusal::NotAsked),
        Some(key) => part_came(e, arena, key, failure, bytes),
    }
}

// A delivery: 12 first; 11 where no fetch is open, or the answer doesn't fit it.
pub(crate) fn delivered(e: Engine, arena: &mut [u8], failure: u32, bytes: &[u8]) -> Stepped
    ensures value { result ≡ Deliver.told (Calls.deliver e arena.old failure bytes.now) }
    ensures arena_after { arena.new ≡ (Calls.deliver e arena.old failure bytes.now).arena }
{
    if !crate::state::engine_ok(e, arena.len()) {
        return crate::state::refused(e, Refusal::BadState);
    }
    let s = e.shared;
    let c = s.cache;
    let pending = c.pending;
    match pending {
        Pending::Nothing => crate::state::refused(e, Refusal::NotAsked),
        Pending::Header => {
            if fits_header(failure, bytes.len()) {
                return header_came(e, failure, bytes);
            }
            crate::state::refused(e, Refusal::NotAsked)
        }
        Pending::Entry(_) | Pending::Chunk => need_came(e, arena, failure, bytes),
    }
}
