// An engine before its pack is read, and number 12: the causes that document 01 names, those of the cache's own state and those that `summary` has.
ghost use Rattle.std.specs.Prelude.{◌≡◌};
ghost use Rattle.engine.specs.State as State;

use crate::{Changed, Engine, Follower, Phase, Shared, Status, Stepped};
use cache::Cache;
use pack::Header;
use refusal::Refusal;

pub(crate) fn no_header() -> Header
    ensures { result ≡ State.no_header }
{
    Header {
        tile: 0,
        south: 0,
        west: 0,
        rows: 0,
        cols: 0,
        directory: 0,
        data: 0,
        total: 0,
        tiles: 0,
        created: 0,
        attribution_offset: 0,
        attribution_len: 0,
    }
}

// What is shared before the header is read.
pub(crate) fn unread(c: Cache) -> Shared
    ensures { result ≡ State.unread c }
{
    let header = no_header();
    Shared {
        phase: Phase::Unread,
        header,
        cache: c,
    }
}

pub(crate) fn refused(e: Engine, refusal: Refusal) -> Stepped
    ensures { result ≡ State.refused e refusal }
{
    Stepped {
        answer: Err(refusal),
        engine: e,
    }
}

pub(crate) fn unchanged(e: Engine, refusal: Refusal) -> Changed
    ensures { result ≡ State.unchanged e refusal }
{
    Changed {
        answer: Err(refusal),
        engine: e,
    }
}

// The engine with another follower.
pub(crate) fn followed(e: Engine, f: Follower) -> Changed
    ensures { result ≡ State.followed e f }
{
    let mut d = e;
    d.follower = f;
    Changed {
        answer: Ok(()),
        engine: d,
    }
}

// Another pack: the cache cleared, the header unread, the follower reset.
pub(crate) fn forgotten(e: Engine) -> Changed
    ensures { result ≡ State.forgotten e }
{
    let before = e.shared;
    let old = before.cache;
    let c = cache::state::cleared(old);
    let shared = unread(c);
    let f = e.follower;
    let follower = crate::follow::reset(f);
    let engine = Engine { shared, follower };
    Changed {
        answer: Ok(()),
        engine,
    }
}

// ---- number 12

pub(crate) fn is_ready(phase: Phase) -> bool
    ensures { result ≡ State.is_ready phase }
{
    match phase {
        Phase::Ready => true,
        Phase::Unread | Phase::Failed => false,
    }
}

// Tiles that one match or road may ask for: more than the cache holds means that they evict each other.
pub(crate) fn reload_limit(pages: usize) -> usize
    ensures { result ≡ State.reload_limit pages }
{
    if 96 < pages {
        return 208;
    }
    2 * pages + 16
}

// Every cause, over an arena of `size` bytes.
pub(crate) fn engine_ok(e: Engine, size: usize) -> bool
    ensures { result ≡ State.engine_ok e size }
{
    let s = e.shared;
    let c = s.cache;
    if !cache::state::state_ok(c) {
        return false;
    }
    let held = crate::summary::summary_of(e);
    crate::summary::passes(held, size)
}
