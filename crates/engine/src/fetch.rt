// A step: the fetch that it opens, or the work that needs none. Opening a fetch changes nothing but that it is open.
ghost use Rattle.std.specs.Prelude.{◌≡◌};
ghost use Rattle.engine.specs.Calls as Calls;
ghost use Rattle.engine.specs.Steps as Steps;

use crate::plan::Plan;
use crate::{Engine, Shared, Status, Stepped};
use cache::{Cache, Loading, Pending, Progress};
use pack::{Header, TileKey};
use refusal::Refusal;

pub fn with_pending(c: Cache, pending: Pending) -> Cache
    ensures { result ≡ Steps.with_pending c pending }
{
    let pages = c.pages;
    let missing = c.missing;
    let loading = c.loading;
    Cache {
        pages,
        missing,
        loading,
        pending,
        loads: c.loads,
    }
}

// The read of a chunk.
fn chunk_request(loading: Option<Loading>) -> Result<Status, Refusal>
    ensures { result ≡ Steps.chunk_request loading }
{
    match loading {
        None => Err(Refusal::BadState),
        Some(l) => Ok(Status::Fetch(
            (l.offset as u64) + (l.done as u64),
            cache::step::chunk_len(l) as usize,
        )),
    }
}

// The read that an open fetch asks for, worked out from it, the header and the load.
pub fn request(
    header: Header,
    loading: Option<Loading>,
    pending: Pending,
) -> Result<Status, Refusal>
    ensures { result ≡ Steps.request_by header loading pending }
{
    match pending {
        Pending::Nothing => Err(Refusal::BadState),
        Pending::Header => Ok(Status::Fetch(0, 512)),
        Pending::Entry(key) => Ok(Status::Fetch(pack::grid::entry_of(header, key), 8)),
        Pending::Chunk => chunk_request(loading),
    }
}

fn request_of(s: Shared, pending: Pending) -> Result<Status, Refusal>
    ensures { result ≡ Steps.request_of s pending }
{
    let header = s.header;
    let c = s.cache;
    let loading = c.loading;
    request(header, loading, pending)
}

// The engine with that fetch open, and its read.
fn opened(e: Engine, pending: Pending) -> Stepped
    ensures { result ≡ Steps.opened e pending }
{
    let mut s = e.shared;
    let answer = request_of(s, pending);
    let old = s.cache;
    let cache = with_pending(old, pending);
    s.cache = cache;
    let mut d = e;
    d.shared = s;
    Stepped { answer, engine: d }
}

// Whether a tile can't be settled without a read: the cache answers 11.
fn awaits_read(answer: Result<Progress, Refusal>) -> bool
    ensures { result ≡ Steps.awaits_read answer }
{
    match answer {
        Ok(Progress::Done) => false,
        Ok(Progress::More) => false,
        Ok(Progress::Failed(_)) => false,
        Err(refusal) => refusal.number() == 11,
    }
}

// The fetch that the read towards a tile opens: a chunk where the load under way is of that tile, else its entry.
fn pending_for(loading: Option<Loading>, key: TileKey) -> Pending
    ensures { result ≡ Steps.pending_for loading key }
{
    match loading {
        None => Pending::Entry(key),
        Some(l) => {
            if cache::keys::same_key(l.key, key) {
                return Pending::Chunk;
            }
            Pending::Entry(key)
        }
    }
}

// One step towards the tile that is needed.
fn need_step(e: Engine, arena: &[u8], key: TileKey) -> Stepped
    ensures { result ≡ Steps.need_step e arena.now key }
{
    let s = e.shared;
    let c = s.cache;
    let header = s.header;
    let l = cache::load::settled(c, arena, header, key);
    let answer = l.answer;
    if awaits_read(answer) {
        let loading = c.loading;
        let pending = pending_for(loading, key);
        return opened(e, pending);
    }
    crate::deliver::loaded(e, l)
}

// A step: 12 first; while a fetch is open it is repeated, and nothing changes; else what its plan says. The state is tested and taken apart here, so that it is handed on once.
pub(crate) fn stepped(mut e: Engine, arena: &[u8]) -> Stepped
    ensures { result ≡ Calls.step e arena.now }
{
    if !crate::state::engine_ok(e, arena.len()) {
        return crate::state::refused(e, Refusal::BadState);
    }
    let s = e.shared;
    let c = s.cache;
    let pending = c.pending;
    let Pending::Nothing = pending else {
        let answer = request_of(s, pending);
        return Stepped { answer, engine: e };
    };
    let phase = s.phase;
    let header = s.header;
    let f = e.follower;
    let due = f.due;
    let sight = f.sight;
    let fix = sight.fix;
    let m = f.matcher;
    let current = m.current;
    let plan = crate::plan::of_state(phase, header, fix, due, current);
    match plan {
        Plan::NoPack => Stepped {
            answer: Ok(Status::NoPack),
            engine: e,
        },
        Plan::Header => opened(e, Pending::Header),
        Plan::Need(key) => need_step(e, arena, key),
        Plan::Match(at) => crate::work::match_step(e, arena, at),
        Plan::Road(at, found) => crate::work::road_step(e, arena, at, found),
        Plan::Roadless => crate::work::road_dropped(e),
        Plan::Off(at) => crate::work::left_map(e, at),
        Plan::Rest => {
            let steps = std::num::wrapping_add_u32(e.follower.steps, 1);
            e.follower.steps = steps;
            Stepped {
                answer: Ok(Status::Idle),
                engine: e,
            }
        }
    }
}
