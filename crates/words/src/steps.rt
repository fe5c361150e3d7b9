// The engine's steps on words. Number 12 is tested on the words themselves; then a step reads what its plan asks for, and writes the words that change. No engine is made of the words.
ghost use Rattle.std.specs.Prelude.{◌≡◌, true, length};
ghost use Rattle.cache.specs.Lookups.{next_step};
ghost use Rattle.engine.specs.Steps as Steps;
ghost use Rattle.engine.specs.Work as Work;
ghost use Rattle.engine.specs.declared.Status.TheVariants as Statuses;
ghost use Rattle.words.specs.declared.steps.Planned.TheVariants as Planneds;
ghost use Rattle.words.specs.Calls as Calls;
ghost use Rattle.words.specs.Opens as Opens;
ghost use Rattle.words.specs.Words as Words;

use crate::{decode, encode};
use cache::Pending;
use cache::next::Next;
use engine::Status;
use engine::plan::Plan;
use pack::TileKey;
use refusal::Refusal;

// What a step is to do: leave a fetch open; work by a plan that opens none.
#[derive(Drop)]
pub(crate) enum Planned {
    Opens(Pending),
    Works(Plan),
}

// Whether the words are those of an engine that number 12 leaves alone, over an arena of `size` bytes.
pub(crate) fn tested(ws: &[u32; crate::WORDS], size: usize) -> bool
    ensures { result ≡ Opens.tested ws.now size }
{
    if !crate::pages::cache_ok(ws) {
        return false;
    }
    let s = decode::summary(ws);
    engine::summary::passes(s, size)
}

// The fetch that the next step towards a tile opens.
fn opens_next(ws: &[u32; crate::WORDS], key: TileKey) -> Pending
    ensures { result ≡ Opens.opens_next (next_step (Words.cache_of ws.now 15) key) key }
{
    match crate::pages::next_step(ws, key) {
        Next::Entry => Pending::Entry(key),
        Next::Chunk(_) => Pending::Chunk,
        Next::Ready(_) => Pending::Nothing,
        Next::Missing => Pending::Nothing,
        Next::NoPages => Pending::Nothing,
    }
}

// The fetch that a plan opens.
fn opens_plan(ws: &[u32; crate::WORDS], plan: Plan) -> Pending
    ensures { result ≡ Opens.opens_plan plan (Words.cache_of ws.now 15) }
{
    match plan {
        Plan::Header => Pending::Header,
        Plan::Need(key) => opens_next(ws, key),
        Plan::Rest => Pending::Nothing,
        Plan::NoPack => Pending::Nothing,
        Plan::Match(_) => Pending::Nothing,
        Plan::Road(_, _) => Pending::Nothing,
        Plan::Roadless => Pending::Nothing,
        Plan::Off(_) => Pending::Nothing,
    }
}

// The fetch that a step leaves open, or what it does where it leaves none.
fn planned_by(ws: &[u32; crate::WORDS], pending: Pending, plan: Plan) -> Planned
    ensures { result ≡ Opens.planned_for (Opens.opens_by pending plan (Words.cache_of ws.now 15)) plan }
{
    match pending {
        Pending::Nothing => {
            let opens = opens_plan(ws, plan);
            match opens {
                Pending::Nothing => Planned::Works(plan),
                Pending::Header => Planned::Opens(opens),
                Pending::Entry(_) => Planned::Opens(opens),
                Pending::Chunk => Planned::Opens(opens),
            }
        }
        Pending::Header => Planned::Opens(pending),
        Pending::Entry(_) => Planned::Opens(pending),
        Pending::Chunk => Planned::Opens(pending),
    }
}

// What a step is to do: 12, if the test refuses the words.
pub(crate) fn plan_step(ws: &[u32; crate::WORDS], size: usize) -> Result<Planned, Refusal>
    ensures { result ≡ Opens.planned ws.now size }
{
    if !crate::pages::cache_ok(ws) {
        return Err(Refusal::BadState);
    }
    let s = decode::summary(ws);
    if !engine::summary::passes(s, size) {
        return Err(Refusal::BadState);
    }
    let plan = engine::summary::plan(s);
    let pending = s.pending;
    Ok(planned_by(ws, pending, plan))
}

// The read that a fetch asks for.
pub(crate) fn request(ws: &[u32; crate::WORDS], pending: Pending) -> Result<Status, Refusal>
    ensures { result ≡ Steps.request_of (Words.engine_of ws.now).shared pending }
{
    let header = decode::header(ws);
    let loading = decode::loading(ws);
    engine::fetch::request(header, loading, pending)
}

// A fetch opened, and its read.
fn opened(ws: &mut [u32; crate::WORDS], pending: Pending) -> Result<Status, Refusal>
    requires { Words.accepted ws.old ≡ true }
    ensures value { result ≡ (Steps.opened (Words.engine_of ws.old) pending).answer }
    ensures ws_after { ws.new ≡ Words.words (Steps.opened (Words.engine_of ws.old) pending).engine }
{
    let answer = request(&*ws, pending);
    encode::put_pending(pending, ws);
    answer
}

// A step with nothing to do is counted, and no other word is written.
fn rested(ws: &mut [u32; crate::WORDS]) -> Status
    requires { Words.accepted ws.old ≡ true }
    ensures value { result ≡ Statuses.Idle }
    ensures ws_after { ws.new ≡ Words.words (Work.ended (Words.engine_of ws.old) (Words.engine_of ws.old).shared.cache (Work.counted (Words.engine_of ws.old).follower) (Ok Statuses.Idle)).engine }
{
    let n = std::num::wrapping_add_u32(ws[1149], 1);
    encode::put_word(ws, 1149, n);
    Status::Idle
}

// A step that opens no fetch.
pub(crate) fn worked(
    ws: &mut [u32; crate::WORDS],
    arena: &[u8],
    plan: Plan,
) -> Result<Status, Refusal>
    requires { Opens.planned ws.old (length arena.now) ≡ Ok (Planneds.Works plan) }
    ensures value { result ≡ (Steps.stepped (Words.engine_of ws.old) arena.now).answer }
    ensures ws_after { ws.new ≡ Words.words (Steps.stepped (Words.engine_of ws.old) arena.now).engine }
{
    match plan {
        Plan::Rest => Ok(rested(ws)),
        Plan::Match(fix) => crate::work::match_step(ws, arena, fix),
        Plan::Road(fix, found) => crate::work::road_step(ws, arena, fix, found),
        Plan::NoPack => Ok(Status::NoPack),
        Plan::Header => Err(Refusal::BadState),
        Plan::Need(key) => crate::deliver::settled(ws, arena, key),
        Plan::Roadless => Ok(crate::work::road_dropped(ws)),
        Plan::Off(fix) => Ok(crate::work::left_map(ws, fix)),
    }
}

// One bounded unit of work.
pub fn step(ws: &mut [u32; crate::WORDS], arena: &[u8]) -> Result<Status, Refusal>
    ensures value { result ≡ (Calls.step ws.old arena.now).answer }
    ensures ws_after { ws.new ≡ (Calls.step ws.old arena.now).words }
{
    match plan_step(&*ws, arena.len())? {
        Planned::Opens(pending) => opened(ws, pending),
        Planned::Works(plan) => worked(ws, arena, plan),
    }
}
