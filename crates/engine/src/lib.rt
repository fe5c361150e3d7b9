// The look-ahead as a bounded state machine: the Rust's engine.rs.
//
// Feed fixes with `fix`; call `step` often. Each step does one thing: it asks for the header or for one chunk of a tile, matches the newest
// fix, or works out the road ahead. A read is a fetch that the host answers with `deliver`; until then a step repeats it. Matching and
// prediction start over when they need a tile that is not cached, so no part of them survives between steps.
//
// `Shared` is what the pack and the card give; `Follower` is what follows one rider: the fixes and the heading that they give, the match, what
// is due, and the road ahead that is published. `fixes`, `publish` and `follow` have the follower, which reads neither pack nor tile; `state`
// and `summary` have number 12; `plan` what a step is to do, and `fetch`, `work` and `deliver` the steps.
#![tactic(auto)]

pub mod deliver;
pub mod fetch;
mod fixes;
mod follow;
pub mod plan;
mod publish;
mod state;
pub mod summary;
pub mod work;

// What the answers hold, so that a host names this crate alone.
ghost use Rattle.engine.specs.Calls as Calls;
ghost use Rattle.engine.specs.Fixes as Fixes;
ghost use Rattle.engine.specs.Publish as Publish;
ghost use Rattle.std.specs.Prelude.{◌≡◌};

use cache::Cache;
pub use geo::Point;
use matcher::Matcher;
pub use matcher::{Heading, Matched};
pub use pack::{Header, TileKey};
pub use predict::{BEHIND_SAMPLES, End, MAX_SAMPLES};
pub use refusal::Refusal;
pub use tile::TileId;

// A GPS position in micro-degrees, at a monotonic time.
#[derive(Clone, Copy)]
pub struct Fix {
    pub lat: i32,
    pub lon: i32,
    pub at_ms: u64,
}

// The places of the last fixes, at most sixteen, the oldest first, and how many they are.
#[derive(Clone, Copy)]
pub struct Places {
    pub v: [Point; 16],
    pub len: usize,
}

// The newest fix, the places before it and at it, the heading that they give, and the time of the fix that gave it.
#[derive(Clone, Copy)]
pub struct Sight {
    pub fix: Option<Fix>,
    pub history: Places,
    pub heading: Heading,
    pub heading_at: u64,
}

// What is to be done: a match, a road, and the tile that is needed first; when the last road was worked out; and how many tiles the attempt
// under way has asked for.
#[derive(Clone, Copy)]
pub struct Due {
    pub matching: bool,
    pub road: bool,
    pub last_road: Option<u64>,
    pub need: Option<TileKey>,
    pub reloads: u16,
}

// The road ahead, as of one fix.
#[derive(Clone, Copy)]
pub struct Ahead {
    // One more with every new result.
    pub generation: u32,
    // The fix this was worked out from.
    pub at_ms: u64,
    pub matched: Option<Matched>,
    // Map elevation at the rider, decimetres.
    pub start_z_dm: i32,
    // Elevation every 20 m from the rider, relative to `start_z_dm`.
    pub samples: [i16; MAX_SAMPLES],
    pub len: usize,
    // Elevation every 20 m back along the matched road, and the last one at `behind_m`.
    pub behind: [i16; BEHIND_SAMPLES],
    pub behind_len: usize,
    pub behind_m: f32,
    pub end: End,
    pub end_m: f32,
    // 0 to 100: the match and every decision along the way.
    pub confidence: u8,
}

#[derive(Clone, Copy)]
pub struct Follower {
    pub sight: Sight,
    pub matcher: Matcher,
    pub due: Due,
    pub ahead: Ahead,
    // Failures since the header or the last finished load.
    pub failures: u8,
    pub horizon_m: f32,
    // Steps that did work, for diagnostics.
    pub steps: u32,
}

impl Fix {
    // From the 1e-7 degree whole numbers that a receiver reports, cut toward zero.
    pub fn from_e7(lat_e7: i32, lon_e7: i32, at_ms: u64) -> Fix
        ensures { result ≡ Fixes.from_e7 lat_e7 lon_e7 at_ms }
    {
        Fix {
            lat: lat_e7 / 10,
            lon: lon_e7 / 10,
            at_ms,
        }
    }
}

impl Ahead {
    // The rider is on a mapped road and its profile is known.
    pub fn on_road(self) -> bool
        ensures { result ≡ Publish.on_road self }
    {
        let matched = self.matched;
        match matched {
            None => false,
            Some(_) => 1 < self.len,
        }
    }
}

// Whether the pack's header has been read. The header counts in phase Ready alone.
#[derive(Clone, Copy)]
pub enum Phase {
    Unread,
    Ready,
    Failed,
}

#[derive(Clone, Copy)]
pub struct Shared {
    pub phase: Phase,
    pub header: Header,
    pub cache: Cache,
}

#[derive(Clone, Copy)]
pub struct Engine {
    pub shared: Shared,
    pub follower: Follower,
}

// How a step ended: nothing to do until the next fix; more work queued; no readable pack; the newest fix is outside the pack's grid; a read
// that the host is asked for, by offset and length.
#[derive(Clone, Copy)]
pub enum Status {
    Idle,
    Working,
    NoPack,
    OffMap,
    Fetch(u64, usize),
}

#[derive(Clone, Copy)]
pub struct Stepped {
    pub answer: Result<Status, Refusal>,
    pub engine: Engine,
}

// A call without an answer of its own.
#[derive(Clone, Copy)]
pub struct Changed {
    pub answer: Result<(), Refusal>,
    pub engine: Engine,
}

impl Engine {
    // An engine that caches tiles in the arena and follows the road for `horizon_m`, at most 10 km.
    pub fn new(arena: &[u8], horizon_m: f32) -> Engine
        ensures { result ≡ Calls.new arena.now horizon_m }
    {
        let cache = Cache::new(arena);
        let shared = state::unread(cache);
        let follower = crate::follow::fresh(horizon_m);
        Engine { shared, follower }
    }

    // A new fix. One at the same place does nothing.
    pub fn fix(self, arena: &[u8], fix: Fix) -> Changed
        ensures { result ≡ Calls.fix self arena.now fix }
    {
        if !state::engine_ok(self, arena.len()) {
            return state::unchanged(self, Refusal::BadState);
        }
        if !pack::grid::is_point(fix.lat, fix.lon) {
            return state::unchanged(self, Refusal::OutOfRange);
        }
        let before = self.follower;
        let after = crate::follow::fixed(before, fix);
        state::followed(self, after)
    }

    // The fixes stopped: forget the road.
    #[tactic(auto, unfolding(crate::specs::Calls::lost))]
    pub fn lost(self, arena: &[u8]) -> Changed
        ensures { result ≡ Calls.lost self arena.now }
    {
        if !state::engine_ok(self, arena.len()) {
            return state::unchanged(self, Refusal::BadState);
        }
        let before = self.follower;
        let after = crate::follow::lost(before);
        state::followed(self, after)
    }

    // Forget the pack and every cached tile, as after the card was written anew.
    #[tactic(auto, unfolding(crate::specs::Calls::reset))]
    pub fn reset(self, arena: &[u8]) -> Changed
        ensures { result ≡ Calls.reset self arena.now }
    {
        if !state::engine_ok(self, arena.len()) {
            return state::unchanged(self, Refusal::BadState);
        }
        state::forgotten(self)
    }

    // The road ahead as it was published last.
    #[tactic(auto, unfolding(crate::specs::Calls::ahead))]
    pub fn ahead(self, arena: &[u8]) -> Result<Ahead, Refusal>
        ensures { result ≡ Calls.ahead self arena.now }
    {
        if !state::engine_ok(self, arena.len()) {
            return Err(Refusal::BadState);
        }
        Ok(self.follower.ahead)
    }

    // The pack's header, once it was read.
    #[tactic(auto, unfolding(crate::specs::Calls::header))]
    pub fn header(self, arena: &[u8]) -> Result<Option<Header>, Refusal>
        ensures { result ≡ Calls.header self arena.now }
    {
        if !state::engine_ok(self, arena.len()) {
            return Err(Refusal::BadState);
        }
        if state::is_ready(self.shared.phase) {
            return Ok(Some(self.shared.header));
        }
        Ok(None)
    }

    // The bearing of travel, if the rider moved lately.
    #[tactic(auto, unfolding(crate::specs::Calls::heading))]
    pub fn heading(self, arena: &[u8]) -> Result<Option<f32>, Refusal>
        ensures { result ≡ Calls.heading self arena.now }
    {
        if !state::engine_ok(self, arena.len()) {
            return Err(Refusal::BadState);
        }
        let f = self.follower;
        let sight = f.sight;
        let heading = sight.heading;
        match heading {
            Heading::Nothing => Ok(None),
            Heading::Degrees(d) => Ok(Some(d)),
        }
    }

    // Tiles read since start.
    #[tactic(auto, unfolding(crate::specs::Calls::loads))]
    pub fn loads(self, arena: &[u8]) -> Result<u32, Refusal>
        ensures { result ≡ Calls.loads self arena.now }
    {
        if !state::engine_ok(self, arena.len()) {
            return Err(Refusal::BadState);
        }
        Ok(self.shared.cache.loads)
    }

    // Steps that did work since start.
    #[tactic(auto, unfolding(crate::specs::Calls::steps))]
    pub fn steps(self, arena: &[u8]) -> Result<u32, Refusal>
        ensures { result ≡ Calls.steps self arena.now }
    {
        if !state::engine_ok(self, arena.len()) {
            return Err(Refusal::BadState);
        }
        Ok(self.follower.steps)
    }

    // One bounded unit of work.
    pub fn step(self, arena: &[u8]) -> Stepped
        ensures { result ≡ Calls.step self arena.now }
    {
        fetch::stepped(self, arena)
    }

    // The open fetch answered: by its bytes with failure 0, or by failure 1 (missed) or 2 (past the pack's end).
    pub fn deliver(self, arena: &mut [u8], failure: u32, bytes: &[u8]) -> Stepped
        ensures value { result ≡ Calls.told (Calls.deliver self arena.old failure bytes.now) }
        ensures arena_after { arena.new ≡ (Calls.deliver self arena.old failure bytes.now).arena }
    {
        deliver::delivered(self, arena, failure, bytes)
    }

    // One step over a pack that is lent whole: `step`, and where it fetches, `deliver` with the pack's bytes, or with 2 where they pass its end.
    #[tactic(auto, unfolding(crate::specs::Calls::step_from))]
    pub fn step_from(self, arena: &mut [u8], pack: &[u8]) -> Stepped
        ensures value { result ≡ Calls.told (Calls.step_from self arena.old pack.now) }
        ensures arena_after { arena.new ≡ (Calls.step_from self arena.old pack.now).arena }
    {
        let s = self.step(&arena[..]);
        let answer = s.answer;
        match answer {
            Ok(Status::Fetch(offset, len)) => answered_from(s.engine, arena, offset, len, pack),
            Ok(Status::Idle) => s,
            Ok(Status::Working) => s,
            Ok(Status::NoPack) => s,
            Ok(Status::OffMap) => s,
            Err(_) => s,
        }
    }
}

// A fetch answered from a pack that is lent whole.
fn answered_from(e: Engine, arena: &mut [u8], offset: u64, len: usize, pack: &[u8]) -> Stepped
    ensures value { result ≡ Calls.told (Calls.answered_from e arena.old offset len pack.now) }
    ensures arena_after { arena.new ≡ (Calls.answered_from e arena.old offset len pack.now).arena }
{
    match pack::read(pack, offset, len) {
        Ok(at) => e.deliver(arena, 0, &pack[at..at + len]),
        Err(_) => e.deliver(arena, 2, &pack[..0]),
    }
}
