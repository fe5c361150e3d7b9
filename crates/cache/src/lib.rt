// Recently used tiles in an arena that the caller lends: the Rust's cache.rs.
//
// The arena is cut into pages of `PAGE_BYTES`. A tile takes as many consecutive pages as it needs, its run: most rural tiles fit one page, a
// dense city tile a few, up to `MAX_TILE_BYTES`. The run's first page holds key and length, the rest point back at it. A new tile replaces
// the run of pages whose most recent use is oldest. Tiles without roads, too large or corrupt are remembered as missing, so that they cost
// one directory read.
//
// The state goes in by value and comes back by value; the arena is lent. The cache reads no card: `fetch` says which read the next step
// towards a tile makes, and `load` is that step with the read answered; `load_from` does both over a pack that is lent whole. A load is one
// read of the tile's directory entry, then chunks of 2,048 bytes, one a step, a few milliseconds of a card's time; the tile is checked (CRC
// and structure) when its last chunk arrives.
//
// `runs`, `victim`, `evict` and `begin` have the page runs; `keys`, `look`, `uses` and `ages` the lookups (`uses` those of a match, `ages` those of a call that makes many);
// `state` tests the states that no call leaves (12); `next` and `step` a load's step; `load` the calls that bring tiles in.
// The definitions that the check opens at each goal of this crate, where a function names none of its own.
#![tactic(auto, using(std::proofs::lemmas::Bool::Decides::nat_tests), unfolding(crate::specs::Calls::capacity, crate::specs::Calls::loads, crate::specs::Calls::pages, crate::specs::Calls::get, crate::specs::Calls::clear, crate::specs::Calls::fetch, crate::specs::Calls::load, crate::specs::Calls::load_from, crate::specs::State::fresh, crate::specs::State::cleared, crate::specs::Keys::forgotten, crate::specs::Victim::since, crate::specs::Ages::lookups_of, crate::specs::Ages::aged, crate::specs::Ages::bytes_of, crate::specs::Ages::look_up, crate::specs::Ages::marked, crate::specs::Lookups::got, crate::specs::Lookups::landed, crate::specs::Loads::began, crate::specs::Loads::entry_step, crate::specs::Loads::chunk_step, crate::specs::Loads::put, crate::specs::Loads::moved, crate::specs::Loads::forgot, crate::specs::Loads::further, crate::specs::Loads::dropped, crate::specs::Loads::chunk_len, crate::specs::Lookups::touched, crate::specs::Lookups::pages_of, crate::specs::Lookups::next_step, crate::specs::Evict::evicted_page, crate::specs::Pass::fits, crate::specs::Pass::after, crate::specs::Runs::span, crate::specs::Ages::was_found, crate::specs::Keys::is_ready, crate::specs::State::tile_loads, crate::specs::State::lent_ok, crate::specs::State::cache_ok, crate::specs::State::state_ok, crate::specs::Lookups::lands_on, crate::specs::Lookups::passes))]

pub mod ages;
mod begin;
mod evict;
pub mod keys;
pub mod load;
pub mod look;
pub mod next;
pub mod runs;
pub mod state;
pub mod step;
pub mod uses;
pub mod victim;

ghost use Rattle.cache.specs.Calls as Calls;
ghost use Rattle.cache.specs.State as State;
ghost use Rattle.std.specs.Prelude.{◌≡◌};

use pack::{Header, TileKey};
use refusal::Refusal;

// The arena unit; the cache holds up to `MAX_PAGES` of them.
pub const PAGE_BYTES: usize = 8 * 1024;

// The largest tile the cache holds (the builder's limit too).
pub const MAX_TILE_BYTES: usize = 48 * 1024;

// Pages the largest tile takes.
pub const MAX_SPAN: usize = MAX_TILE_BYTES / PAGE_BYTES;

pub const MAX_PAGES: usize = 96;

// Whether a page is a first one or, as a continuation page, which the tile's first page is. No `Option`: a page without another to point at is a
// first one, which `None` would not say.
#[derive(Clone, Copy, PartialEq, Eq, Debug)]
pub enum Part {
    Head,
    Of(u8),
}

// A page: the first of a tile's pages holds its key and length, the rest point back at it.
#[derive(Clone, Copy, PartialEq, Eq, Debug)]
pub struct Slot {
    pub key: Option<TileKey>,
    pub len: u16,
    pub ready: bool,
    pub part: Part,
}

// The slots, when each was last used, how many of them the arena has, and the clock that uses are told by.
#[derive(Clone, Copy)]
pub struct Pages {
    pub slots: [Slot; MAX_PAGES],
    pub used: [u32; MAX_PAGES],
    pub count: usize,
    pub clock: u32,
}

// Keys that the ring of missing tiles holds.
pub const MISSING: usize = 64;

// The tiles that were found missing last, `None` where no tile has taken the place yet, and the place that the next one takes.
#[derive(Clone, Copy)]
pub struct Ring {
    pub keys: [Option<TileKey>; MISSING],
    pub next: usize,
}

// A load under way: the tile, its run's first page, where it stands in the pack, and how much of it has come.
#[derive(Clone, Copy, PartialEq, Eq, Debug)]
pub struct Loading {
    pub key: TileKey,
    pub slot: usize,
    pub offset: u32,
    pub len: u32,
    pub done: u32,
}

// The one read that an engine waits for. Calls on the cache never open one; a load ends one, and `clear` does.
#[derive(Clone, Copy, PartialEq, Eq, Debug)]
pub enum Pending {
    Nothing,
    Header,
    Entry(TileKey),
    Chunk,
}

#[derive(Clone, Copy)]
pub struct Cache {
    pub pages: Pages,
    pub missing: Ring,
    pub loading: Option<Loading>,
    pub pending: Pending,
    // Tiles read since start, for diagnostics.
    pub loads: u32,
}

// What the cache holds for a tile: the run's first page and its length in bytes; no roads there, or an unusable tile; or not loaded yet.
#[derive(Clone, Copy, PartialEq, Eq, Debug)]
pub enum Lookup {
    Ready(usize, usize),
    Missing,
    Absent,
}

#[derive(Clone, Copy)]
pub struct Got {
    pub answer: Result<Lookup, Refusal>,
    pub cache: Cache,
}

#[derive(Clone, Copy)]
pub struct Cleared {
    pub answer: Result<(), Refusal>,
    pub cache: Cache,
}

impl Cache {
    // An empty cache over as many pages as the arena has, up to `MAX_PAGES`.
    pub fn new(arena: &[u8]) -> Cache
        ensures { result ≡ State.new arena.now }
    {
        state::fresh((arena.len() / PAGE_BYTES).min(MAX_PAGES))
    }

    // Pages in the arena.
    pub fn capacity(self, arena: &[u8]) -> Result<usize, Refusal>
        ensures { result ≡ Calls.capacity self arena.now }
    {
        if !state::lent_ok(self, arena.len()) {
            return Err(Refusal::BadState);
        }
        Ok(self.pages.count)
    }

    // Tiles read since start.
    pub fn loads(self, arena: &[u8]) -> Result<usize, Refusal>
        ensures { result ≡ Calls.loads self arena.now }
    {
        if !state::lent_ok(self, arena.len()) {
            return Err(Refusal::BadState);
        }
        Ok(self.loads as usize)
    }

    // Pages that a ready tile takes, one for anything else.
    pub fn pages(self, arena: &[u8], header: Header, key: TileKey) -> Result<usize, Refusal>
        ensures { result ≡ Calls.pages self arena.now header key }
    {
        if !state::cache_ok(self, header, arena.len()) {
            return Err(Refusal::BadState);
        }
        if !pack::grid::in_grid(header, key) {
            return Err(Refusal::OutsideGrid);
        }
        Ok(look::pages_of(self.pages, key))
    }

    // What the cache holds for a tile. A ready one is checked again, and is then the most recently used.
    pub fn get(self, arena: &[u8], header: Header, key: TileKey) -> Got
        ensures { result ≡ Calls.get self arena.now header key }
    {
        if !state::cache_ok(self, header, arena.len()) {
            return Got {
                answer: Err(Refusal::BadState),
                cache: self,
            };
        }
        if !pack::grid::in_grid(header, key) {
            return Got {
                answer: Err(Refusal::OutsideGrid),
                cache: self,
            };
        }
        look::got(self, arena, header.tile, key)
    }

    // Drop everything, for a pack that changed. Ages, clock, the ring's next place and the count of loads stay.
    pub fn clear(self, arena: &[u8]) -> Cleared
        ensures { result ≡ Calls.clear self arena.now }
    {
        if !state::lent_ok(self, arena.len()) {
            return Cleared {
                answer: Err(Refusal::BadState),
                cache: self,
            };
        }
        Cleared {
            answer: Ok(()),
            cache: state::cleared(self),
        }
    }
}

// How a step of a load ended: the tile is ready or known missing; more steps are to come; the read or the entry failed (`Media`, `PastPack` or
// `Corrupt`), which drops the load.
#[derive(Clone, Copy, PartialEq, Eq, Debug)]
pub enum Progress {
    Done,
    More,
    Failed(Refusal),
}

#[derive(Clone, Copy)]
pub struct Loaded {
    pub answer: Result<Progress, Refusal>,
    pub cache: Cache,
}

// The clock and the age of each page, as the lookups of one match leave them.
#[derive(Clone, Copy)]
pub struct Aging {
    pub clock: u32,
    pub used: [u32; crate::MAX_PAGES],
}
