// Bringing tiles in: the Rust's `Cache::load`, with the read in the caller's hands.
//
// The cache reads no card. `fetch` says which read the next step towards a tile makes, and `load` is that step with the read answered;
// `load_from` does both over a pack that is lent whole. `loaded` and `settled` are `load` past number 12's test, for the engine. A tile's load is one read of its directory entry, then chunks of 2,048 bytes, four
// sectors, a few milliseconds of a card's time.
ghost use Rattle.std.specs.Prelude.{◌≡◌, []};
ghost use Rattle.cache.specs.Loads as Loads;
ghost use Rattle.cache.specs.Calls as Calls;

use crate::{Cache, Loaded};
use pack::{Header, TileKey};
use refusal::Refusal;

// The read that the next step towards a tile makes: its offset in the pack and its length in bytes, `None` where the step reads nothing. Nothing
// changes.
pub fn fetch(
    c: Cache,
    arena: &[u8],
    header: Header,
    key: TileKey,
) -> Result<Option<(u64, usize)>, Refusal>
    ensures { result ≡ Calls.fetch c arena.now header key }
{
    if !crate::state::cache_ok(c, header, arena.len()) {
        return Err(Refusal::BadState);
    }
    if !pack::grid::in_grid(header, key) {
        return Err(Refusal::OutsideGrid);
    }
    crate::step::fetched(c, crate::next::next_step(c, key), arena, header, key)
}

// One step towards a tile: the read that `fetch` tells answered by its bytes, with failure 0, or failed by 1 or 2. Where no read is
// made, failure 0 and no bytes. The failure is a number, since any other than these is refused (`NotAsked`).
pub fn load(
    c: Cache,
    arena: &mut [u8],
    header: Header,
    key: TileKey,
    failure: u32,
    bytes: &[u8],
) -> Loaded
    ensures value { result ≡ Loads.told (Calls.load c arena.old header key failure bytes.now) }
    ensures arena_after { arena.new ≡ (Calls.load c arena.old header key failure bytes.now).arena }
{
    if !crate::state::cache_ok(c, header, arena.len()) {
        return crate::step::refused(c, Refusal::BadState);
    }
    loaded(c, arena, header, key, failure, bytes)
}

// `load` past number 12's test, for a caller that has made it.
pub fn loaded(
    c: Cache,
    arena: &mut [u8],
    header: Header,
    key: TileKey,
    failure: u32,
    bytes: &[u8],
) -> Loaded
    ensures value { result ≡ Loads.told (Calls.load_tested c arena.old header key failure bytes.now) }
    ensures arena_after { arena.new ≡ (Calls.load_tested c arena.old header key failure bytes.now).arena }
{
    let n = crate::next::next_step(c, key);
    if !crate::step::takes(n, header, key, failure, bytes.len()) {
        return crate::step::refused(c, Refusal::NotAsked);
    }
    if !pack::grid::in_grid(header, key) {
        return crate::step::refused(c, Refusal::OutsideGrid);
    }
    crate::step::stepped(c, n, arena, header, key, failure, bytes)
}

// `loaded` with failure 0 and no bytes: 11 where a read is made. The arena is left as it was (`settled_leaves`), so it is lent unchanged.
#[tactic(auto, using(std::proofs::lemmas::Bool::Decides::nat_tests, crate::proofs::UnreadLaws::unread_steps))]
pub fn settled(c: Cache, arena: &[u8], header: Header, key: TileKey) -> Loaded
    ensures { result ≡ Loads.told (Calls.load_tested c arena.now header key 0 []) }
{
    if !pack::grid::in_grid(header, key) {
        return crate::step::refused(c, Refusal::OutsideGrid);
    }
    let n = crate::next::next_step(c, key);
    crate::step::unread_step(c, n, arena, key, header.tile)
}

// One step towards a tile over a pack that is lent whole: `fetch`, then `load` with the pack's bytes, or with 2 where they pass its end.
#[tactic(auto, using(std::proofs::lemmas::Bool::Decides::nat_tests, crate::proofs::FromLaws::from_steps), unfolding(crate::specs::Calls::load_from, crate::specs::Calls::fetch))]
pub fn load_from(c: Cache, arena: &mut [u8], header: Header, key: TileKey, pack: &[u8]) -> Loaded
    ensures value { result ≡ Loads.told (Calls.load_from c arena.old header key pack.now) }
    ensures arena_after { arena.new ≡ (Calls.load_from c arena.old header key pack.now).arena }
{
    if !crate::state::cache_ok(c, header, arena.len()) {
        return crate::step::refused(c, Refusal::BadState);
    }
    if !pack::grid::in_grid(header, key) {
        return crate::step::refused(c, Refusal::OutsideGrid);
    }
    let n = crate::next::next_step(c, key);
    crate::step::stepped_from(c, n, arena, header, key, pack)
}
