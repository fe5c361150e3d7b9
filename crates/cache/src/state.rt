// The empty state, and the states that no call leaves (`BadState`, 12): the causes are tested before anything else is looked at.
ghost use Rattle.std.specs.Prelude.{◌≡◌};
ghost use Rattle.cache.specs.State as State;

use crate::next::Next;
use crate::{Cache, Loading, Pages, Pending, Ring};
use pack::{Header, TileKey};

// A cache of `count` pages with nothing in it.
pub(crate) fn fresh(count: usize) -> Cache
    ensures { result ≡ State.fresh count }
{
    let pages = Pages {
        slots: [crate::runs::empty_slot(); crate::MAX_PAGES],
        used: [0u32; crate::MAX_PAGES],
        count,
        clock: 0,
    };
    let missing = Ring {
        keys: [None; crate::MISSING],
        next: 0,
    };
    Cache {
        pages,
        missing,
        loading: None,
        pending: Pending::Nothing,
        loads: 0,
    }
}

// Slots, ring, load and the open fetch gone; ages, clock, the ring's next place and the count of loads kept.
pub fn cleared(c: Cache) -> Cache
    ensures { result ≡ State.cleared c }
{
    let used = c.pages.used;
    let pages = Pages {
        slots: [crate::runs::empty_slot(); crate::MAX_PAGES],
        used,
        count: c.pages.count,
        clock: c.pages.clock,
    };
    let missing = Ring {
        keys: [None; crate::MISSING],
        next: c.missing.next,
    };
    Cache {
        pages,
        missing,
        loading: None,
        pending: Pending::Nothing,
        loads: c.loads,
    }
}

// Whether a load has its run, not ready, with the load's key and length, and has not all of it.
fn tile_loads(g: Pages, l: Loading) -> bool
    ensures { result ≡ State.tile_loads g l }
{
    let s = crate::runs::slot_at(g, l.slot);
    crate::runs::is_run(s)
        && crate::keys::holds(s.key, l.key)
        && s.len as u32 == l.len
        && !s.ready
        && l.done < l.len
}

fn load_ok(c: Cache) -> bool
    ensures { result ≡ State.load_ok c }
{
    match c.loading {
        Some(l) => tile_loads(c.pages, l),
        None => true,
    }
}

// Whether the next step towards the key reads its entry.
fn wants_entry(c: Cache, key: TileKey) -> bool
    ensures { result ≡ State.wants_entry c key }
{
    matches!(crate::next::next_step(c, key), Next::Entry)
}

// Whether the next step towards the load's key reads a chunk.
fn wants_chunk(c: Cache) -> bool
    ensures { result ≡ State.wants_chunk c }
{
    match c.loading {
        None => false,
        Some(l) => matches!(crate::next::next_step(c, l.key), Next::Chunk(_)),
    }
}

// Whether the open fetch is one that this state makes.
fn pending_ok(c: Cache) -> bool
    ensures { result ≡ State.pending_ok c }
{
    match c.pending {
        Pending::Nothing | Pending::Header => true,
        Pending::Entry(k) => wants_entry(c, k),
        Pending::Chunk => wants_chunk(c),
    }
}

// The causes of number 12 in the state alone.
pub fn state_ok(c: Cache) -> bool
    ensures { result ≡ State.state_ok c }
{
    crate::runs::runs_ok(c.pages) && c.missing.next < crate::MISSING && load_ok(c) && pending_ok(c)
}

// The causes of number 12 in a call that is given the state and an arena of `size` bytes.
pub(crate) fn lent_ok(c: Cache, size: usize) -> bool
    ensures { result ≡ State.lent_ok c size }
{
    state_ok(c) && c.pages.count <= size / crate::PAGE_BYTES
}

// Whether an open entry is of a key in the header's grid.
pub fn entry_in(pending: Pending, header: Header) -> bool
    ensures { result ≡ State.entry_in pending header }
{
    match pending {
        Pending::Entry(key) => pack::grid::in_grid(header, key),
        Pending::Nothing | Pending::Header | Pending::Chunk => true,
    }
}

// The causes of number 12 in a call that is given the state, a header and an arena of `size` bytes.
pub fn cache_ok(c: Cache, header: Header, size: usize) -> bool
    ensures { result ≡ State.cache_ok c header size }
{
    state_ok(c)
        && header.rules()
        && entry_in(c.pending, header)
        && c.pages.count <= size / crate::PAGE_BYTES
}
