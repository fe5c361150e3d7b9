// Lookups: the ring first, then the lowest ready run, which is checked again before it is handed out (the late check of number 12).
ghost use Rattle.std.specs.Prelude.{◌≡◌, ◌<◌, slice_set};
ghost use Rattle.cache.specs.Ages as Ages;
ghost use Rattle.cache.specs.Lookups as Lookups;

use crate::{Cache, Got, Lookup, Pages};
use pack::TileKey;
use refusal::Refusal;

// What a lookup lands on, before the run is checked.
#[derive(Clone, Copy, PartialEq, Eq, Debug)]
pub enum Landing {
    Missing,
    At(usize),
    Nothing,
}

// The ring first, then the lowest ready run.
pub(crate) fn lands_on(c: Cache, key: TileKey) -> Landing
    ensures { result ≡ Lookups.lands_on c key }
{
    if crate::keys::in_ring(c.missing, key) {
        return Landing::Missing;
    }
    match crate::keys::ready_at(c.pages, key) {
        Some(i) => Landing::At(i),
        None => Landing::Nothing,
    }
}

// Pages of the tile's ready run, one where there is none. The ring is not asked, as in the Rust.
pub(crate) fn pages_of(g: Pages, key: TileKey) -> usize
    ensures { result ≡ Lookups.pages_of g key }
{
    match crate::keys::ready_at(g, key) {
        Some(i) => crate::runs::span(crate::runs::slot_at(g, i).len as usize),
        None => 1,
    }
}

#[tactic(auto, unfolding(tile::specs::Parse::parse))]
fn accepts(bytes: &[u8], key: TileKey, size: u32) -> bool
    ensures { result ≡ Lookups.accepts bytes.now key size }
{
    tile::parse(bytes, key, size).is_ok()
}

// Whether the run of `len` bytes from page `first` on lies in the arena.
pub(crate) fn inside(arena: &[u8], first: usize, len: usize) -> bool
    ensures { result ≡ Ages.inside arena.now first len }
{
    if arena.len() / crate::PAGE_BYTES < first {
        return false;
    }
    len <= arena.len() - first * crate::PAGE_BYTES
}

// Whether the run of `len` bytes from page `first` on lies in the arena and passes `Tile::parse` for its key.
pub(crate) fn passes(arena: &[u8], first: usize, len: usize, key: TileKey, size: u32) -> bool
    ensures { result ≡ Lookups.passes arena.now first len key size }
{
    if !inside(arena, first, len) {
        return false;
    }
    let at = first * crate::PAGE_BYTES;
    accepts(&arena[at..at + len], key, size)
}

// The run from page `i` on as the most recently used. The state is written in place.
pub(crate) fn touch(c: Cache, i: usize) -> Cache
    ensures { result ≡ Lookups.touched c i }
{
    let mut d = c;
    let age = d.pages.clock.wrapping_add(1);
    d.pages.clock = age;
    if i < crate::MAX_PAGES {
        d.pages.used[i] = age;
    }
    d
}

// A lookup in a cache whose state has been tested, of a key in the grid.
pub(crate) fn got(c: Cache, arena: &[u8], size: u32, key: TileKey) -> Got
    ensures { result ≡ Lookups.got c arena.now size key }
{
    match lands_on(c, key) {
        Landing::Missing => Got {
            answer: Ok(Lookup::Missing),
            cache: c,
        },
        Landing::Nothing => Got {
            answer: Ok(Lookup::Absent),
            cache: c,
        },
        Landing::At(i) => {
            let len = crate::runs::slot_at(c.pages, i).len as usize;
            if passes(arena, i, len, key, size) {
                return Got {
                    answer: Ok(Lookup::Ready(i, len)),
                    cache: touch(c, i),
                };
            }
            Got {
                answer: Err(Refusal::BadState),
                cache: c,
            }
        }
    }
}

// What a lookup lands on, with the length of the run, which is not checked yet.
pub fn landed(c: Cache, key: TileKey) -> Lookup
    ensures { result ≡ Lookups.landed c key }
{
    match lands_on(c, key) {
        Landing::Missing => Lookup::Missing,
        Landing::Nothing => Lookup::Absent,
        Landing::At(i) => {
            let s = crate::runs::slot_at(c.pages, i);
            Lookup::Ready(i, s.len as usize)
        }
    }
}

// The late check of what a lookup landed on: a run that no longer passes is refused. A lookup that was refused stays so.
// A refusal is a number here and no `Refusal`: the function is public and named in docs/, and takes a lookup that was refused with any number.
pub fn checked(
    landed: Result<Lookup, u32>,
    arena: &[u8],
    size: u32,
    key: TileKey,
) -> Result<Lookup, u32>
    ensures { result ≡ Lookups.checked landed arena.now size key }
{
    match landed? {
        Lookup::Missing => Ok(Lookup::Missing),
        Lookup::Absent => Ok(Lookup::Absent),
        Lookup::Ready(first, len) => {
            if passes(arena, first, len, key, size) {
                return Ok(Lookup::Ready(first, len));
            }
            Err(Refusal::BadState.number())
        }
    }
}
