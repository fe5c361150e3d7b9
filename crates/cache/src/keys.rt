// Keys, the ring of missing tiles, and the lowest ready run of a key.
ghost use Rattle.std.specs.Prelude.{◌≡◌};
ghost use Rattle.cache.specs.Keys as Keys;

use crate::{Pages, Ring, Slot};
use pack::TileKey;

pub fn same_key(a: TileKey, b: TileKey) -> bool
    ensures { result ≡ Keys.same_key a b }
{
    a == b
}

pub fn holds(m: Option<TileKey>, key: TileKey) -> bool
    ensures { result ≡ Keys.holds m key }
{
    m == Some(key)
}

// Whether a key is known missing. By an index, as `ready_at`: `any` and `position` over the places take 1.3 times as long.
#[tactic(auto, using(std::proofs::lemmas::Bool::Decides::nat_tests, crate::proofs::SearchLaws::lowest_start, crate::proofs::SearchLaws::lowest_miss), unfolding(crate::specs::Keys::in_ring))]
pub(crate) fn in_ring(ring: Ring, key: TileKey) -> bool
    ensures { result ≡ Keys.in_ring ring key }
{
    for i in 0..crate::MISSING {
        if holds(ring.keys[i], key) {
            return true;
        }
    }
    false
}

// A key into the ring, in the place of the oldest once it is full.
pub(crate) fn forget(ring: Ring, key: TileKey) -> Ring
    ensures { result ≡ Keys.forgotten ring key }
{
    let mut d = ring;
    let at = d.next;
    if at < crate::MISSING {
        d.keys[at] = Some(key);
    }
    d.next = (at % crate::MISSING + 1) % crate::MISSING;
    d
}

// Whether a page starts the run of a tile that is ready.
pub(crate) fn is_ready(s: Slot, key: TileKey) -> bool
    ensures { result ≡ Keys.is_ready key s }
{
    s.ready && holds(s.key, key)
}

// The lowest page below the count that starts a ready run of the key.
#[tactic(auto, using(std::proofs::lemmas::Bool::Decides::nat_tests, crate::proofs::SearchLaws::lowest_start, crate::proofs::SearchLaws::lowest_miss), unfolding(crate::specs::Keys::ready_at))]
pub(crate) fn ready_at(g: Pages, key: TileKey) -> Option<usize>
    ensures { result ≡ Keys.ready_at g key }
{
    for i in 0..g.count.min(crate::MAX_PAGES) {
        if is_ready(g.slots[i], key) {
            return Some(i);
        }
    }
    None
}
