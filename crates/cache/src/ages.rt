// The lookups of one call that makes many. What they read and change is taken out of the cache once, as numbers that are lent from lookup to
// lookup, with a mark for each run that was checked: so no lookup copies the state, a call checks each run that it lands on once, and a late
// 12 gives back the cache by itself.
ghost use Rattle.std.specs.Prelude.{◌≡◌, ◌<◌};
ghost use Rattle.cache.specs.Ages as Ages;

use crate::{Aging, Cache, Lookup, Pages, Ring, Slot};
use pack::TileKey;
use refusal::Refusal;

// How many numbers they are; specs/Ages has what stands where. One array of numbers and no record, since an engine's words hold them too.
pub const LOOKUPS: usize = 611;

// A number of those, as a place or a length.
fn wide(n: u32) -> usize
    ensures { result ≡ n }
{
    n as usize
}

// ---- before the first lookup

fn row_of(k: Option<TileKey>) -> u32
    ensures { result ≡ Ages.row_of k }
{
    match k {
        None => 0,
        Some(key) => (key.row as u32) + 1,
    }
}

fn col_of(k: Option<TileKey>) -> u32
    ensures { result ≡ Ages.col_of k }
{
    match k {
        None => 0,
        Some(key) => key.col as u32,
    }
}

// The key of the tile that is ready on a page.
fn ready_key(s: Slot) -> Option<TileKey>
    ensures { result ≡ Ages.ready_key s }
{
    if s.ready { s.key } else { None }
}

// Page `i`: its age, and the tile that is ready there.
fn page_in(looks: &mut [u32; LOOKUPS], i: usize, age: u32, s: Slot)
    requires { i < 96 }
    ensures { looks.new ≡ Ages.page_in looks.old i age s }
{
    let k = ready_key(s);
    looks[i] = age;
    looks[192 + i] = row_of(k);
    looks[288 + i] = col_of(k);
    looks[384 + i] = s.len as u32;
}

#[tactic(auto, using(std::proofs::lemmas::Bool::Decides::nat_tests, crate::proofs::LooksLaws::pages_none, crate::proofs::LooksLaws::pages_more))]
fn pages_in(looks: &mut [u32; LOOKUPS], g: Pages)
    ensures { looks.new ≡ Ages.pages_in looks.old g 96 }
{
    for i in 0..crate::MAX_PAGES {
        let age = g.used[i];
        let s = g.slots[i];
        page_in(looks, i, age, s);
    }
}

#[tactic(auto, using(std::proofs::lemmas::Bool::Decides::nat_tests, crate::proofs::LooksLaws::ring_none, crate::proofs::LooksLaws::ring_more))]
fn ring_in(looks: &mut [u32; LOOKUPS], ring: Ring)
    ensures { looks.new ≡ Ages.ring_in looks.old ring 64 }
{
    for i in 0..crate::MISSING {
        let k = ring.keys[i];
        looks[480 + i] = row_of(k);
        looks[544 + i] = col_of(k);
    }
}

// How many pages there are, at most 96.
fn most(count: usize) -> u32
    ensures { result ≡ Ages.most count }
{
    count.min(crate::MAX_PAGES) as u32
}

// Before the first lookup no run is marked.
pub fn lookups_of(c: Cache) -> [u32; LOOKUPS]
    ensures { result ≡ Ages.lookups_of c }
{
    let mut looks = [0u32; LOOKUPS];
    pages_in(&mut looks, c.pages);
    ring_in(&mut looks, c.missing);
    looks[608] = c.pages.clock;
    looks[609] = most(c.pages.count);
    looks
}

// ---- afterwards

#[tactic(auto, using(std::proofs::lemmas::Bool::Decides::nat_tests, crate::proofs::LooksLaws::ages_none, crate::proofs::LooksLaws::ages_more))]
fn ages_from(looks: &[u32; LOOKUPS]) -> [u32; crate::MAX_PAGES]
    ensures { result ≡ Ages.ages_of looks.now }
{
    let mut used = [0u32; crate::MAX_PAGES];
    for i in 0..crate::MAX_PAGES {
        used[i] = looks[i];
    }
    used
}

// The clock and the ages that lookups left.
pub fn uses_from(looks: &[u32; LOOKUPS]) -> Aging
    ensures { result ≡ Ages.uses_from looks.now }
{
    Aging {
        clock: looks[608],
        used: ages_from(looks),
    }
}

// The cache with the clock and the ages that lookups left.
pub fn aged(c: Cache, looks: &[u32; LOOKUPS]) -> Cache
    ensures { result ≡ Ages.aged c looks.now }
{
    let mut d = c;
    d.pages.used = ages_from(looks);
    d.pages.clock = looks[608];
    d
}

// ---- a lookup

// Whether a key is known missing.
#[tactic(auto, using(std::proofs::lemmas::Bool::Decides::nat_tests, crate::proofs::SearchLaws::lowest_start, crate::proofs::SearchLaws::lowest_miss), unfolding(crate::specs::Ages::in_ring))]
fn in_ring(looks: &[u32; LOOKUPS], key: TileKey) -> bool
    ensures { result ≡ Ages.in_ring looks.now key }
{
    let row = (key.row as u32) + 1;
    let col = key.col as u32;
    for i in 0..crate::MISSING {
        if looks[480 + i] == row && looks[544 + i] == col {
            return true;
        }
    }
    false
}

// The lowest page on which a tile is ready; 96 where there is none.
#[tactic(auto, using(std::proofs::lemmas::Bool::Decides::nat_tests, crate::proofs::SearchLaws::lowest_start, crate::proofs::SearchLaws::lowest_miss), unfolding(crate::specs::Ages::page_of))]
fn page_of(looks: &[u32; LOOKUPS], key: TileKey) -> usize
    ensures { result ≡ Ages.page_of looks.now key }
{
    let row = (key.row as u32) + 1;
    let col = key.col as u32;
    let n = wide(looks[609]);
    for i in 0..n.min(crate::MAX_PAGES) {
        if looks[192 + i] == row && looks[288 + i] == col {
            return i;
        }
    }
    crate::MAX_PAGES
}

// Whether the run from page `i` on passes: one that was checked before in this call is not read again.
fn known(
    looks: &[u32; LOOKUPS],
    arena: &[u8],
    i: usize,
    len: usize,
    key: TileKey,
    size: u32,
) -> bool
    requires { i < 96 }
    ensures { result ≡ Ages.known looks.now arena.now i len key size }
{
    if looks[96 + i] == 1 {
        return crate::look::inside(arena, i, len);
    }
    crate::look::passes(arena, i, len, key, size)
}

// The run from page `i` on as the most recently used, checked, and found last.
fn mark(looks: &mut [u32; LOOKUPS], i: usize)
    requires { i < 96 }
    ensures { looks.new ≡ Ages.marked looks.old i }
{
    let age = looks[608].wrapping_add(1);
    looks[608] = age;
    looks[i] = age;
    looks[96 + i] = 1;
    looks[610] = i as u32;
}

// Whether the run from page `i` on is the key's, and was found before in this call.
fn was_found(looks: &[u32; LOOKUPS], i: usize, key: TileKey) -> bool
    ensures { result ≡ Ages.was_found looks.now i key }
{
    i < crate::MAX_PAGES
        && looks[96 + i] == 1
        && looks[192 + i] == (key.row as u32) + 1
        && looks[288 + i] == key.col as u32
}

// What a lookup that lands on the run from page `i` on answers.
fn hit(
    looks: &mut [u32; LOOKUPS],
    arena: &[u8],
    size: u32,
    key: TileKey,
    i: usize,
) -> Result<Lookup, Refusal>
    requires { i < 96 }
    ensures value { result ≡ (Ages.hit_here looks.old arena.now size key i).answer }
    ensures looks_after { looks.new ≡ (Ages.hit_here looks.old arena.now size key i).looks }
{
    let len = wide(looks[384 + i]);
    if known(&*looks, arena, i, len, key, size) {
        mark(looks, i);
        return Ok(Lookup::Ready(i, len));
    }
    Err(Refusal::BadState)
}

// A lookup: the run that was found last, if it is the key's, which it is at nearly every one of a road's; else the ring first, then the lowest ready run.
#[tactic(auto, using(std::proofs::lemmas::Bool::Decides::nat_tests, crate::proofs::LooksLaws::last_below), unfolding(crate::specs::Ages::look_up))]
pub fn look_up(
    looks: &mut [u32; LOOKUPS],
    arena: &[u8],
    size: u32,
    key: TileKey,
) -> Result<Lookup, Refusal>
    ensures value { result ≡ (Ages.look_up looks.old arena.now size key).answer }
    ensures looks_after { looks.new ≡ (Ages.look_up looks.old arena.now size key).looks }
{
    let last = wide(looks[610]);
    if was_found(&*looks, last, key) {
        return hit(looks, arena, size, key, last);
    }
    if in_ring(&*looks, key) {
        return Ok(Lookup::Missing);
    }
    let i = page_of(&*looks, key);
    if crate::MAX_PAGES <= i {
        return Ok(Lookup::Absent);
    }
    hit(looks, arena, size, key, i)
}

// The bytes of a run that a lookup answered; none where it lies outside the arena.
pub fn run_bytes(arena: &[u8], first: usize, len: usize) -> &[u8]
    ensures { result.now ≡ Ages.bytes_of arena.now first len }
{
    if !crate::look::inside(arena, first, len) {
        return &arena[..0];
    }
    let at = first * crate::PAGE_BYTES;
    &arena[at..at + len]
}
