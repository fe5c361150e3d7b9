// The cache's lookups in the words themselves: what the lookups of a match land on and what they do to clock and ages, and the numbers that those of a road go by. No cache is made of the
// words.
ghost use Rattle.std.specs.Prelude.{◌≡◌, ◌+◌, ◌/◌, ◌<◌, ◌≤◌, true, slice_index};
ghost use Rattle.cache.specs.Ages as Ages;
ghost use Rattle.cache.specs.Keys as Keys;
ghost use Rattle.cache.specs.Lookups as Lookups;
ghost use Rattle.cache.specs.Runs as Runs;
ghost use Rattle.cache.specs.Uses as Uses;
ghost use Rattle.matcher.specs.Gather as Gather;
ghost use Rattle.words.specs.Put as Put;
ghost use Rattle.words.specs.Words as Words;

use crate::encode;
use cache::Lookup;
use cache::ages::LOOKUPS;
use matcher::{Landed, Landings, NearKey, NearKeys};
use pack::TileKey;

// What a lookup lands on, with the length of the run, which is not checked yet.
fn landed(ws: &[u32; crate::WORDS], key: TileKey) -> Lookup
    ensures { result ≡ Lookups.landed (Words.cache_of ws.now 15) key }
{
    if crate::pages::in_ring(ws, key) {
        return Lookup::Missing;
    }
    match crate::pages::ready_at(ws, key) {
        None => Lookup::Absent,
        Some(i) => {
            if cache::MAX_PAGES <= i {
                return Lookup::Ready(i, 0);
            }
            Lookup::Ready(i, (ws[17 + 3 * i] % 65536) as usize)
        }
    }
}

fn land(ws: &[u32; crate::WORDS], place: NearKey) -> Landed
    ensures { result ≡ Gather.land place.key (Words.cache_of ws.now 15) }
{
    let key = place.key;
    match key {
        None => Landed {
            lookup: Ok(Lookup::Missing),
        },
        Some(k) => {
            let lookup = Ok(landed(ws, k));
            Landed { lookup }
        }
    }
}

// What the lookups of the tiles around a fix land on.
pub(crate) fn landings(ws: &[u32; crate::WORDS], near: NearKeys) -> Landings
    ensures { result ≡ Gather.landings (Words.cache_of ws.now 15) near }
{
    let first = land(ws, near.keys[0]);
    let second = land(ws, near.keys[1]);
    let third = land(ws, near.keys[2]);
    let fourth = land(ws, near.keys[3]);
    let v = [first, second, third, fourth];
    Landings { v }
}

// ---- clock and ages after a match

// A run is the most recently used: the clock goes on by one, and is the run's age.
fn use_run(ws: &mut [u32; crate::WORDS], first: usize)
    requires { Words.accepted ws.old ≡ true }
    ensures { ws.new ≡ Put.uses_in (Uses.used_at (Uses.uses_of (Words.cache_of ws.old 15)) first) ws.old }
{
    let age = std::num::wrapping_add_u32(ws[400], 1);
    encode::put_word(ws, 400, age);
    if cache::MAX_PAGES <= first {
        return;
    }
    encode::put_word(ws, 303 + first, age);
}

// What a lookup landed on, if it is a run, is the most recently used.
fn use_landed(ws: &mut [u32; crate::WORDS], lookup: Result<Lookup, u32>)
    requires { Words.accepted ws.old ≡ true }
    ensures { ws.new ≡ Put.uses_in (Gather.used_by lookup (Uses.uses_of (Words.cache_of ws.old 15))) ws.old }
{
    match lookup {
        Ok(Lookup::Missing) => {}
        Ok(Lookup::Absent) => {}
        Err(_) => {}
        Ok(Lookup::Ready(first, _)) => use_run(ws, first),
    }
}

// Of the first `n` tiles around the fix those that were found become the most recently used, in order: `at` says what their lookups land on.
pub(crate) fn use_tiles(ws: &mut [u32; crate::WORDS], at: Landings, n: usize)
    requires ws_value { Words.accepted ws.old ≡ true }
    requires n_bound { n ≤ 4 }
    ensures { ws.new ≡ Put.uses_in (Gather.uses_after at (Uses.uses_of (Words.cache_of ws.old 15)) n) ws.old }
{
    for i in 0..n {
        let here = at.v[i];
        let lookup = here.lookup;
        use_landed(ws, lookup);
    }
}

// ---- a road's

// One more than the row in a key's word.
fn row_of(word: u32) -> u32
    ensures { result ≡ word / 65536 + 1 }
{
    word / 65536 + 1
}

// Page `i`: its age, and the tile that is ready there.
fn page_in(looks: &mut [u32; LOOKUPS], ws: &[u32; crate::WORDS], i: usize)
    requires { i < 96 }
    ensures { looks.new ≡ Ages.page_in looks.old i (slice_index (Words.pages_of ws.now 15).used i) (Runs.slot_at (Words.pages_of ws.now 15).slots i) }
{
    let at = 15 + 3 * i;
    let mut row = 0;
    let mut col = 0;
    if ws[at] % 4 == 3 {
        row = row_of(ws[at + 1]);
        col = ws[at + 1] % 65536;
    }
    looks[i] = ws[303 + i];
    looks[192 + i] = row;
    looks[288 + i] = col;
    looks[384 + i] = ws[at + 2] % 65536;
}

fn pages_in(looks: &mut [u32; LOOKUPS], ws: &[u32; crate::WORDS])
    ensures { looks.new ≡ Ages.pages_in looks.old (Words.pages_of ws.now 15) 96 }
{
    for i in 0..cache::MAX_PAGES {
        page_in(looks, ws, i);
    }
}

// The ring's place `i`.
fn place_in(looks: &mut [u32; LOOKUPS], ws: &[u32; crate::WORDS], i: usize)
    requires { i < 64 }
    ensures { looks.new ≡ Ages.place_in looks.old i (Keys.key_at (Words.ring_of ws.now 401) i) }
{
    let at = 401 + 2 * i;
    let mut row = 0;
    let mut col = 0;
    if ws[at] == 1 {
        row = row_of(ws[at + 1]);
        col = ws[at + 1] % 65536;
    }
    looks[480 + i] = row;
    looks[544 + i] = col;
}

fn ring_in(looks: &mut [u32; LOOKUPS], ws: &[u32; crate::WORDS])
    ensures { looks.new ≡ Ages.ring_in looks.old (Words.ring_of ws.now 401) 64 }
{
    for i in 0..cache::MISSING {
        place_in(looks, ws, i);
    }
}

// How many pages there are, at most 96.
fn most(count: u32) -> u32
    ensures { result ≡ Ages.most count }
{
    if count < 96 {
        return count;
    }
    96
}

// The numbers that the lookups of a road go by.
pub(crate) fn lookups(ws: &[u32; crate::WORDS]) -> [u32; LOOKUPS]
    ensures { result ≡ Ages.lookups_of (Words.cache_of ws.now 15) }
{
    let mut looks = [0u32; LOOKUPS];
    pages_in(&mut looks, ws);
    ring_in(&mut looks, ws);
    looks[608] = ws[400];
    looks[609] = most(ws[399]);
    looks
}
