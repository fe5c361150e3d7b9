// The cache in the words themselves: the causes of number 12 in its state, and what the next step towards a tile is. A page is read where it stands, so that no state is made of the
// words.
ghost use Rattle.std.specs.Prelude.{◌≡◌, ◌+◌, ◌<◌, ◌≤◌, ◌&&◌, ◌||◌, ◌==◌};
ghost use Rattle.cache.specs.Keys as Keys;
ghost use Rattle.cache.specs.Lookups as Lookups;
ghost use Rattle.cache.specs.Pass as Pass;
ghost use Rattle.cache.specs.Runs as Runs;
ghost use Rattle.cache.specs.State as State;
ghost use Rattle.words.specs.Held as Held;
ghost use Rattle.words.specs.Opens as Opens;
ghost use Rattle.words.specs.Words as Words;

use crate::{decode, encode};
use cache::next::Next;
use cache::{Loading, Pending};
use pack::TileKey;

// Whether a page's three words are those of a slot, and the page is as it must be behind the last run, from `head` on and before `end`: a page with a key is a first page, whose run ends by
// the count; one without is empty or a later page of the last run.
fn page_ok(
    ws: &[u32; crate::WORDS],
    at: usize,
    p: usize,
    head: usize,
    end: usize,
    count: usize,
) -> bool
    requires { (at + 3 ≤ 1150) × ((p < 96) × ((head < 96) × (count ≤ 96))) }
    ensures { result ≡ (Held.slot_held ws.now at && Pass.fits (Words.slot_by (Words.from ws.now at)) p (record { head = head; end = end }) count) }
{
    let tag = ws[at];
    let len = ws[at + 2];
    if 65535 < len {
        return false;
    }
    if tag % 2 == 1 {
        return tag < 4 && end <= p && p + cache::runs::span(len as usize) <= count;
    }
    if ws[at + 1] != 0 {
        return false;
    }
    if tag < 4 {
        return end <= p;
    }
    p < end && tag / 4 == (head + 1) as u32
}

// Whether the words of the pages are those of slots, the count is at most `MAX_PAGES` and the runs are well-formed, in one pass.
pub(crate) fn pages_ok(ws: &[u32; crate::WORDS]) -> bool
    ensures { result ≡ (Held.slots_held ws.now 96 && Runs.runs_ok (Words.pages_of ws.now 15)) }
{
    let count = decode::size(ws[399]);
    if cache::MAX_PAGES < count {
        return false;
    }
    let mut head = 0;
    let mut end = 0;
    for p in 0..cache::MAX_PAGES {
        let at = 15 + 3 * p;
        if !page_ok(ws, at, p, head, end, count) {
            return false;
        }
        if ws[at] % 2 == 1 {
            head = p;
            end = p + cache::runs::span((ws[at + 2] % 65536) as usize);
        }
    }
    true
}

// Whether a load has its run, not ready, with the load's key and length, and has not all of it.
fn tile_loads(ws: &[u32; crate::WORDS], l: Loading) -> bool
    ensures { result ≡ State.tile_loads (Words.pages_of ws.now 15) l }
{
    if cache::MAX_PAGES <= l.slot {
        return false;
    }
    let at = 15 + 3 * l.slot;
    if ws[at] != 1 {
        return false;
    }
    let key = l.key;
    if ws[at + 1] != encode::of_key(key) {
        return false;
    }
    if ws[at + 2] % 65536 != l.len {
        return false;
    }
    l.done < l.len
}

fn load_ok(ws: &[u32; crate::WORDS]) -> bool
    ensures { result ≡ State.load_ok (Words.cache_of ws.now 15) }
{
    let loading = decode::loading(ws);
    match loading {
        None => true,
        Some(l) => tile_loads(ws, l),
    }
}

// One is enough; both are always known, so that a loop has no way out but its end.
fn either(a: bool, b: bool) -> bool
    ensures { result ≡ (a || b) }
{
    if a {
        return true;
    }
    b
}

// Whether the place with this tag and this key's word holds the key of the other word.
fn holds(tag: u32, held: u32, word: u32) -> bool
    ensures { result ≡ (tag == 1 && held == word) }
{
    tag == 1 && held == word
}

// Whether one of the ring's places holds the key.
pub(crate) fn in_ring(ws: &[u32; crate::WORDS], key: TileKey) -> bool
    ensures { result ≡ Keys.in_ring (Words.ring_of ws.now 401) key }
{
    let word = encode::of_key(key);
    let mut found = false;
    for i in 0..cache::MISSING {
        found = either(found, holds(ws[401 + 2 * i], ws[402 + 2 * i], word));
    }
    found
}

// The lowest page below the count that starts a ready run of the key.
pub(crate) fn ready_at(ws: &[u32; crate::WORDS], key: TileKey) -> Option<usize>
    ensures { result ≡ Keys.ready_at (Words.pages_of ws.now 15) key }
{
    let word = encode::of_key(key);
    let count = decode::size(ws[399]);
    for i in 0..count {
        if cache::MAX_PAGES <= i {
            return None;
        }
        if ws[15 + 3 * i] % 4 == 3 && ws[16 + 3 * i] == word {
            return Some(i);
        }
    }
    None
}

// What the next step towards a tile is.
pub(crate) fn next_step(ws: &[u32; crate::WORDS], key: TileKey) -> Next
    ensures { result ≡ Lookups.next_step (Words.cache_of ws.now 15) key }
{
    if in_ring(ws, key) {
        return Next::Missing;
    }
    match ready_at(ws, key) {
        Some(i) => Next::Ready(i),
        None => {
            if ws[399] == 0 {
                return Next::NoPages;
            }
            let loading = decode::loading(ws);
            cache::next::next_read(loading, key)
        }
    }
}

// Whether the next step towards the key reads its entry.
fn wants_entry(ws: &[u32; crate::WORDS], key: TileKey) -> bool
    ensures { result ≡ State.wants_entry (Words.cache_of ws.now 15) key }
{
    match next_step(ws, key) {
        Next::Entry => true,
        Next::Chunk(_) => false,
        Next::Ready(_) => false,
        Next::Missing => false,
        Next::NoPages => false,
    }
}

// Whether the next step towards the load's key reads a chunk.
fn wants_chunk(ws: &[u32; crate::WORDS]) -> bool
    ensures { result ≡ State.wants_chunk (Words.cache_of ws.now 15) }
{
    let loading = decode::loading(ws);
    match loading {
        None => false,
        Some(l) => match next_step(ws, l.key) {
            Next::Chunk(_) => true,
            Next::Entry => false,
            Next::Ready(_) => false,
            Next::Missing => false,
            Next::NoPages => false,
        },
    }
}

fn pending_ok(ws: &[u32; crate::WORDS]) -> bool
    ensures { result ≡ State.pending_ok (Words.cache_of ws.now 15) }
{
    let pending = decode::pending(ws[536], ws[537]);
    match pending {
        Pending::Nothing => true,
        Pending::Header => true,
        Pending::Entry(key) => wants_entry(ws, key),
        Pending::Chunk => wants_chunk(ws),
    }
}

// Whether the words are an engine's, and the causes of number 12 in the cache's own state.
pub(crate) fn cache_ok(ws: &[u32; crate::WORDS]) -> bool
    ensures { result ≡ Opens.cache_tested ws.now }
{
    if !crate::kept::beside(ws) {
        return false;
    }
    if !pages_ok(ws) {
        return false;
    }
    if cache::MISSING <= decode::size(ws[529]) {
        return false;
    }
    if !load_ok(ws) {
        return false;
    }
    pending_ok(ws)
}
