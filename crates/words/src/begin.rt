// A load that begins, on words: the victim's runs evicted and the new run placed over it, as the cache does it (`begin`, `evict`, `victim`), where the slots and ages stand.
ghost use Rattle.std.specs.Prelude.{◌≡◌, ◌+◌, ◌*◌, ◌<◌, ◌≤◌, true, [], ◌∷◌, length};
ghost use Rattle.cache.specs.Begin as Begin;
ghost use Rattle.cache.specs.Evict as Evict;
ghost use Rattle.cache.specs.Runs as Runs;
ghost use Rattle.cache.specs.Victim as Victim;
ghost use Rattle.words.specs.Came as Came;
ghost use Rattle.words.specs.Put.{put};
ghost use Rattle.words.specs.Words as Words;

use crate::{decode, encode};
use pack::TileKey;

// The first page of the run that page `p` is of.
fn head_of(ws: &[u32; crate::WORDS], p: usize) -> usize
    requires { p < 96 }
    ensures { result ≡ Evict.head_of p (Runs.kind_at (Words.pages_of ws.now 15).slots p) }
{
    let part = ws[15 + 3 * p] / 4;
    if part == 0 {
        return p;
    }
    ((part - 1) % 256) as usize
}

// Whether a run starts at page `p`.
fn is_run(ws: &[u32; crate::WORDS], p: usize) -> bool
    requires { p < 96 }
    ensures { result ≡ Runs.is_run (Runs.kind_at (Words.pages_of ws.now 15).slots p) }
{
    let tag = ws[15 + 3 * p];
    tag < 4 && tag % 2 == 1
}

// How long ago the run that page `p` is of was used; a page without a run counts as oldest.
fn age(ws: &[u32; crate::WORDS], p: usize) -> u32
    requires { p < 96 }
    ensures { result ≡ Victim.age (Words.pages_of ws.now 15) p }
{
    let h = head_of(ws, p);
    if cache::MAX_PAGES <= h {
        return 4294967295;
    }
    if is_run(ws, h) {
        return cache::victim::since(ws[400], ws[303 + h]);
    }
    4294967295
}

// The ages of the pages below the count.
fn ages(ws: &[u32; crate::WORDS], count: usize) -> [u32; cache::MAX_PAGES]
    requires { count ≤ 96 }
    ensures { Victim.Aged (Words.pages_of ws.now 15) result count }
{
    let mut v = [0u32; cache::MAX_PAGES];
    for i in 0..count {
        v[i] = age(ws, i);
    }
    v
}

// The run of pages to replace.
fn victim(ws: &[u32; crate::WORDS], pages: usize) -> Option<usize>
    ensures { result ≡ Victim.victim (Words.pages_of ws.now 15) pages }
{
    let count = decode::size(ws[399]);
    if cache::MAX_PAGES < count {
        return None;
    }
    let v = ages(ws, count);
    cache::victim::oldest(&v, count, pages)
}

// The three words of a page's slot.
fn put_slot(ws: &mut [u32; crate::WORDS], p: usize, tag: u32, key: u32, len: u32)
    requires { (p < 96) × (length ws.old ≡ 1150) }
    ensures ws_after { ws.new ≡ put (15 + 3 * p) (tag ∷ key ∷ len ∷ []) ws.old }
    ensures ws_len { length ws.new ≡ 1150 }
{
    ws[15 + 3 * p] = tag;
    ws[16 + 3 * p] = key;
    ws[17 + 3 * p] = len;
}

// `n` pages from `from` on emptied, and their ages; none past the last.
fn clear_run(ws: &mut [u32; crate::WORDS], from: usize, n: usize)
    requires { Words.accepted ws.old ≡ true }
    ensures { ws.new ≡ Words.words (Came.with_pages (Words.engine_of ws.old) (Evict.clear_run n from (Words.pages_of ws.old 15))) }
{
    let mut at = from;
    let mut left = n;
    while 0 < left {
        if cache::MAX_PAGES <= at {
            return;
        }
        put_slot(ws, at, 0, 0, 0);
        ws[303 + at] = 0;
        at += 1;
        left -= 1;
    }
}

// Pages of the run that starts at page `h`, one where none does, as far as they lie below the count.
fn room_at(ws: &[u32; crate::WORDS], h: usize) -> usize
    ensures { result ≡ Evict.room_of h (Evict.whole_of (Runs.slot_at (Words.pages_of ws.now 15).slots h)) (Words.pages_of ws.now 15).count }
{
    let count = decode::size(ws[399]);
    if count <= h {
        return 0;
    }
    let mut n = 1;
    if h < cache::MAX_PAGES {
        if is_run(ws, h) {
            n = cache::runs::span((ws[17 + 3 * h] % 65536) as usize);
        }
    }
    if n < count - h {
        return n;
    }
    count - h
}

// Every tile that overlaps the `pages` pages from `first` on emptied.
fn evict(ws: &mut [u32; crate::WORDS], first: usize, pages: usize)
    requires { Words.accepted ws.old ≡ true }
    ensures { ws.new ≡ Words.words (Came.with_pages (Words.engine_of ws.old) (Evict.evicted pages first (Words.pages_of ws.old 15))) }
{
    let mut at = first;
    let mut left = pages;
    while 0 < left {
        if cache::MAX_PAGES <= at {
            return;
        }
        let h = head_of(&*ws, at);
        let n = room_at(&*ws, h);
        clear_run(ws, h, n);
        at += 1;
        left -= 1;
    }
}

// `n` pages from `from` on as pieces of the run at `head`; none past the last.
fn piece_run(ws: &mut [u32; crate::WORDS], head: usize, from: usize, n: usize)
    requires { (Words.accepted ws.old ≡ true) × (head < 96) }
    ensures { ws.new ≡ Words.words (Came.with_pages (Words.engine_of ws.old) (Evict.piece_run n from head (Words.pages_of ws.old 15))) }
{
    let tag = (4 * head + 4) as u32;
    let mut at = from;
    let mut left = n;
    while 0 < left {
        if cache::MAX_PAGES <= at {
            return;
        }
        put_slot(ws, at, tag, 0, 0);
        at += 1;
        left -= 1;
    }
}

// A load begins at the victim that is given.
pub(crate) fn begin(ws: &mut [u32; crate::WORDS], at: usize, key: TileKey, len: u16)
    requires { Words.accepted ws.old ≡ true }
    ensures { ws.new ≡ Words.words (Came.with_pages (Words.engine_of ws.old) (Begin.replaced (Words.pages_of ws.old 15) at key len)) }
{
    let pages = cache::runs::span(len as usize);
    evict(ws, at, pages);
    if cache::MAX_PAGES <= at {
        return;
    }
    put_slot(ws, at, 1, encode::of_key(key), len as u32);
    piece_run(ws, at, at + 1, pages - 1);
}

// The run of pages to replace by a tile of `len` bytes.
pub(crate) fn victim_of(ws: &[u32; crate::WORDS], len: u16) -> Option<usize>
    ensures { result ≡ Victim.victim (Words.pages_of ws.now 15) (Runs.span len) }
{
    victim(ws, cache::runs::span(len as usize))
}
