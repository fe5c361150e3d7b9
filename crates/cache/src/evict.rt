// Emptying the runs that touch a range of pages, and writing a new run.
ghost use Rattle.std.specs.Prelude.{◌≡◌, ◌+◌};
ghost use Rattle.cache.specs.Runs.{kind_of};
ghost use Rattle.cache.specs.Evict as Evict;

use crate::{Pages, Part, Slot};
use pack::TileKey;

// The first page of the run that page `p`, with the slot `s`, is of.
pub(crate) fn head_of(s: Slot, p: usize) -> usize
    ensures { result ≡ Evict.head_of p (kind_of s) }
{
    match s.part {
        Part::Of(h) => h as usize,
        Part::Head => p,
    }
}

// Pages of the run that starts at a page; one where none does.
fn whole_of(s: Slot) -> usize
    ensures { result ≡ Evict.whole_of s }
{
    if crate::runs::is_run(s) {
        return crate::runs::span(s.len as usize);
    }
    1
}

// Of `n` pages from `h` on those below `count`.
fn room_of(h: usize, n: usize, count: usize) -> usize
    ensures { result ≡ Evict.room_of h n count }
{
    n.min(count.saturating_sub(h))
}

// `n` pages from `from` on emptied, and their ages; none past the last.
#[tactic(auto, using(std::proofs::lemmas::Bool::Decides::nat_tests, crate::proofs::Turns::clear_none, crate::proofs::Turns::clear_past))]
fn clear_run(g: Pages, from: usize, n: usize) -> Pages
    ensures { result ≡ Evict.clear_run n from g }
{
    let mut d = g;
    let empty = crate::runs::empty_slot();
    for at in from..from.saturating_add(n).min(crate::MAX_PAGES) {
        d.slots[at] = empty;
        d.used[at] = 0;
    }
    d
}

// The whole run that page `p` is of emptied, as far as it lies below the count.
fn evict_page(g: Pages, p: usize) -> Pages
    ensures { result ≡ Evict.evicted_page g p }
{
    let s = crate::runs::slot_at(g, p);
    let h = head_of(s, p);
    let n = whole_of(crate::runs::slot_at(g, h));
    clear_run(g, h, room_of(h, n, g.count))
}

// Every tile that overlaps the `pages` pages from `first` on emptied.
#[tactic(auto, using(std::proofs::lemmas::Bool::Decides::nat_tests, crate::proofs::Turns::full_page, crate::proofs::Turns::evict_turn, crate::proofs::Turns::evict_none, crate::proofs::Turns::evict_past))]
pub(crate) fn evict(g: Pages, first: usize, pages: usize) -> Pages
    ensures { result ≡ Evict.evicted pages first g }
{
    let mut d = g;
    for at in first..first.saturating_add(pages).min(crate::MAX_PAGES) {
        d = evict_page(d, at);
    }
    d
}

// `n` pages from `from` on as pieces of the run at `head`; none past the last.
#[tactic(auto, using(std::proofs::lemmas::Bool::Decides::nat_tests, crate::proofs::Turns::piece_none, crate::proofs::Turns::piece_past))]
fn piece_run(g: Pages, head: u8, from: usize, n: usize) -> Pages
    ensures { result ≡ Evict.piece_run n from head g }
{
    let mut d = g;
    let piece = Slot {
        key: None,
        len: 0,
        ready: false,
        part: Part::Of(head),
    };
    for at in from..from.saturating_add(n).min(crate::MAX_PAGES) {
        d.slots[at] = piece;
    }
    d
}

// A run for a tile of `len` bytes written from `slot` on, not ready yet.
#[tactic(auto, using(std::proofs::lemmas::Bool::Decides::nat_tests, crate::proofs::RunLaws::span_pos, crate::proofs::Turns::place_past))]
pub(crate) fn place(g: Pages, slot: usize, key: TileKey, len: u16) -> Pages
    ensures { result ≡ Evict.placed g slot key len }
{
    if crate::MAX_PAGES <= slot {
        return g;
    }
    let mut d = g;
    d.slots[slot] = Slot {
        key: Some(key),
        len,
        ready: false,
        part: Part::Head,
    };
    let pages = crate::runs::span(len as usize);
    piece_run(d, slot as u8, slot + 1, pages - 1)
}
