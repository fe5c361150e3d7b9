// The page runs of the tile cache: `Slot`, `span`, `victim`, `evict` and the placing of a run of the Rust's cache.rs.
//
// The arena is cut into pages of `PAGE_BYTES`. A tile takes as many consecutive pages as it needs, its run: most rural tiles fit one
// page, a dense city tile a few. The run's first page holds key and length, the rest point back at it. A new tile replaces the run of
// pages whose most recent use is oldest.
//
// Every public function is total: no count, no page number and no slot is refused, and past the last page stands the empty slot.
ghost use Rattle.std.specs.Prelude.{◌≡◌, ◌<◌};
ghost use Rattle.cache.specs.Pass as Pass;
ghost use Rattle.cache.specs.Runs as Runs;

use crate::{MAX_PAGES, PAGE_BYTES, Pages, Part, Slot};

// The last run that a pass over the pages met: its first page and the page after it. Both are 0 before the first.
#[derive(Clone, Copy)]
struct LastRun {
    head: usize,
    end: usize,
}

// Pages that a tile of `len` bytes takes, one at least.
pub fn span(len: usize) -> usize
    ensures { result ≡ Runs.span len }
{
    if len == 0 {
        return 1;
    }
    (len - 1) / PAGE_BYTES + 1
}

// The Rust's `Slot::default()`.
pub(crate) fn empty_slot() -> Slot
    ensures { result ≡ Runs.empty_slot }
{
    Slot {
        key: None,
        len: 0,
        ready: false,
        part: Part::Head,
    }
}

// The slot of page `i`; past the last page the empty one.
pub(crate) fn slot_at(g: Pages, i: usize) -> Slot
    ensures { result ≡ Runs.slot_at g.slots i }
{
    if i < MAX_PAGES {
        return g.slots[i];
    }
    empty_slot()
}

// Whether a run starts at this page.
pub(crate) fn is_run(s: Slot) -> bool
    ensures { result ≡ Runs.is_run (Runs.kind_of s) }
{
    match (s.part, s.key) {
        (Part::Head, Some(_)) => true,
        (Part::Head, None) | (Part::Of(_), _) => false,
    }
}

// Whether page `p`, with the slot `s`, is as it must be behind the last run: below its end a later page of it with no key, which would be a
// run over another; from its end on bare, or a run that ends by the count.
fn fits(s: Slot, p: usize, last: LastRun, count: usize) -> bool
    requires { p < 96 }
    ensures { result ≡ Pass.fits s p last count }
{
    match (s.part, s.key) {
        (Part::Of(_), Some(_)) => false,
        (Part::Of(h), None) => p < last.end && h as usize == last.head,
        (Part::Head, Some(_)) => last.end <= p && p + span(s.len as usize) <= count,
        (Part::Head, None) => last.end <= p,
    }
}

// The last run once page `p` was passed.
fn after(s: Slot, p: usize, last: LastRun) -> LastRun
    requires { p < 96 }
    ensures { result ≡ Pass.after s p last }
{
    if is_run(s) {
        return LastRun {
            head: p,
            end: p + span(s.len as usize),
        };
    }
    last
}

// Whether the count is at most `MAX_PAGES` and the runs are well-formed: none overlaps another, passes the count or lacks a part. One pass, which
// reads each slot once and carries the last run as two numbers, so that no state is copied page by page.
#[tactic(auto, using(std::proofs::lemmas::Bool::Decides::nat_tests, crate::proofs::PassLaws::passed, crate::proofs::PassLaws::pass_fails))]
pub(crate) fn runs_ok(g: Pages) -> bool
    ensures { result ≡ Runs.runs_ok g }
{
    if MAX_PAGES < g.count {
        return false;
    }
    let mut last = LastRun { head: 0, end: 0 };
    for p in 0..MAX_PAGES {
        let s = g.slots[p];
        if !fits(s, p, last, g.count) {
            return false;
        }
        last = after(s, p, last);
    }
    true
}
