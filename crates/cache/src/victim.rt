// The run of pages to replace: the one whose most recently used page is least recently used, the lowest start among equals.
ghost use Rattle.std.specs.Prelude.{◌≡◌, ◌+◌, ◌<◌, ◌≤◌};
ghost use Rattle.cache.specs.Victim as Victim;

use crate::{Pages, Slot};

// The best start so far, and the age of its youngest page.
#[derive(Clone, Copy)]
pub(crate) struct Best {
    pub at: usize,
    pub age: u32,
}

// What the clock has moved since `then`, wrapping.
pub fn since(now: u32, then: u32) -> u32
    ensures { result ≡ Victim.since now then }
{
    now.wrapping_sub(then)
}

// Page `h`, or the first where there is none.
fn place_of(h: usize) -> usize
    ensures { (result < 96) × (h < 96 → result ≡ h) }
{
    if h < crate::MAX_PAGES {
        return h;
    }
    0
}

// How long ago the run at page `h`, of the slot `s` and last used at `used`, was used; a page without a run counts as oldest.
fn age_at(s: Slot, h: usize, clock: u32, used: u32) -> u32
    ensures { result ≡ Victim.age_at s h clock used }
{
    if crate::MAX_PAGES <= h {
        return 4294967295;
    }
    if crate::runs::is_run(s) {
        return since(clock, used);
    }
    4294967295
}

fn lesser(a: u32, b: u32) -> u32
    ensures { result ≡ Victim.lesser a b }
{
    a.min(b)
}

// The older of the best start so far and the start `at`; the former where they are as old.
fn better(b: Best, at: usize, age: u32) -> Best
    ensures { result ≡ Victim.better b at age }
{
    if b.age < age {
        return Best { at, age };
    }
    b
}

// How long ago the run that each page is of was used, of those below the count: taken once, so that the loops over the starts read a small array and
// copy no state.
fn ages_of(g: Pages) -> [u32; crate::MAX_PAGES]
    requires { g.count ≤ 96 }
    ensures { Victim.Aged g result g.count }
{
    let mut ages = [0u32; crate::MAX_PAGES];
    for i in 0..g.count {
        let s = g.slots[i];
        let h = crate::evict::head_of(s, i);
        let at = place_of(h);
        let head = g.slots[at];
        ages[i] = age_at(head, h, g.clock, g.used[at]);
    }
    ages
}

// The age of the most recently used of `n` pages from `start` on.
#[tactic(auto, using(std::proofs::lemmas::Bool::Decides::nat_tests, crate::proofs::VictimLaws::least_none, crate::proofs::VictimLaws::least_turn))]
fn youngest(v: &[u32; crate::MAX_PAGES], start: usize, n: usize) -> u32
    requires { start + n ≤ 96 }
    ensures { result ≡ Victim.youngest_in v.now n start }
{
    let mut low: u32 = 4294967295;
    for i in 0..n {
        low = lesser(v[start + i], low);
    }
    low
}

// By the age of each page below the count: the first of the `pages` consecutive pages whose most recently used tile is the least recently used.
// None where the count is less than that, or more than there are slots.
#[tactic(auto, using(std::proofs::lemmas::Bool::Decides::nat_tests, crate::proofs::VictimLaws::best_one, crate::proofs::VictimLaws::best_turn))]
pub fn oldest(v: &[u32; crate::MAX_PAGES], count: usize, pages: usize) -> Option<usize>
    ensures { result ≡ Victim.oldest v.now count pages }
{
    if crate::MAX_PAGES < count {
        return None;
    }
    if count < pages {
        return None;
    }
    let last = count - pages;
    let mut b = Best {
        at: 0,
        age: youngest(v, 0, pages),
    };
    for i in 1..last + 1 {
        b = better(b, i, youngest(v, i, pages));
    }
    Some(b.at)
}

// The run of pages to replace; empty pages count as oldest.
#[tactic(auto, using(std::proofs::lemmas::Bool::Decides::nat_tests, crate::proofs::VictimLaws::oldest_is))]
pub(crate) fn victim(g: Pages, pages: usize) -> Option<usize>
    ensures { result ≡ Victim.victim g pages }
{
    if crate::MAX_PAGES < g.count {
        return None;
    }
    oldest(&ages_of(g), g.count, pages)
}
