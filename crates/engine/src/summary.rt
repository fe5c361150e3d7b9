// What number 12 asks of an engine beside the cache's own state, and what the plan of a step is made of: neither asks for pages, missing keys
// and heights. It is for a caller that keeps the state in a form of its own, as words.
ghost use Rattle.std.specs.Prelude.{◌≡◌};
ghost use Rattle.engine.specs.State as State;
ghost use Rattle.engine.specs.Summaries as Summaries;

use crate::plan::Plan;
use crate::{Due, Engine, Fix, Phase, Places, Sight};
use cache::{Loading, Pending};
use matcher::{Matched, Matcher};
use pack::{Header, TileKey};

// Phase and header; how many pages, the load, the open fetch; fixes, match, what is due; the published road's match and its two counts; failures.
#[derive(Clone, Copy)]
pub struct Summary {
    pub phase: Phase,
    pub header: Header,
    pub count: usize,
    pub loading: Option<Loading>,
    pub pending: Pending,
    pub sight: Sight,
    pub matcher: Matcher,
    pub due: Due,
    pub published: Option<Matched>,
    pub len: usize,
    pub behind_len: usize,
    pub failures: u8,
}

pub(crate) fn summary_of(e: Engine) -> Summary
    ensures { result ≡ Summaries.summary_of e }
{
    let s = e.shared;
    let phase = s.phase;
    let header = s.header;
    let c = s.cache;
    let loading = c.loading;
    let pending = c.pending;
    let f = e.follower;
    let sight = f.sight;
    let matcher = f.matcher;
    let due = f.due;
    let a = f.ahead;
    let published = a.matched;
    Summary {
        phase,
        header,
        count: c.pages.count,
        loading,
        pending,
        sight,
        matcher,
        due,
        published,
        len: a.len,
        behind_len: a.behind_len,
        failures: f.failures,
    }
}

// ---- number 12, beside the cache's own causes

fn is_unread(phase: Phase) -> bool
    ensures { result ≡ State.is_unread phase }
{
    match phase {
        Phase::Unread => true,
        Phase::Ready | Phase::Failed => false,
    }
}

fn is_failed(phase: Phase) -> bool
    ensures { result ≡ State.is_failed phase }
{
    match phase {
        Phase::Failed => true,
        Phase::Ready | Phase::Unread => false,
    }
}

// A key that is held: in the grid of the header that was read, and none while it is unread.
fn held_ok(phase: Phase, header: Header, key: TileKey) -> bool
    ensures { result ≡ State.held_by phase header key }
{
    match phase {
        Phase::Unread => false,
        Phase::Failed => true,
        Phase::Ready => pack::grid::in_grid(header, key),
    }
}

fn need_ok(phase: Phase, header: Header, need: Option<TileKey>) -> bool
    ensures { result ≡ State.need_by phase header need }
{
    match need {
        None => true,
        Some(key) => held_ok(phase, header, key),
    }
}

fn matched_ok(phase: Phase, header: Header, current: Option<Matched>) -> bool
    ensures { result ≡ State.matched_by phase header current }
{
    match current {
        None => true,
        Some(m) => {
            let id = m.tile;
            held_ok(phase, header, id.key)
        }
    }
}

// In phase Ready the header is one that `Header::parse` accepts.
fn header_ok(phase: Phase, header: Header) -> bool
    ensures { result ≡ State.header_by phase header }
{
    if crate::state::is_ready(phase) {
        return header.rules();
    }
    true
}

// Whether the load under way is that of the needed tile.
fn loads_needed(loading: Option<Loading>, need: Option<TileKey>) -> bool
    ensures { result ≡ State.loads_needed loading need }
{
    match loading {
        None => false,
        Some(l) => {
            let key = l.key;
            cache::keys::holds(need, key)
        }
    }
}

// An open fetch that the state would make: the header's while it is unread, else one of the tile that is needed.
fn pending_ok(
    pending: Pending,
    phase: Phase,
    loading: Option<Loading>,
    need: Option<TileKey>,
) -> bool
    ensures { result ≡ State.pending_in pending phase loading need }
{
    match pending {
        Pending::Nothing => true,
        Pending::Header => is_unread(phase),
        Pending::Entry(key) => {
            if crate::state::is_ready(phase) {
                return cache::keys::holds(need, key);
            }
            false
        }
        Pending::Chunk => {
            if crate::state::is_ready(phase) {
                return loads_needed(loading, need);
            }
            false
        }
    }
}

fn fix_ok(fix: Option<Fix>) -> bool
    ensures { result ≡ State.fix_ok fix }
{
    match fix {
        None => true,
        Some(f) => pack::grid::is_point(f.lat, f.lon),
    }
}

// Whether the places kept are at most sixteen, and points.
fn places_ok(h: Places) -> bool
    ensures { result ≡ State.places_ok h }
{
    let n = h.len;
    if 16 < n {
        return false;
    }
    for i in 0..n {
        if 16 <= i {
            return true;
        }
        let p = h.v[i];
        if !pack::grid::is_point(p.lat, p.lon) {
            return false;
        }
    }
    true
}

fn sight_ok(s: Sight) -> bool
    ensures { result ≡ State.sight_ok s }
{
    let fix = s.fix;
    if !fix_ok(fix) {
        return false;
    }
    let history = s.history;
    if !places_ok(history) {
        return false;
    }
    let heading = s.heading;
    matcher::state::heading_ok(heading)
}

fn due_ok(phase: Phase, header: Header, pages: usize, due: Due) -> bool
    ensures { result ≡ State.due_by phase header pages due }
{
    if crate::state::reload_limit(pages) < (due.reloads as usize) {
        return false;
    }
    let need = due.need;
    need_ok(phase, header, need)
}

fn matcher_ok(phase: Phase, header: Header, m: Matcher) -> bool
    ensures { result ≡ State.matcher_by phase header m }
{
    if !matcher::state::counts_ok(m) {
        return false;
    }
    let current = m.current;
    matched_ok(phase, header, current)
}

// The counts of the published road, and its match.
fn ahead_ok(
    phase: Phase,
    header: Header,
    len: usize,
    behind_len: usize,
    published: Option<Matched>,
) -> bool
    ensures { result ≡ State.ahead_by phase header len behind_len published }
{
    if 501 < len {
        return false;
    }
    if 11 < behind_len {
        return false;
    }
    matched_ok(phase, header, published)
}

// Eight failures fail the pack.
fn failures_ok(phase: Phase, failures: u8) -> bool
    ensures { result ≡ State.failures_ok phase failures }
{
    if failures < 8 {
        return true;
    }
    if failures == 8 {
        return is_failed(phase);
    }
    false
}

// The arena holds the pages, and the header is one.
fn shared_ok(s: Summary, size: usize) -> bool
    ensures { result ≡ Summaries.shared_in s size }
{
    if size / cache::PAGE_BYTES < s.count {
        return false;
    }
    let phase = s.phase;
    let header = s.header;
    header_ok(phase, header)
}

// What the follower holds: what is due, the fixes, the match, the published road, the failures.
fn follower_ok(s: Summary) -> bool
    ensures { result ≡ Summaries.follower_in s }
{
    let phase = s.phase;
    let header = s.header;
    let due = s.due;
    if !due_ok(phase, header, s.count, due) {
        return false;
    }
    let sight = s.sight;
    if !sight_ok(sight) {
        return false;
    }
    let m = s.matcher;
    if !matcher_ok(phase, header, m) {
        return false;
    }
    let published = s.published;
    if !ahead_ok(phase, header, s.len, s.behind_len, published) {
        return false;
    }
    failures_ok(phase, s.failures)
}

// The causes of number 12 beside those of the cache's own state, over an arena of `size` bytes.
pub fn passes(s: Summary, size: usize) -> bool
    ensures { result ≡ Summaries.passes s size }
{
    if !shared_ok(s, size) {
        return false;
    }
    if !follower_ok(s) {
        return false;
    }
    let pending = s.pending;
    let phase = s.phase;
    let loading = s.loading;
    let due = s.due;
    let need = due.need;
    pending_ok(pending, phase, loading, need)
}

// What a step is to do where no fetch is open.
pub fn plan(s: Summary) -> Plan
    ensures { result ≡ Summaries.plan s }
{
    let phase = s.phase;
    let header = s.header;
    let sight = s.sight;
    let fix = sight.fix;
    let due = s.due;
    let m = s.matcher;
    let current = m.current;
    crate::plan::of_state(phase, header, fix, due, current)
}
