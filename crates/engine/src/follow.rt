// A follower from its start, and what a fix, the loss of fixes and a reset do to it.
ghost use Rattle.std.specs.Prelude.{◌≡◌};
ghost use Rattle.engine.specs.Follow as State;

use crate::{Due, Fix, Follower};
use matcher::{Matched, Matcher};

// Nothing done yet but, where `matching` says so, a match due.
fn nothing_done(matching: bool) -> Due
    ensures { result ≡ State.nothing_done matching }
{
    Due {
        matching,
        road: false,
        last_road: None,
        need: None,
        reloads: 0,
    }
}

// A follower of no fix yet. A horizon beyond 10 km, or one that is not a number, becomes 10 km.
pub(crate) fn fresh(horizon_m: f32) -> Follower
    ensures { result ≡ State.fresh horizon_m }
{
    let sight = crate::fixes::nothing_seen();
    let matcher = Matcher::reset();
    let due = nothing_done(false);
    let ahead = crate::publish::nothing_ahead(0);
    Follower {
        sight,
        matcher,
        due,
        ahead,
        failures: 0,
        horizon_m: num::order::min(horizon_m, 10000.0),
        steps: 0,
    }
}

// A new fix. One at the same place does nothing.
pub(crate) fn fixed(f: Follower, fix: Fix) -> Follower
    ensures { result ≡ State.fixed f fix }
{
    let sight = f.sight;
    let last = sight.fix;
    if crate::fixes::is_same_place(last, fix) {
        return f;
    }
    let mut d = f;
    let now = crate::fixes::seen(sight, fix);
    d.sight = now;
    let mut due = d.due;
    due.matching = true;
    d.due = due;
    d
}

fn is_matched(c: Option<Matched>) -> bool
    ensures { result ≡ State.is_matched c }
{
    match c {
        None => false,
        Some(_) => true,
    }
}

// The fixes stopped: forget the road.
pub(crate) fn lost(f: Follower) -> Follower
    ensures { result ≡ State.lost f }
{
    let mut d = f;
    let before = d.sight;
    let sight = crate::fixes::lost(before);
    d.sight = sight;
    let mut due = d.due;
    due.matching = false;
    due.road = false;
    d.due = due;
    let matcher = Matcher::reset();
    d.matcher = matcher;
    let old = d.ahead;
    let matched = old.matched;
    if is_matched(matched) {
        let ahead = crate::publish::forgotten(old);
        d.ahead = ahead;
    }
    d
}

fn has_fix(fix: Option<Fix>) -> bool
    ensures { result ≡ State.has_fix fix }
{
    match fix {
        None => false,
        Some(_) => true,
    }
}

// Another pack: the fix still stands, and is matched again.
pub(crate) fn reset(f: Follower) -> Follower
    ensures { result ≡ State.reset f }
{
    let mut d = f;
    d.failures = 0;
    let matcher = Matcher::reset();
    d.matcher = matcher;
    let sight = d.sight;
    let fix = sight.fix;
    let due = nothing_done(has_fix(fix));
    d.due = due;
    let old = d.ahead;
    let ahead = crate::publish::forgotten(old);
    d.ahead = ahead;
    d
}
