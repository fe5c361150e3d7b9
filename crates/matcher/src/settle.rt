// The match that is made of the candidate chosen: its confidence, its direction, and the metres ridden; or, with no candidate, a miss.
ghost use Rattle.std.specs.Prelude.{◌≡◌};
ghost use Rattle.matcher.specs.Settle as Settle;

use crate::choose::{Choice, Which};
use crate::{Candidate, Heading, Kept, Matched, Matcher};

// The edge just left, where the match goes over to one joined to it.
fn left_of(previous: Option<Matched>, chosen: Candidate) -> Option<Matched>
    ensures { result ≡ Settle.left_of previous chosen }
{
    match previous {
        None => None,
        Some(p) => {
            if !chosen.joined {
                return None;
            }
            if crate::choose::same_edge(chosen, p) {
                return None;
            }
            Some(p)
        }
    }
}

// Whether a candidate is not on the edge just left.
fn not_left(left: Option<Matched>, c: Candidate) -> bool
    ensures { result ≡ Settle.not_left left c }
{
    match left {
        None => true,
        Some(p) => !crate::choose::same_edge(c, p),
    }
}

// Whether a candidate is another road beside the rider: roads that only start at a node near by say nothing about which one it is.
fn is_rival(c: Candidate, chosen: Matched, left: Option<Matched>) -> bool
    ensures { result ≡ Settle.is_rival c chosen left }
{
    if crate::choose::same_edge(c, chosen) {
        return false;
    }
    if c.at_node {
        return false;
    }
    not_left(left, c)
}

fn rival_step(
    least: f32,
    n: usize,
    i: usize,
    c: Candidate,
    chosen: Matched,
    left: Option<Matched>,
) -> f32
    ensures { result ≡ Settle.rival_step least n i c chosen left }
{
    if n <= i {
        return least;
    }
    if is_rival(c, chosen, left) {
        return num::order::min(least, c.cost);
    }
    least
}

// The cost of the cheapest other road, infinite where there is none. The places are named one by one, so that what is kept is read where it stands.
fn runner_up(k: Kept, chosen: Matched, left: Option<Matched>) -> f32
    ensures { result ≡ Settle.runner_up k chosen left }
{
    let n = k.len;
    let mut least: f32 = 1.0 / 0.0;
    least = rival_step(least, n, 0, k.v[0], chosen, left);
    least = rival_step(least, n, 1, k.v[1], chosen, left);
    least = rival_step(least, n, 2, k.v[2], chosen, left);
    least = rival_step(least, n, 3, k.v[3], chosen, left);
    least = rival_step(least, n, 4, k.v[4], chosen, left);
    least = rival_step(least, n, 5, k.v[5], chosen, left);
    least = rival_step(least, n, 6, k.v[6], chosen, left);
    least = rival_step(least, n, 7, k.v[7], chosen, left);
    least
}

fn steadiness(heading: Heading) -> f32
    ensures { result ≡ Settle.steadiness heading }
{
    match heading {
        Heading::Nothing => 0.7,
        Heading::Degrees(_) => 1.0,
    }
}

// Near the road, and clearly better than any other road beside the rider: 0 to 100.
fn confidence(offset_m: f32, cost: f32, runner: f32, heading: Heading) -> u8
    ensures { result ≡ Settle.confidence offset_m cost runner heading }
{
    let near = num::order::clamp(1.0 - offset_m / 40.0, 0.0, 1.0);
    let clear = num::order::clamp((runner - cost) / 2.0, 0.3, 1.0);
    let steady = steadiness(heading);
    num::cast::u8_of_f32(near * clear * steady * 100.0)
}

// The direction: a candidate's own, or without one that of the match so far on the same edge.
fn direction(found: Matched, previous: Option<Matched>) -> Option<bool>
    ensures { result ≡ Settle.direction found previous }
{
    let forward = found.forward;
    match forward {
        Some(b) => Some(b),
        None => match previous {
            None => None,
            Some(p) => {
                let was = p.forward;
                if crate::score::is_on(p, found.tile, found.edge) {
                    return was;
                }
                None
            }
        },
    }
}

// Whether a direction was unknown, or is the same now.
fn goes_on(was: Option<bool>, forward: Option<bool>) -> bool
    ensures { result ≡ Settle.goes_on was forward }
{
    was.is_none() || was == forward
}

// Whether the match stays on its edge in its direction.
fn same_run(previous: Option<Matched>, found: Matched, forward: Option<bool>) -> bool
    ensures { result ≡ Settle.same_run previous found forward }
{
    match previous {
        None => false,
        Some(p) => {
            let was = p.forward;
            if crate::score::is_on(p, found.tile, found.edge) {
                return goes_on(was, forward);
            }
            false
        }
    }
}

// Metres ridden in a direction from where the run began.
fn ridden(forward: Option<bool>, along_m: f32, from_m: f32) -> f32
    ensures { result ≡ Settle.ridden forward along_m from_m }
{
    match forward {
        None => 0.0,
        Some(b) => {
            if b {
                return num::order::max(along_m - from_m, 0.0);
            }
            num::order::max(from_m - along_m, 0.0)
        }
    }
}

fn with_figures(m: Matched, forward: Option<bool>, confidence: u8, ridden_m: f32) -> Matched
    ensures { result ≡ Settle.with_figures m forward confidence ridden_m }
{
    let tile = m.tile;
    Matched {
        tile,
        edge: m.edge,
        segment: m.segment,
        fraction: m.fraction,
        forward,
        offset_m: m.offset_m,
        z_dm: m.z_dm,
        class: m.class,
        flags: m.flags,
        confidence,
        ridden_m,
    }
}

// Where the run along the edge began: here, unless it goes on.
fn run_from(m: Matcher, chosen: Candidate, forward: Option<bool>) -> f32
    ensures { result ≡ Settle.run_from m chosen forward }
{
    let previous = m.current;
    let found = chosen.found;
    if same_run(previous, found, forward) {
        return m.run_from_m;
    }
    chosen.along_m
}

// The matcher after a choice.
fn settled(m: Matcher, k: Kept, choice: Choice, heading: Heading) -> Matcher
    ensures { result ≡ Settle.settled m k choice heading }
{
    let chosen = choice.chosen;
    let found = chosen.found;
    let previous = m.current;
    let left = left_of(previous, chosen);
    let runner = runner_up(k, found, left);
    let sure = confidence(found.offset_m, chosen.cost, runner, heading);
    let forward = direction(found, previous);
    let from_m = run_from(m, chosen, forward);
    let gone = ridden(forward, chosen.along_m, from_m);
    let matched = with_figures(found, forward, sure, gone);
    let challenger = choice.challenger;
    Matcher {
        current: Some(matched),
        challenger,
        misses: 0,
        run_from_m: from_m,
    }
}

// A fix with no road in reach: the third in a row ends the match.
fn missed(m: Matcher) -> Matcher
    ensures { result ≡ Settle.missed m }
{
    let current = m.current;
    let misses = if m.misses < 255 { m.misses + 1 } else { 255 };
    if misses < 3 {
        return Matcher {
            current,
            challenger: None,
            misses,
            run_from_m: m.run_from_m,
        };
    }
    Matcher {
        current: None,
        challenger: None,
        misses,
        run_from_m: m.run_from_m,
    }
}

// The matcher after a search.
pub(crate) fn matched(m: Matcher, k: Kept, heading: Heading) -> Matcher
    ensures { result ≡ Settle.matched m k heading }
{
    match crate::choose::least_of(k, Which::All) {
        None => missed(m),
        Some(i) => {
            let current = m.current;
            let challenger = m.challenger;
            let top = crate::choose::candidate_in(k, i);
            let choice = crate::choose::chosen_by(current, k, top, challenger);
            let on = crate::choose::past_node(choice, k);
            settled(m, k, on, heading)
        }
    }
}
