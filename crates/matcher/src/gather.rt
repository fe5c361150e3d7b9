// The candidates of the tiles around a fix, each tile by a lookup, and the match made of them.
ghost use Rattle.std.specs.Prelude.{◌≡◌, ◌≤◌, ◌+◌, ◌*◌, length};
ghost use Rattle.matcher.specs.Calls as Calls;
ghost use Rattle.matcher.specs.Gather as Gather;

use crate::{
    Heading, Kept, Landed, Landings, Made, Matched, Matcher, NearKey, NearKeys, Outcome, Query,
    Searched, Updated,
};
use cache::{Aging, Cache, Lookup};
use geo::Point;
use pack::{Header, TileKey};
use refusal::Refusal;

// How the lookups of a match end, as the definitions of specs/Gather tell it: all done; a tile that is not loaded; a ready run that no longer passes.
#[derive(Clone, Copy)]
pub enum Ending {
    All,
    Need(TileKey),
    Stale,
}

// What a match answers once it is finished.
fn outcome(current: Option<Matched>) -> Result<Outcome, Refusal>
    ensures { result ≡ Gather.outcome current }
{
    match current {
        None => Ok(Outcome::Nothing),
        Some(m) => Ok(Outcome::Found(m)),
    }
}

// Every tile was found or missing: the match is made.
fn finished(m: Matcher, kept: Kept, heading: Heading) -> Searched
    ensures { result ≡ Gather.finished m kept heading }
{
    let next = crate::settle::matched(m, kept, heading);
    let current = next.current;
    Searched {
        answer: outcome(current),
        matcher: next,
        tiles: 4,
    }
}

// What the lookup of one of the tiles around a fix lands on.
fn land(c: Cache, place: NearKey) -> Landed
    ensures { result ≡ Gather.land place.key c }
{
    let key = place.key;
    match key {
        None => Landed {
            lookup: Ok(Lookup::Missing),
        },
        Some(k) => {
            let lookup = Ok(cache::look::landed(c, k));
            Landed { lookup }
        }
    }
}

fn landings(c: Cache, near: NearKeys) -> Landings
    ensures { result ≡ Gather.landings c near }
{
    let first = land(c, near.keys[0]);
    let second = land(c, near.keys[1]);
    let third = land(c, near.keys[2]);
    let fourth = land(c, near.keys[3]);
    let v = [first, second, third, fourth];
    Landings { v }
}

// The match over the tiles around a fix, from what their lookups land on. A tile that is not loaded ends the match with its key, a run that no
// longer passes with 12 and no tile gone through.
fn gather(m: Matcher, at: Landings, arena: &[u8], q: Query, near: NearKeys) -> Searched
    ensures { result ≡ Gather.ended m q.heading (Gather.gathered_to at arena.now q near 4) }
{
    let header = q.header;
    let mut kept = crate::keep::none_kept();
    for tiles in 0..4 {
        let Some(k) = near.keys[tiles].key else {
            continue;
        };
        match cache::look::checked(at.v[tiles].lookup, arena, header.tile, k) {
            Ok(Lookup::Missing) => continue,
            Ok(Lookup::Absent) => {
                return Searched {
                    answer: Ok(Outcome::Need(k)),
                    matcher: m,
                    tiles,
                };
            }
            Err(_) => {
                return Searched {
                    answer: Err(Refusal::BadState),
                    matcher: m,
                    tiles: 0,
                };
            }
            Ok(Lookup::Ready(first, len)) => {
                kept = crate::search(kept, q, cache::ages::run_bytes(arena, first, len));
            }
        }
    }
    let heading = q.heading;
    finished(m, kept, heading)
}

// A match of a point and a heading that have passed, for a caller that knows what the lookups of the tiles around the point land on. It changes no
// clock and no ages: what it does to them is `uses_after`.
pub fn searched(
    m: Matcher,
    at: Landings,
    arena: &[u8],
    header: Header,
    fix: Point,
    heading: Heading,
    near: NearKeys,
) -> Searched
    ensures { result ≡ Gather.searched m at arena.now header fix heading near }
{
    let current = m.current;
    let q = Query {
        header,
        fix,
        heading,
        current,
    };
    gather(m, at, arena, q, near)
}

// Clock and ages with the run that a lookup landed on as the most recently used.
fn used_by(lookup: Result<Lookup, u32>, a: Aging) -> Aging
    ensures { result ≡ Gather.used_by lookup a }
{
    match lookup {
        Ok(Lookup::Missing) => a,
        Ok(Lookup::Absent) => a,
        Err(_) => a,
        Ok(Lookup::Ready(first, _)) => cache::uses::used_at(a, first),
    }
}

// Clock and ages once the first `n` tiles were gone through.
#[tactic(auto, using(crate::proofs::GatherLaws::uses_start, crate::proofs::GatherLaws::uses_turn))]
fn uses_after(at: Landings, from: Aging, n: usize) -> Aging
    requires { n ≤ 4 }
    ensures { result ≡ Gather.uses_after at from n }
{
    let mut a = from;
    for i in 0..n {
        a = used_by(at.v[i].lookup, a);
    }
    a
}

// A match of a point and a heading that have passed, in a state that has been tested; what it does to clock and ages beside the cache.
pub fn made(
    m: Matcher,
    c: Cache,
    arena: &[u8],
    header: Header,
    fix: Point,
    heading: Heading,
) -> Made
    ensures { result ≡ Gather.made_of (Gather.updated m c arena.now header fix heading) }
{
    let near = crate::near::near_of(header, fix);
    let at = landings(c, near);
    let from = cache::uses::uses_of(c);
    let s = searched(m, at, arena, header, fix, heading, near);
    let uses = uses_after(at, from, s.tiles);
    let answer = s.answer;
    let matcher = s.matcher;
    Made {
        answer,
        matcher,
        uses,
    }
}

// The match with the cache that it leaves.
fn match_around(
    m: Matcher,
    c: Cache,
    arena: &[u8],
    header: Header,
    fix: Point,
    heading: Heading,
) -> Updated
    ensures { result ≡ Gather.updated m c arena.now header fix heading }
{
    let u = made(m, c, arena, header, fix, heading);
    let answer = u.answer;
    let matcher = u.matcher;
    let cache = cache::uses::with_uses(c, u.uses);
    Updated {
        answer,
        matcher,
        cache,
    }
}

// `update` past number 12's test, for a caller that has made it: 8 for the point or the heading.
pub(crate) fn updated(
    m: Matcher,
    c: Cache,
    arena: &[u8],
    header: Header,
    fix: Point,
    heading: Heading,
) -> Updated
    ensures { result ≡ Calls.update_tested m c arena.now header fix heading }
{
    if !pack::grid::is_point(fix.lat, fix.lon) {
        return crate::state::refused(m, c, Refusal::OutOfRange);
    }
    if !crate::state::heading_ok(heading) {
        return crate::state::refused(m, c, Refusal::OutOfRange);
    }
    match_around(m, c, arena, header, fix, heading)
}
