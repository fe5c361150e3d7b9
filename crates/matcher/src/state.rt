// Number 12 for a matcher, and the refusals of a call.
ghost use Rattle.std.specs.Prelude.{◌≡◌};
ghost use Rattle.matcher.specs.State as State;

use crate::{Heading, Matched, Matcher, Outcome, Updated};
use cache::Cache;
use pack::Header;
use refusal::Refusal;
use tile::TileId;

// Whether the matched edge is one of its tile's.
fn edge_ok(current: Option<Matched>) -> bool
    ensures { result ≡ State.edge_ok current }
{
    match current {
        None => true,
        Some(m) => {
            let tile = m.tile;
            m.edge < tile.edges
        }
    }
}

// Whether the challenger has beaten the match once at most, and its edge is one of its tile's.
fn challenger_ok(challenger: Option<(TileId, u16, u8)>) -> bool
    ensures { result ≡ State.challenger_ok challenger }
{
    match challenger {
        None => true,
        Some((tile, edge, count)) => {
            if 1 < count {
                return false;
            }
            edge < tile.edges
        }
    }
}

// The causes of number 12 in the matcher alone.
pub fn counts_ok(m: Matcher) -> bool
    ensures { result ≡ State.counts_ok m }
{
    let current = m.current;
    if !edge_ok(current) {
        return false;
    }
    let challenger = m.challenger;
    challenger_ok(challenger)
}

// Whether the matched tile lies in the grid.
fn key_ok(current: Option<Matched>, header: Header) -> bool
    ensures { result ≡ State.key_ok current header }
{
    match current {
        None => true,
        Some(m) => {
            let tile = m.tile;
            pack::grid::in_grid(header, tile.key)
        }
    }
}

// The causes of number 12 in the matcher of a call that is given a header.
pub fn matcher_ok(m: Matcher, header: Header) -> bool
    ensures { result ≡ State.matcher_ok m header }
{
    if !counts_ok(m) {
        return false;
    }
    let current = m.current;
    key_ok(current, header)
}

// The causes of number 12 in a call that is given matcher, cache, header and an arena of `size` bytes.
pub(crate) fn call_ok(m: Matcher, c: Cache, header: Header, size: usize) -> bool
    ensures { result ≡ State.call_ok m c header size }
{
    if !cache::state::cache_ok(c, header, size) {
        return false;
    }
    matcher_ok(m, header)
}

// Whether a heading is none, or a number within 360 degrees either way.
pub fn heading_ok(heading: Heading) -> bool
    ensures { result ≡ State.heading_ok heading }
{
    match heading {
        Heading::Nothing => true,
        Heading::Degrees(d) => geo::flat::is_heading(d),
    }
}

pub(crate) fn refused(m: Matcher, c: Cache, refusal: Refusal) -> Updated
    ensures { result ≡ State.refused m c refusal }
{
    Updated {
        answer: Err(refusal),
        matcher: m,
        cache: c,
    }
}
