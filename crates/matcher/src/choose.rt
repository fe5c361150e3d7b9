// Which candidate the match goes to: the cheapest, unless hysteresis holds the current edge, and past its end the road that goes on.
ghost use Rattle.std.specs.Prelude.{◌≡◌};
ghost use Rattle.matcher.specs.Keeping as Keeping;
ghost use Rattle.matcher.specs.Choose as Choose;

use crate::{Candidate, Kept, Matched};
use std::cmp::Ordering;
use tile::TileId;

// Which candidates are looked at: all, or those on which the road goes on past a node, up to a cost.
#[derive(Clone, Copy)]
pub enum Which {
    All,
    Past(f32),
}

// The cheapest so far, and its cost.
#[derive(Drop)]
pub(crate) struct Least {
    pub at: Option<usize>,
    pub cost: f32,
}

// The candidate chosen, and the challenger from now on.
#[derive(Clone, Copy)]
pub struct Choice {
    pub chosen: Candidate,
    pub challenger: Option<(TileId, u16, u8)>,
}

fn counts(which: Which, c: Candidate) -> bool
    ensures { result ≡ Choose.counts which c }
{
    match which {
        Which::All => true,
        Which::Past(limit) => {
            if !c.joined {
                return false;
            }
            if c.at_node {
                return false;
            }
            c.cost <= limit
        }
    }
}

fn is_less(a: f32, b: f32) -> bool
    ensures { result ≡ Choose.is_cheaper a b }
{
    match num::order::total_cmp(a, b) {
        Ordering::Less => true,
        Ordering::Equal => false,
        Ordering::Greater => false,
    }
}

// The candidate number `i` in place of the cheapest so far, where it is cheaper: of equals the first.
fn lesser(l: Least, i: usize, cost: f32) -> Least
    ensures { result ≡ Choose.lesser l i cost }
{
    let at = l.at;
    match at {
        None => Least { at: Some(i), cost },
        Some(_) => {
            if is_less(cost, l.cost) {
                return Least { at: Some(i), cost };
            }
            l
        }
    }
}

fn least_step(l: Least, n: usize, i: usize, c: Candidate, which: Which) -> Least
    ensures { result ≡ Choose.least_step l n i c which }
{
    if n <= i {
        return l;
    }
    if counts(which, c) {
        return lesser(l, i, c.cost);
    }
    l
}

// The cheapest of those looked at. The places are named one by one, so that what is kept is read where it stands.
pub(crate) fn least_of(k: Kept, which: Which) -> Option<usize>
    ensures { result ≡ Choose.least_of k which }
{
    let n = k.len;
    let mut l = Least {
        at: None,
        cost: 0.0,
    };
    l = least_step(l, n, 0, k.v[0], which);
    l = least_step(l, n, 1, k.v[1], which);
    l = least_step(l, n, 2, k.v[2], which);
    l = least_step(l, n, 3, k.v[3], which);
    l = least_step(l, n, 4, k.v[4], which);
    l = least_step(l, n, 5, k.v[5], which);
    l = least_step(l, n, 6, k.v[6], which);
    l = least_step(l, n, 7, k.v[7], which);
    l.at
}

// The candidate number `i`. The places are named one by one here too.
pub(crate) fn candidate_in(k: Kept, i: usize) -> Candidate
    ensures { result ≡ Keeping.candidate_in k i }
{
    if i < 1 {
        return k.v[0];
    }
    if i < 2 {
        return k.v[1];
    }
    if i < 3 {
        return k.v[2];
    }
    if i < 4 {
        return k.v[3];
    }
    if i < 5 {
        return k.v[4];
    }
    if i < 6 {
        return k.v[5];
    }
    if i < 7 {
        return k.v[6];
    }
    if i < 8 {
        return k.v[7];
    }
    crate::keep::no_candidate()
}

// Whether a candidate is the edge of a match.
pub(crate) fn same_edge(c: Candidate, m: Matched) -> bool
    ensures { result ≡ Choose.same_edge c m }
{
    crate::score::is_on(c.found, m.tile, m.edge)
}

// The first candidate on the edge of a match.
fn kept_at(k: Kept, m: Matched) -> Option<usize>
    ensures { result ≡ Choose.kept_at k m }
{
    for i in 0..k.len.min(8) {
        if same_edge(k.v[i], m) {
            return Some(i);
        }
    }
    None
}

// On how many fixes in a row the candidate has now beaten the match.
fn beaten(challenger: Option<(TileId, u16, u8)>, top: Candidate) -> u8
    ensures { result ≡ Choose.beaten challenger top }
{
    match challenger {
        None => 1,
        Some((tile, edge, count)) => {
            let found = top.found;
            if !crate::score::same_id(tile, found.tile) {
                return 1;
            }
            if edge != found.edge {
                return 1;
            }
            if count < 255 {
                return count + 1;
            }
            255
        }
    }
}

// Another edge is clearly cheaper: it takes over the second time in a row.
fn contested(top: Candidate, kept: Candidate, challenger: Option<(TileId, u16, u8)>) -> Choice
    ensures { result ≡ Choose.contested top kept challenger }
{
    let n = beaten(challenger, top);
    if n < 2 {
        let found = top.found;
        let tile = found.tile;
        return Choice {
            chosen: kept,
            challenger: Some((tile, found.edge, n)),
        };
    }
    Choice {
        chosen: top,
        challenger: None,
    }
}

// The current edge is still in reach.
fn held(
    top: Candidate,
    kept: Candidate,
    m: Matched,
    challenger: Option<(TileId, u16, u8)>,
) -> Choice
    ensures { result ≡ Choose.held top kept m challenger }
{
    let same = same_edge(top, m);
    if same {
        return Choice {
            chosen: kept,
            challenger: None,
        };
    }
    if top.joined {
        return Choice {
            chosen: top,
            challenger: None,
        };
    }
    if top.cost + 1.0 >= kept.cost {
        return Choice {
            chosen: kept,
            challenger: None,
        };
    }
    contested(top, kept, challenger)
}

// The cheapest, or the edge already matched.
pub(crate) fn chosen_by(
    current: Option<Matched>,
    k: Kept,
    top: Candidate,
    challenger: Option<(TileId, u16, u8)>,
) -> Choice
    ensures { result ≡ Choose.chosen_by current k top challenger }
{
    match current {
        None => Choice {
            chosen: top,
            challenger,
        },
        Some(m) => match kept_at(k, m) {
            None => Choice {
                chosen: top,
                challenger,
            },
            Some(i) => held(top, candidate_in(k, i), m, challenger),
        },
    }
}

// Past the end of the edge the road goes on along one joined to it, if the rider is beside one and riding along it.
pub(crate) fn past_node(choice: Choice, k: Kept) -> Choice
    ensures { result ≡ Choose.past_node choice k }
{
    let chosen = choice.chosen;
    if !chosen.at_node {
        return choice;
    }
    match least_of(k, Which::Past(chosen.cost + 2.0)) {
        None => choice,
        Some(i) => Choice {
            chosen: candidate_in(k, i),
            challenger: None,
        },
    }
}
