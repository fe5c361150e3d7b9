// The tile of the edge that the walk takes next: by a lookup, counted once.
ghost use Rattle.std.specs.Prelude.{◌≡◌};
ghost use Rattle.predict.specs.Walk as Walks;

use crate::{End, Ending, Walk};
use cache::Lookup;
use refusal::Refusal;

// The walk on its edge, and where the tile's bytes stand in the arena.
#[derive(Drop)]
pub(crate) struct Entered {
    pub walk: Walk,
    pub first: usize,
    pub len: usize,
}

// The walk, ended so.
pub(crate) fn with_ending(w: Walk, ending: Ending) -> Walk
    ensures { result ≡ Walks.with_ending w ending }
{
    let way = w.way;
    let entry = w.entry;
    let road = w.road;
    Walk {
        way,
        from: w.from,
        entry,
        approach: w.approach,
        road,
        confidence: w.confidence,
        ending,
    }
}

// A tile of so many pages was found: if it has room, the edge counts as followed.
fn on_edge(
    w: Walk,
    budget: usize,
    pages: usize,
    visited: &mut [u32; crate::VISITED],
    met: &mut [u64; crate::MET],
) -> Walk
    ensures value { result ≡ (Walks.entered visited.old met.old w budget pages).walk }
    ensures visited_after { visited.new ≡ (Walks.entered visited.old met.old w budget pages).visited }
    ensures met_after { met.new ≡ (Walks.entered visited.old met.old w budget pages).met }
{
    let way = w.way;
    let key = way.tile;
    if !crate::meets::meet(met, budget, key, pages) {
        return with_ending(w, Ending::Stops(End::Memory));
    }
    crate::visits::visit(visited, key, way.edge);
    w
}

// What the lookup of the edge's tile gives.
fn entered_by(
    w: Walk,
    answer: Result<Lookup, Refusal>,
    arena: &[u8],
    budget: usize,
    visited: &mut [u32; crate::VISITED],
    met: &mut [u64; crate::MET],
) -> Entered
    ensures value { result ≡ Walks.entered_at (Walks.entered_by visited.old met.old w answer arena.now budget) answer }
    ensures visited_after { visited.new ≡ (Walks.entered_by visited.old met.old w answer arena.now budget).visited }
    ensures met_after { met.new ≡ (Walks.entered_by visited.old met.old w answer arena.now budget).met }
{
    let way = w.way;
    let key = way.tile;
    match answer {
        Ok(Lookup::Ready(first, len)) => {
            let bytes = cache::ages::run_bytes(arena, first, len);
            let walk = on_edge(w, budget, cache::runs::span(bytes.len()), visited, met);
            Entered { walk, first, len }
        }
        Err(_) => {
            let walk = with_ending(w, Ending::Stale);
            Entered {
                walk,
                first: 0,
                len: 0,
            }
        }
        Ok(Lookup::Missing) | Ok(Lookup::Absent) => {
            let walk = with_ending(w, Ending::Need(key));
            Entered {
                walk,
                first: 0,
                len: 0,
            }
        }
    }
}

// Onto the next edge, if the walk goes on.
pub(crate) fn enter(
    w: Walk,
    arena: &[u8],
    size: u32,
    budget: usize,
    looks: &mut [u32; cache::ages::LOOKUPS],
    visited: &mut [u32; crate::VISITED],
    met: &mut [u64; crate::MET],
) -> Entered
    ensures value { result ≡ (Walks.enter looks.old visited.old met.old w arena.now size budget).entered }
    ensures looks_after { looks.new ≡ (Walks.enter looks.old visited.old met.old w arena.now size budget).looks }
    ensures visited_after { visited.new ≡ (Walks.enter looks.old visited.old met.old w arena.now size budget).visited }
    ensures met_after { met.new ≡ (Walks.enter looks.old visited.old met.old w arena.now size budget).met }
{
    let ending = w.ending;
    match ending {
        Ending::Going => {
            let way = w.way;
            let key = way.tile;
            let answer = cache::ages::look_up(looks, arena, size, key);
            entered_by(w, answer, arena, budget, visited, met)
        }
        Ending::Stops(_) | Ending::Need(_) | Ending::Stale => Entered {
            walk: w,
            first: 0,
            len: 0,
        },
    }
}
