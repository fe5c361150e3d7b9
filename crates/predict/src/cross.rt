// The ways on from every tile that shares the junction's node, each tile by a lookup.
ghost use Rattle.std.specs.Prelude.{◌≡◌, cond, pos, ◌+ℤ◌};
ghost use Rattle.std.specs.Int.Signed.{lt_z};
ghost use Rattle.pack.specs.Grid.{checked_of};
ghost use Rattle.predict.specs.Cross as Cross;

use crate::twins::{Twin, TwinList};
use crate::{Arrival, Choices, Crossing, Ending};
use cache::Lookup;
use pack::TileKey;
use refusal::Refusal;

// The ways on of a tile where it has the node.
fn consider_at(
    c: Choices,
    a: Arrival,
    visited: &[u32; crate::VISITED],
    bytes: &[u8],
    key: TileKey,
    twin: Twin,
) -> Choices
    ensures { result ≡ Cross.consider_at c a visited.now bytes.now key twin }
{
    match tile::read::node_at(bytes, twin.x, twin.y) {
        Some(node) => crate::consider::consider(c, a, visited, bytes, key, node),
        None => c,
    }
}

// The lookups end here.
fn ended(x: Crossing, ending: Ending) -> Crossing
    ensures { result ≡ Cross.ended_by x ending }
{
    let choices = x.choices;
    Crossing {
        choices,
        blocked: x.blocked,
        ending,
    }
}

// What the lookup of a tile that shares the node gives.
fn twin_found(
    x: Crossing,
    answer: Result<Lookup, Refusal>,
    arena: &[u8],
    a: Arrival,
    visited: &[u32; crate::VISITED],
    key: TileKey,
    twin: Twin,
) -> Crossing
    ensures { result ≡ Cross.twin_found x answer arena.now a visited.now key twin }
{
    let mut d = x;
    match answer {
        Ok(Lookup::Missing) => {
            d.blocked = true;
            d
        }
        Ok(Lookup::Absent) => ended(x, Ending::Need(key)),
        Err(_) => ended(x, Ending::Stale),
        Ok(Lookup::Ready(first, len)) => {
            let old = d.choices;
            let choices = consider_at(
                old,
                a,
                visited,
                cache::ages::run_bytes(arena, first, len),
                key,
                twin,
            );
            d.choices = choices;
            d
        }
    }
}

// A row or a column so many steps on. A step that passes every grid by itself stays as it is, so that no sum wraps.
fn stepped(at: u16, step: i64) -> i64
    ensures { result ≡ cond (lt_z (pos 65535) step) step (pos at +ℤ step) }
{
    if 65535 < step {
        return step;
    }
    (at as i64) + step
}

// The tile that a twin stands in.
fn key_of(a: Arrival, twin: Twin) -> Option<TileKey>
    ensures { result ≡ checked_of a.header (pos a.way.tile.row +ℤ twin.row) (pos a.way.tile.col +ℤ twin.col) }
{
    let way = a.way;
    let tile = way.tile;
    let header = a.header;
    let row = stepped(tile.row, twin.row);
    let col = stepped(tile.col, twin.col);
    pack::grid::checked_of(header, row, col)
}

// A tile that shares the node; one outside the grid blocks the road.
fn twin_step(
    x: Crossing,
    arena: &[u8],
    a: Arrival,
    visited: &[u32; crate::VISITED],
    looks: &mut [u32; cache::ages::LOOKUPS],
    twin: Twin,
) -> Crossing
    ensures value { result ≡ Cross.crossing (Cross.twin_step x arena.now a visited.now looks.old twin) }
    ensures looks_after { looks.new ≡ (Cross.twin_step x arena.now a visited.now looks.old twin).carried }
{
    match key_of(a, twin) {
        Some(key) => {
            let header = a.header;
            let answer = cache::ages::look_up(looks, arena, header.tile, key);
            twin_found(x, answer, arena, a, visited, key, twin)
        }
        None => {
            let mut d = x;
            d.blocked = true;
            d
        }
    }
}

// One tile more of those that share the node, once all before it were found or missing.
fn cross_step(
    x: Crossing,
    arena: &[u8],
    a: Arrival,
    visited: &[u32; crate::VISITED],
    looks: &mut [u32; cache::ages::LOOKUPS],
    twin: Twin,
    i: usize,
    n: usize,
) -> Crossing
    ensures value { result ≡ Cross.crossing (Cross.cross_step x arena.now a visited.now looks.old twin i n) }
    ensures looks_after { looks.new ≡ (Cross.cross_step x arena.now a visited.now looks.old twin i n).carried }
{
    let ending = x.ending;
    if n <= i {
        return x;
    }
    match ending {
        Ending::Going => twin_step(x, arena, a, visited, looks, twin),
        Ending::Stops(_) => x,
        Ending::Need(_) => x,
        Ending::Stale => x,
    }
}

// The ways on from a node of a tile, and from the tiles that share it.
pub(crate) fn cross(
    arena: &[u8],
    a: Arrival,
    visited: &[u32; crate::VISITED],
    looks: &mut [u32; cache::ages::LOOKUPS],
    choices: Choices,
    twins: TwinList,
) -> Crossing
    ensures value { result ≡ Cross.crossing (Cross.cross arena.now a visited.now looks.old choices twins) }
    ensures looks_after { looks.new ≡ (Cross.cross arena.now a visited.now looks.old choices twins).carried }
{
    let mut x = Crossing {
        choices,
        blocked: false,
        ending: Ending::Going,
    };
    for i in 0..8 {
        // No tile is left.
        if twins.len <= i {
            return x;
        }
        let twin = twins.v[i];
        x = cross_step(x, arena, a, visited, looks, twin, i, twins.len);
    }
    x
}
