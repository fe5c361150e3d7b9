// Which road the rider is on: a fix and a heading to an edge, with hysteresis, so that noise next to a parallel road or at a junction does
// not flip the match. The Rust's matcher.rs.
//
// An edge within 40 m of a fix scores (distance / 15 m)² + (heading error / 35°)², less a bonus for the edge already matched (1) or one joined
// to it (0.5); the cheapest eight are kept. The current match stays until another edge beats it by 1 on two fixes in a row, or until it is
// out of reach; an edge joined to it that scores better takes over at once, since that is the road going on past a junction. Three fixes with
// no road in reach end the match.
//
// `scan`, `score` and `keep` search a tile; `near`, `gather` and `choose` go over the tiles around a fix; `settle` makes the match, `state`
// has number 12.
#![tactic(auto)]

pub mod choose;
pub mod gather;
mod keep;
pub mod near;
mod scan;
pub mod score;
mod settle;
pub mod state;

ghost use Rattle.matcher.specs.Calls as Calls;
ghost use Rattle.tile.specs.Layout as Layout;
ghost use Rattle.matcher.specs.Scan as Scan;
ghost use Rattle.matcher.specs.Tile as Tile;
ghost use Rattle.std.specs.Prelude.{◌≡◌};

use cache::{Aging, Cache, Lookup};
use geo::{Metres, Point};
use pack::{Header, TileKey};
use refusal::Refusal;
use tile::TileId;

// A heading is either none or a degree figure.
#[derive(Clone, Copy)]
pub enum Heading {
    Nothing,
    Degrees(f32),
}

// The rider's place on the road graph.
#[derive(Clone, Copy)]
pub struct Matched {
    pub tile: TileId,
    pub edge: u16,
    // The point index that the projection lies after, and how far along that segment, 0 to 1.
    pub segment: u16,
    pub fraction: f32,
    pub forward: Option<bool>,
    // Distance from the fix to the road.
    pub offset_m: f32,
    // Elevation of the projected point, decimetres.
    pub z_dm: i32,
    pub class: u8,
    pub flags: u8,
    // 0 to 100.
    pub confidence: u8,
    // Distance ridden along this edge in direction `forward` since the match came onto it or its direction last reversed; 0 while unknown.
    pub ridden_m: f32,
}

// The closest segment of one edge: its points in metres from the fix.
#[derive(Clone, Copy)]
pub(crate) struct Nearest {
    pub segment: u16,
    pub fraction: f32,
    pub distance: f32,
    pub a: Metres,
    pub b: Metres,
}

#[derive(Clone, Copy)]
pub struct Candidate {
    pub found: Matched,
    pub cost: f32,
    // Shares a node with the current match: the road on past a junction.
    pub joined: bool,
    // Its nearest point is one of its end nodes: the rider is near where it starts, not beside it.
    pub at_node: bool,
    // Distance along the edge from its `from` node to the projected fix.
    pub along_m: f32,
}

// The candidates kept, at most eight, and how many they are.
#[derive(Clone, Copy)]
pub struct Kept {
    pub v: [Candidate; 8],
    pub len: usize,
}

// What a search is given beside a tile: the header, the fix, its heading, and the current match.
#[derive(Clone, Copy)]
pub struct Query {
    pub header: Header,
    pub fix: Point,
    pub heading: Heading,
    pub current: Option<Matched>,
}

// The closest segment of an edge of a tile, if one is in reach.
fn reached(q: Query, key: TileKey, lon_um: u32, bytes: &[u8], number: u16) -> Option<Nearest>
    ensures { result ≡ Scan.scan q.header bytes.now key (Layout.edge_of bytes.now number) q.fix lon_um }
{
    let edge = tile::raw::edge(bytes, number);
    let header = q.header;
    let fix = q.fix;
    scan::scan(header, bytes, key, edge, fix, lon_um)
}

// The edges of a tile, in order. A candidate is written into its place, so that what is kept is not copied from edge to edge.
pub(crate) fn search(k: Kept, q: Query, bytes: &[u8]) -> Kept
    ensures { result ≡ Tile.search k q bytes.now }
{
    let head = tile::read::head(bytes);
    let id = tile::read::id(bytes);
    let lon_um = head.lon_um;
    let mut d = k;
    for number in 0..head.edges {
        let Some(n) = reached(q, id.key, lon_um, bytes, number) else {
            continue;
        };
        let c = score::candidate_at(q, id, lon_um, bytes, number, n);
        let place = keep::place_of(d, c.cost);
        if 8 <= place {
            continue;
        }
        d.v[place] = c;
        d.len = keep::len_after(d.len);
    }
    d
}

#[derive(Clone, Copy)]
pub struct Matcher {
    pub current: Option<Matched>,
    // An edge that beat the current match, on how many fixes in a row: its tile, its number, how many.
    pub challenger: Option<(TileId, u16, u8)>,
    pub misses: u8,
    // Where along the matched edge the run in its direction began: `along_m` of the match onto the edge or of the reversal.
    pub run_from_m: f32,
}

// One of the tiles that a search around a fix needs, or none.
#[derive(Clone, Copy)]
pub struct NearKey {
    pub key: Option<TileKey>,
}

// They, at most four, and how many they are.
#[derive(Clone, Copy)]
pub struct NearKeys {
    pub keys: [NearKey; 4],
    pub len: usize,
}

// What the lookup of one of them lands on, before its late check; Missing where there is no tile.
// A refusal is a number here and no `Refusal`: `gather::searched` is public and named in docs/, and takes a lookup that was refused with any number.
#[derive(Clone, Copy)]
pub struct Landed {
    pub lookup: Result<Lookup, u32>,
}

// Of each of the four.
#[derive(Clone, Copy)]
pub struct Landings {
    pub v: [Landed; 4],
}

// The keys stand beside the answer, none where it was refused.
#[derive(Clone, Copy)]
pub struct NearRead {
    pub answer: Result<(), Refusal>,
    pub near: NearKeys,
}

// How a match ended: with a match, or none; with a tile that is needed first.
#[derive(Clone, Copy)]
pub enum Outcome {
    Found(Matched),
    Nothing,
    Need(TileKey),
}

// A match, and how many of the tiles around the fix count as gone through, none on the late 12: those of them that were found are the most recently used
// now.
#[derive(Clone, Copy)]
pub struct Searched {
    pub answer: Result<Outcome, Refusal>,
    pub matcher: Matcher,
    pub tiles: usize,
}

// A match with what it does to clock and ages beside the cache.
#[derive(Clone, Copy)]
pub struct Made {
    pub answer: Result<Outcome, Refusal>,
    pub matcher: Matcher,
    pub uses: Aging,
}

#[derive(Clone, Copy)]
pub struct Updated {
    pub answer: Result<Outcome, Refusal>,
    pub matcher: Matcher,
    pub cache: Cache,
}

// The tiles that a search around a fix needs: 12 for the header, 8 for the point.
pub fn nearby(header: Header, fix: Point) -> NearRead
    ensures { result ≡ Calls.nearby header fix }
{
    if !header.rules() {
        return NearRead {
            answer: Err(Refusal::BadState),
            near: near::no_keys(),
        };
    }
    if !pack::grid::is_point(fix.lat, fix.lon) {
        return NearRead {
            answer: Err(Refusal::OutOfRange),
            near: near::no_keys(),
        };
    }
    NearRead {
        answer: Ok(()),
        near: near::near_of(header, fix),
    }
}

impl Matcher {
    // A matcher that has matched nothing.
    pub fn reset() -> Matcher
        ensures { result ≡ Calls.reset }
    {
        Matcher {
            current: None,
            challenger: None,
            misses: 0,
            run_from_m: 0.0,
        }
    }

    // The match as it stands.
    #[tactic(auto, unfolding(crate::specs::Calls::current))]
    pub fn current(self) -> Result<Option<Matched>, Refusal>
        ensures { result ≡ Calls.current self }
    {
        if !state::counts_ok(self) {
            return Err(Refusal::BadState);
        }
        Ok(self.current)
    }

    // Match one fix.
    pub fn update(
        self,
        cache: Cache,
        arena: &[u8],
        header: Header,
        fix: Point,
        heading: Heading,
    ) -> Updated
        ensures { result ≡ Calls.update self cache arena.now header fix heading }
    {
        if !state::call_ok(self, cache, header, arena.len()) {
            return state::refused(self, cache, Refusal::BadState);
        }
        gather::updated(self, cache, arena, header, fix, heading)
    }
}
