// What an edge in reach of the fix costs, and the candidate that it makes.
ghost use Rattle.std.specs.Prelude.{◌≡◌, ℤ};
ghost use Rattle.matcher.specs.Score as Score;

use crate::{Candidate, Heading, Matched, Nearest, Query};
use tile::{Edge, TileId};

// A cost, and the direction that goes with it.
#[derive(Drop)]
pub(crate) struct AimCost {
    pub cost: f32,
    pub forward: Option<bool>,
}

// A cost, and whether the edge is joined to the current match.
#[derive(Drop)]
pub(crate) struct BonusCost {
    pub cost: f32,
    pub joined: bool,
}

pub fn same_id(a: TileId, b: TileId) -> bool
    ensures { result ≡ Score.same_id a b }
{
    if !cache::keys::same_key(a.key, b.key) {
        return false;
    }
    if a.crc == b.crc {
        return a.edges == b.edges;
    }
    false
}

// Whether a match is on this edge of this tile.
pub fn is_on(m: Matched, id: TileId, edge: u16) -> bool
    ensures { result ≡ Score.is_on m id edge }
{
    if same_id(m.tile, id) {
        return m.edge == edge;
    }
    false
}

// The direction held on the edge already matched; unknown on any other.
fn held_on(current: Option<Matched>, id: TileId, edge: u16) -> Option<bool>
    ensures { result ≡ Score.held_on current id edge }
{
    match current {
        None => None,
        Some(m) => {
            let forward = m.forward;
            if is_on(m, id, edge) {
                return forward;
            }
            None
        }
    }
}

// Whether the edge's own direction is kept: a held one unless the heading clearly reverses, else the closer.
fn keeps_forward(held: Option<bool>, ahead: f32, back: f32) -> bool
    ensures { result ≡ Score.keeps_forward held ahead back }
{
    match held {
        None => ahead <= back,
        Some(forward) => {
            if forward {
                return ahead <= 135.0;
            }
            back > 135.0
        }
    }
}

// A heading error counts at most 60 degrees while a direction is held.
fn limited(held: Option<bool>, error: f32) -> f32
    ensures { result ≡ Score.limited held error }
{
    match held {
        None => error,
        Some(_) => num::order::min(error, 60.0),
    }
}

// A oneway against its direction still matches, at a price.
fn penalty(oneway: bool, ahead: f32) -> f32
    ensures { result ≡ Score.penalty oneway ahead }
{
    if oneway && ahead > 90.0 {
        return 4.0;
    }
    0.0
}

fn heading_cost(error: f32, extra: f32) -> f32
    ensures { result ≡ Score.heading_cost error extra }
{
    (error / 35.0) * (error / 35.0) + extra
}

// The cost of a heading, with the direction that it tells.
fn aimed(degrees: f32, bearing: f32, oneway: bool, held: Option<bool>, cost: f32) -> AimCost
    ensures { result ≡ Score.aimed degrees bearing oneway held cost }
{
    let ahead = num::order::fabsf(geo::flat::turn(degrees, bearing));
    let back = 180.0 - ahead;
    let keeps = keeps_forward(held, ahead, back);
    if keeps || oneway {
        let error = limited(held, ahead);
        return AimCost {
            cost: cost + heading_cost(error, penalty(oneway, ahead)),
            forward: Some(true),
        };
    }
    let error = limited(held, back);
    AimCost {
        cost: cost + heading_cost(error, 0.0),
        forward: Some(false),
    }
}

fn aim(heading: Heading, bearing: f32, oneway: bool, held: Option<bool>, cost: f32) -> AimCost
    ensures { result ≡ Score.aim heading bearing oneway held cost }
{
    match heading {
        Heading::Nothing => AimCost {
            cost,
            forward: None,
        },
        Heading::Degrees(d) => aimed(d, bearing, oneway, held, cost),
    }
}

// Whether two edges share a node.
fn shares_node(a: Edge, b: Edge) -> bool
    ensures { result ≡ Score.shares_node a b }
{
    if a.from == b.from {
        return true;
    }
    if a.from == b.to {
        return true;
    }
    if a.to == b.from {
        return true;
    }
    a.to == b.to
}

// The bonus of the edge already matched, or of one joined to it.
fn bonus_of(m: Matched, id: TileId, number: u16, bytes: &[u8], edge: Edge, cost: f32) -> BonusCost
    ensures { result ≡ Score.bonus_of m id number bytes.now edge cost }
{
    if !same_id(m.tile, id) {
        return BonusCost {
            cost,
            joined: false,
        };
    }
    if m.edge == number {
        return BonusCost {
            cost: cost - 1.0,
            joined: false,
        };
    }
    let was = tile::raw::edge(bytes, m.edge);
    if shares_node(was, edge) {
        return BonusCost {
            cost: cost - 0.5,
            joined: true,
        };
    }
    BonusCost {
        cost,
        joined: false,
    }
}

fn bonus(
    current: Option<Matched>,
    id: TileId,
    number: u16,
    bytes: &[u8],
    edge: Edge,
    cost: f32,
) -> BonusCost
    ensures { result ≡ Score.bonus current id number bytes.now edge cost }
{
    match current {
        None => BonusCost {
            cost,
            joined: false,
        },
        Some(m) => bonus_of(m, id, number, bytes, edge, cost),
    }
}

// Whether the projected point is one of the edge's end nodes.
fn at_node(n: Nearest, vertices: u16) -> bool
    ensures { result ≡ Score.at_node n vertices }
{
    if n.segment == 0 && n.fraction <= 0.0 {
        return true;
    }
    if n.segment == vertices {
        return n.fraction >= 1.0;
    }
    false
}

// za and a part of the way to zb, cut toward zero; held to ±1,000,000, which heights never reach.
fn height(za: i32, zb: i32, fraction: f32) -> i32
    ensures { result ≡ Score.height za zb fraction }
{
    let rise = num::convert::f32_of_i64((zb as i64) - (za as i64)) * fraction;
    let z = (za as i64) + (num::cast::i32_of_f32(rise) as i64);
    if z < -1000000 {
        return -1000000;
    }
    if 1000000 < z {
        return 1000000;
    }
    z as i32
}

// The elevation of the projected point.
fn height_at(bytes: &[u8], edge: Edge, n: Nearest) -> i32
    ensures { result ≡ Score.height_at bytes.now edge n }
{
    let from = n.segment as usize;
    let a = tile::raw::point(bytes, edge, from);
    let b = tile::raw::point(bytes, edge, from + 1);
    height(geo::flat::z_dm(a), geo::flat::z_dm(b), n.fraction)
}

// The cost of a segment by its distance and the heading along it.
fn aim_at(q: Query, id: TileId, number: u16, edge: Edge, n: Nearest) -> AimCost
    ensures { result ≡ Score.aim_at q id number edge n }
{
    let a = n.a;
    let b = n.b;
    let bearing = geo::flat::bearing(b.east - a.east, b.north - a.north);
    let near = (n.distance / 15.0) * (n.distance / 15.0);
    let heading = q.heading;
    let current = q.current;
    let held = held_on(current, id, number);
    aim(heading, bearing, edge.has(tile::flag::ONEWAY), held, near)
}

// The match that an edge's closest segment would make.
fn matched_at(
    id: TileId,
    number: u16,
    edge: Edge,
    n: Nearest,
    forward: Option<bool>,
    z_dm: i32,
) -> Matched
    ensures { result ≡ Score.matched_at id number edge n forward z_dm }
{
    Matched {
        tile: id,
        edge: number,
        segment: n.segment,
        fraction: n.fraction,
        forward,
        offset_m: n.distance,
        z_dm,
        class: edge.class,
        flags: edge.flags,
        confidence: 0,
        ridden_m: 0.0,
    }
}

// The candidate of an edge whose closest segment is `n`.
pub(crate) fn candidate_at(
    q: Query,
    id: TileId,
    lon_um: u32,
    bytes: &[u8],
    number: u16,
    n: Nearest,
) -> Candidate
    ensures { result ≡ Score.candidate_at q id lon_um bytes.now number n }
{
    let edge = tile::raw::edge(bytes, number);
    let header = q.header;
    let along_m = crate::scan::along_to(header, bytes, id.key, edge, n, lon_um);
    let aimed = aim_at(q, id, number, edge, n);
    let current = q.current;
    let eased = bonus(current, id, number, bytes, edge, aimed.cost);
    let forward = aimed.forward;
    let found = matched_at(id, number, edge, n, forward, height_at(bytes, edge, n));
    Candidate {
        found,
        cost: eased.cost,
        joined: eased.joined,
        at_node: at_node(n, edge.vertices),
        along_m,
    }
}
