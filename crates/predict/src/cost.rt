// What a way on costs: the turn, then the road, its class, slip roads, tracks and cycleways, in the Rust's order.
ghost use Rattle.std.specs.Prelude.{◌≡◌, ℤ};
ghost use Rattle.predict.specs.Cost as Cost;

use tile::Edge;

// The road that is followed: its class, name and flags.
#[derive(Clone, Copy)]
pub struct Road {
    pub class: u8,
    pub group: u16,
    pub flags: u8,
}

// The heading that turns are judged by, and whether that is the one with which a roundabout was entered.
#[derive(Clone, Copy)]
pub struct Bound {
    pub heading: f32,
    pub round: bool,
}

// The turn; going on round a roundabout has a price of its own.
fn turn_cost(bound: Bound, heading: f32, next: Edge) -> f32
    ensures { result ≡ Cost.turn_cost bound heading next }
{
    if bound.round && next.has(tile::flag::ROUNDABOUT) {
        return 1.2;
    }
    let turn = num::order::fabsf(geo::flat::turn(bound.heading, heading));
    num::order::min(turn / 30.0, 4.0)
}

// Staying on the same named road.
fn with_name(cost: f32, road: Road, next: Edge) -> f32
    ensures { result ≡ Cost.with_name cost road next }
{
    if road.group != 0 && next.group == road.group {
        return cost - 3.0;
    }
    cost
}

// More minor costs more than more major saves.
fn with_class(cost: f32, road: Road, next: Edge) -> f32
    ensures { result ≡ Cost.with_class cost road next }
{
    let step = (next.class as i32) - (road.class as i32);
    if step > 0 {
        return cost + 0.8 * num::convert::f32_of_i32(step);
    }
    cost + 0.2 * num::convert::f32_of_i32(step)
}

// Leaving the road for a slip road.
fn with_link(cost: f32, road: Road, next: Edge) -> f32
    ensures { result ≡ Cost.with_link cost road next }
{
    if next.has(tile::flag::LINK) && road.flags & tile::flag::LINK == 0 {
        return cost + 1.5;
    }
    cost
}

fn off_road(class: u8) -> bool
    ensures { result ≡ Cost.off_road class }
{
    if class == tile::class::TRACK {
        return true;
    }
    class == tile::class::PATH
}

// Leaving the road for a track or a path.
fn with_track(cost: f32, road: Road, next: Edge) -> f32
    ensures { result ≡ Cost.with_track cost road next }
{
    if off_road(next.class) && !off_road(road.class) {
        return cost + 2.0;
    }
    cost
}

// Leaving the road for a cycleway.
fn with_cycleway(cost: f32, road: Road, next: Edge) -> f32
    ensures { result ≡ Cost.with_cycleway cost road next }
{
    if next.class == tile::class::CYCLEWAY && road.class != tile::class::CYCLEWAY {
        return cost + 1.0;
    }
    cost
}

// All of it, one rounding an operation.
pub(crate) fn cost_of(bound: Bound, road: Road, heading: f32, next: Edge) -> f32
    ensures { result ≡ Cost.cost_of bound road heading next }
{
    let a = turn_cost(bound, heading, next);
    let b = with_name(a, road, next);
    let c = with_class(b, road, next);
    let d = with_link(c, road, next);
    let e = with_track(d, road, next);
    with_cycleway(e, road, next)
}
