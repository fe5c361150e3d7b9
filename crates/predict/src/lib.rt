// The most likely road ahead, and its elevation every 20 m: the Rust's predict.rs.
//
// From the matched point the walk follows the edge in the travel direction. At a junction it scores every way on, and stops where two are
// about as likely. Each decision lowers the confidence a little, more when it was close.
//
// `samples` has the heights, with the mark and the heights lent side by side; `spots` says where an edge's points stand, and how far apart, in
// numbers; `start`, `vertex`, `incoming` and `ridden` move along one edge and look no tile up; `twins`, `outgoing`, `cost` and `choose` have the ways on from a junction, `visits`, `meets`, `consider`, `cross` and
// `decide` the one that is taken; `turn`, `enter` and `follow` go from edge to edge up to the horizon; `road` is the whole.
#![tactic(auto)]

pub mod choose;
mod consider;
mod cost;
mod cross;
mod decide;
mod enter;
mod follow;
mod incoming;
mod meets;
pub mod outgoing;
pub mod ridden;
pub mod road;
mod samples;
mod spots;
mod start;
mod turn;
pub mod twins;
mod vertex;
mod visits;

ghost use Rattle.predict.specs.Predict as Predict;
ghost use Rattle.std.specs.Prelude.{◌≡◌};

use crate::cost::{Bound, Road};
use cache::Cache;
use geo::Point;
use matcher::{Heading, Matched};
use pack::{Header, TileKey};
use refusal::Refusal;

// How many samples are written, and the last road point: its distance, and its height in decimetres.
#[derive(Clone, Copy)]
pub struct Mark {
    pub len: usize,
    pub distance: f32,
    pub z: i32,
}

// An edge of a tile, and the direction in which it is followed.
#[derive(Clone, Copy)]
pub struct Way {
    pub tile: TileKey,
    pub edge: u16,
    pub forward: bool,
}

#[derive(Clone, Copy)]
pub struct Choice {
    pub way: Way,
    pub cost: f32,
}

// The choices of a junction, at most twelve, and how many they are.
#[derive(Clone, Copy)]
pub struct Choices {
    pub v: [Choice; 12],
    pub len: usize,
}

// What a road ahead is worked out for: the map, how far, and the rider's height in decimetres.
#[derive(Clone, Copy)]
pub struct Trip {
    pub header: Header,
    pub horizon_m: f32,
    pub z_dm: i32,
}

// The points passed last, at most sixteen, the oldest first, and how many they are: latitudes, longitudes, distances.
#[derive(Clone, Copy)]
pub struct History {
    pub lats: [i32; 16],
    pub lons: [i32; 16],
    pub distances: [f32; 16],
    pub len: usize,
}

// A track but for its history, whose arrays are lent beside it.
#[derive(Clone, Copy)]
pub(crate) struct Course {
    pub here: Point,
    pub distance: f32,
    pub mark: Mark,
    pub len: usize,
    pub over: bool,
}

// How far the road has been followed. It is over at the horizon, or with the last sample.
#[derive(Clone, Copy)]
pub struct Track {
    pub here: Point,
    pub distance: f32,
    pub mark: Mark,
    pub history: History,
    pub over: bool,
}

// Why the road ahead stops where it does.
#[derive(Clone, Copy)]
pub enum End {
    // The full horizon was followed.
    Horizon,
    // Two ways ahead are about as likely: the road splits here.
    Fork,
    // The road ends.
    DeadEnd,
    // The road leaves the pack.
    MapEdge,
    // Too many close decisions, or no travel direction yet.
    Uncertain,
    // The road ahead touches more tiles than the cache holds.
    Memory,
}

// How a walk stands: it goes on; the road stops; a tile that is not loaded; a ready run that no longer passes.
#[derive(Clone, Copy)]
pub enum Ending {
    Going,
    Stops(End),
    Need(TileKey),
    Stale,
}

// The numbers that the edges followed last take (`visits`).
pub(crate) const VISITED: usize = 386;

// The numbers that the tiles met take (`meets`).
pub(crate) const MET: usize = 194;

// How the walk comes to a junction: the way it came by, the heading that turns are judged by, and the road that it follows.
#[derive(Clone, Copy)]
pub struct Arrival {
    pub header: Header,
    pub way: Way,
    pub bound: Bound,
    pub road: Road,
}

// The ways on, whether one may lie off the map, and how the lookups of the tiles that share the node ended.
#[derive(Clone, Copy)]
pub(crate) struct Crossing {
    pub choices: Choices,
    pub blocked: bool,
    pub ending: Ending,
}

// The way that is taken, and how sure the road is after it.
#[derive(Clone, Copy)]
pub struct Decision {
    pub ending: Ending,
    pub way: Way,
    pub confidence: f32,
}

// A walk before an edge: the way it takes, and the number of the first point along it that lies ahead; the heading with which a roundabout was
// entered, and that of the approach to one; the road that it prefers; how sure it is; and whether it goes on. How far it has come is its track;
// the edges and tiles behind it are lent as numbers.
#[derive(Clone, Copy)]
pub struct Walk {
    pub way: Way,
    pub from: u32,
    pub entry: Heading,
    pub approach: f32,
    pub road: Road,
    pub confidence: f32,
    pub ending: Ending,
}

// A walk, and how far it has come.
#[derive(Drop)]
pub(crate) struct Followed {
    pub walk: Walk,
    pub track: Track,
}

// A walk, and the course that it has come.
#[derive(Drop)]
pub(crate) struct Walked {
    pub walk: Walk,
    pub course: Course,
}

// Samples for 10 km, both ends included.
pub const MAX_SAMPLES: usize = 501;

// Samples for the 200 m behind the rider, both ends included.
pub const BEHIND_SAMPLES: usize = 11;

#[derive(Clone, Copy)]
pub struct Prediction {
    // Samples written, from the rider (sample 0) on.
    pub len: usize,
    // Samples written behind the rider, from the rider (sample 0) back.
    pub behind: usize,
    // Distance from the rider to the last of them.
    pub behind_m: f32,
    pub end: End,
    // Distance followed.
    pub end_m: f32,
    // 0 to 100.
    pub confidence: u8,
}

// How it ended: with a road; with a tile that is needed first; with a start whose tile is no longer the start's.
#[derive(Clone, Copy)]
pub enum Outcome {
    Road(Prediction),
    Need(TileKey),
    Rematch,
}

#[derive(Clone, Copy)]
pub struct Predicted {
    pub answer: Result<Outcome, Refusal>,
    pub cache: Cache,
}

// Follow the road from `start` for up to `horizon_m`, writing elevations relative to the rider into `samples`, and those of the road just ridden
// along the matched edge into `behind`.
pub fn predict(
    cache: Cache,
    arena: &[u8],
    header: Header,
    start: Matched,
    horizon_m: f32,
    samples: &mut [i16; MAX_SAMPLES],
    behind: &mut [i16; BEHIND_SAMPLES],
) -> Predicted
    ensures value { result ≡ (Predict.predict cache arena.now header start horizon_m samples.old behind.old).predicted }
    ensures samples_after { samples.new ≡ (Predict.predict cache arena.now header start horizon_m samples.old behind.old).samples }
    ensures behind_after { behind.new ≡ (Predict.predict cache arena.now header start horizon_m samples.old behind.old).behind }
{
    if !cache::state::cache_ok(cache, header, arena.len()) {
        return road::refused(cache, Refusal::BadState);
    }
    road::predicted(cache, arena, header, start, horizon_m, samples, behind)
}
