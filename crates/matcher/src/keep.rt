// The candidates kept, at most eight: a ninth takes the place of the dearest, if it is cheaper.
ghost use Rattle.std.specs.Prelude.{◌≡◌};
ghost use Rattle.matcher.specs.Keeping as Keeping;
ghost use Rattle.matcher.specs.Placing as Placing;

use crate::{Candidate, Kept, Matched};
use pack::TileKey;
use std::cmp::Ordering;
use tile::TileId;

pub(crate) fn no_candidate() -> Candidate
    ensures { result ≡ Keeping.no_candidate }
{
    let tile = TileId {
        key: TileKey { row: 0, col: 0 },
        crc: 0,
        edges: 0,
    };
    let found = Matched {
        tile,
        edge: 0,
        segment: 0,
        fraction: 0.0,
        forward: None,
        offset_m: 0.0,
        z_dm: 0,
        class: 0,
        flags: 0,
        confidence: 0,
        ridden_m: 0.0,
    };
    Candidate {
        found,
        cost: 0.0,
        joined: false,
        at_node: false,
        along_m: 0.0,
    }
}

pub(crate) fn none_kept() -> Kept
    ensures { result ≡ Keeping.none_kept }
{
    let c = no_candidate();
    let v = [c; 8];
    Kept { v, len: 0 }
}

// The dearest so far, and where it stands.
#[derive(Drop)]
struct Dearest {
    at: usize,
    cost: f32,
}

// One more: of equals the last.
fn dearer(d: Dearest, i: usize, cost: f32) -> Dearest
    ensures { result ≡ Keeping.dearer d i cost }
{
    match num::order::total_cmp(cost, d.cost) {
        Ordering::Less => d,
        Ordering::Equal => Dearest { at: i, cost },
        Ordering::Greater => Dearest { at: i, cost },
    }
}

// The dearest of all eight.
#[tactic(auto, using(num::proofs::FoldLaws::up_start, num::proofs::FoldLaws::up_turn, crate::proofs::KeepLaws::at_any), unfolding(crate::specs::Keeping::dearest_of))]
fn dearest_of(k: Kept) -> Dearest
    ensures { result ≡ Keeping.dearest_of k }
{
    let first = k.v[0];
    let mut d = Dearest {
        at: 0,
        cost: first.cost,
    };
    for (i, c) in k.v.iter().enumerate() {
        d = dearer(d, i, c.cost);
    }
    d
}

// Where a candidate of a cost is kept: in a free place, or in that of the dearest; 8 where it is dropped, which one as dear as that is.
pub(crate) fn place_of(k: Kept, cost: f32) -> usize
    ensures { result ≡ Placing.place_of k cost }
{
    if k.len < 8 {
        return k.len;
    }
    let worst = dearest_of(k);
    if cost < worst.cost {
        return worst.at;
    }
    8
}

// How many are kept once one more is.
pub(crate) fn len_after(len: usize) -> usize
    ensures { result ≡ Placing.len_after len }
{
    if len < 8 {
        return len + 1;
    }
    len
}
