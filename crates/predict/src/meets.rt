// The tiles that the road touches, and the room that they take.
ghost use Rattle.std.specs.Prelude.{◌≡◌, ◌<◌};
ghost use Rattle.predict.specs.Meets as Meets;

use pack::TileKey;

// The pages that a road may take: all but room for two of the largest tiles, and at least one.
pub(crate) fn budget(count: usize) -> usize
    ensures { result ≡ Meets.budget count }
{
    if count <= 13 {
        return 1;
    }
    count - 12
}

// Whether the tile at a place is this one.
fn is_met(met: &[u64; crate::MET], i: usize, key: TileKey) -> bool
    requires { i < 96 }
    ensures { result ≡ Meets.is_met met.now i key }
{
    if met[i] != (key.row as u64) + 1 {
        return false;
    }
    met[96 + i] == key.col as u64
}

fn has_met(met: &[u64; crate::MET], key: TileKey) -> bool
    ensures { result ≡ Meets.has_met met.now key }
{
    let n = met[192] as usize;
    for i in 0..n {
        if 96 <= i {
            return false;
        }
        if is_met(met, i, key) {
            return true;
        }
    }
    false
}

// Whether another tile has room.
fn has_room(met: &[u64; crate::MET], pages: usize, budget: usize) -> bool
    ensures { result ≡ Meets.has_room met.now pages budget }
{
    if 96 <= met[192] {
        return false;
    }
    let taken = met[193] as usize;
    if budget < taken {
        return false;
    }
    pages <= budget - taken
}

// A tile of so many pages, once; whether it has room.
pub(crate) fn meet(met: &mut [u64; crate::MET], budget: usize, key: TileKey, pages: usize) -> bool
    ensures value { result ≡ (Meets.meet met.old budget key pages).fits }
    ensures met_after { met.new ≡ (Meets.meet met.old budget key pages).met }
{
    if has_met(&*met, key) {
        return true;
    }
    if !has_room(&*met, pages, budget) {
        return false;
    }
    let at = met[192] as usize;
    met[at] = (key.row as u64) + 1;
    met[96 + at] = key.col as u64;
    met[192] = (at + 1) as u64;
    met[193] = met[193] + (pages as u64);
    true
}
