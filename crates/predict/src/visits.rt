// The edges followed last: none of them is followed again.
ghost use Rattle.std.specs.Prelude.{◌≡◌, ◌<◌, max};
ghost use Rattle.predict.specs.Visits as Visits;

use pack::TileKey;

// The larger of two.
fn larger(a: u32, b: u32) -> u32
    ensures { result ≡ max a b }
{
    if a < b {
        return b;
    }
    a
}

// One edge more, in the place of the oldest once all are taken.
pub(crate) fn visit(visited: &mut [u32; crate::VISITED], key: TileKey, edge: u16)
    ensures { visited.new ≡ Visits.visit visited.old key edge }
{
    let at = (visited[384] % 128) as usize;
    visited[at] = (edge as u32) + 1;
    visited[128 + at] = key.row as u32;
    visited[256 + at] = key.col as u32;
    visited[384] = ((at + 1) % 128) as u32;
    visited[385] = larger(visited[385], (at as u32) + 1);
}

// Whether the edge at a place is this one.
fn is_followed(visited: &[u32; crate::VISITED], i: usize, key: TileKey, edge: u16) -> bool
    requires { i < 128 }
    ensures { result ≡ Visits.is_followed visited.now i key edge }
{
    if visited[i] != (edge as u32) + 1 {
        return false;
    }
    if visited[128 + i] != key.row as u32 {
        return false;
    }
    visited[256 + i] == key.col as u32
}

// A number of those, as a place.
fn wide(n: u32) -> usize
    ensures { result ≡ n }
{
    n as usize
}

pub(crate) fn was_visited(visited: &[u32; crate::VISITED], key: TileKey, edge: u16) -> bool
    ensures { result ≡ Visits.was_visited visited.now key edge }
{
    let n = wide(visited[385]);
    for i in 0..n {
        if 128 <= i {
            return false;
        }
        if is_followed(visited, i, key, edge) {
            return true;
        }
    }
    false
}
