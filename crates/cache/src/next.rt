// What the next step towards a tile is, before its read.
ghost use Rattle.std.specs.Prelude.{◌≡◌};
ghost use Rattle.cache.specs.Lookups as Lookups;

use crate::look::Landing;
use crate::{Cache, Loading};
use pack::TileKey;

// What the next step towards a tile is.
#[derive(Clone, Copy, PartialEq, Eq, Debug)]
pub enum Next {
    Ready(usize),
    Missing,
    NoPages,
    Entry,
    Chunk(Loading),
}

// A chunk where this tile is being loaded, else its directory entry.
pub fn next_read(loading: Option<Loading>, key: TileKey) -> Next
    ensures { result ≡ Lookups.next_read loading key }
{
    match loading {
        None => Next::Entry,
        Some(l) => {
            if l.key == key {
                return Next::Chunk(l);
            }
            Next::Entry
        }
    }
}

pub(crate) fn next_step(c: Cache, key: TileKey) -> Next
    ensures { result ≡ Lookups.next_step c key }
{
    match crate::look::lands_on(c, key) {
        Landing::At(i) => Next::Ready(i),
        Landing::Missing => Next::Missing,
        Landing::Nothing => {
            if c.pages.count == 0 {
                return Next::NoPages;
            }
            next_read(c.loading, key)
        }
    }
}
