// A load begins: the victim's runs evicted, and the new run placed over it. The caller has tested the tile's size (`MAX_TILE_BYTES`).
ghost use Rattle.std.specs.Prelude.{◌≡◌};
ghost use Rattle.cache.specs.Begin.{begun};

use crate::Pages;
use pack::TileKey;

// The pages after it, and where the run starts; as before, and nothing, where there is no victim.
#[derive(Drop)]
pub(crate) struct Begun {
    pub pages: Pages,
    pub at: Option<usize>,
}

pub(crate) fn begin(g: Pages, key: TileKey, len: u16) -> Begun
    ensures { result ≡ begun g key len }
{
    let n = crate::runs::span(len as usize);
    match crate::victim::victim(g, n) {
        None => Begun { pages: g, at: None },
        Some(s) => {
            let d = crate::evict::evict(g, s, n);
            let e = crate::evict::place(d, s, key, len);
            Begun {
                pages: e,
                at: Some(s),
            }
        }
    }
}
