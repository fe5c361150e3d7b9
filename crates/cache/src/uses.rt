// The clock and the ages by themselves, which a match moves once it is made: no lookup of it changes the state.
ghost use Rattle.std.specs.Prelude.{◌≡◌};
ghost use Rattle.cache.specs.Uses as Uses;

use crate::{Aging, Cache};

// Before the first lookup.
pub fn uses_of(c: Cache) -> Aging
    ensures { result ≡ Uses.uses_of c }
{
    let used = c.pages.used;
    Aging {
        clock: c.pages.clock,
        used,
    }
}

// The run from page `i` on as the most recently used.
pub fn used_at(a: Aging, i: usize) -> Aging
    ensures { result ≡ Uses.used_at a i }
{
    let mut d = a;
    let now = d.clock.wrapping_add(1);
    d.clock = now;
    if i < crate::MAX_PAGES {
        d.used[i] = now;
    }
    d
}

// The cache with the clock and the ages that lookups left.
pub fn with_uses(c: Cache, a: Aging) -> Cache
    ensures { result ≡ Uses.with_uses c a }
{
    let mut d = c;
    let used = a.used;
    d.pages.used = used;
    d.pages.clock = a.clock;
    d
}
