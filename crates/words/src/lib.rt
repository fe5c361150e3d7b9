// The engine's state as 32-bit words that a host owns. One number a word, in the order in which the structs declare their fields; a 64-bit number is two words, the low one first;
// a signed number is in two's complement, a float its bits, with 0x7fc00000 for not-a-number; false is 0 and true 1. A key is row · 65,536 + col. An enum is its tag, 0
// for the first variant, and its fields, 0 where the variant has none.
//
// | From  | Words   | What                                                                                              |
// | ----- | ------- | ------------------------------------------------------------------------------------------------- |
// | 0     | 1       | the layout's version                                                                              |
// | 1     | 1       | phase                                                                                             |
// | 2     | 13      | header                                                                                            |
// | 15    | 96 × 3  | slots: has key + 2 · ready + 4 · part, part 0 for a first page and h + 1 for one of page h; key; length |
// | 303   | 96      | when each was last used                                                                           |
// | 399   | 2       | count, clock                                                                                      |
// | 401   | 64 × 2  | ring of missing tiles: tag, key                                                                   |
// | 529   | 1       | its next place                                                                                    |
// | 530   | 6       | load: tag, key, slot, offset, length, done                                                        |
// | 536   | 2       | open fetch: tag, key                                                                              |
// | 538   | 1       | loads                                                                                             |
// | 539   | 5       | fix: tag, lat, lon, time (2)                                                                      |
// | 544   | 16 × 2  | places before it: lat, lon                                                                        |
// | 576   | 1       | how many                                                                                          |
// | 577   | 2       | heading: tag, degrees                                                                             |
// | 579   | 2       | its time                                                                                          |
// | 581   | 14      | match: tag, key, crc, edges, edge, segment, fraction, forward, offset, z, class, flags, confidence, ridden |
// | 595   | 6       | challenger: tag, key, crc, edges, edge, count                                                     |
// | 601   | 2       | misses, where the run began                                                                       |
// | 603   | 8       | due: matching, road, last road (3), need (2), reloads                                             |
// | 611   | 3       | road: generation, time (2)                                                                        |
// | 614   | 14      | its match                                                                                         |
// | 628   | 1       | its start's height                                                                                |
// | 629   | 501     | heights ahead                                                                                     |
// | 1,130 | 1       | how many                                                                                          |
// | 1,131 | 11      | heights behind                                                                                    |
// | 1,142 | 5       | how many, their metres, end, its metres, confidence                                               |
// | 1,147 | 3       | failures, horizon, steps                                                                          |
//
// `decode` and `encode` have the pieces, both ways, and `kept` the test that words are some engine's; `pages` number 12's causes in the cache's words, `look` the lookups there, `begin` a load that begins;
// `steps` a step on words, `work` its matches and roads, `deliver` the answer to a fetch and a step over a lent pack, `calls` the matcher's and predict's own calls.
#![tactic(auto)]

mod begin;
pub mod calls;
pub mod decode;
pub mod deliver;
pub mod encode;
mod kept;
mod look;
mod pages;
pub mod steps;
mod work;

ghost use Rattle.std.specs.Prelude.{◌≡◌, length};
ghost use Rattle.words.specs.Put as Put;
ghost use Rattle.words.specs.Words as Words;

use cache::Cache;
use engine::Engine;

pub const WORDS: usize = 1150;

pub const VERSION: u32 = 1;

// Whether the words are those of an engine, and the engine.
#[derive(Clone, Copy)]
pub struct Reading {
    pub accepted: bool,
    pub engine: Engine,
}

// How many words there are, which the prover has from a slice alone.
fn count(ws: &[u32]) -> usize
    ensures { result ≡ length ws.now }
{
    ws.len()
}

// What is read, written again, has to be the same words: those that no engine has come out as others.
pub fn accepted(ws: &[u32; WORDS]) -> bool
    ensures { result ≡ Words.accepted ws.now }
{
    crate::kept::engine(ws)
}

pub fn read(ws: &[u32; WORDS]) -> Reading
    ensures { (result.accepted ≡ Words.accepted ws.now) × (result.engine ≡ Words.engine_of ws.now) }
{
    let engine = crate::decode::engine(ws);
    Reading {
        accepted: accepted(ws),
        engine,
    }
}

// The cache alone, for calls that ask for no more.
pub fn cache(ws: &[u32; WORDS]) -> Cache
    ensures { result ≡ Words.cache_of ws.now 15 }
{
    crate::decode::cache(ws)
}

// The cache's words in their place, and no others written; nothing where there are not as many words as an engine has.
pub fn put_cache(c: Cache, ws: &mut [u32; WORDS])
    ensures { ws.new ≡ Put.cache_in c ws.old }
{
    if count(&*ws) != WORDS {
        return;
    }
    crate::encode::put_cache(c, ws);
}

pub fn write(e: Engine, out: &mut [u32; WORDS])
    ensures { out.new ≡ Words.words e }
{
    if count(&*out) == WORDS {
        crate::encode::engine(e, out);
        return;
    }
    let mut ws = [0u32; WORDS];
    crate::encode::engine(e, &mut ws);
    *out = ws;
}
