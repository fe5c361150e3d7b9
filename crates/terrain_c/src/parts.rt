// The cache by itself.
ghost use Rattle.std.specs.Prelude.{◌≡◌};
ghost use Rattle.terrain.specs.Records as Records;
ghost use Rattle.terrain.specs.Parts as Parts;

use terrain::parts::{TerrainCount, TerrainLookup, TerrainProgress, TerrainRequest};
use terrain::records::{TerrainHeader, TerrainKey};

#[unsafe(no_mangle)]
pub extern "C" fn terrain_cache_capacity(engine: &[u32; words::WORDS], arena: &[u8]) -> TerrainCount
    ensures { result ≡ Parts.count_out (Parts.capacity engine.now arena.now) }
{
    terrain::parts::terrain_cache_capacity(engine, arena)
}

#[unsafe(no_mangle)]
pub extern "C" fn terrain_cache_loads(engine: &[u32; words::WORDS], arena: &[u8]) -> TerrainCount
    ensures { result ≡ Parts.count_out (Parts.loads engine.now arena.now) }
{
    terrain::parts::terrain_cache_loads(engine, arena)
}

// Pages that a ready tile takes, one for anything else.
#[unsafe(no_mangle)]
pub extern "C" fn terrain_cache_pages(
    engine: &[u32; words::WORDS],
    arena: &[u8],
    header: TerrainHeader,
    key: TerrainKey,
) -> TerrainCount
    ensures { result ≡ Parts.count_out (Parts.pages engine.now arena.now (Records.header_of header) (Records.key_of key)) }
{
    terrain::parts::terrain_cache_pages(engine, arena, header, key)
}

#[unsafe(no_mangle)]
pub extern "C" fn terrain_cache_get(
    engine: &mut [u32; words::WORDS],
    arena: &[u8],
    header: TerrainHeader,
    key: TerrainKey,
) -> TerrainLookup
    ensures value { result ≡ Parts.lookup_out (Parts.get engine.old arena.now (Records.header_of header) (Records.key_of key)).answer }
    ensures engine_after { engine.new ≡ Parts.after engine.old (Parts.get engine.old arena.now (Records.header_of header) (Records.key_of key)).cache }
{
    terrain::parts::terrain_cache_get(engine, arena, header, key)
}

// Drop everything, for a pack that changed.
#[unsafe(no_mangle)]
pub extern "C" fn terrain_cache_clear(engine: &mut [u32; words::WORDS], arena: &[u8]) -> u32
    ensures value { result ≡ Parts.clearing_out (Parts.clear engine.old arena.now).answer }
    ensures engine_after { engine.new ≡ Parts.after engine.old (Parts.clear engine.old arena.now).cache }
{
    terrain::parts::terrain_cache_clear(engine, arena)
}

// The read that the next step towards a tile makes. Nothing changes.
#[unsafe(no_mangle)]
pub extern "C" fn terrain_cache_fetch(
    engine: &[u32; words::WORDS],
    arena: &[u8],
    header: TerrainHeader,
    key: TerrainKey,
) -> TerrainRequest
    ensures { result ≡ Parts.request_out (Parts.fetch engine.now arena.now (Records.header_of header) (Records.key_of key)) }
{
    terrain::parts::terrain_cache_fetch(engine, arena, header, key)
}

// One step towards a tile, with its read answered.
#[unsafe(no_mangle)]
pub extern "C" fn terrain_cache_load(
    engine: &mut [u32; words::WORDS],
    arena: &mut [u8],
    header: TerrainHeader,
    key: TerrainKey,
    failure: u32,
    bytes: &[u8],
) -> TerrainProgress
    ensures value { result ≡ Parts.progress_out (Parts.load engine.old arena.old (Records.header_of header) (Records.key_of key) failure bytes.now).answer }
    ensures engine_after { engine.new ≡ Parts.after engine.old (Parts.load engine.old arena.old (Records.header_of header) (Records.key_of key) failure bytes.now).cache }
    ensures arena_after { arena.new ≡ (Parts.load engine.old arena.old (Records.header_of header) (Records.key_of key) failure bytes.now).arena }
{
    terrain::parts::terrain_cache_load(engine, arena, header, key, failure, bytes)
}

// One step towards a tile over a pack that is lent whole.
#[unsafe(no_mangle)]
pub extern "C" fn terrain_cache_load_from(
    engine: &mut [u32; words::WORDS],
    arena: &mut [u8],
    header: TerrainHeader,
    key: TerrainKey,
    pack: &[u8],
) -> TerrainProgress
    ensures value { result ≡ Parts.progress_out (Parts.load_from engine.old arena.old (Records.header_of header) (Records.key_of key) pack.now).answer }
    ensures engine_after { engine.new ≡ Parts.after engine.old (Parts.load_from engine.old arena.old (Records.header_of header) (Records.key_of key) pack.now).cache }
    ensures arena_after { arena.new ≡ (Parts.load_from engine.old arena.old (Records.header_of header) (Records.key_of key) pack.now).arena }
{
    terrain::parts::terrain_cache_load_from(engine, arena, header, key, pack)
}
