// One step of a load: which read it makes, and what the state and the arena are once the read is answered.
ghost use Rattle.std.specs.Prelude.{◌≡◌, ◌+◌, ◌≤◌, length};
ghost use Rattle.std.proofs.Math.Seq.{paste};
ghost use Rattle.cache.specs.Endings as Endings;
ghost use Rattle.cache.specs.Loads as Loads;

use crate::next::Next;
use crate::{Cache, Loaded, Loading, Pages, Pending, Progress, Ring};
use pack::{Header, TileKey};
use refusal::Refusal;

// Bytes that a step of a load brings at most: four sectors, a few milliseconds of a card's time.
const CHUNK: u32 = 2048;

// Bytes that the next chunk of a load has.
pub fn chunk_len(l: Loading) -> u32
    ensures { result ≡ Loads.chunk_len l }
{
    l.len.saturating_sub(l.done).min(CHUNK)
}

// Where in the pack the next chunk of a load stands.
fn chunk_offset(l: Loading) -> u64
    ensures { result ≡ Loads.chunk_offset l }
{
    (l.offset as u64) + (l.done as u64)
}

// The read of the step `n`, in a cache whose state has been tested, towards a key in the grid.
pub(crate) fn fetched(
    c: Cache,
    n: Next,
    arena: &[u8],
    header: Header,
    key: TileKey,
) -> Result<Option<(u64, usize)>, Refusal>
    ensures { result ≡ Loads.fetched c n arena.now header key }
{
    match n {
        Next::Missing | Next::NoPages => Ok(None),
        Next::Entry => Ok(Some((pack::grid::entry_of(header, key), pack::ENTRY_BYTES))),
        Next::Chunk(l) => Ok(Some((chunk_offset(l), chunk_len(l) as usize))),
        Next::Ready(i) => {
            let s = crate::runs::slot_at(c.pages, i);
            if crate::look::passes(arena, i, s.len as usize, key, header.tile) {
                return Ok(None);
            }
            Err(Refusal::BadState)
        }
    }
}

// Bytes that the read of a step has, 0 where it makes none.
fn read_len(n: Next) -> usize
    ensures { result ≡ Loads.read_len n }
{
    match n {
        Next::Ready(_) | Next::Missing | Next::NoPages => 0,
        Next::Entry => pack::ENTRY_BYTES,
        Next::Chunk(l) => chunk_len(l) as usize,
    }
}

// Whether a read of `n` bytes, 0 for none, is answered by `len` bytes or by a failure.
fn fits(n: usize, failure: u32, len: usize) -> bool
    ensures { result ≡ Loads.fits n failure len }
{
    if failure == 0 {
        return len == n;
    }
    if 2 < failure {
        return false;
    }
    0 < n
}

// Whether the read of the step `n` is answered: number 11 where not. Towards a key outside the grid none is made.
pub(crate) fn takes(n: Next, header: Header, key: TileKey, failure: u32, len: usize) -> bool
    ensures { result ≡ Loads.takes n header key failure len }
{
    if !pack::grid::in_grid(header, key) {
        return fits(0, failure, len);
    }
    fits(read_len(n), failure, len)
}

pub(crate) fn refused(c: Cache, e: Refusal) -> Loaded
    ensures { result ≡ Loads.refused c e }
{
    Loaded {
        answer: Err(e),
        cache: c,
    }
}

// An open fetch of an entry or a chunk ends with the step that does its work; the header's stays.
fn withdrawn(pending: Pending) -> Pending
    ensures { result ≡ Loads.withdrawn pending }
{
    match pending {
        Pending::Header => Pending::Header,
        Pending::Nothing | Pending::Entry(_) | Pending::Chunk => Pending::Nothing,
    }
}

// The state after a step: other pages, another load, and the open fetch withdrawn.
fn moved(c: Cache, g: Pages, loading: Option<Loading>) -> Cache
    ensures { result ≡ Loads.moved c g loading }
{
    Cache {
        pages: g,
        loading,
        pending: withdrawn(c.pending),
        ..c
    }
}

// A key known missing from now on.
pub(crate) fn forgot(c: Cache, key: TileKey) -> Cache
    ensures { result ≡ Loads.forgot c key }
{
    Cache {
        missing: crate::keys::forget(c.missing, key),
        pending: withdrawn(c.pending),
        ..c
    }
}

// The load, if there is one, and its run dropped.
fn dropped(c: Cache) -> Cache
    ensures { result ≡ Loads.dropped c }
{
    moved(c, without_run(c.pages, c.loading), None)
}

// The refusal of a read that failed, by the failure that it was answered with: 1 is the host's, 2 is past the pack.
fn missed(failure: u32) -> Refusal
    ensures { result ≡ Loads.missed failure }
{
    if failure == 1 {
        return Refusal::Media;
    }
    Refusal::PastPack
}

fn failed(c: Cache, e: Refusal) -> Loaded
    ensures { result ≡ Loads.failed c e }
{
    Loaded {
        answer: Ok(Progress::Failed(e)),
        cache: c,
    }
}

fn done(c: Cache) -> Loaded
    ensures { result ≡ Loads.done c }
{
    Loaded {
        answer: Ok(Progress::Done),
        cache: c,
    }
}

// A directory entry as an array.
pub fn entry_bytes(bytes: &[u8]) -> [u8; 8]
    ensures { result ≡ Loads.entry_bytes bytes.now }
{
    std::array::from_fn(|i| pack::bytes::byte_at(bytes, i))
}

// A load begins, or the key is missing where the tile is too large for the cache or for its pages.
fn began(c: Cache, key: TileKey, offset: u32, len: u32) -> Loaded
    ensures { result ≡ Loads.began c key offset len }
{
    if crate::MAX_TILE_BYTES < len as usize {
        return done(forgot(c, key));
    }
    let b = crate::begin::begin(c.pages, key, len as u16);
    match b.at {
        None => done(forgot(c, key)),
        Some(slot) => {
            let l = Loading {
                key,
                slot,
                offset,
                len,
                done: 0,
            };
            Loaded {
                answer: Ok(Progress::More),
                cache: moved(c, b.pages, Some(l)),
            }
        }
    }
}

// The entry came: another tile's load is dropped, and this one's begins.
#[tactic(auto, using(std::proofs::lemmas::Bool::Decides::nat_tests, crate::proofs::StepLaws::locate_read), unfolding(crate::specs::Loads::entry_step))]
fn entry_step(c: Cache, header: Header, key: TileKey, failure: u32, bytes: &[u8]) -> Loaded
    ensures { result ≡ Loads.entry_step c header key failure bytes.now }
{
    let d = dropped(c);
    if failure != 0 {
        return failed(d, missed(failure));
    }
    let entry = entry_bytes(bytes);
    match pack::grid::locate_of(header, &entry) {
        Ok(None) => done(forgot(d, key)),
        Err(e) => failed(d, e),
        Ok(Some((offset, len))) => began(d, key, offset, len),
    }
}

// The bytes in place of those from `at` on. Byte by byte, which the compiler makes memcpy of: `copy_from_slice` is memmove, which the archive for C asks of no host.
fn copy(arena: &mut [u8], at: usize, bytes: &[u8])
    requires { at + length bytes.now ≤ length arena.old }
    ensures { arena.new ≡ paste arena.old at bytes.now (length bytes.now) }
{
    for i in 0..bytes.len() {
        arena[at + i] = bytes[i];
    }
}

// The bytes written into the run from page `slot` on, `done` bytes into it, where they lie in the arena.
pub fn put(arena: &mut [u8], slot: usize, done: u32, bytes: &[u8])
    ensures { arena.new ≡ Loads.put arena.old slot done bytes.now }
{
    if arena.len() / crate::PAGE_BYTES < slot {
        return;
    }
    let start = slot * crate::PAGE_BYTES;
    if arena.len() - start < done as usize {
        return;
    }
    let at = start + done as usize;
    if arena.len() - at < bytes.len() {
        return;
    }
    copy(arena, at, bytes);
}

// The run from page `at` on ready, and the most recently used.
fn ready_pages(g: Pages, at: usize) -> Pages
    ensures { result ≡ Endings.ready_pages g at }
{
    let mut d = g;
    let age = d.clock.wrapping_add(1);
    d.clock = age;
    if crate::MAX_PAGES <= at {
        return d;
    }
    d.slots[at].ready = true;
    d.used[at] = age;
    d
}

// The pages without the run of a load.
fn without_run(g: Pages, loading: Option<Loading>) -> Pages
    ensures { result ≡ Loads.without_run loading g }
{
    match loading {
        None => g,
        Some(l) => crate::evict::evict(g, l.slot, 1),
    }
}

// The pages that the last chunk leaves: the run ready if the tile passes, and dropped if not.
fn ended_pages(c: Cache, at: usize, ok: bool) -> Pages
    ensures { result ≡ Endings.ended_pages ok c.pages c.loading at }
{
    if ok {
        return ready_pages(c.pages, at);
    }
    without_run(c.pages, c.loading)
}

// The ring that it leaves: a tile that does not pass is missing.
fn ended_ring(ring: Ring, key: TileKey, ok: bool) -> Ring
    ensures { result ≡ Endings.ended_ring ok ring key }
{
    if ok {
        return ring;
    }
    crate::keys::forget(ring, key)
}

fn ended_loads(loads: u32, ok: bool) -> u32
    ensures { result ≡ Endings.ended_loads ok loads }
{
    if ok {
        return loads.wrapping_add(1);
    }
    loads
}

// The last chunk came: the tile is ready if it passes, and missing if not. Each part of the state is made once, so that no other state stands beside it.
fn ended(c: Cache, arena: &[u8], l: Loading, size: u32) -> Cache
    ensures { result ≡ Loads.ended c arena.now l size }
{
    let ok = crate::look::passes(arena, l.slot, l.len as usize, l.key, size);
    let pages = ended_pages(c, l.slot, ok);
    let missing = ended_ring(c.missing, l.key, ok);
    let pending = withdrawn(c.pending);
    let loads = ended_loads(c.loads, ok);
    Cache {
        pages,
        missing,
        loading: None,
        pending,
        loads,
    }
}

// The load with `come` bytes of its tile.
fn further(c: Cache, l: Loading, come: u32) -> Cache
    ensures { result ≡ Loads.further c l come }
{
    moved(c, c.pages, Some(Loading { done: come, ..l }))
}

// A chunk came.
#[tactic(auto, using(std::proofs::lemmas::Bool::Decides::nat_tests, crate::proofs::StepLaws::chunk_less), unfolding(crate::specs::Loads::chunk_step))]
fn chunk_step(
    c: Cache,
    l: Loading,
    arena: &mut [u8],
    size: u32,
    failure: u32,
    bytes: &[u8],
) -> Loaded
    ensures value { result ≡ Loads.told (Loads.chunk_step c l arena.old size failure bytes.now) }
    ensures arena_after { arena.new ≡ (Loads.chunk_step c l arena.old size failure bytes.now).arena }
{
    if failure != 0 {
        return failed(dropped(c), missed(failure));
    }
    put(arena, l.slot, l.done, bytes);
    let come = l.done + chunk_len(l);
    if come < l.len {
        return Loaded {
            answer: Ok(Progress::More),
            cache: further(c, l, come),
        };
    }
    done(ended(c, &arena[..], l, size))
}

// The tile is ready: its run checked again, and the most recently used.
fn ready_step(c: Cache, i: usize, arena: &[u8], key: TileKey, size: u32) -> Loaded
    ensures { result ≡ Loads.ready_step c i arena.now key size }
{
    let s = crate::runs::slot_at(c.pages, i);
    if crate::look::passes(arena, i, s.len as usize, key, size) {
        return done(crate::look::touch(c, i));
    }
    refused(c, Refusal::BadState)
}

// A chunk of no bytes, which only a load that has all of its tile asks for: the tile is checked. 11 where there are bytes to come.
fn chunk_unread(c: Cache, l: Loading, arena: &[u8], size: u32) -> Loaded
    ensures { result ≡ Loads.chunk_unread c l arena.now size }
{
    if l.len <= l.done {
        return done(ended(c, arena, l, size));
    }
    refused(c, Refusal::NotAsked)
}

// The step `n` with failure 0 and no bytes: 11 where a read is made.
pub(crate) fn unread_step(c: Cache, n: Next, arena: &[u8], key: TileKey, size: u32) -> Loaded
    ensures { result ≡ Loads.unread_step c n arena.now key size }
{
    match n {
        Next::Missing => done(c),
        Next::NoPages => done(forgot(c, key)),
        Next::Entry => refused(c, Refusal::NotAsked),
        Next::Chunk(l) => chunk_unread(c, l, arena, size),
        Next::Ready(i) => ready_step(c, i, arena, key, size),
    }
}

// The step `n`, its read answered, in a cache whose state has been tested, towards a key in the grid.
pub(crate) fn stepped(
    c: Cache,
    n: Next,
    arena: &mut [u8],
    header: Header,
    key: TileKey,
    failure: u32,
    bytes: &[u8],
) -> Loaded
    ensures value { result ≡ Loads.told (Loads.stepped c n arena.old header key failure bytes.now) }
    ensures arena_after { arena.new ≡ (Loads.stepped c n arena.old header key failure bytes.now).arena }
{
    match n {
        Next::Missing => done(c),
        Next::NoPages => done(forgot(c, key)),
        Next::Entry => entry_step(c, header, key, failure, bytes),
        Next::Chunk(l) => chunk_step(c, l, arena, header.tile, failure, bytes),
        Next::Ready(i) => ready_step(c, i, &arena[..], key, header.tile),
    }
}

// The entry read from the lent pack.
#[tactic(auto, using(std::proofs::lemmas::Bool::Decides::nat_tests, crate::proofs::StepLaws::read_there, crate::proofs::StepLaws::read_part, crate::proofs::StepLaws::read_past, pack::proofs::Laws::read_at))]
fn entry_from(c: Cache, header: Header, key: TileKey, pack: &[u8]) -> Loaded
    ensures { result ≡ Loads.entry_from c header key pack.now }
{
    match pack::read(pack, pack::grid::entry_of(header, key), pack::ENTRY_BYTES) {
        Ok(a) => entry_step(c, header, key, 0, &pack[a..a + pack::ENTRY_BYTES]),
        Err(_) => entry_step(c, header, key, 2, &pack[..0]),
    }
}

// A chunk read from the lent pack.
#[tactic(auto, using(std::proofs::lemmas::Bool::Decides::nat_tests, crate::proofs::StepLaws::read_there, crate::proofs::StepLaws::read_part, crate::proofs::StepLaws::read_past, pack::proofs::Laws::read_at))]
fn chunk_from(c: Cache, l: Loading, arena: &mut [u8], size: u32, pack: &[u8]) -> Loaded
    ensures value { result ≡ Loads.told (Loads.chunk_from c l arena.old size pack.now) }
    ensures arena_after { arena.new ≡ (Loads.chunk_from c l arena.old size pack.now).arena }
{
    let len = chunk_len(l) as usize;
    match pack::read(pack, chunk_offset(l), len) {
        Ok(a) => chunk_step(c, l, arena, size, 0, &pack[a..a + len]),
        Err(_) => chunk_step(c, l, arena, size, 2, &pack[..0]),
    }
}

// The step `n`, its read from the lent pack.
pub(crate) fn stepped_from(
    c: Cache,
    n: Next,
    arena: &mut [u8],
    header: Header,
    key: TileKey,
    pack: &[u8],
) -> Loaded
    ensures value { result ≡ Loads.told (Loads.stepped_from c n arena.old header key pack.now) }
    ensures arena_after { arena.new ≡ (Loads.stepped_from c n arena.old header key pack.now).arena }
{
    match n {
        Next::Missing => done(c),
        Next::NoPages => done(forgot(c, key)),
        Next::Entry => entry_from(c, header, key, pack),
        Next::Chunk(l) => chunk_from(c, l, arena, header.tile, pack),
        Next::Ready(i) => ready_step(c, i, &arena[..], key, header.tile),
    }
}
