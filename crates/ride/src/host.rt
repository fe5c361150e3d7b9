// The host's side of an engine: it answers each fetch from the pack's file.
use engine::{Engine, Fix, Status, Stepped};
use refusal::Refusal;
use std::fs::File;
use std::os::unix::fs::FileExt;

// The longest read that a step asks for.
const LONGEST: usize = 2048;

// Offsets of a pack lie below this.
const OFFSETS: u64 = 8589934592;

// Steps after one fix: far more than the tiles of a match and of a road take.
const STEPS: u32 = 65536;

// The pack's file, and which of its reads are reported missed: every K-th, none with 0.
#[derive(Clone, Copy)]
pub struct Card<'a> {
    pub file: &'a File,
    pub every: u64,
}

// An engine, and how many reads it has asked for.
#[derive(Clone, Copy)]
pub struct Ride {
    pub engine: Engine,
    pub reads: u64,
}

// How a step ended, and what it left.
#[derive(Clone, Copy)]
pub struct Turned {
    pub status: Result<Status, Refusal>,
    pub ride: Ride,
}

fn turn_of(s: Stepped, reads: u64) -> Turned {
    let status = s.answer;
    let engine = s.engine;
    let ride = Ride { engine, reads };
    Turned { status, ride }
}

// Fills the buffer from an offset of the file on; `Media` where the read fails, `PastPack` where it passes the file's end.
pub fn read_at(file: &File, offset: u64, buf: &mut [u8]) -> Result<(), Refusal> {
    if OFFSETS <= offset {
        return Err(Refusal::PastPack);
    }
    match file.read_at(buf, offset) {
        Err(_) => Err(Refusal::Media),
        Ok(n) if n < buf.len() => Err(Refusal::PastPack),
        Ok(_) => Ok(()),
    }
}

// The bytes of a read, or why there are none: by its number, as a host in C tells it.
fn read_and_deliver(
    file: &File,
    e: Engine,
    arena: &mut [u8],
    offset: u64,
    buf: &mut [u8],
) -> Stepped {
    match read_at(file, offset, buf) {
        Err(refusal) => e.deliver(arena, refusal.number(), b""),
        Ok(()) => e.deliver(arena, 0, &buf[..]),
    }
}

// A fetch answered from the file. None is longer than the buffer; one that were would count as missed.
fn delivered(file: &File, e: Engine, arena: &mut [u8], offset: u64, len: usize) -> Stepped {
    if LONGEST < len {
        return e.deliver(arena, Refusal::Media.number(), b"");
    }
    let mut chunk = [0u8; LONGEST];
    read_and_deliver(file, e, arena, offset, &mut chunk[0..len])
}

fn is_missed(every: u64, reads: u64) -> bool {
    every != 0 && reads % every == 0
}

// A fetch answered, or reported missed.
fn answered(card: Card<'_>, r: Ride, arena: &mut [u8], offset: u64, len: usize) -> Turned {
    let reads = r.reads.wrapping_add(1);
    let e = r.engine;
    if is_missed(card.every, reads) {
        let s = e.deliver(arena, Refusal::Media.number(), b"");
        return turn_of(s, reads);
    }
    let s = delivered(card.file, e, arena, offset, len);
    turn_of(s, reads)
}

// One step, and where it fetches, the delivery.
fn turn(card: Card<'_>, r: Ride, arena: &mut [u8]) -> Turned {
    let e = r.engine;
    let s = e.step(&arena[..]);
    let answer = s.answer;
    match answer {
        Ok(Status::Fetch(offset, len)) => {
            let engine = s.engine;
            let open = Ride {
                engine,
                reads: r.reads,
            };
            answered(card, open, arena, offset, len)
        }
        _ => turn_of(s, r.reads),
    }
}

fn is_working(status: Result<Status, Refusal>) -> bool {
    matches!(status, Ok(Status::Working | Status::Fetch(_, _)))
}

// Steps until one leaves nothing to do, or there were too many.
pub fn settled(card: Card<'_>, r: Ride, arena: &mut [u8]) -> Turned {
    let mut t = Turned {
        status: Ok(Status::Working),
        ride: r,
    };
    for _ in 0..STEPS {
        let ride = t.ride;
        t = turn(card, ride, arena);
        let status = t.status;
        if !is_working(status) {
            return t;
        }
    }
    t
}

// One fix, and steps until there is no more to do.
pub fn driven(card: Card<'_>, r: Ride, arena: &mut [u8], fix: Fix) -> Turned {
    let e = r.engine;
    let c = e.fix(&arena[..], fix);
    let answer = c.answer;
    let engine = c.engine;
    let ride = Ride {
        engine,
        reads: r.reads,
    };
    match answer {
        Err(refusal) => Turned {
            status: Err(refusal),
            ride,
        },
        Ok(()) => settled(card, ride, arena),
    }
}
