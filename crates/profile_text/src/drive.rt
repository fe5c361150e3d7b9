// The line that the program `drive` prints for a fix: the figures of the road that is published after it, a blank between two.
ghost use Rattle.std.specs.Prelude.{◌≡◌, ◌++◌, ◌+◌, ◌≤◌, length, drop};
ghost use Rattle.profile_text.specs.Drive as Drive;
ghost use Rattle.profile_text.specs.Appended.{Appended};

use crate::{ROOM, put, put_bytes, put_number};

// How the last step after a fix ended.
#[derive(Clone, Copy, PartialEq, Eq, Debug)]
pub enum Status {
    Idle,
    Working,
    NoPack,
    OffMap,
    Refused,
}

// Why the road ahead ends.
#[derive(Clone, Copy, PartialEq, Eq, Debug)]
pub enum End {
    Horizon,
    Fork,
    DeadEnd,
    MapEdge,
    Uncertain,
    Memory,
}

// A match: its tile, its edge, the direction along it, where that is known, and how far the fix lies from the road, in decimetres.
#[derive(Clone, Copy, PartialEq, Eq, Debug)]
pub struct Place {
    pub row: u16,
    pub col: u16,
    pub edge: u16,
    pub forward: Option<bool>,
    pub offset_dm: u16,
}

// What the line says of a fix.
#[derive(Clone, Copy, PartialEq, Eq, Debug)]
pub struct FixLine {
    // The fix's number, from 1.
    pub number: u16,
    pub status: Status,
    pub place: Option<Place>,
    // Heights ahead, and why there are no more.
    pub samples: u16,
    pub end: End,
    pub confidence: u8,
}

// A number and a blank.
#[tactic(auto, using(std::proofs::lemmas::Bool::Decides::nat_tests, crate::proofs::Laws::append_more, crate::proofs::Laws::number_ends), unfolding(crate::specs::Drive::field))]
fn put_field(out: &mut [u8; ROOM], at: usize, n: u16) -> usize
    requires { at + 6 ≤ 6026 }
    ensures appended { Appended out.old at (Drive.field n) out.new result }
    ensures upper_bound { result ≤ at + 6 }
{
    let next = put_number(out, at, n as u32);
    put(out, next, b' ')
}

// Decimetres in metres, with one decimal.
fn put_metres(out: &mut [u8; ROOM], at: usize, dm: u16) -> usize
    requires { at + 12 ≤ 6026 }
    ensures appended { Appended out.old at (Drive.metres dm) out.new result }
    ensures upper_bound { result ≤ at + 12 }
{
    let a = put_number(out, at, (dm / 10) as u32);
    let b = put(out, a, b'.');
    put_field(out, b, dm % 10)
}

#[tactic(auto, unfolding(crate::specs::Drive::status, crate::specs::Codes::codes))]
fn put_status(out: &mut [u8; ROOM], at: usize, status: Status) -> usize
    requires { at + 8 ≤ 6026 }
    ensures appended { Appended out.old at (Drive.status status) out.new result }
    ensures upper_bound { result ≤ at + 8 }
{
    match status {
        Status::Idle => put_bytes(out, at, b"idle "),
        Status::Working => put_bytes(out, at, b"working "),
        Status::NoPack => put_bytes(out, at, b"no-pack "),
        Status::OffMap => put_bytes(out, at, b"off-map "),
        Status::Refused => put_bytes(out, at, b"refused "),
    }
}

#[tactic(auto, unfolding(crate::specs::Drive::way, crate::specs::Codes::codes))]
fn put_way(out: &mut [u8; ROOM], at: usize, forward: Option<bool>) -> usize
    requires { at + 8 ≤ 6026 }
    ensures appended { Appended out.old at (Drive.way forward) out.new result }
    ensures upper_bound { result ≤ at + 8 }
{
    match forward {
        None => put_bytes(out, at, b"- "),
        Some(true) => put_bytes(out, at, b"forward "),
        Some(false) => put_bytes(out, at, b"back "),
    }
}

#[tactic(auto, unfolding(crate::specs::Drive::end, crate::specs::Codes::codes))]
fn put_end(out: &mut [u8; ROOM], at: usize, end: End) -> usize
    requires { at + 10 ≤ 6026 }
    ensures appended { Appended out.old at (Drive.end end) out.new result }
    ensures upper_bound { result ≤ at + 10 }
{
    match end {
        End::Horizon => put_bytes(out, at, b"horizon "),
        End::Fork => put_bytes(out, at, b"fork "),
        End::DeadEnd => put_bytes(out, at, b"dead-end "),
        End::MapEdge => put_bytes(out, at, b"map-edge "),
        End::Uncertain => put_bytes(out, at, b"uncertain "),
        End::Memory => put_bytes(out, at, b"memory "),
    }
}

fn put_place(out: &mut [u8; ROOM], at: usize, p: Place) -> usize
    requires { at + 38 ≤ 6026 }
    ensures appended { Appended out.old at (Drive.place p) out.new result }
    ensures upper_bound { result ≤ at + 38 }
{
    let a = put_field(out, at, p.row);
    let b = put_field(out, a, p.col);
    let c = put_field(out, b, p.edge);
    let d = put_way(out, c, p.forward);
    put_metres(out, d, p.offset_dm)
}

// Without a match a '-' for each of its figures.
#[tactic(auto, unfolding(crate::specs::Drive::matched, crate::specs::Codes::codes))]
fn put_match(out: &mut [u8; ROOM], at: usize, place: Option<Place>) -> usize
    requires { at + 38 ≤ 6026 }
    ensures appended { Appended out.old at (Drive.matched place) out.new result }
    ensures upper_bound { result ≤ at + 38 }
{
    match place {
        None => put_bytes(out, at, b"- - - - - "),
        Some(p) => put_place(out, at, p),
    }
}

fn put_road(out: &mut [u8; ROOM], at: usize, samples: u16, end: End, confidence: u8) -> usize
    requires { at + 22 ≤ 6026 }
    ensures { Appended out.old at (Drive.road samples end confidence) out.new result }
{
    let a = put_field(out, at, samples);
    let b = put_end(out, a, end);
    let c = put_number(out, b, confidence as u32);
    put(out, c, b'\n')
}

// The line of a fix: its length, and `out` begins with it. What follows in `out` is as it was.
pub fn fix_line(f: FixLine, out: &mut [u8; ROOM]) -> usize
    ensures value { result ≡ length (Drive.fix_line f) }
    ensures out_after { out.new ≡ Drive.fix_line f ++ drop (length (Drive.fix_line f)) out.old }
{
    let a = put_field(out, 0, f.number);
    let b = put_status(out, a, f.status);
    let c = put_match(out, b, f.place);
    put_road(out, c, f.samples, f.end, f.confidence)
}
