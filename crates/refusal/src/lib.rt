// Why a call is refused: a case for each number of the table in include/terrain.h. C and the words see the number.
#![tactic(auto)]

ghost use Rattle.std.specs.Prelude.{◌≡◌};
ghost use Rattle.refusal.specs.Refusal.{number_of};

use std::error::Error;
use std::fmt;

#[derive(Clone, Copy, PartialEq, Eq, Debug)]
pub enum Refusal {
    // The host reports a missed read.
    Media,
    // A read past a lent pack.
    PastPack,
    // A header that breaks a rule.
    Unsupported,
    // A checksum that doesn't hold, a tile that breaks a rule, an entry outside the data.
    Corrupt,
    // A tile that is neither ready nor missing.
    NotLoaded,
    // The start's tile is missing, or another one.
    NoStart,
    // An index past the tile.
    PastTile,
    // A point, a figure or a heading out of its range.
    OutOfRange,
    // A key outside the grid.
    OutsideGrid,
    // The start's edge, segment, fraction or height isn't one of its tile.
    BadStart,
    // A delivery that wasn't asked for.
    NotAsked,
    // A state that no call leaves.
    BadState,
    // A value given to a writer that a reader would refuse.
    BadValue,
    // Output too short for the result, or a total past 32 bits.
    NoRoom,
}

impl Refusal {
    // Its number in the table.
    pub fn number(self) -> u32
        ensures { result ≡ number_of self }
    {
        match self {
            Refusal::Media => 1,
            Refusal::PastPack => 2,
            Refusal::Unsupported => 3,
            Refusal::Corrupt => 4,
            Refusal::NotLoaded => 5,
            Refusal::NoStart => 6,
            Refusal::PastTile => 7,
            Refusal::OutOfRange => 8,
            Refusal::OutsideGrid => 9,
            Refusal::BadStart => 10,
            Refusal::NotAsked => 11,
            Refusal::BadState => 12,
            Refusal::BadValue => 13,
            Refusal::NoRoom => 14,
        }
    }
}

impl fmt::Display for Refusal {
    fn fmt<W: fmt::Write>(&self, f: &mut fmt::Formatter<W>) -> fmt::Result {
        let words = match self {
            Refusal::Media => "the host missed a read",
            Refusal::PastPack => "a read past the pack",
            Refusal::Unsupported => "a header that breaks a rule",
            Refusal::Corrupt => "a checksum, a tile or an entry that doesn't hold",
            Refusal::NotLoaded => "a tile that isn't loaded",
            Refusal::NoStart => "a start tile that is missing or another one",
            Refusal::PastTile => "an index past the tile",
            Refusal::OutOfRange => "a figure out of its range",
            Refusal::OutsideGrid => "a key outside the grid",
            Refusal::BadStart => "a start that its tile doesn't have",
            Refusal::NotAsked => "a delivery that wasn't asked for",
            Refusal::BadState => "a state that no call leaves",
            Refusal::BadValue => "a value that no reader takes",
            Refusal::NoRoom => "output too short for the result, or a total past 32 bits",
        };
        f.write_str(words)
    }
}

impl Error for Refusal {}
