// Road classes, most major first.
pub const TRUNK: u8 = 1;

pub const PRIMARY: u8 = 2;

pub const SECONDARY: u8 = 3;

pub const TERTIARY: u8 = 4;

pub const UNCLASSIFIED: u8 = 5;

pub const RESIDENTIAL: u8 = 6;

pub const SERVICE: u8 = 7;

pub const TRACK: u8 = 8;

pub const CYCLEWAY: u8 = 9;

pub const PATH: u8 = 10;
