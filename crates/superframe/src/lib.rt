// Superframes: eight codewords of one rate in one frame, with their symbols interleaved; what one is, and building one. It knows of no decoding.
#![tactic(auto)]

use columns::costs::PLACES;

pub mod building;

// The codewords of a superframe.
pub const WORDS: usize = 8;

pub type Word = [u8; PLACES];

// Version, two bytes of length and the rate, and then the symbols.
pub const HEAD_BYTES: usize = 4;

pub const FRAME_BYTES: usize = 516;

pub const VERSION_AT: usize = 0;

pub const LENGTH_HIGH_AT: usize = 1;

pub const LENGTH_LOW_AT: usize = 2;

pub const RATE_AT: usize = 3;

pub const VERSION: u8 = 1;

// The 513 bytes of rate and symbols, high byte first.
pub const LENGTH_HIGH: u8 = 2;

pub const LENGTH_LOW: u8 = 1;
