// The entry points: from an instruction and an address to words, to bytes and to a size, and from words and an address to an instruction.
#![tactic(auto)]

pub use m68k_encode::{encode, encode_bytes, size};
pub use m68k_read::read;
