//! Pieces of texts: words, bytes, and numbers in decimal digits, written behind what is there.
#![tactic(auto)]

mod pieces;

pub use pieces::{push_byte, push_number, push_piece, push_words};
