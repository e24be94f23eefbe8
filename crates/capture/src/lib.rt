// A capture of a line, of any length, read and scanned in pieces.

#![tactic(auto)]

pub mod pieces;

pub use pieces::{Fault, Piece, Pieces, look_through, next_levels};
