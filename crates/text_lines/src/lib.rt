// Lines of text that drive a program of cases: what stands in a line, and the bytes that it adds to a piece.
// The digest of bytes, and standard input and output. Assumes nothing: no public function has a `requires`.
#![tactic(auto)]

pub mod buffers;
pub mod digest;
pub mod fields;
pub mod pieces;
pub mod streams;
