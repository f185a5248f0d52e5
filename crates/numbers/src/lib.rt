// Numbers read and written: decimal and hex digits, most significant first, and little-endian bytes.
#![tactic(auto)]

pub mod digit_reader;
pub mod hex_writer;
pub mod little_reader;
pub mod little_writer;
pub mod numerals;

// The digits that a number is written in.
#[derive(Clone, Copy)]
pub enum Base {
    Decimal,
    Hex,
}
