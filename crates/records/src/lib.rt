// The saved record of a broken transfer: what its bytes say, and the bytes that it is written as.
#![tactic(auto)]

use fields::Place;

pub mod record_reader;
pub mod record_writer;

// A record: the announced size, the bytes kept, the stamp, and where the name stands in the record's bytes.
#[derive(Clone, Copy, PartialEq, Eq, Debug)]
pub struct Record {
    pub size: u32,
    pub kept: u32,
    // The DOS date times 65,536 plus the time, where there is one.
    pub stamp: Option<u32>,
    pub name: Place,
}
