// What the calls of every sender and receiver have in common.
#![tactic(auto)]

ghost use Rattle.std.specs.Prelude.{◌≡◌};
ghost use Rattle.calls.specs.Numbers.{status_number};
ghost use Rattle.calls.specs.Checks.{check_of, check_number, is_taken};
ghost use Rattle.calls.specs.Count.{count_of, record_count};

use fields::{Fault, Limits, WriteError};

pub mod outcomes;
pub mod saving;

// How an end ended. The first number stays through CW. A beginning that is refused (1 to 5) gives an end that has ended.
#[derive(Clone, Copy)]
pub enum Outcome {
    // 0
    Success,
    // 1: the record is unreadable.
    RecordUnreadable,
    // 2: the record keeps more than its size, or its size is over the area.
    RecordOver,
    // 3, 4, 5: the name, the file's length or the block is outside the limits.
    NameOutside,
    LengthOutside,
    BlockOutside,
    // 6: a packet that is not in the state's row, or unreadable bytes.
    Unexpected,
    // 71 to 76 and 7: a malformed header, line or OK, and where it is wrong.
    Malformed(Fault),
    // 8: the file is larger than the area.
    NoRoom,
    // 9: there is a record, and no resume.
    HaveFile,
    // 10: the record's name or size is another.
    Differs,
    // 11: a checksum or CRC disagrees.
    CheckFailed,
    // 12: data past the announced size.
    PastSize,
    // 13: the end of the file before the announced size.
    Short,
    // 14: the far end refused.
    Refused,
    // 15: the far end cancelled.
    Cancelled,
    // 16: a resume position or CRC that is not ours.
    NotOurs,
    // 17: the timer ran out.
    TimedOut,
    // 21: a second file.
    SecondFile,
    // 23: the operator's stop.
    Stopped,
}

// Why a call was refused: a refused call changes nothing anywhere. One that was taken answers Ok.
#[derive(Clone, Copy, PartialEq, Eq, Debug)]
pub enum Refusal {
    // 18: the end has ended.
    Over,
    // 19: a frame over 256 bytes.
    LongFrame,
    // 20: a reply buffer under 259 bytes.
    SmallReply,
    // 40: the lent file or area is not of the length given at the start.
    WrongLength,
}

// A record of a file but for the bytes of its name, which stand in an array beside it.
#[derive(Clone, Copy)]
pub struct Entry {
    // How long the name is.
    pub named: usize,
    pub size: u32,
    pub kept: u32,
    // The DOS date times 65,536 plus the time, where there is one.
    pub stamp: Option<u32>,
}

// Calls are checked 18, 20, 19, 40: whether the end has ended, how long the reply buffer and the frame are, and how long the lent file or
// area is and was said to be at the start.
pub fn check(
    ended: bool,
    reply: usize,
    frame: usize,
    lent: usize,
    given: usize,
) -> Result<(), Refusal>
    ensures { (result ≡ check_of ended reply frame lent given) × (status_number result ≡ check_number ended reply frame lent given) }
{
    if ended {
        return Err(Refusal::Over);
    }
    if reply < Limits::REPLY {
        return Err(Refusal::SmallReply);
    }
    if Limits::FRAME < frame {
        return Err(Refusal::LongFrame);
    }
    if lent != given {
        return Err(Refusal::WrongLength);
    }
    Ok(())
}

// Whether the call is taken.
pub fn is_taken(status: Result<(), Refusal>) -> bool
    ensures { result ≡ is_taken status }
{
    status.is_ok()
}

// How many bytes were written.
pub fn count(written: Result<usize, WriteError>) -> usize
    ensures { result ≡ count_of written }
{
    written.unwrap_or(0)
}

// The same of a record; none where there is none.
pub fn record_count(answer: Option<Result<usize, WriteError>>) -> usize
    ensures { result ≡ record_count answer }
{
    match answer {
        Some(written) => count(written),
        None => 0,
    }
}
