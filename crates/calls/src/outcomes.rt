// The number of every answer. (Document 01, "Numbers that refuse or end", and change request 2026-02.)
ghost use Rattle.std.specs.Prelude.{◌≡◌, Err};
ghost use Rattle.fields.specs.Faults.{flaw_number};
ghost use Rattle.fields.specs.Buffer.{written_number};
ghost use Rattle.records.specs.Record.{read_number};
ghost use Rattle.calls.specs.Numbers.{outcome_number, outcome_offset, status_number};
ghost use Rattle.calls.specs.Recording.{record_number};

use crate::{Outcome, Refusal};
use fields::{Fault, Flaw, WriteError};
use records::Record;

// 71 to 76; 7 for every other fault.
#[tactic(auto, unfolding(fields::specs::Faults::flaw_number))]
fn fault_number(fault: Fault) -> u8
    ensures { result ≡ flaw_number fault.flaw }
{
    match fault.flaw {
        Flaw::NameOpen => 71,
        Flaw::NameLength => 72,
        Flaw::NameByte => 73,
        Flaw::NoDigits => 74,
        Flaw::ManyDigits => 75,
        Flaw::SizeOpen => 76,
        Flaw::Other => 7,
    }
}

// How an end ended: 0 for success, else the number that ended it.
#[tactic(auto, unfolding(crate::specs::Numbers::outcome_number))]
pub fn outcome_number(outcome: Outcome) -> u8
    ensures { result ≡ outcome_number outcome }
{
    match outcome {
        Outcome::Success => 0,
        Outcome::RecordUnreadable => 1,
        Outcome::RecordOver => 2,
        Outcome::NameOutside => 3,
        Outcome::LengthOutside => 4,
        Outcome::BlockOutside => 5,
        Outcome::Unexpected => 6,
        Outcome::Malformed(fault) => fault_number(fault),
        Outcome::NoRoom => 8,
        Outcome::HaveFile => 9,
        Outcome::Differs => 10,
        Outcome::CheckFailed => 11,
        Outcome::PastSize => 12,
        Outcome::Short => 13,
        Outcome::Refused => 14,
        Outcome::Cancelled => 15,
        Outcome::NotOurs => 16,
        Outcome::TimedOut => 17,
        Outcome::SecondFile => 21,
        Outcome::Stopped => 23,
    }
}

// The place that goes with 71 to 76 and 7; no other number has one.
#[tactic(auto, unfolding(crate::specs::Numbers::outcome_offset))]
pub fn outcome_offset(outcome: Outcome) -> Option<usize>
    ensures { result ≡ outcome_offset outcome }
{
    match outcome {
        Outcome::Malformed(fault) => Some(fault.offset),
        _ => None,
    }
}

#[tactic(auto, unfolding(crate::specs::Numbers::status_number))]
fn refusal_number(refusal: Refusal) -> u8
    ensures { result ≡ status_number (Err refusal) }
{
    match refusal {
        Refusal::Over => 18,
        Refusal::LongFrame => 19,
        Refusal::SmallReply => 20,
        Refusal::WrongLength => 40,
    }
}

// The number that refused a call; 0 where it was taken.
#[tactic(auto, unfolding(crate::specs::Numbers::status_number))]
pub fn status_number(status: Result<(), Refusal>) -> u8
    ensures { result ≡ status_number status }
{
    match status {
        Ok(()) => 0,
        Err(refusal) => refusal_number(refusal),
    }
}

#[tactic(auto, unfolding(fields::specs::Buffer::written_number))]
fn error_number(error: WriteError) -> u8
    ensures { result ≡ written_number (Err error) }
{
    match error {
        WriteError::Small => 20,
        WriteError::Formless => 22,
    }
}

// The number that a writer refused with; 0 where it wrote.
#[tactic(auto, unfolding(fields::specs::Buffer::written_number))]
pub fn written_number(written: Result<usize, WriteError>) -> u8
    ensures { result ≡ written_number written }
{
    match written {
        Ok(_) => 0,
        Err(error) => error_number(error),
    }
}

// The same of a receiver that was asked for its record; 0 also where it has none.
#[tactic(auto, unfolding(crate::specs::Recording::record_number))]
pub fn record_answer_number(answer: Option<Result<usize, WriteError>>) -> u8
    ensures { result ≡ record_number answer }
{
    match answer {
        None => 0,
        Some(written) => written_number(written),
    }
}

// 1 where the bytes are no record; 0 where they are.
#[tactic(auto, unfolding(records::specs::Record::read_number))]
pub fn read_number(read: Option<Record>) -> u8
    ensures { result ≡ read_number read }
{
    match read {
        Some(_) => 0,
        None => 1,
    }
}
