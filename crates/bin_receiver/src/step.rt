// A step of a #BIN# receiver, and the steps that lines and frames have in common.
ghost use Rattle.std.specs.Prelude.{◌≡◌, List, ℕ, None, Some};
ghost use Rattle.calls.specs.Saving.{saved_by};
ghost use Rattle.bin.specs.declared.ReceiverState.TheVariants.{Ended};
ghost use Rattle.bin.specs.Steps.{judge_whole, basic_at};
ghost use Rattle.bin_receiver.specs.declared.step.Out.TheVariants.{Silent};
ghost use Rattle.bin_receiver.specs.Receiver.{saved_in};
ghost use Rattle.bin_receiver.specs.Step.{frames_of, named_in, move_by};

use crate::Receiver;
use bin::ReceiverState;
use calls::{Entry, Outcome};
use crc::Reading;
use fields::Place;

// A receiver but for the bytes of its record's name.
#[derive(Clone, Copy)]
pub struct ReceiverCore {
    pub state: ReceiverState,
    // The length of the area (document 01: the file area).
    pub room: usize,
    // Whether a record is resumed.
    pub resumes: bool,
    // What the session's CRCs go by.
    pub reading: Reading,
    pub keeping: Option<Entry>,
}

// What is said.
#[derive(Clone, Copy)]
pub enum Out {
    Silent,
    // `#NO#` with the text of 71 to 76 and 7, 8, 9 or 10.
    Format,
    Room,
    Have,
    Differs,
    // The three OKs; the third has how many bytes are kept, and their CRC.
    FirstOk,
    SecondOk,
    ThirdOk { kept: u32, crc: u16 },
    // The stop frame.
    Stop,
}

// What is to be done.
#[derive(Clone, Copy)]
pub struct Step {
    pub state: ReceiverState,
    pub keeping: Option<Entry>,
    // Where the record's new name stands in the frame; none where the name stays.
    pub renamed: Option<Place>,
    pub out: Out,
    // How many bytes were stored.
    pub stored: usize,
}

// The record stays.
pub fn go(receiver: Receiver, state: ReceiverState, out: Out, stored: usize) -> Step
    ensures { result ≡ record { state = state; keeping = receiver.core.keeping; renamed = None; out = out; stored = stored } }
{
    Step {
        state,
        keeping: receiver.core.keeping,
        renamed: None,
        out,
        stored,
    }
}

// Nothing changes, and nothing is said.
pub fn stays(receiver: Receiver) -> Step
    ensures { result ≡ record { state = receiver.core.state; keeping = receiver.core.keeping; renamed = None; out = Silent; stored = 0 } }
{
    go(receiver, receiver.core.state, Out::Silent, 0)
}

// The end is reached, and the record stays.
pub fn end(receiver: Receiver, outcome: Outcome, out: Out) -> Step
    ensures { result ≡ record { state = Ended outcome; keeping = receiver.core.keeping; renamed = None; out = out; stored = 0 } }
{
    go(receiver, ReceiverState::Ended { outcome }, out, 0)
}

// At the announced size it ends, and the whole CRC must agree: else there is no record any more.
#[tactic(auto, unfolding(bin::specs::Steps::judge_whole))]
pub fn judge_whole(
    receiver: Receiver,
    crc: u16,
    entry: Entry,
    renamed: Option<Place>,
    out: Out,
    stored: usize,
    area: &[u8],
) -> Step
    ensures { (f : List ℕ) → judge_whole receiver.core.reading crc (saved_by (Some entry) (named_in receiver f renamed)) area.now (frames_of (named_in receiver f renamed) out) stored ≡ move_by receiver f area.now result }
{
    let step = Step {
        state: ReceiverState::Extended { crc },
        keeping: Some(entry),
        renamed,
        out,
        stored,
    };
    if entry.kept != entry.size {
        return step;
    }
    let kept = fields::part(area, 0, entry.size as usize);
    let whole = crc::crc_by(receiver.core.reading, kept);
    if whole == crc {
        return Step {
            state: ReceiverState::Ended {
                outcome: Outcome::Success,
            },
            ..step
        };
    }
    Step {
        state: ReceiverState::Ended {
            outcome: Outcome::CheckFailed,
        },
        keeping: None,
        out: Out::Stop,
        ..step
    }
}

// At the announced size a basic transfer ends.
#[tactic(auto, unfolding(bin::specs::Steps::basic_at))]
pub fn basic_at(receiver: Receiver, size: u32, kept: u32, out: Out, stored: usize) -> Step
    ensures { (f a : List ℕ) → basic_at size kept (saved_in receiver) a (frames_of receiver.name out) stored ≡ move_by receiver f a result }
{
    if kept == size {
        let state = ReceiverState::Ended {
            outcome: Outcome::Success,
        };
        return go(receiver, state, out, stored);
    }
    go(receiver, ReceiverState::Basic { size, kept }, out, stored)
}
