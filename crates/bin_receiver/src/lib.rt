// The #BIN# receiver.
#![tactic(auto)]

ghost use Rattle.std.specs.Prelude.{◌≡◌, List, [], length, ℕ, ◌≤◌, None};
ghost use Rattle.records.specs.Saved.{saved_of};
ghost use Rattle.calls.specs.Recording.{record_answer, record_left};
ghost use Rattle.bin_receiver.specs.Receiver.{fresh as fresh_of, receiver_with, with_saved, resume as resume_of, refused_call, replied, transmit as transmit_of, receive as receive_of, fails, timeout as timeout_of, cancel as cancel_of, record_by};
ghost use Rattle.calls.specs.Checks.{check_of};
ghost use Rattle.calls.specs.Saving.{saved_by, name_of};
ghost use Rattle.bin.specs.Steps.{receiver_ended};
ghost use Rattle.bin_receiver.specs.Step.{move_by};

use crate::check::NOWHERE;
use crate::step::{Out, ReceiverCore, Step};
use bin::ReceiverState;
use calls::{Entry, Outcome, Refusal, saving};
use crc::Reading;
use fields::{Limits, Place, WriteError, buffers};
use records::{Record, record_reader};

mod arrivals;
mod check;
mod frame;
mod line;
mod output;
mod step;

#[derive(Clone, Copy)]
pub struct Receiver {
    // The record's name stands at the front, and its length in the core: the public contracts have them apart.
    name: [u8; 64],
    core: ReceiverCore,
}

#[derive(Clone, Copy)]
pub struct ReceiverAnswer {
    pub receiver: Receiver,
    pub status: Result<(), Refusal>,
    // How many bytes of the reply buffer (document 01: the reply room) are the frame to be sent; none where there is none.
    pub sent: usize,
    // How many bytes were stored in the area.
    pub stored: usize,
    // Where text to show stands in the frame.
    pub shown: Place,
}

// The record's name, which stands at the front of these bytes.
fn name_of(keeping: Option<Entry>, named: &[u8]) -> &[u8]
    ensures { result.now ≡ name_of (saved_by keeping named.now) }
{
    match keeping {
        Some(entry) => fields::part(named, 0, entry.named),
        None => b"",
    }
}

impl Receiver {
    // A reply buffer has at least this many bytes.
    pub const LEAST_REPLY: usize = Limits::REPLY;
    // A frame has at most this many bytes.
    pub const LONGEST_FRAME: usize = Limits::FRAME;
    // The buffer that a record is written into has at least this many bytes.
    pub const LEAST_RECORD: usize = Limits::RECORD;

    // A receiver in a state, with no record.
    fn with_none(state: ReceiverState, room: usize, resumes: bool, reading: Reading) -> Self
        ensures { result ≡ receiver_with state room resumes reading None }
    {
        Receiver {
            name: [0; 64],
            core: ReceiverCore {
                state,
                room,
                resumes,
                reading,
                keeping: None,
            },
        }
    }

    // A receiver with no record; the CRCs of an extended session go by the reading.
    #[tactic(auto, unfolding(crate::specs::Receiver::fresh))]
    pub fn fresh(room: usize, resumes: bool, reading: Reading) -> Self
        ensures { result ≡ fresh_of room resumes reading }
    {
        Receiver::with_none(ReceiverState::Waiting, room, resumes, reading)
    }

    // A beginning that is refused: an end that has ended, with no record.
    fn ended(outcome: Outcome, room: usize, resumes: bool, reading: Reading) -> Self
        ensures { result ≡ receiver_with (ReceiverState.Ended outcome) room resumes reading None }
    {
        Receiver::with_none(ReceiverState::Ended { outcome }, room, resumes, reading)
    }

    // From a record; kept over size, or size over area, is 2.
    #[tactic(auto, unfolding(crate::specs::Receiver::fresh, crate::specs::Receiver::with_saved))]
    fn saved(r: Record, bytes: &[u8], room: usize, resumes: bool, reading: Reading) -> Self
        ensures { result ≡ with_saved room resumes reading (saved_of bytes.now r) }
    {
        if !saving::is_within(r.kept, r.size, room) {
            return Receiver::ended(Outcome::RecordOver, room, resumes, reading);
        }
        let own = fields::bytes_at(bytes, r.name);
        let mut name = [0; 64];
        buffers::append_bytes(&mut name, 0, own);
        let entry = Entry {
            named: own.len(),
            size: r.size,
            kept: r.kept,
            stamp: r.stamp,
        };
        Receiver {
            name,
            core: ReceiverCore {
                keeping: Some(entry),
                ..Receiver::fresh(room, resumes, reading).core
            },
        }
    }

    // A receiver with the record that these bytes are, and CRCs as in `fresh`; unreadable ones are 1, a record out of its limits is 2.
    #[tactic(auto, unfolding(crate::specs::Receiver::resume))]
    pub fn resume(bytes: &[u8], room: usize, resumes: bool, reading: Reading) -> Self
        ensures { result ≡ resume_of bytes.now room resumes reading }
    {
        match record_reader::record_of(bytes) {
            Some(r) => Receiver::saved(r, bytes, room, resumes, reading),
            None => Receiver::ended(Outcome::RecordUnreadable, room, resumes, reading),
        }
    }

    // The checks of a call, by the lengths of reply buffer, frame and area.
    fn check(self, reply: usize, frame: usize, area: usize) -> Result<(), Refusal>
        ensures { result ≡ check_of (receiver_ended self.core.state) reply frame area self.core.room }
    {
        let ended = check::is_ended(self.core.state);
        calls::check(ended, reply, frame, area, self.core.room)
    }

    // A call that changes nothing.
    fn unchanged(self, status: Result<(), Refusal>) -> ReceiverAnswer
        ensures { result ≡ (refused_call self status [] []).answer }
    {
        ReceiverAnswer {
            receiver: self,
            status,
            sent: 0,
            stored: 0,
            shown: NOWHERE,
        }
    }

    // Keeps the name, says what is to be said, and answers.
    fn finish(self, shown: Place, step: Step, frame: &[u8], reply: &mut [u8]) -> ReceiverAnswer
        requires { 259 ≤ length reply.old }
        ensures { (a : List ℕ) → replied self shown (move_by self frame.now a step) reply.old ≡ record { answer = result; area = a; reply = reply.new } }
    {
        let own = self.name;
        let named = match step.renamed {
            Some(place) => fields::bytes_at(frame, place),
            None => &own[..],
        };
        let mut name = own;
        buffers::append_bytes(&mut name, 0, name_of(step.keeping, named));
        ReceiverAnswer {
            receiver: Receiver {
                name,
                core: ReceiverCore {
                    state: step.state,
                    keeping: saving::held(step.keeping, named),
                    ..self.core
                },
            },
            status: Ok(()),
            sent: output::put(reply, step.out, named),
            stored: step.stored,
            shown,
        }
    }

    // A chance to send (document 01: leave); a receiver has nothing to send.
    #[tactic(auto, unfolding(crate::specs::Receiver::transmit))]
    pub fn transmit(self, area: &[u8], reply: &mut [u8]) -> ReceiverAnswer
        ensures { transmit_of self area.now reply.old ≡ record { answer = result; area = area.now; reply = reply.new } }
    {
        self.unchanged(self.check(reply.len(), 0, area.len()))
    }

    // A frame has arrived (document 01: arriving bytes or frame).
    #[tactic(auto, unfolding(crate::specs::Receiver::receive))]
    pub fn receive(self, frame: &[u8], area: &mut [u8], reply: &mut [u8]) -> ReceiverAnswer
        ensures { receive_of self frame.now area.old reply.old ≡ record { answer = result; area = area.new; reply = reply.new } }
    {
        let status = self.check(reply.len(), frame.len(), area.len());
        if calls::is_taken(status) {
            let step = arrivals::take(self, frame, area);
            let shown = check::shown_in(self.core.state, frame);
            return self.finish(shown, step, frame, reply);
        }
        self.unchanged(status)
    }

    // Timer or operator's stop: the stop frame is sent, and the record stands.
    fn fail(self, outcome: Outcome, area: &[u8], reply: &mut [u8]) -> ReceiverAnswer
        ensures { fails outcome self area.now reply.old ≡ record { answer = result; area = area.now; reply = reply.new } }
    {
        let status = self.check(reply.len(), 0, area.len());
        if calls::is_taken(status) {
            let step = step::end(self, outcome, Out::Stop);
            return self.finish(NOWHERE, step, b"", reply);
        }
        self.unchanged(status)
    }

    // The timer has run out (document 01: timer).
    #[tactic(auto, unfolding(crate::specs::Receiver::timeout))]
    pub fn timeout(self, area: &[u8], reply: &mut [u8]) -> ReceiverAnswer
        ensures { timeout_of self area.now reply.old ≡ record { answer = result; area = area.now; reply = reply.new } }
    {
        self.fail(Outcome::TimedOut, area, reply)
    }

    // The operator's stop (document 01: operator's stop).
    #[tactic(auto, unfolding(crate::specs::Receiver::cancel))]
    pub fn cancel(self, area: &[u8], reply: &mut [u8]) -> ReceiverAnswer
        ensures { cancel_of self area.now reply.old ≡ record { answer = result; area = area.now; reply = reply.new } }
    {
        self.fail(Outcome::Stopped, area, reply)
    }

    // Writes the record's bytes, where there is a record.
    pub fn record(self, buf: &mut [u8]) -> Option<Result<usize, WriteError>>
        ensures { (result ≡ record_answer (record_by self) buf.old) × (buf.new ≡ record_left (record_by self) buf.old) }
    {
        saving::write_record(self.core.keeping, &self.name, buf)
    }

    pub fn state(self) -> ReceiverState
        ensures { result ≡ self.core.state }
    {
        self.core.state
    }
}
