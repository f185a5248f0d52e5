// The YAPP receiver.
#![tactic(auto)]

ghost use Rattle.std.specs.Prelude.{◌≡◌, List, length, ℕ, ◌≤◌, None};
ghost use Rattle.records.specs.Saved.{saved_of};
ghost use Rattle.calls.specs.Checks.{check_of};
ghost use Rattle.calls.specs.Recording.{record_answer, record_left};
ghost use Rattle.yapp.specs.Steps.{ReceiverMove, receiver_ended};
ghost use Rattle.yapp_receiver.specs.Receiver.{fresh as fresh_of, resume as resume_of, transmit as transmit_of, receive as receive_of, timeout as timeout_of, cancel as cancel_of, record_by, receiver_with, with_saved, refused_call, replied as replied_of, status_of, unless_refused};
ghost use Rattle.yapp_receiver.specs.Step.{reached, reached_by};

use crate::step::{ReceiverCore, Step};
use calls::{Entry, Outcome, Refusal, saving};
use fields::{Limits, WriteError, buffers};
use packet_stream::Reader;
use records::{Record, record_reader};
use yapp::ReceiverState;

mod arrivals;
mod block;
mod events;
mod header;
mod output;
mod step;

#[derive(Clone, Copy)]
pub struct Receiver {
    reader: Reader,
    // The bytes of the record's name at the front, as many as the record says: there is no heap for a name of its own length.
    name: [u8; 64],
    core: ReceiverCore,
}

#[derive(Clone, Copy)]
pub struct ReceiverAnswer {
    pub receiver: Receiver,
    pub status: Result<(), Refusal>,
    // How many bytes of the chunk, document 01's portion, were taken.
    pub taken: usize,
    // How many bytes of the reply buffer, document 01's reply room, are to be sent.
    pub sent: usize,
    // How many bytes were stored in the area.
    pub stored: usize,
}

impl Receiver {
    // A reply buffer has at least this many bytes.
    pub const LEAST_REPLY: usize = Limits::REPLY;
    // The buffer that a record is written into has at least this many bytes.
    pub const LEAST_RECORD: usize = Limits::RECORD;

    #[tactic(auto, using(crate::proofs::Calls::no_name))]
    fn without_record(state: ReceiverState, room: usize, resumes: bool, checks: bool) -> Self
        ensures { result ≡ receiver_with state room resumes checks None }
    {
        Receiver {
            reader: Reader::new(false),
            name: [0; 64],
            core: ReceiverCore {
                state,
                room,
                resumes,
                checks,
                keeping: None,
            },
        }
    }

    // A receiver with no record.
    #[tactic(auto, unfolding(crate::specs::Receiver::fresh))]
    pub fn fresh(room: usize, resumes: bool, checks: bool) -> Self
        ensures { result ≡ fresh_of room resumes checks }
    {
        Receiver::without_record(ReceiverState::R, room, resumes, checks)
    }

    // From a record; kept over size, or size over area, is 2.
    #[tactic(auto, unfolding(crate::specs::Receiver::fresh, crate::specs::Receiver::with_saved))]
    fn with_record(r: Record, bytes: &[u8], room: usize, resumes: bool, checks: bool) -> Self
        ensures { result ≡ with_saved room resumes checks (saved_of bytes.now r) }
    {
        if !saving::is_within(r.kept, r.size, room) {
            let outcome = Outcome::RecordOver;
            return Receiver::without_record(
                ReceiverState::Ended { outcome },
                room,
                resumes,
                checks,
            );
        }
        let mut receiver = Receiver::fresh(room, resumes, checks);
        let name = fields::bytes_at(bytes, r.name);
        buffers::append_bytes(&mut receiver.name, 0, name);
        receiver.core.keeping = Some(Entry {
            named: name.len(),
            size: r.size,
            kept: r.kept,
            stamp: r.stamp,
        });
        receiver
    }

    // A receiver with the record that these bytes are; unreadable ones are 1, a record out of its limits is 2.
    #[tactic(auto, unfolding(crate::specs::Receiver::resume))]
    pub fn resume(bytes: &[u8], room: usize, resumes: bool, checks: bool) -> Self
        ensures { result ≡ resume_of bytes.now room resumes checks }
    {
        let Some(r) = record_reader::record_of(bytes) else {
            let outcome = Outcome::RecordUnreadable;
            return Receiver::without_record(
                ReceiverState::Ended { outcome },
                room,
                resumes,
                checks,
            );
        };
        Receiver::with_record(r, bytes, room, resumes, checks)
    }

    // The checks of a call that is lent an area and a reply buffer of these lengths.
    fn check(&self, area: usize, reply: usize) -> Result<(), Refusal>
        ensures { result ≡ check_of (receiver_ended self.now.core.state) reply 0 area self.now.core.room }
    {
        let ended = matches!(self.core.state, ReceiverState::Ended { .. });
        calls::check(ended, reply, 0, area, self.core.room)
    }

    // Nothing changes.
    fn unchanged(self, status: Result<(), Refusal>) -> ReceiverAnswer
        ensures { (area reply : List ℕ) → refused_call self status area reply ≡ record { answer = result; area = area; reply = reply } }
    {
        ReceiverAnswer {
            receiver: self,
            status,
            taken: 0,
            sent: 0,
            stored: 0,
        }
    }

    // Keeps the name, which stands in the pending bytes where it is new, writes the reply, and answers.
    fn replied(self, reader: Reader, taken: usize, step: Step, reply: &mut [u8]) -> ReceiverAnswer
        requires { 259 ≤ length reply.old }
        ensures { (v : ReceiverMove) (a : List ℕ) → reached self.name v ≡ reached_by reader.pending self.name step a → replied_of self reader taken v reply.old ≡ record { answer = result; area = a; reply = reply.new } }
    {
        let mut name = self.name;
        if let Some(place) = step.name {
            buffers::append_bytes(&mut name, 0, fields::bytes_at(&reader.pending(), place));
        }
        let sent = output::put(reply, step.out, step.checked);
        ReceiverAnswer {
            receiver: Receiver {
                reader: reader.checking(step.checked),
                name,
                core: ReceiverCore {
                    state: step.state,
                    keeping: step.keeping,
                    ..self.core
                },
            },
            status: Ok(()),
            taken,
            sent,
            stored: step.stored,
        }
    }

    // Document 01's leave, a chance to send: a receiver has nothing to send.
    #[tactic(auto, unfolding(crate::specs::Receiver::transmit))]
    pub fn transmit(self, area: &[u8], reply: &mut [u8]) -> ReceiverAnswer
        ensures { transmit_of self area.now reply.old ≡ record { answer = result; area = area.now; reply = reply.new } }
    {
        self.unchanged(self.check(area.len(), reply.len()))
    }

    // Arriving bytes.
    pub fn receive(self, chunk: &[u8], area: &mut [u8], reply: &mut [u8]) -> ReceiverAnswer
        ensures { receive_of self chunk.now area.old reply.old ≡ record { answer = result; area = area.new; reply = reply.new } }
    {
        let status = self.check(area.len(), reply.len());
        if calls::is_taken(status) {
            let received = self.reader.receive(chunk);
            let step = arrivals::decide(&self, received, area);
            return self.replied(received.reader, received.taken, step, reply);
        }
        self.unchanged(status)
    }

    // The step of an event, unless the call is refused.
    fn unless_refused(self, step: Step, area: &[u8], reply: &mut [u8]) -> ReceiverAnswer
        ensures { (v : ReceiverMove) → reached self.name v ≡ reached_by self.reader.pending self.name step area.now → unless_refused (status_of self area.now reply.old) self area.now reply.old (replied_of self self.reader 0 v reply.old) ≡ record { answer = result; area = area.now; reply = reply.new } }
    {
        let status = self.check(area.len(), reply.len());
        if calls::is_taken(status) {
            return self.replied(self.reader, 0, step, reply);
        }
        self.unchanged(status)
    }

    // Document 01's timer has run out.
    pub fn timeout(self, area: &[u8], reply: &mut [u8]) -> ReceiverAnswer
        ensures { timeout_of self area.now reply.old ≡ record { answer = result; area = area.now; reply = reply.new } }
    {
        self.unless_refused(events::timeout(&self), area, reply)
    }

    // The operator's stop.
    pub fn cancel(self, area: &[u8], reply: &mut [u8]) -> ReceiverAnswer
        ensures { cancel_of self area.now reply.old ≡ record { answer = result; area = area.now; reply = reply.new } }
    {
        self.unless_refused(events::cancel(&self), area, reply)
    }

    // Writes the record's bytes, where there is a record.
    pub fn record(self, buf: &mut [u8]) -> Option<Result<usize, WriteError>>
        ensures { (result ≡ record_answer (record_by self) buf.old) × (buf.new ≡ record_left (record_by self) buf.old) }
    {
        saving::write_record(self.core.keeping, &self.name, buf)
    }

    pub fn state(self) -> ReceiverState
        ensures { result ≡ self.core.state }
    {
        self.core.state
    }

    // Whether every DT has a checksum (YappC).
    pub fn checked(self) -> bool
        ensures { result ≡ self.reader.checked }
    {
        self.reader.checked()
    }
}
