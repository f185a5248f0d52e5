// The #BIN# sender.
#![tactic(auto)]

ghost use Rattle.std.specs.Prelude.{◌≡◌, ◌≤◌, length};
ghost use Rattle.calls.specs.Checks.{check_of};
ghost use Rattle.bin.specs.Steps.{sender_ended};
ghost use Rattle.bin_sender.specs.Sender.{refused_begin, within as within_of, begin as begin_of, begin_basic, replied, transmit as transmit_of, receive as receive_of, fail as fail_of, timeout as timeout_of, cancel as cancel_of};
ghost use Rattle.bin_sender.specs.Step.{move_by};

use crate::lent::Lent;
use crate::step::{SenderCore, Step};
use bin::{Announce, SenderState};
use calls::{Outcome, Refusal};
use crc::Reading;
use fields::{Limits, buffers, names};

mod arrivals;
mod lent;
mod output;
mod step;

#[derive(Clone, Copy)]
pub struct Sender {
    // The file's name stands at the front, and its length in the core: the public contracts have them apart.
    name: [u8; 64],
    core: SenderCore,
}

#[derive(Clone, Copy)]
pub struct SenderAnswer {
    pub sender: Sender,
    pub status: Result<(), Refusal>,
    // How many bytes of the reply buffer are the frame to be sent; none where there is none.
    pub sent: usize,
}

impl Sender {
    // The largest file.
    pub const LARGEST: usize = Limits::FILE;
    // The longest block.
    pub const BLOCK: usize = Limits::BLOCK;
    // The shortest reply buffer (reply room).
    pub const LEAST_REPLY: usize = Limits::REPLY;

    // A beginning that is refused: a sender that has ended.
    fn ended(outcome: Outcome) -> Self
        ensures { result ≡ refused_begin outcome }
    {
        Sender {
            name: [0; 64],
            core: SenderCore {
                state: SenderState::Ended { outcome },
                announce: Announce::Basic,
                named: 0,
                size: 0,
                block: 0,
            },
        }
    }

    // The limits of size and block, once the name is within its own.
    fn within(announce: Announce, name: &[u8], size: usize, block: usize) -> Self
        ensures { result ≡ within_of announce name.now size block }
    {
        if Limits::FILE < size {
            return Sender::ended(Outcome::LengthOutside);
        }
        if !(1..=Limits::BLOCK).contains(&block) {
            return Sender::ended(Outcome::BlockOutside);
        }
        let mut own = [0; 64];
        buffers::append_bytes(&mut own, 0, name);
        Sender {
            name: own,
            core: SenderCore {
                state: SenderState::Start,
                announce,
                named: name.len(),
                size: size as u32,
                block,
            },
        }
    }

    // A sender of an extended transfer; resumes says whether `?` is sent, and the session's CRCs go by the reading. One that is refused (3, 4, 5)
    // has ended.
    #[tactic(auto, unfolding(crate::specs::Sender::begin))]
    pub fn begin(
        name: &[u8],
        size: usize,
        block: usize,
        stamp: u32,
        resumes: bool,
        reading: Reading,
    ) -> Self
        ensures { result ≡ begin_of name.now size block stamp resumes reading }
    {
        if !names::is_name(name) {
            return Sender::ended(Outcome::NameOutside);
        }
        let announce = Announce::Extended {
            stamp,
            resumes,
            reading,
        };
        Sender::within(announce, name, size, block)
    }

    // A sender of a basic transfer, which has no name.
    #[tactic(auto, unfolding(crate::specs::Sender::begin_basic))]
    pub fn begin_basic(size: usize, block: usize) -> Self
        ensures { result ≡ begin_basic size block }
    {
        Sender::within(Announce::Basic, b"", size, block)
    }

    // Where the sender stands.
    pub fn state(self) -> SenderState
        ensures { result ≡ self.core.state }
    {
        self.core.state
    }

    // The checks of a call, by the lengths of frame, file and reply buffer.
    fn check(self, frame: usize, file: usize, reply: usize) -> Result<(), Refusal>
        ensures { result ≡ check_of (sender_ended self.core.state) reply frame file self.core.size }
    {
        let size = self.core.size as usize;
        calls::check(step::is_ended(self.core.state), reply, frame, file, size)
    }

    // A refused call changes nothing.
    fn refused(self, status: Result<(), Refusal>) -> SenderAnswer
        ensures { result ≡ record { sender = self; status = status; sent = 0 } }
    {
        SenderAnswer {
            sender: self,
            status,
            sent: 0,
        }
    }

    // Lays what is sent into the reply buffer, and answers.
    fn finish(self, step: Step, file: &[u8], reply: &mut [u8]) -> SenderAnswer
        requires { 259 ≤ length reply.old }
        ensures { replied self (move_by self file.now step) reply.old ≡ record { answer = result; reply = reply.new } }
    {
        let sent = output::put(self, step.out, file, reply);
        let core = SenderCore {
            state: step.state,
            ..self.core
        };
        SenderAnswer {
            sender: Sender { core, ..self },
            status: Ok(()),
            sent,
        }
    }

    // A chance to send (leave): the line first, then, once the far end has answered, a frame of the file with each call.
    #[tactic(auto, unfolding(crate::specs::Sender::transmit))]
    pub fn transmit(self, file: &[u8], reply: &mut [u8]) -> SenderAnswer
        ensures { transmit_of self file.now reply.old ≡ record { answer = result; reply = reply.new } }
    {
        let status = self.check(0, file.len(), reply.len());
        if calls::is_taken(status) {
            let lent = Lent { sender: self, file };
            return self.finish(step::transmit(lent), file, reply);
        }
        self.refused(status)
    }

    // An arriving frame: the far end's answer, or its stop.
    #[tactic(auto, unfolding(crate::specs::Sender::receive))]
    pub fn receive(self, frame: &[u8], file: &[u8], reply: &mut [u8]) -> SenderAnswer
        ensures { receive_of self frame.now file.now reply.old ≡ record { answer = result; reply = reply.new } }
    {
        let status = self.check(frame.len(), file.len(), reply.len());
        if calls::is_taken(status) {
            let lent = Lent { sender: self, file };
            return self.finish(arrivals::receive(lent, frame), file, reply);
        }
        self.refused(status)
    }

    // Timer or operator's stop, by the number that it ends with.
    fn fail(self, outcome: Outcome, file: &[u8], reply: &mut [u8]) -> SenderAnswer
        ensures { fail_of outcome self file.now reply.old ≡ record { answer = result; reply = reply.new } }
    {
        let status = self.check(0, file.len(), reply.len());
        if calls::is_taken(status) {
            return self.finish(step::stops(outcome), file, reply);
        }
        self.refused(status)
    }

    // The timer ran out.
    #[tactic(auto, unfolding(crate::specs::Sender::timeout))]
    pub fn timeout(self, file: &[u8], reply: &mut [u8]) -> SenderAnswer
        ensures { timeout_of self file.now reply.old ≡ record { answer = result; reply = reply.new } }
    {
        self.fail(Outcome::TimedOut, file, reply)
    }

    // The operator's stop.
    #[tactic(auto, unfolding(crate::specs::Sender::cancel))]
    pub fn cancel(self, file: &[u8], reply: &mut [u8]) -> SenderAnswer
        ensures { cancel_of self file.now reply.old ≡ record { answer = result; reply = reply.new } }
    {
        self.fail(Outcome::Stopped, file, reply)
    }
}
