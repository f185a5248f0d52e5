// The YAPP sender.
#![tactic(auto)]

ghost use Rattle.std.specs.Prelude.{◌≡◌, List, ℕ, ◌≤◌, length};
ghost use Rattle.fields.specs.Lists.{nowhere};
ghost use Rattle.calls.specs.Checks.{check_of};
ghost use Rattle.yapp.specs.Steps.{sender_ended};
ghost use Rattle.yapp_sender.specs.Sender.{begin as begin_of, transmit as transmit_of, receive as receive_of, timeout as timeout_of, cancel as cancel_of, refused_begin, refused_call, replied, settings_of, status_of, unless_refused};
ghost use Rattle.yapp_sender.specs.Step.{move_of};

use crate::step::{NOWHERE, SenderCore, Step};
use calls::{Outcome, Refusal};
use fields::{Limits, Place, buffers, names};
use packet_stream::Reader;
use yapp::SenderState;

mod arrivals;
mod events;
mod output;
mod step;

#[derive(Clone, Copy)]
pub struct Sender {
    reader: Reader,
    // The file's name at the front, as long as the core says: there is no heap for a name of its own length.
    name: [u8; 64],
    core: SenderCore,
}

#[derive(Clone, Copy)]
pub struct SenderAnswer {
    pub sender: Sender,
    pub status: Result<(), Refusal>,
    // How many bytes of the chunk were taken.
    pub taken: usize,
    // How many bytes of the reply buffer are to be sent.
    pub sent: usize,
    // Where text to show stands in the pending bytes.
    pub shown: Place,
}

impl Sender {
    // The largest file.
    pub const LARGEST: usize = Limits::FILE;
    // The longest block.
    pub const BLOCK: usize = Limits::BLOCK;
    // The shortest reply buffer (document 01's reply room).
    pub const LEAST_REPLY: usize = Limits::REPLY;

    // A beginning that is refused: a sender that has ended.
    fn ended(outcome: Outcome) -> Self
        ensures { result ≡ refused_begin outcome }
    {
        Sender {
            reader: Reader::new(false),
            name: [0; 64],
            core: SenderCore {
                state: SenderState::Ended { outcome },
                named: 0,
                size: 0,
                block: 0,
                stamp: None,
                resumes: false,
            },
        }
    }

    // A sender of one file; resumes says whether RE is taken. One that is refused (3, 4, 5) has ended.
    #[tactic(auto, unfolding(crate::specs::Sender::begin))]
    pub fn begin(name: &[u8], size: usize, block: usize, stamp: Option<u32>, resumes: bool) -> Self
        ensures { result ≡ begin_of name.now size block stamp resumes }
    {
        if !names::is_name(name) {
            return Sender::ended(Outcome::NameOutside);
        }
        if size > Limits::FILE {
            return Sender::ended(Outcome::LengthOutside);
        }
        if !(1..=Limits::BLOCK).contains(&block) {
            return Sender::ended(Outcome::BlockOutside);
        }
        let mut own = [0; 64];
        buffers::append_bytes(&mut own, 0, name);
        Sender {
            reader: Reader::new(false),
            name: own,
            core: SenderCore {
                state: SenderState::S {
                    begun: false,
                    timeouts: 0,
                },
                named: name.len(),
                size: size as u32,
                block,
                stamp,
                resumes,
            },
        }
    }

    // Where the sender stands.
    pub fn state(self) -> SenderState
        ensures { result ≡ self.core.state }
    {
        self.core.state
    }

    // Whether every DT has a checksum (YappC).
    pub fn checked(self) -> bool
        ensures { result ≡ self.reader.checked }
    {
        self.reader.checked()
    }

    // The pending bytes (document 01's waiting room), in which the text to show stands.
    pub fn pending(self) -> [u8; 259]
        ensures { result ≡ self.reader.pending }
    {
        self.reader.pending()
    }

    // The checks of a call that is lent a file and a reply buffer of these lengths.
    fn check(&self, file: usize, reply: usize) -> Result<(), Refusal>
        ensures { result ≡ check_of (sender_ended self.now.core.state) reply 0 file self.now.core.size }
    {
        let ended = matches!(self.core.state, SenderState::Ended { .. });
        calls::check(ended, reply, 0, file, self.core.size as usize)
    }

    // A refused call changes nothing.
    fn refuse(self, status: Result<(), Refusal>) -> SenderAnswer
        ensures { (reply : List ℕ) → refused_call self status reply ≡ record { answer = result; reply = reply } }
    {
        SenderAnswer {
            sender: self,
            status,
            taken: 0,
            sent: 0,
            shown: NOWHERE,
        }
    }

    // A call that is taken: lays what is sent into the reply buffer, and answers.
    fn finish(
        self,
        reader: Reader,
        taken: usize,
        shown: Place,
        step: Step,
        file: &[u8],
        reply: &mut [u8],
    ) -> SenderAnswer
        requires { 259 ≤ length reply.old }
        ensures { replied self reader taken shown (move_of (settings_of self) file.now step) reply.old ≡ record { answer = result; reply = reply.new } }
    {
        let sent = output::put(&self, step, file, reply);
        SenderAnswer {
            sender: Sender {
                reader: reader.checking(step.checked),
                core: SenderCore {
                    state: step.state,
                    ..self.core
                },
                ..self
            },
            status: Ok(()),
            taken,
            sent,
            shown,
        }
    }

    // The step of an event, unless the call is refused.
    fn unless_refused(self, step: Step, file: &[u8], reply: &mut [u8]) -> SenderAnswer
        ensures { unless_refused (status_of self file.now reply.old) self reply.old (replied self self.reader 0 nowhere (move_of (settings_of self) file.now step) reply.old) ≡ record { answer = result; reply = reply.new } }
    {
        let status = self.check(file.len(), reply.len());
        if calls::is_taken(status) {
            return self.finish(self.reader, 0, NOWHERE, step, file, reply);
        }
        self.refuse(status)
    }

    // A chance to send (document 01's leave): SI first, then, once the far end has accepted, a block of the file with each call, and EF.
    pub fn transmit(self, file: &[u8], reply: &mut [u8]) -> SenderAnswer
        ensures { transmit_of self file.now reply.old ≡ record { answer = result; reply = reply.new } }
    {
        let status = self.check(file.len(), reply.len());
        if calls::is_taken(status) {
            let step = events::transmit(&self, file);
            return self.finish(self.reader, 0, NOWHERE, step, file, reply);
        }
        self.refuse(status)
    }

    // Bytes have arrived: takes the chunk (document 01's portion) at most to the end of one packet.
    pub fn receive(self, chunk: &[u8], file: &[u8], reply: &mut [u8]) -> SenderAnswer
        ensures { receive_of self chunk.now file.now reply.old ≡ record { answer = result; reply = reply.new } }
    {
        let status = self.check(file.len(), reply.len());
        if calls::is_taken(status) {
            let got = self.reader.receive(chunk);
            let step = arrivals::take(&self, got.packet);
            let shown = arrivals::shown_in(self.core.state, got);
            return self.finish(got.reader, got.taken, shown, step, file, reply);
        }
        self.refuse(status)
    }

    // The timer ran out.
    pub fn timeout(self, file: &[u8], reply: &mut [u8]) -> SenderAnswer
        ensures { timeout_of self file.now reply.old ≡ record { answer = result; reply = reply.new } }
    {
        self.unless_refused(events::timeout(&self), file, reply)
    }

    // The operator's stop.
    pub fn cancel(self, file: &[u8], reply: &mut [u8]) -> SenderAnswer
        ensures { cancel_of self file.now reply.old ≡ record { answer = result; reply = reply.new } }
    {
        self.unless_refused(events::cancel(&self), file, reply)
    }
}
