// A YAPP sender and a YAPP receiver, and the link between them.
ghost use Rattle.std.specs.Prelude.{◌≡◌};
ghost use Rattle.yapp_receiver.specs.Receiver.{record_by};
ghost use Rattle.run_cuts.specs.YappLink.{receiver_of, begin as begin_of, sends, takes, sender_ended, receiver_ended, session as session_of};

use crate::link;
use crate::link::{Ends, Moved, Receiving, Saved, Sending};
use calls::Outcome;
use yapp::{ReceiverState, SenderState};
use yapp_receiver::Receiver;
use yapp_sender::Sender;

#[tactic(auto, unfolding(crate::specs::YappLink::receiver_of))]
fn receiver_of(s: Saved, checks: bool) -> Receiver
    ensures { result ≡ receiver_of s checks }
{
    if s.len == 0 {
        return Receiver::fresh(320, true, checks);
    }
    Receiver::resume(fields::part(&s.bytes, 0, s.len), 320, true, checks)
}

#[tactic(auto, unfolding(crate::specs::YappLink::begin))]
fn begin(before: Saved, bytes: usize, checks: bool, size: usize) -> Ends<Sender, Receiver>
    ensures { result ≡ begin_of before bytes checks size }
{
    Ends {
        sender: Sender::begin(b"abc.txt", size, 100, Some(0x5A21_4800), true),
        receiver: receiver_of(before, checks),
        link: link::begin(before, bytes),
    }
}

impl Sending for Sender {
    ghost sends = { sends };

    ghost ended_of = { sender_ended };

    #[tactic(auto, unfolding(crate::specs::YappLink::sends))]
    fn send(self, answered: usize, heard: &[u8], file: &[u8], out: &mut [u8; 259]) -> Moved<Self> {
        let a = if answered == 0 {
            self.transmit(file, out)
        } else {
            self.receive(heard, file, out)
        };
        Moved {
            end: a.sender,
            sent: a.sent,
        }
    }

    fn ended(self) -> Option<Outcome> {
        match self.state() {
            SenderState::Ended { outcome } => Some(outcome),
            _ => None,
        }
    }
}

impl Receiving for Receiver {
    ghost takes = { takes };

    ghost records = { record_by };

    ghost ended_of = { receiver_ended };

    #[tactic(auto, unfolding(crate::specs::YappLink::takes))]
    fn take(self, came: &[u8], area: &mut [u8; 320], out: &mut [u8; 259]) -> Moved<Self> {
        let b = self.receive(came, area, out);
        Moved {
            end: b.receiver,
            sent: b.sent,
        }
    }

    fn put_record(self, out: &mut [u8; 81]) -> usize {
        calls::record_count(self.record(out))
    }

    fn ended(self) -> Option<Outcome> {
        match self.state() {
            ReceiverState::Ended { outcome } => Some(outcome),
            _ => None,
        }
    }
}

// Goes on from what a session left. So many bytes pass before the link breaks.
// SI, HD, a turn to hear what came of it, a DT for each of three blocks, EF, ET, and a turn to hear what came of it.
#[tactic(auto, unfolding(crate::specs::YappLink::session))]
pub fn session(before: Saved, bytes: usize, checks: bool, file: &[u8]) -> Saved
    ensures { result ≡ session_of before bytes checks file.now }
{
    let e = begin(before, bytes, checks, file.len());
    link::session(e, 9, file)
}
