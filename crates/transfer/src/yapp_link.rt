// A YAPP sender and a YAPP receiver.
ghost use Rattle.std.specs.Prelude.{◌≡◌};
ghost use Rattle.transfer.specs.YappSession.{sends, sent, taken, have_ended, receiver_of, stamp_of, begin as begin_of, is_success, saved_of, timed_out, saved_after, sent_word, answer_word, Session};

use crate::ends::{Ends, Sent};
use crate::link::Saved;
use crate::text::End;
use crate::{ends, link, text};
use std::io;
use std::io::Write;
use yapp::{ReceiverState, SenderState};
use yapp_receiver::Receiver;
use yapp_sender::{Sender, SenderAnswer};

#[derive(Clone, Copy)]
struct YappEnds {
    sender: Sender,
    receiver: Receiver,
}

fn receiver_of(before: Saved, room: usize, checks: bool) -> Receiver
    ensures { result ≡ receiver_of before room checks }
{
    let bytes = before.bytes;
    if before.count == 0 {
        return Receiver::fresh(room, true, checks);
    }
    Receiver::resume(fields::part(&bytes, 0, before.count), room, true, checks)
}

#[tactic(auto, unfolding(crate::specs::YappSession::begin))]
fn begin(before: Saved, checks: bool, name: &[u8], size: usize, room: usize) -> YappEnds
    ensures { result ≡ begin_of before checks name.now size room }
{
    YappEnds {
        sender: Sender::begin(name, size, 256, stamp_of(checks), true),
        receiver: receiver_of(before, room, checks),
    }
}

fn stamp_of(checks: bool) -> Option<u32>
    ensures { result ≡ stamp_of checks }
{
    checks.then_some(link::STAMP)
}

// The sender takes what came over the link of the receiver's answer; where there was none, it has its chance to send.
fn send(
    sender: Sender,
    answered: usize,
    came: &[u8],
    file: &[u8],
    out: &mut [u8; 259],
) -> SenderAnswer
    ensures { sends sender answered came.now file.now out.old ≡ record { answer = result; reply = out.new } }
{
    if answered == 0 {
        return sender.transmit(file, out);
    }
    sender.receive(came, file, out)
}

fn time_out(receiver: Receiver, area: &[u8]) -> Receiver
    ensures { result ≡ timed_out receiver area.now }
{
    let mut reply = [0; 259];
    receiver.timeout(area, &mut reply).receiver
}

fn is_success(state: ReceiverState) -> bool
    ensures { result ≡ is_success state }
{
    match state {
        ReceiverState::Ended { outcome } => link::is_success(outcome),
        _ => false,
    }
}

fn saved(receiver: Receiver) -> Saved
    ensures { result ≡ saved_of receiver }
{
    let mut bytes = [0; 81];
    let got = receiver.record(&mut bytes);
    Saved {
        bytes,
        count: calls::record_count(got),
        whole: is_success(receiver.state()),
    }
}

impl Ends for YappEnds {
    type Sender = SenderState;

    type Receiver = ReceiverState;

    ghost sends = { sent };

    ghost takes = { taken };

    ghost ended = { have_ended };

    ghost saves = { λ e. saved_after e.receiver };

    ghost sent_words = { sent_word };

    ghost answer_words = { answer_word };

    fn sender(self) -> SenderState {
        self.sender.state()
    }

    fn receiver(self) -> ReceiverState {
        self.receiver.state()
    }

    #[tactic(auto, unfolding(crate::specs::YappSession::sent))]
    fn send(self, answered: usize, came: &[u8], file: &[u8]) -> Sent<Self> {
        let mut bytes = [0; 259];
        let a = send(self.sender, answered, came, file, &mut bytes);
        Sent {
            ends: YappEnds {
                sender: a.sender,
                ..self
            },
            count: a.sent,
            bytes,
        }
    }

    #[tactic(auto, unfolding(crate::specs::YappSession::taken))]
    fn take(self, came: &[u8], area: &mut [u8]) -> Sent<Self> {
        let mut bytes = [0; 259];
        let b = self.receiver.receive(came, area, &mut bytes);
        Sent {
            ends: YappEnds {
                receiver: b.receiver,
                ..self
            },
            count: b.sent,
            bytes,
        }
    }

    fn sent_word(self, bytes: &[u8]) -> &'static str {
        text::packet_word(bytes, self.receiver.checked())
    }

    fn answer_word(self, bytes: &[u8]) -> &'static str {
        text::packet_word(bytes, false)
    }

    #[tactic(auto, unfolding(crate::specs::YappSession::have_ended))]
    fn have_ended(self) -> bool {
        matches!(self.receiver.state(), ReceiverState::Ended { .. })
            && matches!(self.sender.state(), SenderState::Ended { .. })
    }

    // It ends when nothing answers.
    fn end_sender<W: Write>(self, out: &mut W, file: &[u8]) -> io::Result<()> {
        let mut reply = [0; 259];
        let sender = self.sender;
        let a = sender.cancel(file, &mut reply).sender;
        let b = a.timeout(file, &mut reply).sender;
        text::show_step(out, End::Sender, sender.state(), a.state())?;
        text::show_step(out, End::Sender, a.state(), b.state())
    }

    // It aborts, and ends when nothing answers.
    #[tactic(auto, unfolding(crate::specs::YappSession::saved_after))]
    fn end_receiver<W: Write>(self, out: &mut W, area: &[u8]) -> io::Result<Saved> {
        let receiver = self.receiver;
        let aborting = time_out(receiver, area);
        let ended = time_out(aborting, area);
        text::show_step(out, End::Receiver, receiver.state(), aborting.state())?;
        text::show_step(out, End::Receiver, aborting.state(), ended.state())?;
        Ok(saved(ended))
    }
}

// A session of a file that goes on from what the one before left.
pub fn session<W: Write>(
    out: &mut W,
    before: Saved,
    checks: bool,
    name: &[u8],
    left: usize,
    file: &[u8],
    area: &mut [u8],
) -> io::Result<Saved>
    ensures { Session before checks name.now left file.now area.old result area.new }
{
    let ends = begin(before, checks, name, file.len(), area.len());
    ends::session(out, ends, link::whole(left, false), file, area)
}
