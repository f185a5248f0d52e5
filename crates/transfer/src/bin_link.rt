// A #BIN# sender and a #BIN# receiver; the link between them carries a frame whole or not at all.
ghost use Rattle.std.specs.Prelude.{◌≡◌};
ghost use Rattle.transfer.specs.BinSession.{sends, sent, taken, have_ended, receiver_of, begin as begin_of, is_success, saved_of, saved_after, sent_word, answer_word, Session};

use crate::ends::{Ends, Sent};
use crate::link::Saved;
use crate::text::End;
use crate::{ends, link, text};
use bin::{ReceiverState, SenderState};
use bin_receiver::Receiver;
use bin_sender::{Sender, SenderAnswer};
use crc::Reading;
use std::io;
use std::io::Write;

#[derive(Clone, Copy)]
struct BinEnds {
    sender: Sender,
    receiver: Receiver,
}

fn receiver_of(before: Saved, room: usize) -> Receiver
    ensures { result ≡ receiver_of before room }
{
    let bytes = before.bytes;
    if before.count == 0 {
        return Receiver::fresh(room, true, Reading::Bare);
    }
    Receiver::resume(
        fields::part(&bytes, 0, before.count),
        room,
        true,
        Reading::Bare,
    )
}

#[tactic(auto, unfolding(crate::specs::BinSession::begin))]
fn begin(before: Saved, name: &[u8], size: usize, room: usize) -> BinEnds
    ensures { result ≡ begin_of before name.now size room }
{
    BinEnds {
        sender: Sender::begin(name, size, 256, link::STAMP, true, Reading::Bare),
        receiver: receiver_of(before, room),
    }
}

// The sender takes what came over the link of the receiver's answer; where there was none, it has its chance to send.
fn send(
    sender: Sender,
    answered: usize,
    came: &[u8],
    file: &[u8],
    out: &mut [u8; 259],
) -> SenderAnswer
    ensures { sends sender answered came.now file.now out.old ≡ record { answer = result; reply = out.new } }
{
    if answered == 0 {
        return sender.transmit(file, out);
    }
    sender.receive(came, file, out)
}

fn is_success(state: ReceiverState) -> bool
    ensures { result ≡ is_success state }
{
    match state {
        ReceiverState::Ended { outcome } => link::is_success(outcome),
        _ => false,
    }
}

fn saved(receiver: Receiver) -> Saved
    ensures { result ≡ saved_of receiver }
{
    let mut bytes = [0; 81];
    let got = receiver.record(&mut bytes);
    Saved {
        bytes,
        count: calls::record_count(got),
        whole: is_success(receiver.state()),
    }
}

impl Ends for BinEnds {
    type Sender = SenderState;

    type Receiver = ReceiverState;

    ghost sends = { sent };

    ghost takes = { taken };

    ghost ended = { have_ended };

    ghost saves = { λ e. saved_after e.receiver };

    ghost sent_words = { sent_word };

    ghost answer_words = { answer_word };

    fn sender(self) -> SenderState {
        self.sender.state()
    }

    fn receiver(self) -> ReceiverState {
        self.receiver.state()
    }

    #[tactic(auto, unfolding(crate::specs::BinSession::sent))]
    fn send(self, answered: usize, came: &[u8], file: &[u8]) -> Sent<Self> {
        let mut bytes = [0; 259];
        let a = send(self.sender, answered, came, file, &mut bytes);
        Sent {
            ends: BinEnds {
                sender: a.sender,
                ..self
            },
            count: a.sent,
            bytes,
        }
    }

    #[tactic(auto, unfolding(crate::specs::BinSession::taken))]
    fn take(self, came: &[u8], area: &mut [u8]) -> Sent<Self> {
        let mut bytes = [0; 259];
        let b = self.receiver.receive(came, area, &mut bytes);
        Sent {
            ends: BinEnds {
                receiver: b.receiver,
                ..self
            },
            count: b.sent,
            bytes,
        }
    }

    fn sent_word(self, bytes: &[u8]) -> &'static str {
        match self.sender.state() {
            SenderState::Send { .. } => "data",
            _ => text::frame_word(bytes),
        }
    }

    fn answer_word(self, bytes: &[u8]) -> &'static str {
        text::frame_word(bytes)
    }

    #[tactic(auto, unfolding(crate::specs::BinSession::have_ended))]
    fn have_ended(self) -> bool {
        matches!(self.receiver.state(), ReceiverState::Ended { .. })
            && matches!(self.sender.state(), SenderState::Ended { .. })
    }

    fn end_sender<W: Write>(self, out: &mut W, file: &[u8]) -> io::Result<()> {
        let mut reply = [0; 259];
        let sender = self.sender;
        let a = sender.cancel(file, &mut reply);
        text::show_step(out, End::Sender, sender.state(), a.sender.state())
    }

    #[tactic(auto, unfolding(crate::specs::BinSession::saved_after))]
    fn end_receiver<W: Write>(self, out: &mut W, area: &[u8]) -> io::Result<Saved> {
        let mut reply = [0; 259];
        let receiver = self.receiver;
        let a = receiver.timeout(area, &mut reply);
        text::show_step(out, End::Receiver, receiver.state(), a.receiver.state())?;
        Ok(saved(a.receiver))
    }
}

// A session of a file that goes on from what the one before left.
pub fn session<W: Write>(
    out: &mut W,
    before: Saved,
    name: &[u8],
    left: usize,
    file: &[u8],
    area: &mut [u8],
) -> io::Result<Saved>
    ensures { Session before name.now left file.now area.old result area.new }
{
    let ends = begin(before, name, file.len(), area.len());
    ends::session(out, ends, link::whole(left, true), file, area)
}
