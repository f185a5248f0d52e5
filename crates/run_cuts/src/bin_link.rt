// A #BIN# sender and a #BIN# receiver, and the link between them: what came of a frame that is cut is handed over as a frame.
ghost use Rattle.std.specs.Prelude.{◌≡◌, true, IfOk, OnErr};
ghost use Rattle.bin_receiver.specs.Receiver.{record_by};
ghost use Rattle.run_cuts.specs.BinLink.{receiver_of, begin as begin_of, sends, takes, sender_ended, receiver_ended, session as session_of};

use crate::link;
use crate::link::{Ends, Moved, Receiving, Saved, Sending};
use bin::{ReceiverState, SenderState};
use bin_receiver::Receiver;
use bin_sender::Sender;
use calls::Outcome;
use crc::Reading;
use script::printing::put_text;
use std::io;
use std::io::Write;

// The reading of the CRC that each end is set to.
#[derive(Clone, Copy)]
pub struct Readings {
    pub sender: Reading,
    pub receiver: Reading,
}

#[tactic(auto, unfolding(crate::specs::BinLink::receiver_of))]
fn receiver_of(s: Saved, reading: Reading) -> Receiver
    ensures { result ≡ receiver_of s reading }
{
    if s.len == 0 {
        return Receiver::fresh(320, true, reading);
    }
    Receiver::resume(fields::part(&s.bytes, 0, s.len), 320, true, reading)
}

#[tactic(auto, unfolding(crate::specs::BinLink::begin))]
fn begin(
    before: Saved,
    bytes: usize,
    block: usize,
    readings: Readings,
    size: usize,
) -> Ends<Sender, Receiver>
    ensures { result ≡ begin_of before bytes block readings size }
{
    Ends {
        sender: Sender::begin(b"abc.txt", size, block, 0x5A21_4800, true, readings.sender),
        receiver: receiver_of(before, readings.receiver),
        link: link::begin(before, bytes),
    }
}

impl Sending for Sender {
    ghost sends = { sends };

    ghost ended_of = { sender_ended };

    #[tactic(auto, unfolding(crate::specs::BinLink::sends))]
    fn send(self, answered: usize, heard: &[u8], file: &[u8], out: &mut [u8; 259]) -> Moved<Self> {
        let a = if answered == 0 {
            self.transmit(file, out)
        } else {
            self.receive(heard, file, out)
        };
        Moved {
            end: a.sender,
            sent: a.sent,
        }
    }

    fn ended(self) -> Option<Outcome> {
        match self.state() {
            SenderState::Ended { outcome } => Some(outcome),
            _ => None,
        }
    }
}

impl Receiving for Receiver {
    ghost takes = { takes };

    ghost records = { record_by };

    ghost ended_of = { receiver_ended };

    #[tactic(auto, unfolding(crate::specs::BinLink::takes))]
    fn take(self, came: &[u8], area: &mut [u8; 320], out: &mut [u8; 259]) -> Moved<Self> {
        let b = self.receive(came, area, out);
        Moved {
            end: b.receiver,
            sent: b.sent,
        }
    }

    fn put_record(self, out: &mut [u8; 81]) -> usize {
        calls::record_count(self.record(out))
    }

    fn ended(self) -> Option<Outcome> {
        match self.state() {
            ReceiverState::Ended { outcome } => Some(outcome),
            _ => None,
        }
    }
}

// The line, a turn to hear what came of it, and a turn for each frame: a file has at most 27 bytes.
const TURNS: usize = 29;

// The frames of the file; what is sent in the first turn is the line.
fn show_frames<W: Write>(
    out: &mut W,
    begun: Ends<Sender, Receiver>,
    file: &[u8],
) -> io::Result<()> {
    let mut e = link::turn(begun, file);
    for _ in 1..TURNS {
        let next = link::turn(e, file);
        let left = e.link.left.saturating_sub(e.link.answered);
        let to = next.link.to;
        // What passed of it is what the link has carried since.
        let frame = fields::part(&to, 0, left.saturating_sub(next.link.left));
        put_text(out, b" ", frame)?;
        e = next;
    }
    Ok(())
}

// Goes on from what a session left, with frames of so many bytes. So many bytes pass before the link breaks.
// It fails only where a frame is to be shown and is not written.
#[tactic(auto, unfolding(crate::specs::BinLink::session))]
pub fn session<W: Write>(
    out: &mut W,
    before: Saved,
    bytes: usize,
    block: usize,
    readings: Readings,
    is_shown: bool,
    file: &[u8],
) -> io::Result<Saved>
    ensures saved { IfOk result (λ s. s ≡ session_of before bytes block readings file.now) }
    ensures err { OnErr result (is_shown ≡ true) }
{
    let e = begin(before, bytes, block, readings, file.len());
    if is_shown {
        show_frames(out, e, file)?;
    }
    Ok(link::session(e, TURNS, file))
}
