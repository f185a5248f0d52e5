// The lines of the transcript.
ghost use Rattle.std.specs.Prelude.{◌≡◌, ℕ, List, Option, OnOk, length};
ghost use Rattle.std.specs.Io.KnownBytes.{Appends};
ghost use Rattle.calls.specs.declared.Outcome.{Outcome};
ghost use Rattle.packets.specs.Packet.{packet_of};
ghost use Rattle.lines.specs.Frame.{frame_of};
ghost use Rattle.transfer.specs.Words.{head, arrow, sender_word, sender_outcome, receiver_word, receiver_outcome, bin_sender_word, bin_sender_outcome, bin_receiver_word, bin_receiver_outcome, packet_word, frame_word, flaw_words, outcome_words, outcome_text, state_text, move_text, step_text, break_text, sent_text};

use bin::{ReceiverState as BinReceiverState, SenderState as BinSenderState};
use calls::{Outcome, outcomes};
use fields::{Flaw, names};
use lines::{Frame, line_reader};
use packets::{Packet, packet_reader};
use std::io;
use std::io::Write;
use yapp::{ReceiverState, SenderState};

// The two ends.
#[derive(Clone, Copy)]
pub enum End {
    Sender,
    Receiver,
}

impl End {
    // How the line of its step begins. With the spaces round it, since each piece that is printed is a write.
    fn head(self) -> &'static str
        ensures { result.now ≡ head self }
    {
        match self {
            End::Sender => "    sender ",
            End::Receiver => "    receiver ",
        }
    }

    // Which way its bytes go.
    fn arrow(self) -> &'static str
        ensures { result.now ≡ arrow self }
    {
        match self {
            End::Sender => "> ",
            End::Receiver => "< ",
        }
    }
}

// A state of an end: its word, with a comma where an outcome follows, and the outcome where it has one.
pub trait State: Copy {
    ghost word_of: { Self → List ℕ };

    ghost outcome_of: { Self → Option Outcome };

    fn word(self) -> &'static str
        ensures { result.now ≡ word_of self };

    fn outcome(self) -> Option<Outcome>
        ensures { result ≡ outcome_of self };
}

impl State for SenderState {
    ghost word_of = { sender_word };

    ghost outcome_of = { sender_outcome };

    fn word(self) -> &'static str {
        match self {
            SenderState::S { .. } => "S",
            SenderState::SH => "SH",
            SenderState::SD { .. } => "SD",
            SenderState::SE => "SE",
            SenderState::ST => "ST",
            SenderState::CW { .. } => "CW, ",
            SenderState::Ended { .. } => "ended, ",
        }
    }

    fn outcome(self) -> Option<Outcome> {
        match self {
            SenderState::CW { outcome } | SenderState::Ended { outcome } => Some(outcome),
            _ => None,
        }
    }
}

impl State for ReceiverState {
    ghost word_of = { receiver_word };

    ghost outcome_of = { receiver_outcome };

    fn word(self) -> &'static str {
        match self {
            ReceiverState::R => "R",
            ReceiverState::RH { .. } => "RH",
            ReceiverState::RD => "RD",
            ReceiverState::CW { .. } => "CW, ",
            ReceiverState::Ended { .. } => "ended, ",
        }
    }

    fn outcome(self) -> Option<Outcome> {
        match self {
            ReceiverState::CW { outcome } | ReceiverState::Ended { outcome } => Some(outcome),
            _ => None,
        }
    }
}

impl State for BinSenderState {
    ghost word_of = { bin_sender_word };

    ghost outcome_of = { bin_sender_outcome };

    fn word(self) -> &'static str {
        match self {
            BinSenderState::Start => "start",
            BinSenderState::Wait => "wait",
            BinSenderState::Send { .. } => "send",
            BinSenderState::Ended { .. } => "ended, ",
        }
    }

    fn outcome(self) -> Option<Outcome> {
        match self {
            BinSenderState::Ended { outcome } => Some(outcome),
            _ => None,
        }
    }
}

impl State for BinReceiverState {
    ghost word_of = { bin_receiver_word };

    ghost outcome_of = { bin_receiver_outcome };

    fn word(self) -> &'static str {
        match self {
            BinReceiverState::Waiting => "waiting",
            BinReceiverState::Basic { .. } => "basic",
            BinReceiverState::Extended { .. } => "extended",
            BinReceiverState::Ended { .. } => "ended, ",
        }
    }

    fn outcome(self) -> Option<Outcome> {
        match self {
            BinReceiverState::Ended { outcome } => Some(outcome),
            _ => None,
        }
    }
}

fn flaw_words(flaw: Flaw) -> &'static str
    ensures { result.now ≡ flaw_words flaw }
{
    match flaw {
        Flaw::NameOpen => "no closing byte behind the name",
        Flaw::NameLength => "name empty or too long",
        Flaw::NameByte => "forbidden byte in the name",
        Flaw::NoDigits => "no digits",
        Flaw::ManyDigits => "too many digits",
        Flaw::SizeOpen => "no closing bytes behind the size",
        Flaw::Other => "line or OK malformed",
    }
}

fn outcome_words(outcome: Outcome) -> &'static str
    ensures { result.now ≡ outcome_words outcome }
{
    match outcome {
        Outcome::Success => "success",
        Outcome::RecordUnreadable => "record unreadable",
        Outcome::RecordOver => "record over its limits",
        Outcome::NameOutside => "name outside the limits",
        Outcome::LengthOutside => "file length outside the limits",
        Outcome::BlockOutside => "block outside the limits",
        Outcome::Unexpected => "packet unexpected or unreadable",
        Outcome::Malformed(fault) => flaw_words(fault.flaw),
        Outcome::NoRoom => "file larger than the area",
        Outcome::HaveFile => "record without resume",
        Outcome::Differs => "record of another file",
        Outcome::CheckFailed => "checksum or CRC disagrees",
        Outcome::PastSize => "data past the announced size",
        Outcome::Short => "end before the announced size",
        Outcome::Refused => "refused by the far end",
        Outcome::Cancelled => "cancelled by the far end",
        Outcome::NotOurs => "resume not ours",
        Outcome::TimedOut => "timer ran out",
        Outcome::SecondFile => "second file",
        Outcome::Stopped => "stopped by the operator",
    }
}

fn show_outcome<W: Write>(out: &mut W, outcome: Option<Outcome>) -> io::Result<()>
    ensures { OnOk result (Appends (W.contents out.old) (W.contents out.new) (outcome_text outcome)) }
{
    match outcome {
        Some(outcome) => {
            let number = outcomes::outcome_number(outcome);
            write!(out, "{number} {}", outcome_words(outcome))
        }
        None => Ok(()),
    }
}

fn show_state<W: Write, S: State>(out: &mut W, state: S) -> io::Result<()>
    ensures { OnOk result (Appends (W.contents out.old) (W.contents out.new) (state_text (S.word_of state) (S.outcome_of state))) }
{
    out.write_all(state.word().as_bytes())?;
    show_outcome(out, state.outcome())
}

fn show_move<W: Write, S: State>(out: &mut W, end: End, before: S, after: S) -> io::Result<()>
    ensures { OnOk result (Appends (W.contents out.old) (W.contents out.new) (move_text end (S.word_of before) (S.outcome_of before) (S.word_of after) (S.outcome_of after))) }
{
    out.write_all(end.head().as_bytes())?;
    show_state(out, before)?;
    out.write_all(b" to ")?;
    show_state(out, after)?;
    out.write_all(b"\n")
}

// An end's step from one state to another. One that stays in its state has no line.
pub fn show_step<W: Write, S: State>(out: &mut W, end: End, before: S, after: S) -> io::Result<()>
    ensures { OnOk result (Appends (W.contents out.old) (W.contents out.new) (step_text end (S.word_of before) (S.outcome_of before) (S.word_of after) (S.outcome_of after))) }
{
    if names::same(before.word().as_bytes(), after.word().as_bytes()) {
        return Ok(());
    }
    show_move(out, end, before, after)
}

// Where the link breaks, if not all of the bytes pass.
fn show_break<W: Write>(out: &mut W, count: usize, passed: usize) -> io::Result<()>
    ensures { OnOk result (Appends (W.contents out.old) (W.contents out.new) (break_text count passed)) }
{
    if passed < count {
        return write!(out, ", the link breaks after {passed}");
    }
    Ok(())
}

// What an end sends, if it has any bytes: its word, how many bytes it has, and how many of them pass.
pub fn show_sent<W: Write>(
    out: &mut W,
    from: End,
    word: &str,
    count: usize,
    passed: usize,
) -> io::Result<()>
    ensures { OnOk result (Appends (W.contents out.old) (W.contents out.new) (sent_text from word.now count passed)) }
{
    if count == 0 {
        return Ok(());
    }
    write!(out, "{}{word} {count} bytes", from.arrow())?;
    show_break(out, count, passed)?;
    out.write_all(b"\n")
}

// The word of a packet.
pub fn packet_word(bytes: &[u8], checked: bool) -> &'static str
    ensures { result.now ≡ packet_word (packet_of checked bytes.now) }
{
    match packet_reader::packet_of(bytes, checked) {
        Packet::RR => "RR",
        Packet::RF => "RF",
        Packet::AF => "AF",
        Packet::AT => "AT",
        Packet::CA => "CA",
        Packet::RT => "RT",
        Packet::SI => "SI",
        Packet::RI(_) => "RI",
        Packet::HD(_) => "HD",
        Packet::DT(_) => "DT",
        Packet::EF => "EF",
        Packet::ET => "ET",
        Packet::NR(_) => "NR",
        Packet::RE(_) => "RE",
        Packet::CN(_) => "CN",
        Packet::TX(_) => "TX",
        Packet::Malformed(_) => "malformed HD",
        Packet::Dropped(_) => "unreadable",
        Packet::Open => "unfinished",
    }
}

// The word of a frame that is not of the file.
pub fn frame_word(bytes: &[u8]) -> &'static str
    ensures { result.now ≡ frame_word (frame_of bytes.now) }
{
    match line_reader::frame_of(bytes) {
        Frame::Basic(_) | Frame::Extended(_) => "line",
        Frame::MalformedLine(_) => "malformed line",
        Frame::OK => "OK",
        Frame::OKName(_) => "OK with name",
        Frame::OKKept(_) => "OK with kept count",
        Frame::MalformedOK(_) => "malformed OK",
        Frame::NO(_) => "NO",
        Frame::Stop => "stop",
        Frame::Display(_) => "display",
        Frame::Other => "other",
    }
}
