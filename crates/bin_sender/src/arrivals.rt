// What an arriving frame does.
ghost use Rattle.std.specs.Prelude.{◌≡◌};
ghost use Rattle.bin.specs.Steps.{heard, is_ours, resumes_at, sender_hears, sender_takes};
ghost use Rattle.bin_sender.specs.Sender.{settings_of};
ghost use Rattle.bin_sender.specs.Step.{move_by};

use crate::lent::Lent;
use crate::step;
use crate::step::Step;
use bin::{Announce, SenderState};
use calls::Outcome;
use lines::{Frame, line_reader};

// Whether a third OK fits what was announced and the file's own beginning.
fn is_ours(lent: Lent, kept: u32, crc: u16) -> bool
    ensures { result ≡ is_ours (settings_of lent.entry.sender) lent.entry.file.now lent.entry.sender.core.announce kept crc }
{
    match lent.sender.core.announce {
        Announce::Basic => false,
        Announce::Extended {
            resumes,
            reading,
            ..
        } => {
            resumes
                && kept <= lent.sender.core.size
                && crc::crc_by(reading, fields::part(lent.file, 0, kept as usize)) == crc
        }
    }
}

// The third OK.
#[tactic(auto, unfolding(bin::specs::Steps::resumes_at))]
fn resume_at(lent: Lent, kept: u32, crc: u16) -> Step
    ensures { move_by lent.entry.sender lent.entry.file.now result ≡ resumes_at (settings_of lent.entry.sender) lent.entry.file.now kept crc }
{
    if is_ours(lent, kept, crc) {
        step::stays(step::sends_from(lent, kept as usize))
    } else {
        step::stops(Outcome::NotOurs)
    }
}

// A frame while it waits.
#[tactic(auto, unfolding(bin::specs::Steps::heard, bin::specs::Steps::sender_hears, lines::specs::Element::content_of))]
fn hear(lent: Lent, frame: &[u8]) -> Step
    ensures { move_by lent.entry.sender lent.entry.file.now result ≡ sender_hears (settings_of lent.entry.sender) lent.entry.file.now (heard frame.now) }
{
    match line_reader::frame_of(frame) {
        Frame::OK | Frame::OKName(_) => step::stays(step::sends_from(lent, 0)),
        Frame::OKKept(ok) => resume_at(lent, ok.kept, ok.crc),
        Frame::MalformedOK(fault) => step::stops(Outcome::Malformed(fault)),
        Frame::NO(_) => step::ends(Outcome::Refused),
        Frame::Stop => step::ends(Outcome::Cancelled),
        _ => step::stays(SenderState::Wait),
    }
}

// A frame, whatever the state; an empty one is no stop frame, and says nothing while it waits.
pub fn receive(lent: Lent, frame: &[u8]) -> Step
    ensures { move_by lent.entry.sender lent.entry.file.now result ≡ sender_takes (settings_of lent.entry.sender) lent.entry.file.now lent.entry.sender.core.state frame.now }
{
    let state = lent.sender.core.state;
    match state {
        SenderState::Wait => hear(lent, frame),
        SenderState::Send { .. } => {
            if lines::is_stop(frame) {
                step::ends(Outcome::Cancelled)
            } else {
                step::stays(state)
            }
        }
        SenderState::Start | SenderState::Ended { .. } => step::stays(state),
    }
}
