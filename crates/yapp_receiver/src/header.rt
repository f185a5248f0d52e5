// A header is judged.
ghost use Rattle.std.specs.Prelude.{◌≡◌, List, [], ◌∷◌, ℕ, None, Some};
ghost use Rattle.fields.specs.Lists.{bytes_at};
ghost use Rattle.calls.specs.Saving.{saved_by};
ghost use Rattle.packets.specs.Content.{Content, content_of};
ghost use Rattle.packets.specs.Data.{on_header, fault_of};
ghost use Rattle.yapp.specs.Steps.{ReceiverNow, accepts, fails, judge_record, judges};
ghost use Rattle.yapp_receiver.specs.Receiver.{settings_of, now_of};
ghost use Rattle.yapp_receiver.specs.Step.{contents_of, reached, reached_by};

use crate::step::{Out, Step};
use crate::{Receiver, step};
use calls::{Entry, Outcome, saving};
use fields::{Fault, Flaw};
use packets::{Header, Packet};
use yapp::ReceiverState;

// A header is accepted: the record is the header's, with so many bytes kept.
fn accept(checked: bool, kept: u32, header: Header, pending: &[u8], out: Out) -> Step
    ensures { (name a : List ℕ) (reply : Content) → contents_of checked out ≡ reply ∷ [] → reached name (accepts a checked (record { size = header.size; kept = kept; stamp = header.stamp; name = bytes_at pending.now header.name }) reply) ≡ reached_by pending.now name result a }
{
    let entry = Entry {
        named: fields::bytes_at(pending, header.name).len(),
        size: header.size,
        kept,
        stamp: header.stamp,
    };
    Step {
        state: ReceiverState::RD,
        checked,
        keeping: Some(entry),
        out,
        stored: 0,
        name: Some(header.name),
    }
}

// A header where there is no record: RT or RF.
#[tactic(auto, unfolding(yapp::specs::Steps::judge_record))]
fn begin_file(receiver: &Receiver, header: Header, pending: &[u8]) -> Step
    ensures { (n : ReceiverNow) (name a : List ℕ) → reached name (judge_record (settings_of receiver.now) n a (bytes_at pending.now header.name) header.size header.stamp None) ≡ reached_by pending.now name result a }
{
    if receiver.core.checks && header.stamp.is_some() {
        return accept(true, 0, header, pending, Out::RT);
    }
    accept(false, 0, header, pending, Out::RF)
}

// A header where there is a record. A record with resume off is 9, one whose name or announced size differs is 10. The file is resumed at the
// kept bytes less 256, never under 0.
#[tactic(auto, unfolding(yapp::specs::Steps::judge_record))]
fn resume_file(receiver: &Receiver, entry: Entry, header: Header, pending: &[u8]) -> Step
    ensures { (a : List ℕ) → reached receiver.now.name (judge_record (settings_of receiver.now) (now_of receiver.now) a (bytes_at pending.now header.name) header.size header.stamp (saved_by (Some entry) receiver.now.name)) ≡ reached_by pending.now receiver.now.name result a }
{
    if !receiver.core.resumes {
        return step::end(receiver, Outcome::HaveFile, Out::Have);
    }
    let name = fields::bytes_at(pending, header.name);
    if !saving::matches(entry, &receiver.name, name, header.size) {
        return step::end(receiver, Outcome::Differs, Out::Differs);
    }
    let position = entry.kept.saturating_sub(256);
    accept(
        receiver.core.checks,
        position,
        header,
        pending,
        Out::RE { position },
    )
}

// A size over the area is 8.
#[tactic(auto, unfolding(yapp::specs::Steps::judges))]
fn judge_header(receiver: &Receiver, header: Header, pending: &[u8]) -> Step
    ensures { (a : List ℕ) → reached receiver.now.name (judges (settings_of receiver.now) (now_of receiver.now) a (bytes_at pending.now header.name) header.size header.stamp) ≡ reached_by pending.now receiver.now.name result a }
{
    if receiver.core.room < header.size as usize {
        return step::end(receiver, Outcome::NoRoom, Out::Room);
    }
    match receiver.core.keeping {
        Some(entry) => resume_file(receiver, entry, header, pending),
        None => begin_file(receiver, header, pending),
    }
}

// A malformed header is 71 to 76; the table asks this of no packet but headers.
#[tactic(auto, unfolding(packets::specs::Content::content_of, packets::specs::Data::on_header, packets::specs::Data::fault_of))]
pub fn judge(receiver: &Receiver, packet: Packet, pending: &[u8]) -> Step
    ensures { (a : List ℕ) → reached receiver.now.name (on_header (content_of pending.now packet) (judges (settings_of receiver.now) (now_of receiver.now) a) (fails (now_of receiver.now) a (Outcome.Malformed (fault_of (content_of pending.now packet))))) ≡ reached_by pending.now receiver.now.name result a }
{
    match packet {
        Packet::HD(header) => judge_header(receiver, header, pending),
        Packet::Malformed(fault) => step::fail(receiver, Outcome::Malformed(fault)),
        _ => {
            let fault = Fault {
                flaw: Flaw::Other,
                offset: 0,
            };
            step::fail(receiver, Outcome::Malformed(fault))
        }
    }
}
