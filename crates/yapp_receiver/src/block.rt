// Data are stored, and a file ends.
ghost use Rattle.std.specs.Prelude.{◌≡◌, List, [], ℕ, None};
ghost use Rattle.calls.specs.Saving.{saved_by, held_of, kept_of, size_of};
ghost use Rattle.packets.specs.Content.{content_of};
ghost use Rattle.packets.specs.Data.{on_block};
ghost use Rattle.yapp.specs.Steps.{goes, stores, ends_file};
ghost use Rattle.yapp_receiver.specs.Receiver.{now_of};
ghost use Rattle.yapp_receiver.specs.Step.{kept_at, reached, reached_by};

use crate::step::{Out, Step};
use crate::{Receiver, step};
use calls::{Entry, Outcome, saving};
use fields::buffers;
use packets::Packet;
use yapp::ReceiverState;

// How many bytes are kept, none without a record, and of how many.
fn counts(keeping: Option<Entry>) -> (u32, u32)
    ensures { (name : List ℕ) → (result.0 ≡ kept_of (saved_by keeping name)) × (result.1 ≡ size_of (saved_by keeping name)) }
{
    match keeping {
        Some(entry) => (entry.kept, entry.size),
        None => (0, 0),
    }
}

// The record with another kept count.
fn keep_at(keeping: Option<Entry>, kept: u32) -> Option<Entry>
    ensures { result ≡ kept_at keeping kept }
{
    let entry = keeping?;
    Some(Entry { kept, ..entry })
}

// The step that keeps so many bytes, n of them stored just now.
fn grow(receiver: &Receiver, kept: u32, n: usize) -> Step
    ensures { result ≡ record { state = receiver.now.core.state; checked = receiver.now.reader.checked; keeping = kept_at (held_of receiver.now.core.keeping receiver.now.name) kept; out = Out.Nothing; stored = n; name = None } }
{
    let held = saving::held(receiver.core.keeping, &receiver.name);
    Step {
        state: receiver.core.state,
        checked: receiver.reader.checked(),
        keeping: keep_at(held, kept),
        out: Out::Nothing,
        stored: n,
        name: None,
    }
}

// A DT; a bad checksum is 11, judged first, and data past the announced size are 12. Else the data are stored directly behind the kept bytes
// and count as kept in the same step.
#[tactic(auto, unfolding(packets::specs::Content::content_of, packets::specs::Data::on_block, yapp::specs::Steps::stores))]
pub fn store(receiver: &Receiver, packet: Packet, pending: &[u8], area: &mut [u8]) -> Step
    ensures { (p : List ℕ) → reached receiver.now.name (on_block (content_of pending.now packet) (stores (now_of receiver.now) area.old) (goes (now_of receiver.now) area.old receiver.now.core.state [])) ≡ reached_by p receiver.now.name result area.new }
{
    let Packet::DT(block) = packet else {
        return step::stay(receiver, receiver.core.state, Out::Nothing);
    };
    let bytes = fields::bytes_at(pending, block.place);
    let n = bytes.len();
    let (kept, size) = counts(receiver.core.keeping);
    if !block.sound {
        return step::fail(receiver, Outcome::CheckFailed);
    }
    if !saving::fits(kept, n, size) {
        return step::fail(receiver, Outcome::PastSize);
    }
    buffers::append_bytes(area, kept as usize, bytes);
    grow(receiver, kept + n as u32, n)
}

// EF at the announced size gives AF and RH, earlier it is 13.
#[tactic(auto, unfolding(yapp::specs::Steps::ends_file))]
pub fn end_file(receiver: &Receiver) -> Step
    ensures { (a p : List ℕ) → reached receiver.now.name (ends_file (now_of receiver.now) a) ≡ reached_by p receiver.now.name result a }
{
    let (kept, size) = counts(receiver.core.keeping);
    if kept == size {
        return step::stay(receiver, ReceiverState::RH { whole: true }, Out::AF);
    }
    step::fail(receiver, Outcome::Short)
}
