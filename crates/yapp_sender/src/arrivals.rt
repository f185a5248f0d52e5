// What a packet does to a YAPP sender, and where text to show stands.
ghost use Rattle.std.specs.Prelude.{◌≡◌, List, [], ℕ, take as first_of};
ghost use Rattle.packets.specs.Span.{size_of};
ghost use Rattle.packets.specs.Packet.{place_of};
ghost use Rattle.packets.specs.Content.{content_of};
ghost use Rattle.packets.specs.Data.{on_resume};
ghost use Rattle.yapp.specs.Steps.{sends, sender_resumes, sender_after_cw, sender_takes};
ghost use Rattle.yapp_sender.specs.Step.{move_of};
ghost use Rattle.yapp_sender.specs.Sender.{heard, settings_of, shown_in};

use crate::step::{NOWHERE, Out, Step};
use crate::{Sender, step};
use calls::Outcome;
use fields::Place;
use packet_stream::{Reader, Received};
use packets::spans::Span;
use packets::{Packet, kinds};
use yapp::{SenderState, table};

// CW ends with the number that it was entered with.
fn end_cw(state: SenderState) -> SenderState
    ensures { result ≡ sender_after_cw state }
{
    match state {
        SenderState::CW { outcome } => SenderState::Ended { outcome },
        _ => state,
    }
}

// RE: SD at its position; with resume off it is 6, past the file 16. The table asks this of no other packet.
#[tactic(auto, unfolding(packets::specs::Content::content_of, packets::specs::Data::on_resume, yapp::specs::Steps::sender_resumes))]
fn resume(sender: &Sender, packet: Packet) -> Step
    ensures { (file bytes : List ℕ) → move_of (settings_of sender.now) file result ≡ on_resume (content_of bytes packet) (sender_resumes (settings_of sender.now) sender.now.reader.checked) (sends sender.now.core.state sender.now.reader.checked []) }
{
    let Packet::RE(asked) = packet else {
        return step::go(sender, sender.core.state, Out::Nothing);
    };
    if !sender.core.resumes {
        return step::abort(sender, Outcome::Unexpected);
    }
    if asked.position > sender.core.size {
        return step::abort(sender, Outcome::NotOurs);
    }
    step::start(asked.position, asked.checked)
}

// What a packet does, by its action in the table.
pub fn take(sender: &Sender, packet: Packet) -> Step
    ensures { (file bytes : List ℕ) → move_of (settings_of sender.now) file result ≡ sender_takes (settings_of sender.now) sender.now.core.state sender.now.reader.checked (content_of bytes packet) }
{
    let state = sender.core.state;
    let cancelled = SenderState::Ended {
        outcome: Outcome::Cancelled,
    };
    match table::send_action(state, kinds::kind_of(packet)) {
        table::ABORT => step::abort(sender, Outcome::Unexpected),
        table::REFUSED => step::end(sender, Outcome::Refused),
        table::CANCELLED => step::go(sender, cancelled, Out::Of(Packet::CA)),
        table::SUCCESS => step::end(sender, Outcome::Success),
        table::END_CW => step::go(sender, end_cw(state), Out::Nothing),
        table::ANSWER => step::go(sender, state, Out::Of(Packet::CA)),
        table::SEND_HEADER => step::go(sender, SenderState::SH, Out::HD),
        table::START => step::start(0, false),
        table::START_CHECKED => step::start(0, true),
        table::RESUME => resume(sender, packet),
        table::SEND_TRAILER => step::go(sender, SenderState::ST, Out::Of(Packet::ET)),
        _ => step::go(sender, state, Out::Nothing),
    }
}

// How many bytes the packet has.
fn size_of(found: Span) -> usize
    ensures { result ≡ size_of found }
{
    match found {
        Span::Open => 0,
        Span::Whole(n) | Span::Drop(n) => n,
    }
}

// The place of the data of the packet that the pending bytes begin with.
fn text_place(reader: Reader, found: Span) -> Place
    ensures { result ≡ place_of reader.checked (first_of (size_of found) reader.pending) }
{
    let pending = reader.pending();
    let packet = fields::part(&pending, 0, size_of(found));
    packets::place_of(packet, reader.checked())
}

// SD passes TX on for display.
#[tactic(auto, unfolding(crate::specs::Sender::shown_in, packets::specs::Content::content_of, packets::specs::Kind::kind_of))]
pub fn shown_in(state: SenderState, got: Received) -> Place
    ensures { result ≡ shown_in state (heard got) got }
{
    match (state, got.packet) {
        (SenderState::SD { .. }, Packet::TX(_)) => text_place(got.reader, got.found),
        _ => NOWHERE,
    }
}
