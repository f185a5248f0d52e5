// What a packet does: the table's actions. Only the data of a DT are stored on the way.
ghost use Rattle.std.specs.Prelude.{◌≡◌};
ghost use Rattle.packets.specs.Content.{content_of};
ghost use Rattle.yapp.specs.Steps.{receiver_takes};
ghost use Rattle.yapp_receiver.specs.Receiver.{settings_of, now_of};
ghost use Rattle.yapp_receiver.specs.Step.{reached, reached_by};

use crate::step::{Out, Step};
use crate::{Receiver, block, header, step};
use calls::Outcome;
use packet_stream::Received;
use packets::kinds;
use yapp::{ReceiverState, table};

// What a reader has found, the receiver being in YappC or not.
pub fn decide(receiver: &Receiver, received: Received, area: &mut [u8]) -> Step
    ensures { reached receiver.now.name (receiver_takes (settings_of receiver.now) (now_of receiver.now) area.old (content_of received.reader.pending received.packet)) ≡ reached_by received.reader.pending receiver.now.name result area.new }
{
    let state = receiver.core.state;
    let packet = received.packet;
    let pending = received.reader.pending();
    match table::receive_action(state, kinds::kind_of(packet)) {
        table::ABORT => step::fail(receiver, Outcome::Unexpected),
        table::REFUSED => step::end(receiver, Outcome::Refused, Out::Nothing),
        table::CANCELLED => step::end(receiver, Outcome::Cancelled, Out::CA),
        table::END_CW => step::stay(receiver, step::leave_cw(state), Out::Nothing),
        table::ANSWER => step::stay(receiver, state, Out::CA),
        table::READY => step::stay(receiver, ReceiverState::RH { whole: false }, Out::RR),
        table::TRAILER => step::end(receiver, Outcome::Success, Out::AT),
        table::JUDGE => header::judge(receiver, packet, &pending),
        table::SECOND_FILE => step::end(receiver, Outcome::SecondFile, Out::One),
        table::STORE => block::store(receiver, packet, &pending, area),
        table::END_FILE => block::end_file(receiver),
        _ => step::stay(receiver, state, Out::Nothing),
    }
}
