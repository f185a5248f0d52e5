// The timer and the operator's stop, with which no bytes come.
ghost use Rattle.std.specs.Prelude.{◌≡◌, List, ℕ};
ghost use Rattle.yapp.specs.Steps.{receiver_times_out, receiver_cancels};
ghost use Rattle.yapp_receiver.specs.Receiver.{now_of};
ghost use Rattle.yapp_receiver.specs.Step.{reached, reached_by};

use crate::step::{Out, Step};
use crate::{Receiver, step};
use calls::Outcome;
use yapp::ReceiverState;

// The timer has run out.
pub fn timeout(receiver: &Receiver) -> Step
    ensures { (a p : List ℕ) → reached receiver.now.name (receiver_times_out (now_of receiver.now) a receiver.now.core.state) ≡ reached_by p receiver.now.name result a }
{
    match receiver.core.state {
        ReceiverState::CW { outcome } | ReceiverState::Ended { outcome } => {
            step::end(receiver, outcome, Out::Nothing)
        }
        ReceiverState::R | ReceiverState::RH { .. } | ReceiverState::RD => {
            step::fail(receiver, Outcome::TimedOut)
        }
    }
}

// The operator's stop.
pub fn cancel(receiver: &Receiver) -> Step
    ensures { (a p : List ℕ) → reached receiver.now.name (receiver_cancels (now_of receiver.now) a receiver.now.core.state) ≡ reached_by p receiver.now.name result a }
{
    let state = receiver.core.state;
    match state {
        ReceiverState::CW { .. } | ReceiverState::Ended { .. } => {
            step::stay(receiver, state, Out::Nothing)
        }
        ReceiverState::R | ReceiverState::RH { .. } | ReceiverState::RD => {
            step::fail(receiver, Outcome::Stopped)
        }
    }
}
