// A step: where a YAPP receiver goes, what it sends and keeps. Here are the steps that leave its record as it is.
ghost use Rattle.std.specs.Prelude.{◌≡◌, List, ℕ};
ghost use Rattle.yapp.specs.Steps.{goes, fails, receiver_after_cw};
ghost use Rattle.yapp_receiver.specs.Receiver.{now_of};
ghost use Rattle.yapp_receiver.specs.Step.{contents_of, reached, reached_by};

use crate::Receiver;
use calls::{Entry, Outcome, saving};
use fields::Place;
use yapp::ReceiverState;

// What is sent.
#[derive(Clone, Copy)]
pub enum Out {
    Nothing,
    RR,
    RF,
    RT,
    // With `C` where the receiver is in YappC from here on.
    RE { position: u32 },
    AF,
    AT,
    CA,
    // Without a reason.
    CN,
    // NR with the text of 8, 9, 10 or 21.
    Room,
    Have,
    Differs,
    One,
}

// A receiver without its buffers.
#[derive(Clone, Copy)]
pub struct ReceiverCore {
    pub state: ReceiverState,
    // The length of the area, document 01's file area.
    pub room: usize,
    // Whether a record is resumed, and whether checksums are wanted.
    pub resumes: bool,
    pub checks: bool,
    pub keeping: Option<Entry>,
}

// What is to be done.
#[derive(Clone, Copy)]
pub struct Step {
    pub state: ReceiverState,
    // Whether the receiver is in YappC.
    pub checked: bool,
    pub keeping: Option<Entry>,
    pub out: Out,
    // How many bytes were stored.
    pub stored: usize,
    // Where the record's new name stands in the pending bytes.
    pub name: Option<Place>,
}

// The record stays.
pub fn stay(receiver: &Receiver, state: ReceiverState, out: Out) -> Step
    ensures { (a p : List ℕ) → reached receiver.now.name (goes (now_of receiver.now) a state (contents_of receiver.now.reader.checked out)) ≡ reached_by p receiver.now.name result a }
{
    Step {
        state,
        checked: receiver.reader.checked(),
        keeping: saving::held(receiver.core.keeping, &receiver.name),
        out,
        stored: 0,
        name: None,
    }
}

// Send CN without reason, enter CW.
pub fn fail(receiver: &Receiver, outcome: Outcome) -> Step
    ensures { (a p : List ℕ) → reached receiver.now.name (fails (now_of receiver.now) a outcome) ≡ reached_by p receiver.now.name result a }
{
    stay(receiver, ReceiverState::CW { outcome }, Out::CN)
}

// The end, with this sent.
pub fn end(receiver: &Receiver, outcome: Outcome, out: Out) -> Step
    ensures { (a p : List ℕ) → reached receiver.now.name (goes (now_of receiver.now) a (ReceiverState.Ended outcome) (contents_of receiver.now.reader.checked out)) ≡ reached_by p receiver.now.name result a }
{
    stay(receiver, ReceiverState::Ended { outcome }, out)
}

// CW is left with the number that it was entered with.
pub fn leave_cw(state: ReceiverState) -> ReceiverState
    ensures { result ≡ receiver_after_cw state }
{
    match state {
        ReceiverState::CW { outcome } => ReceiverState::Ended { outcome },
        _ => state,
    }
}
