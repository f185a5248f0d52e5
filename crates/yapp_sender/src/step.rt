// What a YAPP sender is but for its buffers, and what it does at a packet or an event.
ghost use Rattle.std.specs.Prelude.{◌≡◌, List, [], ℕ};
ghost use Rattle.yapp.specs.declared.SenderState.TheVariants.{SD, Ended};
ghost use Rattle.yapp.specs.Steps.{SenderSettings, sends, aborts};
ghost use Rattle.yapp_sender.specs.Step.{contents_of, move_of};

use crate::Sender;
use calls::Outcome;
use fields::Place;
use packets::Packet;
use yapp::SenderState;

// Where nothing stands.
pub const NOWHERE: Place = Place { start: 0, len: 0 };

#[derive(Clone, Copy)]
pub struct SenderCore {
    pub state: SenderState,
    // How long the name is.
    pub named: usize,
    // The file's length.
    pub size: u32,
    pub block: usize,
    pub stamp: Option<u32>,
    // Whether RE is taken.
    pub resumes: bool,
}

// What is to be sent.
#[derive(Clone, Copy)]
pub enum Out {
    Nothing,
    HD,
    // The next block of the file, from this index on.
    DT { from: usize },
    // A packet without data.
    Of(Packet),
}

// What a call does: the state after it, whether it is in YappC then, and what is sent.
#[derive(Clone, Copy)]
pub struct Step {
    pub state: SenderState,
    pub checked: bool,
    pub out: Out,
}

// The next state, in the mode that the sender is in.
pub fn go(sender: &Sender, state: SenderState, out: Out) -> Step
    ensures { (s : SenderSettings) (file : List ℕ) → move_of s file result ≡ sends state sender.now.reader.checked (contents_of s file out) }
{
    Step {
        state,
        checked: sender.reader.checked(),
        out,
    }
}

// The file is sent from an index on, with checksums or without.
pub fn start(at: u32, checked: bool) -> Step
    ensures { (s : SenderSettings) (file : List ℕ) → move_of s file result ≡ sends (SD at) checked [] }
{
    Step {
        state: SenderState::SD { at },
        checked,
        out: Out::Nothing,
    }
}

// Abort: CN without reason, and CW.
#[tactic(auto, unfolding(packets::specs::Content::content_of))]
pub fn abort(sender: &Sender, outcome: Outcome) -> Step
    ensures { (s : SenderSettings) (file : List ℕ) → move_of s file result ≡ aborts outcome sender.now.reader.checked }
{
    go(
        sender,
        SenderState::CW { outcome },
        Out::Of(Packet::CN(NOWHERE)),
    )
}

// The end is reached.
pub fn end(sender: &Sender, outcome: Outcome) -> Step
    ensures { (s : SenderSettings) (file : List ℕ) → move_of s file result ≡ sends (Ended outcome) sender.now.reader.checked [] }
{
    go(sender, SenderState::Ended { outcome }, Out::Nothing)
}
