// What a call decides: the state after it, and what is sent.
ghost use Rattle.std.specs.Prelude.{◌≡◌, drop};
ghost use Rattle.bin.specs.declared.SenderState.TheVariants.{Ended};
ghost use Rattle.bin.specs.Steps.{cut, sends_from, sender_transmits, sender_ended};
ghost use Rattle.bin_sender.specs.declared.step.Out.TheVariants.{Nothing, Stop};
ghost use Rattle.bin_sender.specs.Sender.{block_of, settings_of};
ghost use Rattle.bin_sender.specs.Step.{move_by};

use crate::lent::Lent;
use bin::{Announce, SenderState};
use calls::Outcome;
use fields::Limits;

// A sender but for the bytes of the file's name.
#[derive(Clone, Copy)]
pub struct SenderCore {
    pub state: SenderState,
    pub announce: Announce,
    // How long the name is.
    pub named: usize,
    // The file's length.
    pub size: u32,
    pub block: usize,
}

// What is sent.
#[derive(Clone, Copy)]
pub enum Out {
    Nothing,
    Line,
    // The next frame of the file, from this index on.
    Data { from: usize },
    Stop,
}

// What a call that is taken does.
#[derive(Clone, Copy)]
pub struct Step {
    pub state: SenderState,
    pub out: Out,
}

// Nothing is sent.
pub fn stays(state: SenderState) -> Step
    ensures { result ≡ record { state = state; out = Nothing } }
{
    Step {
        state,
        out: Out::Nothing,
    }
}

// The end is reached, and nothing is sent.
pub fn ends(outcome: Outcome) -> Step
    ensures { result ≡ record { state = Ended outcome; out = Nothing } }
{
    stays(SenderState::Ended { outcome })
}

// The stop frame is sent, and the end is reached.
pub fn stops(outcome: Outcome) -> Step
    ensures { result ≡ record { state = Ended outcome; out = Stop } }
{
    Step {
        out: Out::Stop,
        ..ends(outcome)
    }
}

// The file goes on at n; after the last byte it ends.
#[tactic(auto, unfolding(bin::specs::Steps::sends_from))]
pub fn sends_from(lent: Lent, n: usize) -> SenderState
    ensures { result ≡ sends_from lent.entry.file.now n }
{
    if lent.file.len() <= n {
        SenderState::Ended {
            outcome: Outcome::Success,
        }
    } else {
        SenderState::Send { at: n as u32 }
    }
}

// A longer block counts as 256.
fn block_of(block: usize) -> usize
    ensures { result ≡ block_of block }
{
    block.min(Limits::BLOCK)
}

// The next frame of the file from index from on: of one byte where the rest would be read as display, or the frame as stop.
#[tactic(auto, unfolding(bin::specs::Steps::cut))]
pub fn next(block: usize, file: &[u8], from: usize) -> &[u8]
    ensures { result.now ≡ cut (block_of block) (drop from file.now) }
{
    let rest = fields::part(file, from, file.len());
    let frame = fields::part(rest, 0, block_of(block));
    if lines::is_display(rest) || lines::is_stop(frame) {
        fields::part(rest, 0, 1)
    } else {
        frame
    }
}

// A chance to send: the line, or the next frame of the file.
#[tactic(auto, unfolding(bin::specs::Steps::sender_transmits))]
pub fn transmit(lent: Lent) -> Step
    ensures { move_by lent.entry.sender lent.entry.file.now result ≡ sender_transmits (settings_of lent.entry.sender) lent.entry.file.now lent.entry.sender.core.state }
{
    let core = lent.sender.core;
    match core.state {
        SenderState::Start => Step {
            state: SenderState::Wait,
            out: Out::Line,
        },
        SenderState::Send { at } => {
            let from = at as usize;
            let frame = next(core.block, lent.file, from);
            Step {
                state: sends_from(lent, from + frame.len()),
                out: Out::Data { from },
            }
        }
        state => stays(state),
    }
}

// Whether the end is reached.
pub fn is_ended(state: SenderState) -> bool
    ensures { result ≡ sender_ended state }
{
    matches!(state, SenderState::Ended { .. })
}
