// What a YAPP sender does without a packet: at a chance to send (document 01's leave), at the timer, at the operator's stop.
ghost use Rattle.std.specs.Prelude.{◌≡◌, List, ℕ, length};
ghost use Rattle.yapp.specs.declared.SenderState.TheVariants.{S};
ghost use Rattle.yapp.specs.Steps.{SenderSettings, sends_block, sender_transmits, sender_times_out, sender_cancels};
ghost use Rattle.yapp_sender.specs.Sender.{settings_of};
ghost use Rattle.yapp_sender.specs.Step.{move_of};

use crate::step::{Out, Step};
use crate::{Sender, step};
use calls::Outcome;
use packets::Packet;
use yapp::SenderState;

// A leave in S: the first gives SI, a later one nothing.
#[tactic(auto, unfolding(packets::specs::Content::content_of, yapp::specs::Steps::sender_transmits))]
fn transmit_s(sender: &Sender, begun: bool, timeouts: u8) -> Step
    ensures { (s : SenderSettings) (file : List ℕ) → move_of s file result ≡ sender_transmits s file (S begun timeouts) sender.now.reader.checked }
{
    let state = SenderState::S {
        begun: true,
        timeouts,
    };
    if begun {
        return step::go(sender, state, Out::Nothing);
    }
    step::go(sender, state, Out::Of(Packet::SI))
}

// A leave in SD: the next block, or EF after the last.
fn transmit_sd(sender: &Sender, at: u32, file: &[u8]) -> Step
    requires { length file.now ≡ sender.now.core.size }
    ensures { move_of (settings_of sender.now) file.now result ≡ sends_block (settings_of sender.now) file.now at sender.now.reader.checked }
{
    if at < sender.core.size {
        let from = at as usize;
        let next = from + fields::part(file, from, sender.core.block).len();
        return step::go(
            sender,
            SenderState::SD { at: next as u32 },
            Out::DT { from },
        );
    }
    step::go(sender, SenderState::SE, Out::Of(Packet::EF))
}

// A leave: SI, or the next block of the file, which is as long as was said at the start.
pub fn transmit(sender: &Sender, file: &[u8]) -> Step
    requires { length file.now ≡ sender.now.core.size }
    ensures { move_of (settings_of sender.now) file.now result ≡ sender_transmits (settings_of sender.now) file.now sender.now.core.state sender.now.reader.checked }
{
    let state = sender.core.state;
    match state {
        SenderState::S { begun, timeouts } => transmit_s(sender, begun, timeouts),
        SenderState::SD { at } => transmit_sd(sender, at, file),
        SenderState::SH
        | SenderState::SE
        | SenderState::ST
        | SenderState::CW { .. }
        | SenderState::Ended { .. } => step::go(sender, state, Out::Nothing),
    }
}

// The timer in S: the first three after SI repeat it, the fourth aborts.
#[tactic(auto, unfolding(packets::specs::Content::content_of, yapp::specs::Steps::sender_times_out))]
fn timeout_s(sender: &Sender, begun: bool, timeouts: u8) -> Step
    ensures { (s : SenderSettings) (file : List ℕ) → move_of s file result ≡ sender_times_out (S begun timeouts) sender.now.reader.checked }
{
    if !begun {
        return step::go(sender, SenderState::S { begun, timeouts }, Out::Nothing);
    }
    if timeouts < 3 {
        let state = SenderState::S {
            begun,
            timeouts: timeouts + 1,
        };
        return step::go(sender, state, Out::Of(Packet::SI));
    }
    step::abort(sender, Outcome::TimedOut)
}

// The timer ran out.
pub fn timeout(sender: &Sender) -> Step
    ensures { (file : List ℕ) → move_of (settings_of sender.now) file result ≡ sender_times_out sender.now.core.state sender.now.reader.checked }
{
    let state = sender.core.state;
    match state {
        SenderState::S { begun, timeouts } => timeout_s(sender, begun, timeouts),
        SenderState::SH | SenderState::SE => step::abort(sender, Outcome::TimedOut),
        SenderState::ST => step::end(sender, Outcome::Success),
        SenderState::CW { outcome } => step::end(sender, outcome),
        SenderState::SD { .. } | SenderState::Ended { .. } => step::go(sender, state, Out::Nothing),
    }
}

// The operator's stop.
pub fn cancel(sender: &Sender) -> Step
    ensures { (file : List ℕ) → move_of (settings_of sender.now) file result ≡ sender_cancels sender.now.core.state sender.now.reader.checked }
{
    let state = sender.core.state;
    match state {
        SenderState::CW { .. } | SenderState::Ended { .. } => step::go(sender, state, Out::Nothing),
        SenderState::S { .. }
        | SenderState::SH
        | SenderState::SD { .. }
        | SenderState::SE
        | SenderState::ST => step::abort(sender, Outcome::Stopped),
    }
}
