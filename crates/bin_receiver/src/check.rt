// Whether the end is reached, and the text to show in a frame.
ghost use Rattle.std.specs.Prelude.{◌≡◌};
ghost use Rattle.bin.specs.Steps.{receiver_ended};
ghost use Rattle.bin_receiver.specs.Receiver.{is_accepted, shown_in};

use bin::ReceiverState;
use fields::Place;

// Where nothing stands.
pub const NOWHERE: Place = Place { start: 0, len: 0 };

// Whether the end is reached.
pub fn is_ended(state: ReceiverState) -> bool
    ensures { result ≡ receiver_ended state }
{
    matches!(state, ReceiverState::Ended { .. })
}

// Whether a line was accepted.
fn is_accepted(state: ReceiverState) -> bool
    ensures { result ≡ is_accepted state }
{
    matches!(
        state,
        ReceiverState::Basic { .. } | ReceiverState::Extended { .. }
    )
}

// Where text to show stands in the frame: behind the mark.
#[tactic(auto, using(crate::proofs::check::Tests::display_long), unfolding(crate::specs::Receiver::shown_in))]
pub fn shown_in(state: ReceiverState, frame: &[u8]) -> Place
    ensures { result ≡ shown_in state frame.now }
{
    if is_accepted(state) && lines::is_display(frame) {
        return Place {
            start: 4,
            len: frame.len() - 4,
        };
    }
    NOWHERE
}
