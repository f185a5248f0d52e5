// The data of a NAK read: whether they are a resume.
ghost use Rattle.std.specs.Prelude.{◌≡◌};
ghost use Rattle.packets.specs.Packet.{resume_read};

use crate::Resume;
use numbers::digit_reader;

// The data of a NAK that are a resume: `R`, a zero, the digits, a zero; then nothing, or `C` and a zero.
#[tactic(auto, unfolding(crate::specs::Packet::resume_read, crate::specs::Packet::resume_digits, crate::specs::Packet::resume_mode))]
pub fn resume_read(d: &[u8]) -> Option<Resume>
    ensures { result ≡ resume_read d.now }
{
    let [b'R', 0, rest @ ..] = d else {
        return None;
    };
    let (digits, mode) = crate::split_at_zero(rest)?;
    let position = digit_reader::read_size(digits)?;
    let checked = match mode {
        [] => false,
        [b'C', 0] => true,
        _ => return None,
    };
    Some(Resume { position, checked })
}
