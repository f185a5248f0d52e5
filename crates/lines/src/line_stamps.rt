// The stamp of a #BIN# line: its digits and its `?`.
ghost use Rattle.std.specs.Prelude.{◌≡◌};
ghost use Rattle.lines.specs.Frame.{has_resume, stamp_digits};

// The stamp without the `?`, and whether `?` stands behind its eight digits.
#[tactic(auto, unfolding(crate::specs::Frame::has_resume, crate::specs::Frame::stamp_digits))]
pub fn stamp_parts(s: &[u8]) -> (&[u8], bool)
    ensures { (result.0.now ≡ stamp_digits s.now) × (result.1 ≡ has_resume s.now) }
{
    if s.len() == 9 && s[8] == b'?' {
        (&s[..8], true)
    } else {
        (s, false)
    }
}
