// A sender in a call that is taken, and the file that it is lent.
ghost use Rattle.std.specs.Prelude.{◌≤◌, length};

use crate::Sender;

#[derive(Clone, Copy)]
pub struct Lent<'a> {
    pub sender: Sender,
    pub file: &'a [u8],
    // An index in the file fits a state.
    ghost counted: { length file.now ≤ 4294967295 },
}
