// The elements of #BIN#: what a frame says, how it starts. Places count from the frame's first byte.
#![tactic(auto)]

ghost use Rattle.std.specs.Prelude.{◌≡◌};
ghost use Rattle.fields.specs.Lists.{same as same_of};
ghost use Rattle.lines.specs.Frame.{stop_frame, display_mark, starts as starts_of};

use fields::{Fault, Place, names};

pub mod line_reader;
mod line_stamps;

// An extended line.
#[derive(Clone, Copy, PartialEq, Eq, Debug)]
pub struct Line {
    pub size: u32,
    pub crc: u16,
    // The DOS date times 65,536 plus the time.
    pub stamp: u32,
    // Whether `?` stands: resume is possible.
    pub resumable: bool,
    pub name: Place,
}

// The third OK: what the receiver has kept, and its CRC.
#[derive(Clone, Copy, PartialEq, Eq, Debug)]
pub struct Kept {
    pub name: Place,
    pub kept: u32,
    pub crc: u16,
}

// What a frame says.
#[derive(Clone, Copy, PartialEq, Eq, Debug)]
pub enum Frame {
    // A basic line: the size.
    Basic(u32),
    Extended(Line),
    // It starts `#BIN#` and is no line: what is wrong, and where in the frame.
    MalformedLine(Fault),
    OK,
    OKName(Place),
    OKKept(Kept),
    // It starts `#OK#` and is no OK: where in the frame.
    MalformedOK(Fault),
    // A refusal: the place of its text.
    NO(Place),
    // The stop frame.
    Stop,
    // For display: the place of the text.
    Display(Place),
    Other,
}

// Whether the whole frame is the stop frame.
#[tactic(auto, using(crate::proofs::Steps::stop_is))]
pub fn is_stop(b: &[u8]) -> bool
    ensures { result ≡ same_of stop_frame b.now }
{
    b == b"\r#ABORT#\r".as_slice()
}

// Whether the frame is for display.
#[tactic(auto, using(crate::proofs::Steps::display_starts))]
pub fn is_display(b: &[u8]) -> bool
    ensures { result ≡ starts_of display_mark b.now }
{
    b.starts_with(b"SP\\-")
}
