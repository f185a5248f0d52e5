// The link between two ends: it carries so many bytes, and then it breaks.
ghost use Rattle.std.specs.Prelude.{◌≡◌, OnOk, length, take};
ghost use Rattle.std.specs.Io.KnownBytes.{Appends};
ghost use Rattle.transfer.specs.Link.{nothing as nothing_of, whole as whole_of, after as after_of, with_answer, is_success, of_frame, passed as passed_of};
ghost use Rattle.transfer.specs.Words.{sent_text};

use crate::text;
use crate::text::End;
use calls::Outcome;
use std::io;
use std::io::Write;

#[derive(Clone, Copy)]
pub struct Link {
    pub left: usize,
    pub broken: bool,
    // Whether it carries a frame whole or not at all.
    pub framed: bool,
    // What the receiver answered last: the first bytes of back.
    pub answered: usize,
    pub back: [u8; 259],
}

// How many turns a session has at the most.
pub const MOST_TURNS: u32 = 200_000_000;

// The date and time of last change that the header and the line carry.
pub const STAMP: u32 = 0x5B6E_A3C0;

// What a session leaves: the bytes of its record, how many they are, and whether the receiver ended with success.
#[derive(Clone, Copy)]
pub struct Saved {
    pub bytes: [u8; 81],
    pub count: usize,
    pub whole: bool,
}

// Before the first session.
pub fn nothing() -> Saved
    ensures { result ≡ nothing_of }
{
    Saved {
        bytes: [0; 81],
        count: 0,
        whole: false,
    }
}

// A link that breaks after so many bytes.
pub fn whole(left: usize, framed: bool) -> Link
    ensures { result ≡ whole_of left framed }
{
    Link {
        left,
        broken: false,
        framed,
        answered: 0,
        back: [0; 259],
    }
}

// The link after n bytes were sent over it.
pub fn after(link: Link, n: usize) -> Link
    ensures { result ≡ after_of link n }
{
    if n <= link.left {
        return Link {
            left: link.left - n,
            ..link
        };
    }
    Link {
        left: 0,
        broken: true,
        ..link
    }
}

// The link with what the receiver answered: the first bytes of back.
pub fn with_answer(link: Link, answered: usize, back: [u8; 259]) -> Link
    ensures { result ≡ with_answer link answered back }
{
    Link {
        answered,
        back,
        ..link
    }
}

// What the receiver answered last.
pub fn answer_of(link: &Link) -> &[u8]
    ensures { result.now ≡ take link.now.answered link.now.back }
{
    fields::part(&link.back, 0, link.answered)
}

// What passes of a frame: all of it, or none.
fn frame(link: Link, frame: &[u8]) -> &[u8]
    ensures { result.now ≡ of_frame link frame.now }
{
    if frame.len() <= link.left {
        return frame;
    }
    fields::part(frame, 0, 0)
}

// What passes: of a packet as many bytes as the link still carries.
pub fn passed(link: Link, bytes: &[u8]) -> &[u8]
    ensures { result.now ≡ passed_of link bytes.now }
{
    if link.framed {
        return frame(link, bytes);
    }
    fields::part(bytes, 0, link.left)
}

// Whether an end that has ended so has succeeded.
#[tactic(auto, unfolding(crate::specs::Link::is_success))]
pub fn is_success(outcome: Outcome) -> bool
    ensures { result ≡ is_success outcome }
{
    matches!(outcome, Outcome::Success)
}

// What an end sends over the link, and how much of it passes.
pub fn show_sent<W: Write>(
    out: &mut W,
    link: Link,
    from: End,
    word: &str,
    bytes: &[u8],
) -> io::Result<()>
    ensures { OnOk result (Appends (W.contents out.old) (W.contents out.new) (sent_text from word.now (length bytes.now) (length (passed_of link bytes.now)))) }
{
    text::show_sent(out, from, word, bytes.len(), passed(link, bytes).len())
}
