// A session of two ends, whichever protocol is theirs.
ghost use Rattle.std.specs.Prelude.{◌≡◌, ◌||◌, List, ℕ, Bool, IfOk};
ghost use Rattle.transfer.specs.Session.{Sends, Takes, Saves, turn as turn_of, is_over as is_over_of, saved_at, Answered};

use crate::link::{Link, MOST_TURNS, Saved};
use crate::text::{End, State};
use crate::{link, text};
use std::io;
use std::io::Write;

// What a call of an end leaves: both ends, and what it sent, the first bytes of an array.
#[derive(Clone, Copy)]
pub struct Sent<E> {
    pub ends: E,
    pub count: usize,
    pub bytes: [u8; 259],
}

// The two ends of a protocol.
pub trait Ends: Copy {
    type Sender: State;

    type Receiver: State;

    ghost sends: { Sends Self };

    ghost takes: { Takes Self };

    ghost ended: { Self → Bool };

    ghost saves: { Saves Self };

    ghost sent_words: { Self → List ℕ → List ℕ };

    ghost answer_words: { List ℕ → List ℕ };

    fn sender(self) -> Self::Sender;

    fn receiver(self) -> Self::Receiver;

    // The sender takes what came over the link of the receiver's answer; where there was none, it has its chance to send.
    fn send(self, answered: usize, came: &[u8], file: &[u8]) -> Sent<Self>
        ensures { sends self answered came.now file.now ≡ record { ends = result.ends; count = result.count; bytes = result.bytes } };

    // The receiver takes what came over the link of what the sender sent.
    fn take(self, came: &[u8], area: &mut [u8]) -> Sent<Self>
        ensures { takes self came.now area.old ≡ record { ends = result.ends; count = result.count; bytes = result.bytes; area = area.new } };

    // The word of what the sender sends.
    fn sent_word(self, bytes: &[u8]) -> &'static str
        ensures { result.now ≡ sent_words self bytes.now };

    // The word of what the receiver answers.
    fn answer_word(self, bytes: &[u8]) -> &'static str
        ensures { result.now ≡ answer_words bytes.now };

    fn have_ended(self) -> bool
        ensures { result ≡ ended self };

    // The operator stops a sender whose link is broken.
    fn end_sender<W: Write>(self, out: &mut W, file: &[u8]) -> io::Result<()>;

    // The timer of a receiver whose link is broken.
    fn end_receiver<W: Write>(self, out: &mut W, area: &[u8]) -> io::Result<Saved>
        ensures { IfOk result (λ s. s ≡ saves self area.now) };
}

// What stands between two turns, but for the area.
#[derive(Clone, Copy)]
struct Linked<E> {
    ends: E,
    link: Link,
}

// A turn: what the sender sent, and what stands behind it.
#[derive(Clone, Copy)]
struct Turned<E> {
    sent: Sent<E>,
    after: Linked<E>,
}

// The receiver's last answer goes over the link to the sender, and what that sends, if anything, to the receiver.
#[tactic(auto, unfolding(crate::specs::Session::turn, crate::specs::Session::carried))]
fn turn<E: Ends>(e: Linked<E>, file: &[u8], area: &mut [u8]) -> Turned<E>
    ensures { turn_of E.sends E.takes file.now (record { ends = e.ends; link = e.link; area = area.old }) ≡ record { ends = result.after.ends; link = result.after.link; area = area.new } }
{
    let Linked { ends, link } = e;
    let came = link::passed(link, link::answer_of(&link));
    let sent = ends.send(link.answered, came, file);
    let rest = link::after(link, link.answered);
    let arrived = link::passed(rest, fields::part(&sent.bytes, 0, sent.count));
    let answer = sent.ends.take(arrived, area);
    Turned {
        sent,
        after: Linked {
            ends: answer.ends,
            link: link::with_answer(link::after(rest, sent.count), answer.count, answer.bytes),
        },
    }
}

// What is printed of a turn: the answer on its way, and the sender's step; what that sends, and the receiver's step.
fn show_turn<W: Write, E: Ends>(out: &mut W, e: Linked<E>, t: Turned<E>) -> io::Result<()> {
    let Linked { ends, link } = e;
    let Turned { sent, after } = t;
    let answer = link::answer_of(&link);
    link::show_sent(out, link, End::Receiver, ends.answer_word(answer), answer)?;
    text::show_step(out, End::Sender, ends.sender(), sent.ends.sender())?;
    let rest = link::after(link, link.answered);
    let packet = fields::part(&sent.bytes, 0, sent.count);
    link::show_sent(out, rest, End::Sender, ends.sent_word(packet), packet)?;
    text::show_step(out, End::Receiver, ends.receiver(), after.ends.receiver())
}

// The link is broken, or both ends have ended.
fn is_over<E: Ends>(e: Linked<E>) -> bool
    ensures { result ≡ (e.link.broken || E.ended e.ends) }
{
    e.link.broken || e.ends.have_ended()
}

// A session from its beginning. An end that has ended takes no call any more.
pub fn session<W: Write, E: Ends>(
    out: &mut W,
    ends: E,
    link: Link,
    file: &[u8],
    area: &mut [u8],
) -> io::Result<Saved>
    ensures { Answered (turn_of E.sends E.takes file.now) (is_over_of E.ended) (saved_at E.saves) (record { ends = ends; link = link; area = area.old }) result area.new }
{
    let mut e = Linked { ends, link };
    for _ in 0..MOST_TURNS {
        if is_over(e) {
            break;
        }
        let t = turn(e, file, area);
        show_turn(out, e, t)?;
        e = t.after;
    }
    e.ends.end_sender(out, file)?;
    e.ends.end_receiver(out, area)
}
