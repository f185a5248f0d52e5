// What is sent, laid into the reply buffer.
ghost use Rattle.std.specs.Prelude.{◌≡◌, ◌≤◌, length};
ghost use Rattle.fields.specs.Buffer.{bytes_in, over};
ghost use Rattle.packets.specs.Content.{content_of, form_of};
ghost use Rattle.yapp.specs.Steps.{writes};
ghost use Rattle.yapp_receiver.specs.Step.{texts, contents_of};

use crate::step::Out;
use fields::Place;
use packets::{Packet, Resume};

// One text for the four that an NR has: a place in it says which, and no packet holds bytes of its own.
const TEXTS: &[u8] = b"roomhavediffersone";

// The packet that is sent, its text at a place in `texts`; an unfinished one, which has no form, where nothing is sent.
#[tactic(auto, using(crate::proofs::output::Laws::one), unfolding(packets::specs::Content::content_of, packets::specs::Content::form_of, yapp::specs::Steps::writes))]
fn packet_of(out: Out, checked: bool) -> Packet
    ensures { bytes_in (form_of checked (content_of texts result)) ≡ writes checked (contents_of checked out) }
{
    match out {
        Out::Nothing => Packet::Open,
        Out::RR => Packet::RR,
        Out::RF => Packet::RF,
        Out::RT => Packet::RT,
        Out::RE { position } => Packet::RE(Resume { position, checked }),
        Out::AF => Packet::AF,
        Out::AT => Packet::AT,
        Out::CA => Packet::CA,
        Out::CN => Packet::CN(Place { start: 0, len: 0 }),
        Out::Room => Packet::NR(Place { start: 0, len: 4 }),
        Out::Have => Packet::NR(Place { start: 4, len: 4 }),
        Out::Differs => Packet::NR(Place { start: 8, len: 7 }),
        Out::One => Packet::NR(Place { start: 15, len: 3 }),
    }
}

// Lays what is sent over the beginning of the reply buffer, and returns how many bytes it has.
pub fn put(reply: &mut [u8], out: Out, checked: bool) -> usize
    requires { 259 ≤ length reply.old }
    ensures { (result ≡ length (writes checked (contents_of checked out))) × (reply.new ≡ over 0 (writes checked (contents_of checked out)) reply.old) }
{
    let packet = packet_of(out, checked);
    let written = packet_writer::write(packet, TEXTS, checked, reply);
    calls::count(written)
}
