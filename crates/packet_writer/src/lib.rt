// Writes YAPP packets into a reply buffer (document 01's reply room) of at least 259 bytes. Every byte of it behind the packet
// stays, and a refusal leaves all as it was: a buffer under 259 bytes is 20, a packet that has no form is 22.
#![tactic(auto)]

ghost use Rattle.std.specs.Prelude.{◌≡◌, ◌≤◌, ◌<◌, [], ◌∷◌, length};
ghost use Rattle.std.specs.Result.{MatchResult};
ghost use Rattle.fields.specs.declared.WriteError.TheVariants.{Small};
ghost use Rattle.fields.specs.Buffer.{formless, bytes as bytes_form, written_of, left_of};
ghost use Rattle.packets.specs.Content.{content_of, form_of};

use fields::{Limits, WriteError, buffers};
use packets::{Block, Header, Packet};

mod blocks;
mod files;
mod texts;

pub use blocks::write_dt;
pub use files::write_hd;

// Whether the reply buffer has room for every packet.
fn check_room(reply: &[u8]) -> Result<(), WriteError>
    ensures { MatchResult result (λ _. 259 ≤ length reply.now) (λ e. (e ≡ Small) × (length reply.now < 259)) }
{
    if reply.len() < Limits::REPLY {
        return Err(WriteError::Small);
    }
    Ok(())
}

// A packet of two bytes.
#[tactic(auto, unfolding(fields::specs::Buffer::written_of, fields::specs::Buffer::left_of))]
fn write_two(reply: &mut [u8], first: u8, second: u8) -> Result<usize, WriteError>
    ensures { (result ≡ written_of 259 (bytes_form (first ∷ second ∷ [])) reply.old) × (reply.new ≡ left_of 259 (bytes_form (first ∷ second ∷ [])) reply.old) }
{
    check_room(reply)?;
    Ok(buffers::append_bytes(reply, 0, &[first, second]))
}

// What has no form; a small buffer is refused first.
#[tactic(auto, unfolding(fields::specs::Buffer::written_of, fields::specs::Buffer::left_of))]
fn write_none(reply: &mut [u8]) -> Result<usize, WriteError>
    ensures { (result ≡ written_of 259 formless reply.old) × (reply.new ≡ left_of 259 formless reply.old) }
{
    check_room(reply)?;
    Err(WriteError::Formless)
}

// Any packet, its places being in source.
#[tactic(auto, unfolding(packets::specs::Content::content_of, packets::specs::Content::form_of, packets::specs::Content::request_form))]
pub fn write(
    packet: Packet,
    source: &[u8],
    checked: bool,
    reply: &mut [u8],
) -> Result<usize, WriteError>
    ensures { (result ≡ written_of 259 (form_of checked (content_of source.now packet)) reply.old) × (reply.new ≡ left_of 259 (form_of checked (content_of source.now packet)) reply.old) }
{
    match packet {
        Packet::RR => write_two(reply, 6, 1),
        Packet::RF => write_two(reply, 6, 2),
        Packet::AF => write_two(reply, 6, 3),
        Packet::AT => write_two(reply, 6, 4),
        Packet::CA => write_two(reply, 6, 5),
        Packet::RT => write_two(reply, 6, 6),
        Packet::SI => write_two(reply, 5, 1),
        Packet::RI(p) => texts::write_text(reply, &[5, 2], fields::bytes_at(source, p)),
        Packet::HD(Header { name, size, stamp }) => {
            files::write_hd(reply, fields::bytes_at(source, name), size, stamp)
        }
        Packet::DT(Block { place, sound: true }) => {
            blocks::write_dt(reply, fields::bytes_at(source, place), checked)
        }
        Packet::EF => write_two(reply, 3, 1),
        Packet::ET => write_two(reply, 4, 1),
        Packet::NR(p) => texts::write_nr(reply, fields::bytes_at(source, p)),
        Packet::RE(r) => files::write_re(reply, r.position, r.checked),
        Packet::CN(p) => texts::write_text(reply, &[0x18], fields::bytes_at(source, p)),
        Packet::TX(p) => texts::write_text(reply, &[0x10], fields::bytes_at(source, p)),
        // A block whose checksum disagreed, and what is no packet.
        Packet::DT(_) | Packet::Malformed(_) | Packet::Dropped(_) | Packet::Open => {
            write_none(reply)
        }
    }
}
