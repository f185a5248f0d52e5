// The lines of a listing of YAPP packets, written to the front of a buffer: `offset kind data`.
ghost use Rattle.std.specs.Prelude.{◌≡◌, ◌+◌, ◌-◌, ◌≤◌, [], length};
ghost use Rattle.fields.specs.Buffer.{over, appended, appended_end};
ghost use Rattle.numbers.specs.Writing.{decimal};
ghost use Rattle.packets.specs.Content.{content_of};
ghost use Rattle.packets.specs.Kind.{kind_of};
ghost use Rattle.listing.specs.Line.{letters, overhead, line, line_of, cut, ending};

use fields::buffers;
use numbers::numerals;
use packets::Packet;

// The letters of a packet's kind; a malformed header is listed as the HD that it is.
#[tactic(auto, unfolding(crate::specs::Line::letters, packets::specs::Kind::kind_of, packets::specs::Content::content_of, packets::specs::Kind::look))]
fn letters(packet: Packet) -> &'static [u8]
    ensures { (result.now ≡ letters (kind_of (content_of [] packet))) × (length result.now ≤ 3) }
{
    match packet {
        Packet::RR => b"RR",
        Packet::RF => b"RF",
        Packet::AF => b"AF",
        Packet::AT => b"AT",
        Packet::CA => b"CA",
        Packet::RT => b"RT",
        Packet::SI => b"SI",
        Packet::RI(_) => b"RI",
        Packet::HD(_) | Packet::Malformed(_) => b"HD",
        Packet::DT(_) => b"DT",
        Packet::EF => b"EF",
        Packet::ET => b"ET",
        Packet::NR(_) => b"NR",
        Packet::RE(_) => b"RE",
        Packet::CN(_) => b"CN",
        Packet::TX(_) => b"TX",
        Packet::Dropped(_) => b"BAD",
        Packet::Open => b"CUT",
    }
}

// The bytes of a packet that are not its data.
#[tactic(auto, unfolding(crate::specs::Line::overhead, packets::specs::Kind::kind_of, packets::specs::Content::content_of, packets::specs::Kind::look))]
fn overhead_of(packet: Packet) -> usize
    ensures { result ≡ overhead (kind_of (content_of [] packet)) }
{
    match packet {
        Packet::RI(_) => 3,
        Packet::Dropped(_) | Packet::Open => 0,
        _ => 2,
    }
}

// Writes a line to the front of the buffer.
fn put_line(out: &mut [u8], offset: u64, packet: Packet, count: usize) -> usize
    requires { 26 + length (decimal count) ≤ length out.old }
    ensures { (result ≡ length (line offset (letters (kind_of (content_of [] packet))) count)) × (out.new ≡ over 0 (line offset (letters (kind_of (content_of [] packet))) count) out.old) }
{
    let a = numerals::append_decimal(out, 0, offset, b' ');
    let b = buffers::append_bytes(out, a, letters(packet));
    let c = buffers::append_byte(out, b, b' ');
    numerals::append_decimal(out, c, count as u64, b'\n')
}

// Writes the line of a packet or a drop of this many bytes.
pub fn put_packet(out: &mut [u8; 32], offset: u64, packet: Packet, size: usize) -> usize
    requires { size ≤ 259 }
    ensures { (result ≡ length (line_of offset (content_of [] packet) size)) × (out.new ≡ over 0 (line_of offset (content_of [] packet) size) out.old) }
{
    put_line(
        out,
        offset,
        packet,
        size.saturating_sub(overhead_of(packet)),
    )
}

// Writes the line of an unfinished packet of n bytes, if there is one.
fn put_cut(out: &mut [u8], offset: u64, n: usize) -> usize
    requires { length out.old ≡ 72 }
    ensures { (result ≡ length (cut offset n)) × (out.new ≡ over 0 (cut offset n) out.old) }
{
    if n == 0 {
        return 0;
    }
    put_line(out, offset, Packet::Open, n)
}

// Writes the last lines.
pub fn put_ending(out: &mut [u8], offset: u64, n: usize, total: u64) -> usize
    requires { length out.old ≡ 72 }
    ensures { (result ≡ length (ending offset n total)) × (out.new ≡ over 0 (ending offset n total) out.old) }
{
    let at = put_cut(out, offset, n);
    let a = buffers::append_bytes(out, at, b"end ");
    numerals::append_decimal(out, a, total, b'\n')
}
