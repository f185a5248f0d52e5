// The listing of a capture of YAPP packets, a line at a time: `offset kind data`. The capture comes in chunks (document 01's portions).
#![tactic(auto)]

ghost use Rattle.std.specs.Prelude.{◌≡◌, ◌≤◌, length};
ghost use Rattle.fields.specs.Buffer.{over};
ghost use Rattle.packets.specs.Span.{size_of};
ghost use Rattle.listing.specs.Text.{heading as heading_of};
ghost use Rattle.listing.specs.Lister.{line_by, Stepped, new as new_of, step as step_of, end_text};

use packet_stream::Reader;
use packets::Packet;
use packets::spans::Span;

mod lines;

#[derive(Clone, Copy)]
pub struct Lister {
    reader: Reader,
    // Where the next packet starts in the capture.
    offset: u64,
}

// What a chunk came to: at most one line.
#[derive(Clone, Copy)]
pub struct Listed {
    pub lister: Lister,
    // How many bytes of the chunk were taken.
    pub taken: usize,
    // How many bytes of the buffer are the line; none while a packet is open.
    pub written: usize,
}

// The header line.
#[tactic(auto, unfolding(crate::specs::Text::heading))]
pub fn heading() -> [u8; 17]
    ensures { result ≡ heading_of }
{
    *b"offset kind data\n"
}

// Writes the line of what was found; none while a packet is open.
#[tactic(auto, using(fields::proofs::Buffer::over_none))]
fn put_found(out: &mut [u8; 32], offset: u64, found: Span, packet: Packet) -> usize
    requires { size_of found ≤ 259 }
    ensures { (result ≡ length (line_by offset found packet)) × (out.new ≡ over 0 (line_by offset found packet) out.old) }
{
    match found {
        Span::Open => 0,
        Span::Whole(n) | Span::Drop(n) => lines::put_packet(out, offset, packet, n),
    }
}

// How many bytes were found.
fn size_of(found: Span) -> usize
    ensures { result ≡ size_of found }
{
    if let Span::Whole(n) | Span::Drop(n) = found {
        n
    } else {
        0
    }
}

impl Lister {
    pub fn new() -> Self
        ensures { result ≡ new_of }
    {
        Lister {
            reader: Reader::new(false),
            offset: 0,
        }
    }

    // Takes bytes of the chunk, at most to the end of one packet or drop, and writes its line.
    pub fn step(self, chunk: &[u8], out: &mut [u8; 32]) -> Listed
        ensures { step_of self chunk.now out.old ≡ record { listed = result; out = out.new } }
    {
        let got = self.reader.receive(chunk);
        let written = put_found(out, self.offset, got.found, got.packet);
        let offset = self.offset.wrapping_add(size_of(got.found) as u64);
        // Read behind the calls: before them it would be copied once more.
        let reader = got.reader;
        Listed {
            lister: Lister { reader, offset },
            taken: got.taken,
            written,
        }
    }

    // Writes the last lines, at most 71 bytes.
    pub fn end(self, out: &mut [u8; 72]) -> usize
        ensures { (result ≡ length (end_text self)) × (out.new ≡ over 0 (end_text self) out.old) }
    {
        let filled = self.reader.filled();
        let total = self.offset.wrapping_add(filled as u64);
        lines::put_ending(out, self.offset, filled, total)
    }
}
