// Reads YAPP packets that come in chunks (document 01's portions) of any size.
#![tactic(auto)]

ghost use Rattle.std.specs.Prelude.{◌≡◌, ◌<◌};
ghost use Rattle.packet_stream.specs.Pending.{Fed, slot as slot_of, feed};
ghost use Rattle.packet_stream.specs.Reader.{fresh, checking, receive as receive_of};

use packets::spans::Span;
use packets::{Packet, packet_reader, spans};

#[derive(Clone, Copy)]
pub struct Reader {
    // The bytes of an unfinished packet (document 01's waiting room), and after a packet its bytes.
    pending: [u8; 259],
    // How many bytes wait. A count beside an array: the library has no heap.
    filled: usize,
    // Whether every DT has a checksum (YappC).
    checked: bool,
}

// What a chunk came to.
#[derive(Clone, Copy)]
pub struct Received {
    pub reader: Reader,
    // How many bytes of the chunk were taken: at most to the end of one packet.
    pub taken: usize,
    pub found: Span,
    // The packet; its places are in the reader's pending bytes.
    pub packet: Packet,
}

impl Reader {
    // A reader that has seen nothing.
    pub fn new(checked: bool) -> Self
        ensures { result ≡ fresh checked }
    {
        Reader {
            pending: [0; 259],
            filled: 0,
            checked,
        }
    }

    // The same reader, from now on with or without checksums.
    pub fn checking(self, checked: bool) -> Self
        ensures { result ≡ checking checked self }
    {
        Reader { checked, ..self }
    }

    // The pending bytes. After a packet they begin with it.
    pub fn pending(self) -> [u8; 259]
        ensures { result ≡ self.pending }
    {
        self.pending
    }

    // How many bytes of an unfinished packet wait.
    pub fn filled(self) -> usize
        ensures { result ≡ self.filled }
    {
        self.filled
    }

    // Whether every DT has a checksum (YappC).
    pub fn checked(self) -> bool
        ensures { result ≡ self.checked }
    {
        self.checked
    }

    // Fills the pending bytes from the chunk until they are a packet, or a drop. Returns how many bytes of the chunk were taken.
    fn fill(&mut self, chunk: &[u8]) -> (usize, Span)
        ensures fed { feed self.old.checked self.old.pending self.old.filled 0 chunk.now ≡ record { pending = self.new.pending; filled = self.new.filled; taken = result.0; found = result.1 } }
        ensures mode { self.new.checked ≡ self.old.checked }
    {
        let checked = self.checked;
        let mut n = self.filled;
        for (i, &x) in chunk.iter().enumerate() {
            let at = slot(n);
            self.pending[at] = x;
            n = at + 1;
            match spans::span_of(&self.pending[..n], checked) {
                Span::Open => {}
                found => {
                    self.filled = 0;
                    return (i + 1, found);
                }
            }
        }
        self.filled = n;
        (chunk.len(), Span::Open)
    }

    // Takes bytes of the chunk, at most to the end of one packet. An empty chunk changes nothing.
    pub fn receive(self, chunk: &[u8]) -> Received
        ensures { result ≡ receive_of self chunk.now }
    {
        let mut reader = self;
        let (taken, found) = reader.fill(chunk);
        let packet = packet_reader::packet_in(found, &reader.pending, reader.checked);
        // By its fields: moved as a whole, a reader is copied by a slower path at each call.
        Received {
            reader: Reader {
                pending: reader.pending,
                ..reader
            },
            taken,
            found,
            packet,
        }
    }
}

// Where the next byte goes.
#[tactic(auto, unfolding(crate::specs::Pending::slot))]
fn slot(filled: usize) -> usize
    ensures { (result ≡ slot_of filled) × (result < 259) }
{
    if filled < 259 { filled } else { 0 }
}
