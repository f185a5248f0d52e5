// Bytes written into a buffer that the caller lends.
ghost use Rattle.std.specs.Prelude.{◌≡◌, [], ◌∷◌};
ghost use Rattle.fields.specs.Buffer.{placed, placed_count, appended, appended_end};

// Writes bytes over the beginning of buf, and returns how many; where they do not fit, writes nothing and returns 0.
// 0 and not None: every caller's buffer is known to be long enough, and a chain of writers would carry a None that never comes.
#[tactic(auto, using(crate::proofs::Buffer::put_copied, crate::proofs::Buffer::put_short_count, crate::proofs::Buffer::put_short_bytes))]
pub fn put_bytes(buf: &mut [u8], bytes: &[u8]) -> usize
    ensures { (result ≡ placed_count bytes.now buf.old) × (buf.new ≡ placed bytes.now buf.old) }
{
    let n = bytes.len();
    if buf.len() < n {
        return 0;
    }
    buf[..n].copy_from_slice(bytes);
    n
}

// The same from index at on. Each writer at an index returns the index behind what it wrote; where that does not fit, it writes nothing and
// returns at; at and not None, as above.
pub fn append_byte(buf: &mut [u8], at: usize, b: u8) -> usize
    ensures { (result ≡ appended_end at (b ∷ []) buf.old) × (buf.new ≡ appended at (b ∷ []) buf.old) }
{
    append_bytes(buf, at, &[b])
}

pub fn append_bytes(buf: &mut [u8], at: usize, bytes: &[u8]) -> usize
    ensures { (result ≡ appended_end at bytes.now buf.old) × (buf.new ≡ appended at bytes.now buf.old) }
{
    if buf.len() < at {
        return at;
    }
    at + put_bytes(&mut buf[at..], bytes)
}
