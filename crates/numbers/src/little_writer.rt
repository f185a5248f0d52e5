// Numbers written as little-endian bytes.
ghost use Rattle.std.specs.Prelude.{◌≡◌, length};
ghost use Rattle.fields.specs.Buffer.{appended, appended_end};
ghost use Rattle.numbers.specs.Writing.{little};

// Fills buf with the bytes of v, least significant first. By recursion, as `hex_writer::fill_hex`.
#[tactic(auto, using(crate::proofs::numerals::Writing::little_none))]
fn fill_little(buf: &mut [u8], v: u32)
    ensures { buf.new ≡ little (length buf.old) v }
{
    if let Some((first, rest)) = buf.split_first_mut() {
        *first = (v % 256) as u8;
        fill_little(rest, v / 256);
    }
}

// The last width bytes of v, least significant first, from index at on. Returns the index behind what it wrote; where that does not fit,
// writes nothing and returns at, and not None, as `fields::buffers` says.
pub fn append_little(buf: &mut [u8], at: usize, width: usize, v: u32) -> usize
    ensures { (result ≡ appended_end at (little width v) buf.old) × (buf.new ≡ appended at (little width v) buf.old) }
{
    if buf.len() < at || buf.len() - at < width {
        return at;
    }
    let end = at + width;
    fill_little(&mut buf[at..end], v);
    end
}
