// Numbers written in hex digits, most significant first.
ghost use Rattle.std.specs.Prelude.{◌≡◌, ◌<◌, length};
ghost use Rattle.fields.specs.Buffer.{appended, appended_end};
ghost use Rattle.numbers.specs.Writing.{capital as capital_of, hex};

use fields::buffers::append_bytes;

#[tactic(auto, unfolding(crate::specs::Writing::capital))]
fn capital(n: u32) -> u8
    requires { n < 16 }
    ensures { result ≡ capital_of n }
{
    if n < 10 {
        b'0' + n as u8
    } else {
        b'A' + (n - 10) as u8
    }
}

// Fills buf with the last hex digits of v, in capitals. By recursion, as the digits of a number are defined: there is no index to keep.
#[tactic(auto, using(crate::proofs::numerals::Writing::hex_none, crate::proofs::numerals::Writing::hex_more))]
pub fn fill_hex(buf: &mut [u8], v: u32)
    ensures { buf.new ≡ hex (length buf.old) v }
{
    if let Some((last, rest)) = buf.split_last_mut() {
        fill_hex(rest, v / 16);
        *last = capital(v % 16);
    }
}

// Eight hex digits from index at on. Returns the index behind what it wrote; where that does not fit, writes nothing and returns at,
// and not None, as `fields::buffers` says.
pub fn append_hex(buf: &mut [u8], at: usize, v: u32) -> usize
    ensures { (result ≡ appended_end at (hex 8 v) buf.old) × (buf.new ≡ appended at (hex 8 v) buf.old) }
{
    let mut digits = [0; 8];
    fill_hex(&mut digits, v);
    append_bytes(buf, at, &digits)
}
