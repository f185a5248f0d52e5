// Numbers written in decimal digits, most significant first.
ghost use Rattle.std.specs.Prelude.{◌≡◌, [], ◌∷◌, ◌++◌};
ghost use Rattle.fields.specs.Buffer.{placed, placed_count, appended, appended_end};
ghost use Rattle.numbers.specs.Writing.{decimal};

// Writes the digits of n and then the byte end over the beginning of buf, and returns how many bytes that is; where they do not fit,
// writes nothing and returns 0. By recursion: the last digit is the first that is known, and only the first tells how many there are.
fn put_decimal(buf: &mut [u8], n: u64, end: u8) -> usize
    ensures { (result ≡ placed_count (decimal n ++ (end ∷ [])) buf.old) × (buf.new ≡ placed (decimal n ++ (end ∷ [])) buf.old) }
{
    let digit = b'0' + (n % 10) as u8;
    if buf.len() < 2 {
        return 0;
    }
    if n < 10 {
        buf[0] = digit;
        buf[1] = end;
        return 2;
    }
    let last = buf.len() - 1;
    let k = put_decimal(&mut buf[..last], n / 10, digit);
    if k == 0 {
        return 0;
    }
    buf[k] = end;
    k + 1
}

// The same from index at on: every number is written with a byte behind it. Returns the index behind what it wrote; where that does not
// fit, writes nothing and returns at, and not None, as `fields::buffers` says.
pub fn append_decimal(buf: &mut [u8], at: usize, n: u64, end: u8) -> usize
    ensures { (result ≡ appended_end at (decimal n ++ (end ∷ [])) buf.old) × (buf.new ≡ appended at (decimal n ++ (end ∷ [])) buf.old) }
{
    if buf.len() < at {
        return at;
    }
    at + put_decimal(&mut buf[at..], n, end)
}
