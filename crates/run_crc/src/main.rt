// Prints the table of `crc` in the layout of source document 003.
#![tactic(auto)]

ghost use Rattle.std.specs.Prelude.{◌≡◌, ◌<◌, OnOk};
ghost use Rattle.std.specs.Io.KnownBytes.{Appends};
ghost use Rattle.run_crc.specs.Text.{hex_digit, text_of, printed, printed_first};

use std::io;
use std::io::Write;

#[tactic(auto, unfolding(crate::specs::Text::hex_digit))]
fn hex_digit(n: u16) -> u8
    requires { n < 16 }
    ensures { result ≡ hex_digit n }
{
    if n < 10 {
        b'0' + n as u8
    } else {
        b'a' + (n - 10) as u8
    }
}

// As C writes it: 0x and four hexadecimal digits. In one piece; `{v:04x}` writes the zeros and the digits apart.
#[tactic(auto, unfolding(crate::specs::Text::text_of))]
fn print_number<W: Write>(out: &mut W, v: u16) -> io::Result<()>
    ensures { OnOk result (Appends (W.contents out.old) (W.contents out.new) (text_of v)) }
{
    let a = hex_digit(v / 4096);
    let b = hex_digit(v / 256 % 16);
    let c = hex_digit(v / 16 % 16);
    let d = hex_digit(v % 16);
    out.write_all(&[b'0', b'x', a, b, c, d])
}

// Four spaces before the first of eight entries, a comma behind all but the last entry of the table.
fn print_entry<W: Write>(out: &mut W, i: u8) -> io::Result<()>
    ensures { OnOk result (Appends (W.contents out.old) (W.contents out.new) (printed i)) }
{
    if i % 8 == 0 {
        out.write_all(b"    ")?;
    }
    print_number(out, crc::entry(i))?;
    if i < 255 {
        out.write_all(b",")?;
    }
    if i % 8 == 7 {
        out.write_all(b"\n")?;
    }
    Ok(())
}

// The whole table.
fn print_table<W: Write>(out: &mut W) -> io::Result<()>
    ensures { OnOk result (Appends (W.contents out.old) (W.contents out.new) (printed_first 256)) }
{
    for i in 0u8..=255 {
        print_entry(out, i)?;
    }
    Ok(())
}

fn main(rt: HostRuntime) -> io::Result<()> {
    print_table(&mut rt.stdout())
}
