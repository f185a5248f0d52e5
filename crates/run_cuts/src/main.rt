// Breaks a session off behind every byte that passes between the ends, and resumes it to its end: by YAPP, without and with checksums, and by
// #BIN#, by either reading of the CRC, and broken by the one and resumed by the other. A line for each cut from which on the record says
// something else; the last line of a session says `all whole` only if after each cut the record was that of the file, and the area its kept
// bytes and behind them what it was, and after each resumed session both ends ended with success, the record had all bytes and the area was
// the file and behind it what it was, byte by byte.
//
// Then runs sessions of #BIN# whose ends are set to unlike readings, from no record, from each kept count that a session of document 01's reading
// leaves, and with an empty file. A line for each count from which on the ends end with other numbers.
//
// Then sends files made of `SP\-` and of the stop frame by #BIN#, at every block from 1 to 12. A line for each block has the frames of the
// file, and says whether it came whole.
#![tactic(auto)]

ghost use Rattle.std.specs.Prelude.{◌≤◌};

use bin_link::Readings;
use crc::Reading;
use link::Saved;
use script::printing::{put, put_number, put_text};
use std::io;
use std::io::Write;

mod bin_link;
mod link;
mod yapp_link;

// More bytes than any session has.
const ALL: usize = 1_000_000;

// How a session goes.
#[derive(Clone, Copy)]
enum Protocol {
    Yapp,
    YappC,
    Bin(Reading),
}

// Both ends are set to the same.
fn set_to(reading: Reading) -> Readings {
    Readings {
        sender: reading,
        receiver: reading,
    }
}

fn session<W: Write>(
    out: &mut W,
    protocol: Protocol,
    before: Saved,
    bytes: usize,
    file: &[u8],
) -> io::Result<Saved> {
    match protocol {
        Protocol::Yapp => Ok(yapp_link::session(before, bytes, false, file)),
        Protocol::YappC => Ok(yapp_link::session(before, bytes, true, file)),
        Protocol::Bin(reading) => {
            bin_link::session(out, before, bytes, 8, set_to(reading), false, file)
        }
    }
}

// ---- Cuts

// How many bytes are kept, where there is a record.
fn told(s: Saved) -> Option<usize> {
    if s.len == 0 {
        return None;
    }
    Some(link::kept(s))
}

fn show<W: Write>(out: &mut W, at: usize, s: Saved) -> io::Result<()> {
    put_number(out, b"from ", at)?;
    match told(s) {
        Some(kept) => {
            put_number(out, b": kept ", kept)?;
            put(out, b"\n")
        }
        None => put(out, b": no record\n"),
    }
}

// What came of a cut: what its record told, and whether all was whole.
#[derive(Clone, Copy)]
struct Cut {
    told: Option<usize>,
    whole: bool,
}

// Goes on where the first session was cut, with its record if there is one.
fn is_resumed<W: Write>(
    out: &mut W,
    protocol: Protocol,
    s: Saved,
    file: &[u8],
) -> io::Result<bool> {
    if link::is_sound(s, file) {
        return Ok(link::is_whole(session(out, protocol, s, ALL, file)?, file));
    }
    Ok(false)
}

// The session cut behind this many bytes, and resumed. Shows the record where it is the first, or told something else before.
fn try_cut<W: Write>(
    out: &mut W,
    first: Protocol,
    then: Protocol,
    at: usize,
    before: Option<Cut>,
    file: &[u8],
) -> io::Result<Cut> {
    let s = session(out, first, link::nothing(), at, file)?;
    let now = told(s);
    if before.is_none_or(|cut| cut.told != now) {
        show(out, at, s)?;
    }
    Ok(Cut {
        told: now,
        whole: is_resumed(out, then, s, file)?,
    })
}

fn report<W: Write>(out: &mut W, cuts: usize, whole: bool) -> io::Result<()> {
    put_number(out, b"", cuts)?;
    if whole {
        put(out, b" cuts, all whole\n")
    } else {
        put(out, b" cuts, not all whole\n")
    }
}

// The session has len bytes; it is cut before the first, and behind each.
fn cuts<W: Write>(
    out: &mut W,
    first: Protocol,
    then: Protocol,
    file: &[u8],
    len: usize,
) -> io::Result<()>
    requires { len ≤ 1000 }
{
    let mut before = None;
    let mut whole = true;
    for at in 0..=len {
        let cut = try_cut(out, first, then, at, before, file)?;
        before = Some(cut);
        whole = whole && cut.whole;
    }
    report(out, len + 1, whole)
}

// The numbers from 0 to 199, over and over.
fn fill(file: &mut [u8; 270]) {
    for (byte, n) in file.iter_mut().zip((0..200u8).cycle()) {
        *byte = n;
    }
}

fn cut_all<W: Write>(out: &mut W, file: &[u8; 270]) -> io::Result<()> {
    put(
        out,
        b"YAPP: SI 2, RR 2, HD 23, RF 2, DT 102, 102, 72, EF 2, AF 2, ET 2, AT 2\n",
    )?;
    cuts(out, Protocol::Yapp, Protocol::Yapp, file, 313)?;
    put(
        out,
        b"YappC: SI 2, RR 2, HD 23, RT 2, DT 103, 103, 73, EF 2, AF 2, ET 2, AT 2\n",
    )?;
    cuts(out, Protocol::YappC, Protocol::YappC, file, 316)
}

fn cut_bin<W: Write>(out: &mut W, file: &[u8]) -> io::Result<()> {
    let bare = Protocol::Bin(Reading::Bare);
    let augmented = Protocol::Bin(Reading::Augmented);
    put(out, b"#BIN#: line 34, OK 12, file 20\n")?;
    cuts(out, bare, bare, file, 66)?;
    put(out, b"#BIN#, augmented: line 33, OK 12, file 20\n")?;
    cuts(out, augmented, augmented, file, 65)?;
    put(out, b"#BIN#, resumed augmented: line 34, OK 12, file 20\n")?;
    cuts(out, bare, augmented, file, 66)
}

// ---- Ends set to unlike readings

fn put_numbers<W: Write>(out: &mut W, s: Saved) -> io::Result<()> {
    put_number(out, b": sender ", usize::from(s.sender))?;
    put_number(out, b", receiver ", usize::from(s.receiver))?;
    put(out, b"\n")
}

// The numbers of both ends.
fn numbers(s: Saved) -> (u8, u8) {
    (s.sender, s.receiver)
}

// Goes on from so many kept bytes: the line has 34, the OK 12, and then those of the file pass. Shows how it ends where it ended otherwise before.
fn try_apart<W: Write>(
    out: &mut W,
    readings: Readings,
    kept: usize,
    before: Option<(u8, u8)>,
    file: &[u8],
) -> io::Result<(u8, u8)>
    requires { kept ≤ 1000 }
{
    let s = session(
        out,
        Protocol::Bin(Reading::Bare),
        link::nothing(),
        46 + kept,
        file,
    )?;
    let r = bin_link::session(out, s, ALL, 8, readings, false, file)?;
    let now = numbers(r);
    if before != Some(now) {
        put_number(out, b"from kept ", link::kept(s))?;
        put_numbers(out, r)?;
    }
    Ok(now)
}

// From no record, then from each kept count of a file of 20 bytes, and then with an empty file.
fn apart<W: Write>(out: &mut W, readings: Readings, file: &[u8]) -> io::Result<()> {
    put(out, b"no record")?;
    let r = bin_link::session(out, link::nothing(), ALL, 8, readings, false, file)?;
    put_numbers(out, r)?;
    let mut before = None;
    for kept in 0..=20 {
        before = Some(try_apart(out, readings, kept, before, file)?);
    }
    put(out, b"no bytes")?;
    let r = bin_link::session(out, link::nothing(), ALL, 8, readings, false, b"")?;
    put_numbers(out, r)
}

fn apart_both<W: Write>(out: &mut W, file: &[u8]) -> io::Result<()> {
    put(out, b"#BIN#, sender bare, receiver augmented\n")?;
    apart(
        out,
        Readings {
            sender: Reading::Bare,
            receiver: Reading::Augmented,
        },
        file,
    )?;
    put(out, b"#BIN#, sender augmented, receiver bare\n")?;
    apart(
        out,
        Readings {
            sender: Reading::Augmented,
            receiver: Reading::Bare,
        },
        file,
    )
}

// ---- Blocks

fn show_block<W: Write>(out: &mut W, file: &[u8], block: usize) -> io::Result<()> {
    put_number(out, b"block ", block)?;
    put(out, b":")?;
    let s = bin_link::session(
        out,
        link::nothing(),
        ALL,
        block,
        set_to(Reading::Bare),
        true,
        file,
    )?;
    if link::is_whole(s, file) {
        put(out, b"; whole\n")
    } else {
        put(out, b"; not whole\n")
    }
}

fn blocks<W: Write>(out: &mut W, file: &[u8]) -> io::Result<()> {
    put_text(out, b"file ", file)?;
    put(out, b"\n")?;
    for block in 1..=12 {
        show_block(out, file, block)?;
    }
    Ok(())
}

fn run<W: Write>(out: &mut W) -> io::Result<()> {
    let mut file = [0u8; 270];
    fill(&mut file);
    cut_all(out, &file)?;
    cut_bin(out, b"ABCDEFGHIJKLMNOPQRST")?;
    apart_both(out, b"ABCDEFGHIJKLMNOPQRST")?;
    blocks(out, b"SP\\-SP\\-SP\\-")?;
    blocks(out, b"\r#ABORT#\r\r#ABORT#\r\r#ABORT#\r")?;
    blocks(out, b"SP\\-\r#ABORT#\rSP\\-\r#ABORT#\r")
}

fn main(rt: HostRuntime) -> io::Result<()> {
    run(&mut rt.stdout())
}
