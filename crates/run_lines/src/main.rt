// Reads frames and prints what each says: document 01's examples, malformed lines and OKs, and every beginning of a line.
#![tactic(auto)]

use calls::Outcome;
use fields::Place;
use lines::{Frame, Kept, Line, line_reader};
use script::printing::{put, put_bytes, put_number, put_outcome};
use script::reading::before;
use std::io;
use std::io::Write;

fn put_stamp<W: Write>(out: &mut W, v: u32) -> io::Result<()> {
    write!(out, " stamp {v:08X}")
}

fn put_name<W: Write>(out: &mut W, label: &[u8], b: &[u8], p: Place) -> io::Result<()> {
    put(out, label)?;
    put_bytes(out, fields::bytes_at(b, p))
}

fn put_line<W: Write>(out: &mut W, b: &[u8], l: Line) -> io::Result<()> {
    put_number(out, b"line size ", l.size as usize)?;
    put_number(out, b" crc ", usize::from(l.crc))?;
    put_stamp(out, l.stamp)?;
    if l.resumable {
        put(out, b" resume")?;
    }
    put_name(out, b" name ", b, l.name)
}

fn put_kept<W: Write>(out: &mut W, b: &[u8], k: Kept) -> io::Result<()> {
    put_name(out, b"OK name ", b, k.name)?;
    put_number(out, b" kept ", k.kept as usize)?;
    put_number(out, b" crc ", usize::from(k.crc))
}

fn put_frame<W: Write>(out: &mut W, b: &[u8]) -> io::Result<()> {
    match line_reader::frame_of(b) {
        Frame::Basic(size) => put_number(out, b"basic size ", size as usize),
        Frame::Extended(l) => put_line(out, b, l),
        Frame::MalformedLine(fault) => put_outcome(
            out,
            b"malformed line ",
            Outcome::Malformed(fault),
        ),
        Frame::OK => put(out, b"OK"),
        Frame::OKName(p) => put_name(out, b"OK name ", b, p),
        Frame::OKKept(k) => put_kept(out, b, k),
        Frame::MalformedOK(fault) => put_outcome(out, b"malformed OK ", Outcome::Malformed(fault)),
        Frame::NO(p) => put_name(out, b"NO text ", b, p),
        Frame::Stop => put(out, b"stop"),
        Frame::Display(p) => put_name(out, b"display ", b, p),
        Frame::Other => put(out, b"other"),
    }
}

fn show<W: Write>(out: &mut W, b: &[u8]) -> io::Result<()> {
    put(out, b"[")?;
    put_bytes(out, b)?;
    put(out, b"] ")?;
    put_frame(out, b)?;
    put(out, b"\n")
}

// Every beginning of b, from the empty one to all but the last byte.
fn show_beginnings<W: Write>(out: &mut W, b: &[u8]) -> io::Result<()> {
    for n in 0..b.len() {
        show(out, &b[..n])?;
    }
    Ok(())
}

// Every frame of these, with a `~` behind each.
fn show_all<W: Write>(out: &mut W, frames: &[u8]) -> io::Result<()> {
    for frame in frames.split_inclusive(|c| *c == b'~') {
        show(out, before(frame, b'~'))?;
    }
    Ok(())
}

fn lines_read<W: Write>(out: &mut W) -> io::Result<()> {
    show_all(
        out,
        b"#BIN#3\r~\
          #BIN#00000003\r~\
          #BIN#99999999\r~\
          #BIN#3#|6822#$5A214800?#abc.txt\r~\
          #BIN#3#|6822#$5A214800#abc.txt\r~\
          #BIN#0#|00000#$5a214800?#a\r~\
          #BIN#3#|65535#$FFFFFFFF#abc.txt\r~\
          #BIN#3#|6822#$5A214800?#aaaaaaaaaabbbbbbbbbbccccccccccddddddddddeeeeeeeeeeffffffffffgggg\r~\
          ",
    )
}

fn lines_malformed<W: Write>(out: &mut W) -> io::Result<()> {
    show_all(
        out,
        b"#BIN#3~\
          #BIN#3\r\n~\
          #BIN#\r~\
          #BIN#100000000\r~\
          #BIN#3x\r~\
          #BIN#3#6822\r~\
          #BIN#3#|65536#$5A214800?#abc.txt\r~\
          #BIN#3#|006822#$5A214800?#abc.txt\r~\
          #BIN#3#|6822#$5A21480?#abc.txt\r~\
          #BIN#3#|6822#$5A2148000?#abc.txt\r~\
          #BIN#3#|6822#$5A21480G?#abc.txt\r~\
          #BIN#3#|6822#$5A214800??#abc.txt\r~\
          #BIN#3#|6822#$5A214800!#abc.txt\r~\
          #BIN#3#|6822#$5A214800?#\r~\
          #BIN#3#|6822#$5A214800?#a/b\r~\
          #BIN#3#|6822#$5A214800?#abc.txt#\r~\
          #BIN#3#|6822#$5A214800?#abc.txt\rx~\
          #BIN#3#|6822#$5A214800?#aaaaaaaaaabbbbbbbbbbccccccccccddddddddddeeeeeeeeeeffffffffffggggg\r~\
          #BIN#12#\r~\
          #BIN#12#~\
          #BIN#12#|\r~\
          #BIN#12#|65536#$~\
          #BIN#12#|99999#$~\
          #BIN#12#|655350~\
          #BIN#12#|1#$5A21480#a\r~\
          #BIN#12#|1#$5A214800!#a\r~\
          #BIN#12#|1#$5A214800??#a\r~\
          #BIN#12#|1#$5A214800?#\r~\
          #BIN#12#|1#$5A214800?#~\
          #BIN#12#|1#$5A214800?#a#b\r~\
          #BIN#12#|1#$5A214800?#a\r\r~\
          #BIN#12345678x\r~\
          ",
    )
}

fn replies<W: Write>(out: &mut W) -> io::Result<()> {
    show_all(
        out,
        b"#OK#\r~\
          #OK#abc.txt\r~\
          #OK#abc.txt#$2#16706\r~\
          #OK#abc.txt#$002#00065\r~\
          #OK#~\
          #OK#abc.txt~\
          #OK# \r~\
          #OK##$2#16706\r~\
          #OK#abc.txt#2#16706\r~\
          #OK#abc.txt#$#16706\r~\
          #OK#abc.txt#$2#\r~\
          #OK#abc.txt#$2\r~\
          #OK#abc.txt#$2#65536\r~\
          #OK#abc.txt#$2#16706#\r~\
          #OK#\r\r~\
          #OK##$2#1\r~\
          #OK#a#$2#65536\r~\
          #OK#\rx~\
          #OK#a#$123456789#1\r~\
          #OK#a#$2#1~\
          #NO#room\r~\
          #NO#room~\
          #NO#\r~\
          #NO#~\
          #NO#a\rb\r~\
          ",
    )
}

fn others<W: Write>(out: &mut W) -> io::Result<()> {
    show_all(
        out,
        b"\r#ABORT#\r~\
          #ABORT#\r~\
          \r#ABORT#~\
          \r#ABORT#\r\r~\
          SP\\-hello\r~\
          SP\\-~\
          SP\\~\
          \x20#BIN#3\r~\
          #bin#3\r~\
          ABC~\
          ",
    )
}

fn main(rt: HostRuntime) -> io::Result<()> {
    let out = &mut rt.stdout();
    lines_read(out)?;
    lines_malformed(out)?;
    replies(out)?;
    others(out)?;
    show_beginnings(out, b"#BIN#3#|6822#$5A214800?#abc.txt\r")
}
