// Writes packets, with and without a form, and hands back the data of packets at the front of a capture. One line a case: the first 16 bytes
// that were written, or 20 or 22, and how far the reply buffer is no longer what it was; or the data.
#![tactic(auto)]

use calls::outcomes;
use fields::{Fault, Flaw, Place, WriteError};
use packets::{Block, Header, Packet, Resume, packet_reader};
use script::printing::{put, put_bytes, put_hex, put_number, put_touched};
use std::io;
use std::io::Write;

// ---- Packets written

fn put_written<W: Write>(
    out: &mut W,
    label: &[u8],
    written: Result<usize, WriteError>,
    reply: &[u8],
) -> io::Result<()> {
    put(out, label)?;
    put(out, b":")?;
    match written {
        Ok(n) => put_hex(out, fields::part(fields::part(reply, 0, n), 0, 16))?,
        Err(_) => put_number(out, b" ", usize::from(outcomes::written_number(written)))?,
    }
    put_touched(out, b"; reply", reply)?;
    put(out, b"\n")
}

// Into a reply buffer that is all EE.
fn write_into<W: Write>(
    out: &mut W,
    label: &[u8],
    packet: Packet,
    source: &[u8],
    reply: &mut [u8],
) -> io::Result<()> {
    let written = packet_writer::write(packet, source, false, reply);
    put_written(out, label, written, reply)
}

// Of 259 bytes, and of 258.
fn write<W: Write>(out: &mut W, label: &[u8], packet: Packet, source: &[u8]) -> io::Result<()> {
    write_into(out, label, packet, source, &mut [0xEE; 259])
}

fn write_258<W: Write>(out: &mut W, label: &[u8], packet: Packet, source: &[u8]) -> io::Result<()> {
    write_into(out, label, packet, source, &mut [0xEE; 258])
}

// The first bytes of a source.
fn first(len: usize) -> Place {
    Place { start: 0, len }
}

fn texts<W: Write>(out: &mut W) -> io::Result<()> {
    write(out, b"TX", Packet::TX(first(2)), b"hi")?;
    write(out, b"RI", Packet::RI(first(3)), b"*.*")?;
    write(out, b"CN with no reason", Packet::CN(first(0)), b"")?;
    write(out, b"NR", Packet::NR(first(3)), b"one")?;
    write(
        out,
        b"NR without a resume's last zero",
        Packet::NR(first(4)),
        b"R\x0044",
    )?;
    write(
        out,
        b"NR that would read as a resume",
        Packet::NR(first(5)),
        b"R\x0044\x00",
    )?;
    write_258(
        out,
        b"the same into 258 bytes",
        Packet::NR(first(5)),
        b"R\x0044\x00",
    )?;
    write_258(out, b"TX into 258 bytes", Packet::TX(first(2)), b"hi")
}

fn long_texts<W: Write>(out: &mut W) -> io::Result<()> {
    let text = [b'x'; 256];
    write(out, b"TX of 255 bytes", Packet::TX(first(255)), &text)?;
    write(out, b"TX of 256 bytes", Packet::TX(first(256)), &text)?;
    write(out, b"RI of 255 bytes", Packet::RI(first(255)), &text)?;
    write(out, b"RI of 256 bytes", Packet::RI(first(256)), &text)?;
    write(out, b"CN of 256 bytes", Packet::CN(first(256)), &text)
}

fn write_hd<W: Write>(out: &mut W, label: &[u8], name: &[u8], size: u32) -> io::Result<()> {
    let header = Header {
        name: first(name.len()),
        size,
        stamp: None,
    };
    write(out, label, Packet::HD(header), name)
}

fn headers<W: Write>(out: &mut W) -> io::Result<()> {
    write_hd(out, b"HD", b"lot7.csv", 300)?;
    write_hd(out, b"HD of no name", b"", 300)?;
    write_hd(out, b"HD of a name with a slash", b"lot/7.csv", 300)?;
    write_hd(
        out,
        b"HD of a name of 64",
        b"0123456789abcdef0123456789abcdef0123456789abcdef0123456789abcdef",
        300,
    )?;
    write_hd(
        out,
        b"HD of a name of 65",
        b"0123456789abcdef0123456789abcdef0123456789abcdef0123456789abcdefg",
        300,
    )?;
    write_hd(out, b"HD of 99999999", b"lot7.csv", 99_999_999)?;
    write_hd(out, b"HD of 100000000", b"lot7.csv", 100_000_000)
}

fn write_re<W: Write>(out: &mut W, label: &[u8], position: u32) -> io::Result<()> {
    write(
        out,
        label,
        Packet::RE(Resume {
            position,
            checked: false,
        }),
        b"",
    )
}

fn write_dt<W: Write>(out: &mut W, label: &[u8], len: usize, sound: bool) -> io::Result<()> {
    let data = [b'x'; 257];
    write(
        out,
        label,
        Packet::DT(Block {
            place: first(len),
            sound,
        }),
        &data,
    )
}

fn others<W: Write>(out: &mut W) -> io::Result<()> {
    write_re(out, b"RE from 99999999", 99_999_999)?;
    write_re(out, b"RE from 100000000", 100_000_000)?;
    write_dt(out, b"DT of 256 bytes", 256, true)?;
    write_dt(out, b"DT of 257 bytes", 257, true)?;
    write_dt(out, b"DT of no data", 0, true)?;
    write_dt(out, b"DT whose checksum disagreed", 3, false)?;
    let flaw = Flaw::NameOpen;
    let malformed = Packet::Malformed(Fault { flaw, offset: 0 });
    write(out, b"a malformed header", malformed, b"")?;
    write(out, b"a dropped byte", Packet::Dropped(1), b"")?;
    write(out, b"an unfinished packet", Packet::Open, b"")
}

// ---- Data handed back

fn show_data<W: Write>(out: &mut W, label: &[u8], capture: &[u8], checked: bool) -> io::Result<()> {
    put(out, b"data of ")?;
    put(out, label)?;
    put(out, b": [")?;
    put_bytes(out, packet_reader::data_of(capture, checked))?;
    put(out, b"]\n")
}

fn data<W: Write>(out: &mut W) -> io::Result<()> {
    show_data(out, b"SI", b"\x05\x01\x06\x01", false)?;
    show_data(out, b"RI", b"\x05\x02\x03*.*\x05\x01", false)?;
    show_data(out, b"HD", b"\x01\x0Blot7.csv\x003\x00\x02\x03ABC", false)?;
    show_data(out, b"DT", b"\x02\x03ABC\x03\x01", false)?;
    show_data(out, b"DT in YappC", b"\x02\x03ABC\xC6\x03\x01", true)?;
    show_data(out, b"a DT without its last byte", b"\x02\x03AB", false)?;
    show_data(out, b"two bytes that are dropped", b"\x06\x07ABC", false)
}

fn main(rt: HostRuntime) -> io::Result<()> {
    let out = &mut rt.stdout();
    texts(out)?;
    long_texts(out)?;
    headers(out)?;
    others(out)?;
    data(out)
}
