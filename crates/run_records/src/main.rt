// Writes and reads saved records: document 01's example, records within and outside the limits, malformed ones, and every
// beginning of one. One line a case: what was written, or 20 or 22; what was read, or 1.
#![tactic(auto)]

use calls::outcomes;
use fields::WriteError;
use records::{Record, record_reader, record_writer};
use script::printing::{put, put_hex, put_number};
use script::reading::{before, behind};
use std::io;
use std::io::Write;

fn print_stamp<W: Write>(out: &mut W, stamp: Option<u32>) -> io::Result<()> {
    match stamp {
        Some(v) => put_number(out, b" stamp ", v as usize),
        None => put(out, b" no stamp"),
    }
}

fn print_record<W: Write>(out: &mut W, b: &[u8], r: Record) -> io::Result<()> {
    put_number(out, b" size ", r.size as usize)?;
    put_number(out, b" kept ", r.kept as usize)?;
    print_stamp(out, r.stamp)?;
    put(out, b" name ")?;
    put(out, fields::bytes_at(b, r.name))
}

// What the bytes read as.
fn print_read<W: Write>(out: &mut W, b: &[u8]) -> io::Result<()> {
    let read = record_reader::record_of(b);
    match read {
        Some(r) => print_record(out, b, r)?,
        None => put_number(out, b" ", usize::from(outcomes::read_number(read)))?,
    }
    put(out, b"\n")
}

fn read<W: Write>(out: &mut W, label: &[u8], b: &[u8]) -> io::Result<()> {
    put(out, b"read ")?;
    put(out, label)?;
    put(out, b":")?;
    print_read(out, b)
}

// What was written, and what that reads as.
fn print_written<W: Write>(
    out: &mut W,
    label: &[u8],
    buf: &[u8],
    written: Result<usize, WriteError>,
) -> io::Result<()> {
    match written {
        Ok(n) => {
            put_hex(out, fields::part(buf, 0, n))?;
            put(out, b"\n")?;
            read(out, label, fields::part(buf, 0, n))
        }
        Err(_) => {
            put_number(out, b" ", usize::from(outcomes::written_number(written)))?;
            put(out, b"\n")
        }
    }
}

// A case is a label, a colon and what stands behind it. Writes the record of a name, which stands behind the label, into buf.
fn save<W: Write>(
    out: &mut W,
    case: &[u8],
    buf: &mut [u8],
    size: u32,
    kept: u32,
    stamp: Option<u32>,
) -> io::Result<()> {
    let label = before(case, b':');
    put(out, b"write ")?;
    put(out, label)?;
    put(out, b":")?;
    let written = record_writer::write(buf, behind(case, b':'), size, kept, stamp);
    print_written(out, label, buf, written)
}

// Into 81 bytes.
fn write<W: Write>(
    out: &mut W,
    case: &[u8],
    size: u32,
    kept: u32,
    stamp: Option<u32>,
) -> io::Result<()> {
    save(out, case, &mut [0; 81], size, kept, stamp)
}

// Into 80 bytes, without a stamp.
fn write_80<W: Write>(out: &mut W, case: &[u8], size: u32, kept: u32) -> io::Result<()> {
    save(out, case, &mut [0; 80], size, kept, None)
}

fn write_stamps<W: Write>(out: &mut W) -> io::Result<()> {
    write(out, b"lot7.csv:lot7.csv", 300, 200, None)?;
    write(
        out,
        b"lot7.csv with a stamp:lot7.csv",
        300,
        200,
        Some(0x5A21_4800),
    )?;
    write(out, b"a stamp of 0:lot7.csv", 300, 200, Some(0))
}

fn write_within<W: Write>(out: &mut W) -> io::Result<()> {
    write(out, b"the shortest:a", 0, 0, None)?;
    write(
        out,
        b"a name of 64:0123456789abcdef0123456789abcdef0123456789abcdef0123456789abcdef",
        99_999_999,
        0xFFFF_FFFF,
        None,
    )?;
    write(
        out,
        b"the longest:0123456789abcdef0123456789abcdef0123456789abcdef0123456789abcdef",
        99_999_999,
        0xFFFF_FFFF,
        Some(0xFFFF_FFFF),
    )?;
    write(out, b"kept over size:lot7.csv", 200, 300, None)
}

fn write_outside<W: Write>(out: &mut W) -> io::Result<()> {
    write(
        out,
        b"a name of 65:0123456789abcdef0123456789abcdef0123456789abcdef0123456789abcdefg",
        300,
        200,
        None,
    )?;
    write(out, b"no name:", 300, 200, None)?;
    write(out, b"a name with a slash:lot/7.csv", 300, 200, None)
}

fn write_small<W: Write>(out: &mut W) -> io::Result<()> {
    write(out, b"size 100000000:lot7.csv", 100_000_000, 200, None)?;
    write_80(out, b"into 80 bytes:lot7.csv", 300, 200)?;
    write_80(out, b"no name into 80 bytes:", 300, 200)
}

fn read_case<W: Write>(out: &mut W, case: &[u8]) -> io::Result<()> {
    read(out, before(case, b':'), behind(case, b':'))
}

// Every case of these, with a `~` behind each.
fn read_all<W: Write>(out: &mut W, cases: &[u8]) -> io::Result<()> {
    for case in cases.split_inclusive(|c| *c == b'~') {
        read_case(out, before(case, b'~'))?;
    }
    Ok(())
}

fn read_lengths<W: Write>(out: &mut W) -> io::Result<()> {
    read_all(
        out,
        b"nothing:~\
          a byte behind:\x13\x00\x01\x00\x2C\x01\x00\x00\xC8\x00\x00\x00\x08lot7.csv\x00~\
          a byte behind, counted:\x14\x00\x01\x00\x2C\x01\x00\x00\xC8\x00\x00\x00\x08lot7.csv\x00~\
          a length that counts itself:\x15\x00\x01\x00\x2C\x01\x00\x00\xC8\x00\x00\x00\x08lot7.csv~\
          a length one short:\x12\x00\x01\x00\x2C\x01\x00\x00\xC8\x00\x00\x00\x08lot7.csv~\
          a length with its high byte first:\x00\x13\x01\x00\x2C\x01\x00\x00\xC8\x00\x00\x00\x08lot7.csv~\
          ",
    )
}

fn read_kinds<W: Write>(out: &mut W) -> io::Result<()> {
    read_all(
        out,
        b"kind 0:\x13\x00\x00\x00\x2C\x01\x00\x00\xC8\x00\x00\x00\x08lot7.csv~\
          kind 3:\x13\x00\x03\x00\x2C\x01\x00\x00\xC8\x00\x00\x00\x08lot7.csv~\
          kind 3 with a stamp:\x17\x00\x03\x00\x2C\x01\x00\x00\xC8\x00\x00\x00\x00\x48\x21\x5A\x08lot7.csv~\
          kind 257:\x13\x00\x01\x01\x2C\x01\x00\x00\xC8\x00\x00\x00\x08lot7.csv~\
          kind 1 with a stamp:\x17\x00\x01\x00\x2C\x01\x00\x00\xC8\x00\x00\x00\x00\x48\x21\x5A\x08lot7.csv~\
          kind 2 without a stamp:\x13\x00\x02\x00\x2C\x01\x00\x00\xC8\x00\x00\x00\x08lot7.csv~\
          ",
    )
}

fn read_names<W: Write>(out: &mut W) -> io::Result<()> {
    read_all(
        out,
        b"name length 7:\x13\x00\x01\x00\x2C\x01\x00\x00\xC8\x00\x00\x00\x07lot7.csv~\
          name length 9:\x13\x00\x01\x00\x2C\x01\x00\x00\xC8\x00\x00\x00\x09lot7.csv~\
          no name:\x0B\x00\x01\x00\x2C\x01\x00\x00\xC8\x00\x00\x00\x00~\
          a name with a colon:\x13\x00\x01\x00\x2C\x01\x00\x00\xC8\x00\x00\x00\x08lot7:csv~\
          a name with a space:\x13\x00\x01\x00\x2C\x01\x00\x00\xC8\x00\x00\x00\x08lot7 csv~\
          a name of 65:\x4C\x00\x01\x00\x2C\x01\x00\x00\xC8\x00\x00\x00\x410123456789abcdef0123456789abcdef0123456789abcdef0123456789abcdefg~\
          ",
    )
}

fn read_sizes<W: Write>(out: &mut W) -> io::Result<()> {
    read_all(
        out,
        b"size 99999999:\x13\x00\x01\x00\xFF\xE0\xF5\x05\xC8\x00\x00\x00\x08lot7.csv~\
          size 100000000:\x13\x00\x01\x00\x00\xE1\xF5\x05\xC8\x00\x00\x00\x08lot7.csv~\
          size 4294967295:\x13\x00\x01\x00\xFF\xFF\xFF\xFF\xC8\x00\x00\x00\x08lot7.csv~\
          kept 4294967295:\x13\x00\x01\x00\x2C\x01\x00\x00\xFF\xFF\xFF\xFF\x08lot7.csv~\
          ",
    )
}

fn read_first<W: Write>(out: &mut W, b: &[u8], n: usize) -> io::Result<()> {
    put_number(out, b"read the first ", n)?;
    put(out, b":")?;
    print_read(out, fields::part(b, 0, n))
}

// Every beginning of b, from nothing to all but the last byte.
fn read_beginnings<W: Write>(out: &mut W, b: &[u8]) -> io::Result<()> {
    for n in 0..b.len() {
        read_first(out, b, n)?;
    }
    Ok(())
}

fn main(rt: HostRuntime) -> io::Result<()> {
    let out = &mut rt.stdout();
    write_stamps(out)?;
    write_within(out)?;
    write_outside(out)?;
    write_small(out)?;
    read_lengths(out)?;
    read_kinds(out)?;
    read_names(out)?;
    read_sizes(out)?;
    read_beginnings(
        out,
        b"\x13\x00\x01\x00\x2C\x01\x00\x00\xC8\x00\x00\x00\x08lot7.csv",
    )?;
    read_beginnings(
        out,
        b"\x17\x00\x02\x00\x2C\x01\x00\x00\xC8\x00\x00\x00\x00\x48\x21\x5A\x08lot7.csv",
    )
}
