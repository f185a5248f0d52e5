// What the programs print.
ghost use Rattle.std.specs.Prelude.{◌≡◌, [], length, OnOk, Some, codes};
ghost use Rattle.std.specs.Io.KnownBytes.{Appends};
ghost use Rattle.std.specs.List.{flat_map};
ghost use Rattle.fields.specs.Lists.{part};
ghost use Rattle.numbers.specs.Writing.{hex};
ghost use Rattle.script.specs.Printing.{numbered, shown, text, pair, IsChanged, changed_from, changed_to, change_text, Stored, Touched, outcome_text, status_text, record_text};

use calls::{Outcome, Refusal, outcomes};
use fields::WriteError;
use numbers::hex_writer;
use std::io;
use std::io::Write;

pub fn put<W: Write>(out: &mut W, s: &[u8]) -> io::Result<()>
    ensures { OnOk result (Appends (W.contents out.old) (W.contents out.new) s.now) }
{
    out.write_all(s)
}

pub fn put_number<W: Write>(out: &mut W, label: &[u8], n: usize) -> io::Result<()>
    ensures { OnOk result (Appends (W.contents out.old) (W.contents out.new) (numbered label.now n)) }
{
    put(out, label)?;
    write!(out, "{n}")
}

// Two hex digits. Not by `{c:02X}`, which writes a zero and a digit in two pieces.
fn hex_pair(c: u8) -> [u8; 2]
    ensures { result ≡ hex 2 c }
{
    let mut digits = [0; 2];
    hex_writer::fill_hex(&mut digits, u32::from(c));
    digits
}

// A printable byte as it is, any other as `<0D>`.
fn put_byte<W: Write>(out: &mut W, c: u8) -> io::Result<()>
    ensures { OnOk result (Appends (W.contents out.old) (W.contents out.new) (shown c)) }
{
    match c {
        32..=126 => put(out, &[c]),
        _ => {
            put(out, b"<")?;
            put(out, &hex_pair(c))?;
            put(out, b">")
        }
    }
}

pub fn put_bytes<W: Write>(out: &mut W, s: &[u8]) -> io::Result<()>
    ensures { OnOk result (Appends (W.contents out.old) (W.contents out.new) (flat_map shown s.now)) }
{
    for c in s {
        put_byte(out, *c)?;
    }
    Ok(())
}

// Nothing where s is empty.
pub fn put_text<W: Write>(out: &mut W, label: &[u8], s: &[u8]) -> io::Result<()>
    ensures { OnOk result (Appends (W.contents out.old) (W.contents out.new) (text label.now s.now)) }
{
    if s.is_empty() {
        return Ok(());
    }
    put(out, label)?;
    put_bytes(out, s)
}

fn put_pair<W: Write>(out: &mut W, c: u8) -> io::Result<()>
    ensures { OnOk result (Appends (W.contents out.old) (W.contents out.new) (pair c)) }
{
    put(out, b" ")?;
    put(out, &hex_pair(c))
}

// Each byte in hex, with a space before it.
// A loop of its own: one function for this and put_bytes, with the step as a closure, would be no shorter.
pub fn put_hex<W: Write>(out: &mut W, s: &[u8]) -> io::Result<()>
    ensures { OnOk result (Appends (W.contents out.old) (W.contents out.new) (flat_map pair s.now)) }
{
    for c in s {
        put_pair(out, *c)?;
    }
    Ok(())
}

// Where the first byte stands that differs, and the index behind the last.
#[derive(Clone, Copy)]
struct Change {
    from: usize,
    to: usize,
}

// What of a is otherwise in b, if anything is.
fn change_of(a: &[u8], b: &[u8]) -> Option<Change>
    ensures { IsChanged (length a.now) a.now b.now result }
{
    let mut changed: Option<Change> = None;
    for (i, x) in a.iter().enumerate() {
        if *x != fields::byte_at(b, i) {
            let from = changed.map_or(i, |c| c.from);
            changed = Some(Change { from, to: i + 1 });
        }
    }
    changed
}

fn put_change<W: Write>(out: &mut W, label: &[u8], changed: Option<Change>) -> io::Result<()>
    ensures { OnOk result (Appends (W.contents out.old) (W.contents out.new) (change_text label.now changed)) }
{
    put(out, label)?;
    match changed {
        None => put(out, b" untouched"),
        Some(Change { from, to }) => write!(out, " {from}..{to}"),
    }
}

// The bytes of s that are otherwise.
fn bytes_of(changed: Option<Change>, s: &[u8]) -> &[u8]
    ensures { result.now ≡ part (changed_from changed) (changed_to changed) (part 0 (changed_to changed) s.now) }
{
    match changed {
        None => &[],
        Some(Change { from, to }) => fields::part(fields::part(s, 0, to), from, to),
    }
}

// Where an area is not what it was, and the bytes that stand there now.
pub fn put_stored<W: Write>(out: &mut W, before: &[u8], after: &[u8]) -> io::Result<()>
    ensures { OnOk result (Stored before.now after.now (W.contents out.old) (W.contents out.new)) }
{
    let changed = change_of(before, after);
    put_change(out, b"; area", changed)?;
    put_text(out, b" ", bytes_of(changed, after))
}

// Where a buffer that was lent as up to 259 bytes EE is no longer so.
pub fn put_touched<W: Write>(out: &mut W, label: &[u8], buf: &[u8]) -> io::Result<()>
    ensures { OnOk result (Touched [] label.now buf.now (W.contents out.old) (W.contents out.new)) }
{
    let lent = [0xEE; 259];
    let changed = change_of(fields::part(&lent, 0, buf.len()), buf);
    put_change(out, label, changed)
}

// An outcome by its number, and its place where it has one.
pub fn put_outcome<W: Write>(out: &mut W, label: &[u8], outcome: Outcome) -> io::Result<()>
    ensures { OnOk result (Appends (W.contents out.old) (W.contents out.new) (outcome_text label.now outcome)) }
{
    put_number(out, label, outcomes::outcome_number(outcome) as usize)?;
    if let Some(place) = outcomes::outcome_offset(outcome) {
        put_number(out, b" at ", place)?;
    }
    Ok(())
}

// Nothing where the call was taken.
#[tactic(auto, unfolding(calls::specs::Numbers::status_number))]
pub fn put_status<W: Write>(out: &mut W, status: Result<(), Refusal>) -> io::Result<()>
    ensures { OnOk result (Appends (W.contents out.old) (W.contents out.new) (status_text status)) }
{
    match status {
        Ok(()) => Ok(()),
        Err(_) => put_number(out, b" refused ", outcomes::status_number(status) as usize),
    }
}

// What a receiver answers that is asked for its record: what it wrote into buf, or 20 or 22; and where buf is no longer EE.
pub fn put_answer<W: Write>(
    out: &mut W,
    got: Option<Result<usize, WriteError>>,
    buf: &[u8],
) -> io::Result<()>
    ensures { OnOk result (Touched (record_text got buf.now) (codes "; buffer") buf.now (W.contents out.old) (W.contents out.new)) }
{
    put_record(out, got, buf)?;
    put_touched(out, b"; buffer", buf)
}

#[tactic(auto, unfolding(calls::specs::Recording::record_number))]
fn put_record<W: Write>(
    out: &mut W,
    got: Option<Result<usize, WriteError>>,
    buf: &[u8],
) -> io::Result<()>
    ensures { OnOk result (Appends (W.contents out.old) (W.contents out.new) (record_text got buf.now)) }
{
    match got {
        None => put(out, b" -> none"),
        Some(written) => put_written(out, written, buf),
    }
}

#[tactic(auto, unfolding(calls::specs::Recording::record_number, calls::specs::Count::count_of, fields::specs::Buffer::written_number))]
fn put_written<W: Write>(
    out: &mut W,
    written: Result<usize, WriteError>,
    buf: &[u8],
) -> io::Result<()>
    ensures { OnOk result (Appends (W.contents out.old) (W.contents out.new) (record_text (Some written) buf.now)) }
{
    match written {
        Ok(count) => put_text(out, b" -> ", fields::part(buf, 0, count)),
        Err(_) => put_number(out, b" -> ", outcomes::written_number(written) as usize),
    }
}
