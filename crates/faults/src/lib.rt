// Where a header, a line or an OK is wrong: what is wrong and at which byte. (Change request 2026-02.)
#![tactic(auto)]

ghost use Rattle.std.specs.Prelude.{◌≡◌, drop};
ghost use Rattle.faults.specs.Faults.{name_part, size_part, crc_part, only as only_of, step_of, end_of, check_from, fault_in, header_fault, line_fault, ok_fault};

use fields::{Fault, Flaw, Limits, names};

// How far the reading is: how many bytes of a part were read, and of a CRC the value of its digits; or which byte is awaited.
#[derive(Clone, Copy)]
pub enum Stage {
    HeaderName { count: usize },
    HeaderSize { count: usize },
    HeaderOption,
    LineSize { count: usize },
    // The `|` behind the size.
    LineBar,
    LineCrc { count: usize, value: usize },
    // The `$` behind the CRC.
    LineDollar,
    LineStamp { count: usize },
    // The `#` behind the `?`.
    LineMark,
    LineName { count: usize },
    OkName { count: usize },
    // The `$` behind the name.
    OkDollar,
    OkKept { count: usize },
    OkCrc { count: usize, value: usize },
    // Nothing more.
    End,
}

// The parts of a form: `count` bytes of one were read, and c is next. Some, how many there are with it, where it belongs there; None where the part
// stands whole before it.

// A name of 1 to 64 bytes, closed by the byte close.
#[tactic(auto, unfolding(crate::specs::Faults::name_part))]
fn name_part(close: u8, count: usize, c: u8) -> Result<Option<usize>, Flaw>
    ensures { result ≡ name_part close count c }
{
    if c == close {
        if count == 0 {
            Err(Flaw::NameLength)
        } else {
            Ok(None)
        }
    } else if Limits::NAME <= count {
        Err(Flaw::NameLength)
    } else if names::is_name_byte(c) {
        Ok(Some(count + 1))
    } else {
        Err(Flaw::NameByte)
    }
}

// 1 to 8 digits.
#[tactic(auto, unfolding(crate::specs::Faults::size_part))]
fn size_part(count: usize, c: u8) -> Result<Option<usize>, Flaw>
    ensures { result ≡ size_part count c }
{
    if c.is_ascii_digit() {
        if 8 <= count {
            Err(Flaw::ManyDigits)
        } else {
            Ok(Some(count + 1))
        }
    } else if count == 0 {
        Err(Flaw::NoDigits)
    } else {
        Ok(None)
    }
}

// 1 to 5 digits, at most 65,535: how many there are with c, and their value; `value` is that of the digits before c, where there are any.
// A pair and no struct: the two are at once the fields of the next stage.
#[tactic(auto, unfolding(crate::specs::Faults::crc_part))]
fn crc_part(count: usize, value: usize, c: u8) -> Result<Option<(usize, usize)>, Flaw>
    ensures { result ≡ crc_part count value c }
{
    if c.is_ascii_digit() {
        let before = if count == 0 { 0 } else { value };
        // Saturating: `value` may be any number, and what is too large stays too large.
        let value = before
            .saturating_mul(10)
            .saturating_add(usize::from(c - b'0'));
        if count < 5 && value <= 65535 {
            Ok(Some((count + 1, value)))
        } else {
            Err(Flaw::Other)
        }
    } else if count == 0 {
        Err(Flaw::Other)
    } else {
        Ok(None)
    }
}

// The byte x and no other.
fn only(x: u8, c: u8, stage: Stage, flaw: Flaw) -> Result<Stage, Flaw>
    ensures { result ≡ only_of x c stage flaw }
{
    if c == x { Ok(stage) } else { Err(flaw) }
}

// What the byte c leads to: one table for the three forms, stage by stage. In an OK every fault is `Other`.
#[tactic(auto, using(crate::proofs::Values::ascii_hexdigit), unfolding(crate::specs::Faults::step_of))]
fn step(stage: Stage, c: u8) -> Result<Stage, Flaw>
    ensures { result ≡ step_of stage c }
{
    match stage {
        Stage::HeaderName { count } => match name_part(b'\0', count, c)? {
            Some(count) => Ok(Stage::HeaderName { count }),
            None => Ok(Stage::HeaderSize { count: 0 }),
        },
        Stage::HeaderSize { count } => match size_part(count, c)? {
            Some(count) => Ok(Stage::HeaderSize { count }),
            None => only(b'\0', c, Stage::HeaderOption, Flaw::SizeOpen),
        },
        Stage::HeaderOption => Ok(Stage::HeaderOption),
        Stage::LineSize { count } => match size_part(count, c)? {
            Some(count) => Ok(Stage::LineSize { count }),
            None if c == b'\r' => Ok(Stage::End),
            None => only(b'#', c, Stage::LineBar, Flaw::SizeOpen),
        },
        Stage::LineBar => only(
            b'|',
            c,
            Stage::LineCrc { count: 0, value: 0 },
            Flaw::SizeOpen,
        ),
        Stage::LineCrc { count, value } => match crc_part(count, value, c)? {
            Some((count, value)) => Ok(Stage::LineCrc { count, value }),
            None => only(b'#', c, Stage::LineDollar, Flaw::Other),
        },
        Stage::LineDollar => only(b'$', c, Stage::LineStamp { count: 0 }, Flaw::Other),
        Stage::LineStamp { count } if count < 8 => {
            if c.is_ascii_hexdigit() {
                Ok(Stage::LineStamp { count: count + 1 })
            } else {
                Err(Flaw::Other)
            }
        }
        Stage::LineStamp { .. } if c == b'?' => Ok(Stage::LineMark),
        Stage::LineStamp { .. } | Stage::LineMark => only(
            b'#',
            c,
            Stage::LineName { count: 0 },
            Flaw::Other,
        ),
        Stage::LineName { count } => match name_part(b'\r', count, c)? {
            Some(count) => Ok(Stage::LineName { count }),
            None => Ok(Stage::End),
        },
        Stage::OkName { .. } if c == b'\r' => Ok(Stage::End),
        Stage::OkName { count } => match name_part(b'#', count, c).or(Err(Flaw::Other))? {
            Some(count) => Ok(Stage::OkName { count }),
            None => Ok(Stage::OkDollar),
        },
        Stage::OkDollar => only(b'$', c, Stage::OkKept { count: 0 }, Flaw::Other),
        Stage::OkKept { count } => match size_part(count, c).or(Err(Flaw::Other))? {
            Some(count) => Ok(Stage::OkKept { count }),
            None => only(b'#', c, Stage::OkCrc { count: 0, value: 0 }, Flaw::Other),
        },
        Stage::OkCrc { count, value } => match crc_part(count, value, c)? {
            Some((count, value)) => Ok(Stage::OkCrc { count, value }),
            None => only(b'\r', c, Stage::End, Flaw::Other),
        },
        Stage::End => Err(Flaw::Other),
    }
}

// What is wrong where the bytes end.
#[tactic(auto, unfolding(crate::specs::Faults::end_of))]
fn end_of(stage: Stage) -> Option<Flaw>
    ensures { result ≡ end_of stage }
{
    match stage {
        Stage::HeaderOption | Stage::End => None,
        Stage::HeaderName { .. } | Stage::LineName { .. } => Some(Flaw::NameOpen),
        Stage::HeaderSize { count: 0 } | Stage::LineSize { count: 0 } => Some(Flaw::NoDigits),
        Stage::HeaderSize { .. } | Stage::LineSize { .. } | Stage::LineBar => Some(Flaw::SizeOpen),
        _ => Some(Flaw::Other),
    }
}

// The bytes of s from the offset from on.
fn check_from(stage: Stage, from: usize, s: &[u8]) -> Option<Fault>
    ensures { result ≡ check_from stage from (drop from s.now) }
{
    let mut at = stage;
    for (offset, &c) in s.iter().enumerate().skip(from) {
        match step(at, c) {
            Ok(next) => at = next,
            Err(flaw) => return Some(Fault { flaw, offset }),
        }
    }
    // Where they simply end: at their length, or at `from` where s is shorter.
    let flaw = end_of(at)?;
    Some(Fault {
        flaw,
        offset: from.max(s.len()),
    })
}

// The fault that was found; where there is none, `Other` at 0.
fn fault_in(check: Option<Fault>) -> Fault
    ensures { result ≡ fault_in check }
{
    check.unwrap_or(Fault {
        flaw: Flaw::Other,
        offset: 0,
    })
}

// What is wrong with the data of a header that is malformed.
#[tactic(auto, unfolding(crate::specs::Faults::check_header))]
pub fn header_fault(d: &[u8]) -> Fault
    ensures { result ≡ header_fault d.now }
{
    fault_in(check_from(Stage::HeaderName { count: 0 }, 0, d))
}

// What is wrong with a frame that starts `#BIN#` and is no line.
#[tactic(auto, unfolding(crate::specs::Faults::check_line))]
pub fn line_fault(b: &[u8]) -> Fault
    ensures { result ≡ line_fault b.now }
{
    fault_in(check_from(Stage::LineSize { count: 0 }, 5, b))
}

// What is wrong with a frame that starts `#OK#` and is no OK.
#[tactic(auto, unfolding(crate::specs::Faults::check_ok))]
pub fn ok_fault(b: &[u8]) -> Fault
    ensures { result ≡ ok_fault b.now }
{
    fault_in(check_from(Stage::OkName { count: 0 }, 4, b))
}
