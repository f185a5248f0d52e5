// Plays a script of calls at a #BIN# receiver. Each line of the script is printed, and behind a call what came of it: the number that
// refused it, the state, the frame that is sent, how many bytes were stored, text to show, and where reply buffer and area are not what they
// were before the call, byte by byte.
//
//     fresh ROOM ?                      a receiver with no record, and an area of 32 bytes EE; `-` for `?` is no resume
//     resume RECORD ROOM ?              a receiver with a record, and the area as it is
//     fresh ROOM ? augmented            the same two, with CRCs by the reading of request 2026-06; without that word they go by document 01's
//     resume RECORD ROOM ? augmented
//     leave, frame BYTES, timer, stop   a call, with a reply buffer of 259 bytes
//     258 CALL                          the same call with one of 258 bytes
//     record                            the record, written into 81 bytes
//     80 record                         the same into 80 bytes
//
// In a record and a frame `<0D>` is the byte 0D. Any other line is a title.
// A line has at most 1200 bytes, a script 16384: a longer one is not played, and a line says so.
#![tactic(auto)]

use bin::ReceiverState;
use bin_receiver::{Receiver, ReceiverAnswer};
use calls::Refusal;
use crc::Reading;
use script::printing::{
    put, put_answer, put_number, put_outcome, put_status, put_stored, put_text, put_touched,
};
use script::reading::{before, behind, decode, is_word, number, playable, word};
use std::io;
use std::io::{Read, Write};

#[derive(Clone, Copy)]
struct Play {
    receiver: Receiver,
    area: [u8; 32],
}

// ---- Printing

fn put_state<W: Write>(out: &mut W, state: ReceiverState) -> io::Result<()> {
    match state {
        ReceiverState::Waiting => put(out, b" Waiting"),
        ReceiverState::Basic { size, kept } => {
            put_number(out, b" Basic ", size as usize)?;
            put_number(out, b" ", kept as usize)
        }
        ReceiverState::Extended { crc } => put_number(out, b" Extended ", usize::from(crc)),
        ReceiverState::Ended { outcome } => put_outcome(out, b" ended ", outcome),
    }
}

fn show<W: Write>(out: &mut W, got: ReceiverAnswer, frame: &[u8], reply: &[u8]) -> io::Result<()> {
    put(out, b" ->")?;
    put_status(out, got.status)?;
    put_state(out, got.receiver.state())?;
    put_text(out, b"; sent ", fields::part(reply, 0, got.sent))?;
    put_number(out, b"; stored ", got.stored)?;
    put_text(out, b"; shown ", fields::bytes_at(frame, got.shown))?;
    put_touched(out, b"; reply", reply)
}

// ---- Beginnings

// The reading that the word at this index says. In both programs of #BIN#, which share no crate that knows of readings.
fn reading_at(line: &[u8], i: usize) -> Reading {
    match word(line, i) {
        b"augmented" => Reading::Augmented,
        _ => Reading::Bare,
    }
}

fn resume_from(record: &[u8], line: &[u8]) -> Receiver {
    Receiver::resume(
        record,
        number(word(line, 2)),
        is_word(line, 3, b"?"),
        reading_at(line, 4),
    )
}

fn begin_resume(line: &[u8]) -> Receiver {
    let mut record = [0u8; 1200];
    let n = decode(word(line, 1), &mut record);
    resume_from(fields::part(&record, 0, n), line)
}

fn begin_fresh(line: &[u8]) -> Receiver {
    Receiver::fresh(
        number(word(line, 1)),
        is_word(line, 2, b"?"),
        reading_at(line, 3),
    )
}

fn begin<W: Write>(out: &mut W, receiver: Receiver, area: [u8; 32]) -> io::Result<Play> {
    put(out, b" ->")?;
    put_state(out, receiver.state())?;
    Ok(Play { receiver, area })
}

// ---- Calls

// The calls of a receiver, as a script names them.
#[derive(Clone, Copy)]
enum CallName {
    Leave,
    Frame,
    Timer,
    Stop,
}

// The call that a line asks for, if any.
fn call_of(line: &[u8]) -> Option<CallName> {
    match word(line, 0) {
        b"leave" => Some(CallName::Leave),
        b"frame" => Some(CallName::Frame),
        b"timer" => Some(CallName::Timer),
        b"stop" => Some(CallName::Stop),
        _ => None,
    }
}

// What came of a call.
fn call(
    m: Receiver,
    which: CallName,
    frame: &[u8],
    area: &mut [u8],
    reply: &mut [u8],
) -> ReceiverAnswer {
    match which {
        CallName::Leave => m.transmit(area, reply),
        CallName::Frame => m.receive(frame, area, reply),
        CallName::Timer => m.timeout(area, reply),
        CallName::Stop => m.cancel(area, reply),
    }
}

// Makes a call with the frame that a word says, and prints what came of it. Not inlined, since a function clears its locals as it begins, and a
// line that is no call has no use for these.
#[inline(never)]
fn make_call<W: Write>(
    out: &mut W,
    p: Play,
    which: CallName,
    text: &[u8],
    reply: &mut [u8],
) -> io::Result<Play> {
    let mut space = [0u8; 1200];
    let n = decode(text, &mut space);
    let frame = fields::part(&space, 0, n);
    let mut area = p.area;
    let got = call(p.receiver, which, frame, &mut area, reply);
    show(out, got, frame, reply)?;
    put_stored(out, &p.area, &area)?;
    Ok(Play {
        receiver: got.receiver,
        area,
    })
}

fn put_record<W: Write>(out: &mut W, m: Receiver, buf: &mut [u8]) -> io::Result<()> {
    let got = m.record(buf);
    put_answer(out, got, buf)
}

// Does what a line says. With no record the area is filled anew, with one it stays.
fn act<W: Write>(out: &mut W, p: Play, line: &[u8], reply: &mut [u8]) -> io::Result<Play> {
    if let Some(which) = call_of(line) {
        return make_call(out, p, which, word(line, 1), reply);
    }
    match word(line, 0) {
        b"fresh" => return begin(out, begin_fresh(line), [0xEE; 32]),
        b"resume" => return begin(out, begin_resume(line), p.area),
        b"record" => put_record(out, p.receiver, &mut [0xEE; 81])?,
        b"80" => put_record(out, p.receiver, &mut [0xEE; 80])?,
        _ => {}
    }
    Ok(p)
}

// A line with a reply buffer of 258 bytes, and with one of 259.
fn turn<W: Write>(out: &mut W, p: Play, line: &[u8]) -> io::Result<Play> {
    if is_word(line, 0, b"258") {
        return act(out, p, behind(line, b' '), &mut [0xEE; 258]);
    }
    act(out, p, line, &mut [0xEE; 259])
}

// Alike in the four programs but for the end: a trait over it could promise nothing of what is printed.
fn run<W: Write>(out: &mut W, script: &[u8]) -> io::Result<()> {
    let mut p = Play {
        receiver: Receiver::fresh(32, false, Reading::Bare),
        area: [0xEE; 32],
    };
    for ended in script.split_inclusive(|c| *c == b'\n') {
        let line = before(ended, b'\n');
        put(out, line)?;
        p = turn(out, p, line)?;
        put(out, b"\n")?;
    }
    Ok(())
}

// One byte more than a script may have, so that a longer one shows.
fn main(rt: HostRuntime) -> io::Result<()> {
    let mut script = Vec::new(rt.alloc());
    rt.stdin().take(16_385).read_to_end(&mut script)?;
    let out = &mut rt.stdout();
    let played = playable(out, &script)?;
    run(out, played)
}
