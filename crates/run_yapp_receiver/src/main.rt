// Plays a script of calls at a YAPP receiver. Each line of the script is printed, and behind a call what came of it: the number that
// refused it, the state, how many bytes were taken, the packet that is sent, how many bytes were stored, and where reply buffer and area are
// not what they were before the call, byte by byte.
//
//     fresh ROOM ? C                   a receiver with no record, and an area of 320 bytes EE; `-` for `?` is no resume, `-` for `C` no checksums
//     resume RECORD ROOM ? C           a receiver with a record, and the area as it is
//     leave, bytes BYTES, timer, stop  a call, with a reply buffer of 259 bytes
//     258 CALL                         the same call with one of 258 bytes
//     record                           the record, written into 81 bytes
//     80 record                        the same into 80 bytes
//
// In a record and bytes `<0D>` is the byte 0D. Any other line is a title.
// A line has at most 1200 bytes, a script 16384: a longer one is not played, and a line says so.
#![tactic(auto)]

use calls::Refusal;
use script::printing::{
    put, put_answer, put_number, put_outcome, put_status, put_stored, put_text, put_touched,
};
use script::reading::{before, behind, decode, is_word, number, playable, word};
use std::io;
use std::io::{Read, Write};
use yapp::ReceiverState;
use yapp_receiver::{Receiver, ReceiverAnswer};

#[derive(Clone, Copy)]
struct Play {
    receiver: Receiver,
    area: [u8; 320],
}

// ---- Printing

fn put_state<W: Write>(out: &mut W, state: ReceiverState) -> io::Result<()> {
    match state {
        ReceiverState::R => put(out, b" R"),
        ReceiverState::RH { whole: true } => put(out, b" RH whole"),
        ReceiverState::RH { whole: false } => put(out, b" RH"),
        ReceiverState::RD => put(out, b" RD"),
        ReceiverState::CW { outcome } => put_outcome(out, b" CW ", outcome),
        ReceiverState::Ended { outcome } => put_outcome(out, b" ended ", outcome),
    }
}

fn put_end<W: Write>(out: &mut W, status: Result<(), Refusal>, m: Receiver) -> io::Result<()> {
    put(out, b" ->")?;
    put_status(out, status)?;
    put_state(out, m.state())?;
    if m.checked() {
        put(out, b" YappC")?;
    }
    Ok(())
}

fn show<W: Write>(out: &mut W, got: ReceiverAnswer, reply: &[u8]) -> io::Result<()> {
    put_end(out, got.status, got.receiver)?;
    put_number(out, b"; taken ", got.taken)?;
    put_text(out, b"; sent ", fields::part(reply, 0, got.sent))?;
    put_number(out, b"; stored ", got.stored)?;
    put_touched(out, b"; reply", reply)
}

// ---- Beginnings

fn resume_from(record: &[u8], line: &[u8]) -> Receiver {
    Receiver::resume(
        record,
        number(word(line, 2)),
        is_word(line, 3, b"?"),
        is_word(line, 4, b"C"),
    )
}

fn begin_resume(line: &[u8]) -> Receiver {
    let mut record = [0u8; 1200];
    let n = decode(word(line, 1), &mut record);
    resume_from(fields::part(&record, 0, n), line)
}

fn begin_fresh(line: &[u8]) -> Receiver {
    Receiver::fresh(
        number(word(line, 1)),
        is_word(line, 2, b"?"),
        is_word(line, 3, b"C"),
    )
}

fn begin<W: Write>(out: &mut W, receiver: Receiver, area: [u8; 320]) -> io::Result<Play> {
    put(out, b" ->")?;
    put_state(out, receiver.state())?;
    Ok(Play { receiver, area })
}

// ---- Calls

// Bytes as a word says them.
fn receive(m: Receiver, text: &[u8], area: &mut [u8], reply: &mut [u8]) -> ReceiverAnswer {
    let mut chunk = [0u8; 1200];
    let n = decode(text, &mut chunk);
    m.receive(fields::part(&chunk, 0, n), area, reply)
}

// What came of a call; nothing where the line asks for none.
fn call(m: Receiver, line: &[u8], area: &mut [u8], reply: &mut [u8]) -> Option<ReceiverAnswer> {
    match word(line, 0) {
        b"leave" => Some(m.transmit(area, reply)),
        b"bytes" => Some(receive(m, word(line, 1), area, reply)),
        b"timer" => Some(m.timeout(area, reply)),
        b"stop" => Some(m.cancel(area, reply)),
        _ => None,
    }
}

fn put_record<W: Write>(out: &mut W, m: Receiver, buf: &mut [u8]) -> io::Result<()> {
    let got = m.record(buf);
    put_answer(out, got, buf)
}

// Does what a line says. With no record the area is filled anew, with one it stays.
fn act<W: Write>(out: &mut W, p: Play, line: &[u8], reply: &mut [u8]) -> io::Result<Play> {
    let mut area = p.area;
    if let Some(got) = call(p.receiver, line, &mut area, reply) {
        show(out, got, reply)?;
        put_stored(out, &p.area, &area)?;
        return Ok(Play {
            receiver: got.receiver,
            area,
        });
    }
    match word(line, 0) {
        b"fresh" => return begin(out, begin_fresh(line), [0xEE; 320]),
        b"resume" => return begin(out, begin_resume(line), area),
        b"record" => put_record(out, p.receiver, &mut [0xEE; 81])?,
        b"80" => put_record(out, p.receiver, &mut [0xEE; 80])?,
        _ => {}
    }
    Ok(p)
}

// A line with a reply buffer of 258 bytes, and with one of 259.
fn turn<W: Write>(out: &mut W, p: Play, line: &[u8]) -> io::Result<Play> {
    if is_word(line, 0, b"258") {
        return act(out, p, behind(line, b' '), &mut [0xEE; 258]);
    }
    act(out, p, line, &mut [0xEE; 259])
}

// Alike in the four programs but for the end: a trait over it could promise nothing of what is printed.
fn run<W: Write>(out: &mut W, script: &[u8]) -> io::Result<()> {
    let mut p = Play {
        receiver: Receiver::fresh(320, false, false),
        area: [0xEE; 320],
    };
    for ended in script.split_inclusive(|c| *c == b'\n') {
        let line = before(ended, b'\n');
        put(out, line)?;
        p = turn(out, p, line)?;
        put(out, b"\n")?;
    }
    Ok(())
}

// One byte more than a script may have, so that a longer one shows.
fn main(rt: HostRuntime) -> io::Result<()> {
    let mut script = Vec::new(rt.alloc());
    rt.stdin().take(16_385).read_to_end(&mut script)?;
    let out = &mut rt.stdout();
    let played = playable(out, &script)?;
    run(out, played)
}
