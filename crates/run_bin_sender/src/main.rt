// Plays a script of calls at a #BIN# sender. Each line of the script is printed, and behind a call what came of it: the number that refused
// it, the state, the frame that is sent, and where the reply buffer is not what it was before the call, byte by byte.
//
//     extended NAME SIZE BLOCK ? FILE   a sender of an extended transfer; the stamp is 5A214800; `-` for `?` is no resume; its CRCs go by
//                                       document 01's reading, and by that of request 2026-06 where `augmented` stands behind FILE
//     basic SIZE BLOCK FILE             a sender of a basic transfer
//     leave, frame BYTES, timer, stop   a call, with a reply buffer of 259 bytes
//     258 CALL                          the same call with one of 258 bytes
//
// In a name, a file and a frame `<0D>` is the byte 0D. Any other line is a title.
// A line has at most 1200 bytes, a script 16384: a longer one is not played, and a line says so.
#![tactic(auto)]

use bin::SenderState;
use bin_sender::{Sender, SenderAnswer};
use crc::Reading;
use script::printing::{put, put_number, put_outcome, put_status, put_text, put_touched};
use script::reading::{before, behind, decode, is_word, number, playable, word};
use std::io;
use std::io::{Read, Write};

// ---- Printing

fn put_state<W: Write>(out: &mut W, state: SenderState) -> io::Result<()> {
    match state {
        SenderState::Start => put(out, b" Start"),
        SenderState::Wait => put(out, b" Wait"),
        SenderState::Send { at } => put_number(out, b" Send ", at as usize),
        SenderState::Ended { outcome } => put_outcome(out, b" ended ", outcome),
    }
}

fn show<W: Write>(out: &mut W, got: SenderAnswer, reply: &[u8]) -> io::Result<()> {
    put(out, b" ->")?;
    put_status(out, got.status)?;
    put_state(out, got.sender.state())?;
    put_text(out, b"; sent ", fields::part(reply, 0, got.sent))?;
    put_touched(out, b"; reply", reply)
}

// ---- Beginnings

// The reading that the word at this index says. In both programs of #BIN#, which share no crate that knows of readings.
fn reading_at(line: &[u8], i: usize) -> Reading {
    match word(line, i) {
        b"augmented" => Reading::Augmented,
        _ => Reading::Bare,
    }
}

fn begin_named(name: &[u8], line: &[u8]) -> Sender {
    Sender::begin(
        name,
        number(word(line, 2)),
        number(word(line, 3)),
        0x5A21_4800,
        is_word(line, 4, b"?"),
        reading_at(line, 6),
    )
}

fn begin_extended(line: &[u8]) -> Sender {
    let mut name = [0u8; 1200];
    let n = decode(word(line, 1), &mut name);
    begin_named(fields::part(&name, 0, n), line)
}

// The sender that a line begins; nothing where it begins none.
fn begin(line: &[u8]) -> Option<Sender> {
    match word(line, 0) {
        b"extended" => Some(begin_extended(line)),
        b"basic" => Some(Sender::begin_basic(number(word(line, 1)), number(word(line, 2)))),
        _ => None,
    }
}

// ---- Calls

// A frame as a word says it.
fn receive(m: Sender, text: &[u8], file: &[u8], reply: &mut [u8]) -> SenderAnswer {
    let mut frame = [0u8; 1200];
    let n = decode(text, &mut frame);
    m.receive(fields::part(&frame, 0, n), file, reply)
}

// What came of a call; nothing where the line asks for none.
fn call(m: Sender, line: &[u8], file: &[u8], reply: &mut [u8]) -> Option<SenderAnswer> {
    match word(line, 0) {
        b"leave" => Some(m.transmit(file, reply)),
        b"frame" => Some(receive(m, word(line, 1), file, reply)),
        b"timer" => Some(m.timeout(file, reply)),
        b"stop" => Some(m.cancel(file, reply)),
        _ => None,
    }
}

// Lays the file of a sender that begins into file, and returns its length.
fn load(line: &[u8], size: usize, file: &mut [u8]) -> usize {
    match word(line, 0) {
        b"extended" => decode(word(line, 5), file),
        b"basic" => decode(word(line, 3), file),
        _ => size,
    }
}

// Does what a line says.
fn act<W: Write>(
    out: &mut W,
    m: Sender,
    line: &[u8],
    file: &[u8],
    reply: &mut [u8],
) -> io::Result<Sender> {
    if let Some(got) = call(m, line, file, reply) {
        show(out, got, reply)?;
        return Ok(got.sender);
    }
    if let Some(begun) = begin(line) {
        put(out, b" ->")?;
        put_state(out, begun.state())?;
        return Ok(begun);
    }
    Ok(m)
}

// A line with a reply buffer of 258 bytes, and with one of 259.
fn turn<W: Write>(out: &mut W, m: Sender, line: &[u8], file: &[u8]) -> io::Result<Sender> {
    if is_word(line, 0, b"258") {
        return act(out, m, behind(line, b' '), file, &mut [0xEE; 258]);
    }
    act(out, m, line, file, &mut [0xEE; 259])
}

// Alike in the four programs but for the end: a trait over it could promise nothing of what is printed.
fn run<W: Write>(out: &mut W, script: &[u8]) -> io::Result<()> {
    let mut file = [0u8; 1200];
    let mut size = 0;
    let mut m = Sender::begin_basic(0, 1);
    for ended in script.split_inclusive(|c| *c == b'\n') {
        let line = before(ended, b'\n');
        put(out, line)?;
        size = load(line, size, &mut file);
        m = turn(out, m, line, fields::part(&file, 0, size))?;
        put(out, b"\n")?;
    }
    Ok(())
}

// One byte more than a script may have, so that a longer one shows.
fn main(rt: HostRuntime) -> io::Result<()> {
    let mut script = Vec::new(rt.alloc());
    rt.stdin().take(16_385).read_to_end(&mut script)?;
    let out = &mut rt.stdout();
    let played = playable(out, &script)?;
    run(out, played)
}
