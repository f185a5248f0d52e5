// Plays a script of calls at a YAPP sender. Each line of the script is printed, and behind a call what came of it: the number that refused
// it, the state, how many bytes were taken, the packet that is sent, text to show, and where the reply buffer is not what it was before the
// call, byte by byte.
//
//     begin NAME SIZE BLOCK STAMP ? FILE  a sender; `-` for a stamp is none, `-` for `?` is no resume
//     leave, bytes BYTES, timer, stop     a call, with a reply buffer of 259 bytes
//     258 CALL                            the same call with one of 258 bytes
//
// In a name, a file and bytes `<0D>` is the byte 0D. Any other line is a title. S is followed by how many timeouts came since SI was sent, `-`
// where it was not.
// A line has at most 1200 bytes, a script 16384: a longer one is not played, and a line says so.
#![tactic(auto)]

use calls::Refusal;
use numbers::digit_reader;
use script::printing::{put, put_number, put_outcome, put_status, put_text, put_touched};
use script::reading::{before, behind, decode, is_word, number, playable, word};
use std::io;
use std::io::{Read, Write};
use yapp::SenderState;
use yapp_sender::{Sender, SenderAnswer};

// ---- Printing

fn put_state<W: Write>(out: &mut W, state: SenderState) -> io::Result<()> {
    match state {
        SenderState::S { begun: false, .. } => put(out, b" S -"),
        SenderState::S { timeouts, .. } => put_number(out, b" S ", usize::from(timeouts)),
        SenderState::SH => put(out, b" SH"),
        SenderState::SD { at } => put_number(out, b" SD ", at as usize),
        SenderState::SE => put(out, b" SE"),
        SenderState::ST => put(out, b" ST"),
        SenderState::CW { outcome } => put_outcome(out, b" CW ", outcome),
        SenderState::Ended { outcome } => put_outcome(out, b" ended ", outcome),
    }
}

fn put_end<W: Write>(out: &mut W, status: Result<(), Refusal>, m: Sender) -> io::Result<()> {
    put(out, b" ->")?;
    put_status(out, status)?;
    put_state(out, m.state())?;
    if m.checked() {
        put(out, b" YappC")?;
    }
    Ok(())
}

fn show<W: Write>(out: &mut W, got: SenderAnswer, reply: &[u8]) -> io::Result<()> {
    put_end(out, got.status, got.sender)?;
    put_number(out, b"; taken ", got.taken)?;
    put_text(out, b"; sent ", fields::part(reply, 0, got.sent))?;
    put_text(
        out,
        b"; shown ",
        fields::bytes_at(&got.sender.pending(), got.shown),
    )?;
    put_touched(out, b"; reply", reply)
}

// ---- Beginnings

fn begin_named(name: &[u8], line: &[u8]) -> Sender {
    Sender::begin(
        name,
        number(word(line, 2)),
        number(word(line, 3)),
        digit_reader::read_hex(word(line, 4)),
        is_word(line, 5, b"?"),
    )
}

fn begin(line: &[u8]) -> Sender {
    let mut name = [0u8; 1200];
    let n = decode(word(line, 1), &mut name);
    begin_named(fields::part(&name, 0, n), line)
}

// ---- Calls

// Bytes as a word says them.
fn receive(m: Sender, text: &[u8], file: &[u8], reply: &mut [u8]) -> SenderAnswer {
    let mut chunk = [0u8; 1200];
    let n = decode(text, &mut chunk);
    m.receive(fields::part(&chunk, 0, n), file, reply)
}

// The calls of a sender, as a script names them.
#[derive(Clone, Copy)]
enum CallName {
    Leave,
    Bytes,
    Timer,
    Stop,
}

// The call that a line asks for, if any.
fn call_of(line: &[u8]) -> Option<CallName> {
    match word(line, 0) {
        b"leave" => Some(CallName::Leave),
        b"bytes" => Some(CallName::Bytes),
        b"timer" => Some(CallName::Timer),
        b"stop" => Some(CallName::Stop),
        _ => None,
    }
}

// What came of a call.
fn call(m: Sender, which: CallName, text: &[u8], file: &[u8], reply: &mut [u8]) -> SenderAnswer {
    match which {
        CallName::Leave => m.transmit(file, reply),
        CallName::Bytes => receive(m, text, file, reply),
        CallName::Timer => m.timeout(file, reply),
        CallName::Stop => m.cancel(file, reply),
    }
}

// Makes a call, and prints what came of it. Not inlined, since a function clears its locals as it begins, and a line that is no call has no use
// for these.
#[inline(never)]
fn make_call<W: Write>(
    out: &mut W,
    m: Sender,
    which: CallName,
    text: &[u8],
    file: &[u8],
    reply: &mut [u8],
) -> io::Result<Sender> {
    let got = call(m, which, text, file, reply);
    show(out, got, reply)?;
    Ok(got.sender)
}

// Whether a line begins a sender.
fn is_begin(line: &[u8]) -> bool {
    is_word(line, 0, b"begin")
}

// Lays the file of a sender that begins into file, and returns its length.
fn load(line: &[u8], size: usize, file: &mut [u8]) -> usize {
    if is_begin(line) {
        return decode(word(line, 6), file);
    }
    size
}

// Does what a line says.
fn act<W: Write>(
    out: &mut W,
    m: Sender,
    line: &[u8],
    file: &[u8],
    reply: &mut [u8],
) -> io::Result<Sender> {
    if let Some(which) = call_of(line) {
        return make_call(out, m, which, word(line, 1), file, reply);
    }
    if is_begin(line) {
        let begun = begin(line);
        put(out, b" ->")?;
        put_state(out, begun.state())?;
        return Ok(begun);
    }
    Ok(m)
}

// A line with a reply buffer of 258 bytes, and with one of 259.
fn turn<W: Write>(out: &mut W, m: Sender, line: &[u8], file: &[u8]) -> io::Result<Sender> {
    if is_word(line, 0, b"258") {
        return act(out, m, behind(line, b' '), file, &mut [0xEE; 258]);
    }
    act(out, m, line, file, &mut [0xEE; 259])
}

// Alike in the four programs but for the end: a trait over it could promise nothing of what is printed.
fn run<W: Write>(out: &mut W, script: &[u8]) -> io::Result<()> {
    let mut file = [0u8; 1200];
    let mut size = 0;
    let mut m = Sender::begin(b"", 0, 1, None, false);
    for ended in script.split_inclusive(|c| *c == b'\n') {
        let line = before(ended, b'\n');
        put(out, line)?;
        size = load(line, size, &mut file);
        m = turn(out, m, line, fields::part(&file, 0, size))?;
        put(out, b"\n")?;
    }
    Ok(())
}

// One byte more than a script may have, so that a longer one shows.
fn main(rt: HostRuntime) -> io::Result<()> {
    let mut script = Vec::new(rt.alloc());
    rt.stdin().take(16_385).read_to_end(&mut script)?;
    let out = &mut rt.stdout();
    let played = playable(out, &script)?;
    run(out, played)
}
