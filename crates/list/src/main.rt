// Lists a YAPP capture: a line for each packet, in memory that does not grow with the capture.
//
//     list [FILE]
//
// Without a file the capture comes on standard input. What fails is said on standard error and ends the work, so a listing that is not whole
// has no line `end`. A read or write that fails ends it with 1.
#![tactic(auto)]

use fields::buffers;
use listing::Lister;
use std::fs::File;
use std::io::{Read, Write};
use std::process::ExitCode;
use std::{env, io};

// Hands the chunk over step by step, and puts the line of each step behind the one before: the lister behind it, and the lines. A step takes
// at least one byte and its line has at most 32, so there is room for all of them.
fn list_chunk<'a>(lister: Lister, chunk: &[u8], out: &'a mut [u8]) -> (Lister, &'a [u8]) {
    let mut l = lister;
    let mut line = [0; 32];
    let mut rest = chunk;
    let mut count = 0;
    while !rest.is_empty() {
        let got = l.step(rest, &mut line);
        l = got.lister;
        rest = &rest[got.taken..];
        count = buffers::append_bytes(out, count, &line[..got.written]);
    }
    (l, &out[..count])
}

// Which end of the program failed, and why.
#[derive(Clone, Copy)]
enum Failure {
    Read(io::Error),
    Write(io::Error),
}

fn write<W: Write>(out: &mut W, bytes: &[u8]) -> Result<(), Failure> {
    out.write_all(bytes).map_err(Failure::Write)
}

// Writes the last lines.
fn write_end<W: Write>(out: &mut W, lister: Lister) -> Result<(), Failure> {
    let mut last = [0; 72];
    let n = lister.end(&mut last);
    write(out, &last[..n])
}

// Lists what is read up to its end. The lines of a chunk are written together: 2048 bytes have at most 2048 lines.
// A proved loop has to end, and nothing says that an input does, so the loop has a number of turns that no run uses up.
fn list_all<R: Read, W: Write>(input: &mut R, out: &mut W) -> Result<(), Failure> {
    let mut l = Lister::new();
    let mut buf = [0; 2048];
    let mut lines = [0; 65536];
    write(out, &listing::heading())?;
    for _ in 0..u64::MAX {
        let n = input.read(&mut buf).map_err(Failure::Read)?;
        if n == 0 {
            return write_end(out, l);
        }
        let (next, text) = list_chunk(l, &buf[..n], &mut lines);
        l = next;
        write(out, text)?;
    }
    Ok(())
}

// An error's words, without the number that std puts behind them.
fn words_of(text: &str) -> &str {
    text.split_once(" (os error ")
        .map_or(text, |(words, _)| words)
}

// Says what failed, and why.
fn fail(rt: &HostRuntime, what: &str, why: io::Error) -> io::Result<ExitCode> {
    let text = why.to_string(rt.alloc())?;
    eprintln!(rt; "list: {what}: {}", words_of(text.as_str()))?;
    Ok(ExitCode::FAILURE)
}

fn list<R: Read>(rt: &HostRuntime, input: &mut R, name: &str) -> io::Result<ExitCode> {
    match list_all(input, &mut rt.stdout()) {
        Ok(()) => Ok(ExitCode::SUCCESS),
        Err(Failure::Read(why)) => fail(rt, name, why),
        Err(Failure::Write(why)) => fail(rt, "standard output", why),
    }
}

fn list_file(rt: &HostRuntime, path: &str) -> io::Result<ExitCode> {
    if !(1..=4095).contains(&path.len()) {
        eprintln!(rt; "list: a path has 1 to 4095 bytes")?;
        return Ok(ExitCode::SUCCESS);
    }
    match File::open(rt, path) {
        Ok(mut file) => list(rt, &mut file, path),
        Err(why) => fail(rt, path, why),
    }
}

fn main(rt: HostRuntime) -> io::Result<ExitCode> {
    let mut words = env::args(&rt)?.skip(1);
    match (words.next(), words.next()) {
        (None, _) => list(&rt, &mut rt.stdin(), "standard input"),
        (Some(path), None) => list_file(&rt, path.as_str()),
        _ => {
            eprintln!(rt; "usage: list [FILE]")?;
            Ok(ExitCode::SUCCESS)
        }
    }
}
