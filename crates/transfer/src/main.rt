// Sends a file from a sender to a receiver inside the program: by YAPP, by YappC and by #BIN#. Each time the link breaks at places that a
// seed picks, and the transfer is resumed from the receiver's record by either protocol until the file is whole.
//
//     transfer [PATH [SEED]]
#![tactic(auto)]

ghost use Rattle.std.specs.Prelude.{◌≡◌, length};
ghost use Rattle.std.specs.Process.{exit_status};

use fields::names;
use link::Saved;
use numbers::digit_reader;
use records::{Record, record_reader};
use std::fmt::Write as _;
use std::fs::File;
use std::io::{Read, Write};
use std::process::ExitCode;
use std::{env, fmt, io};

mod bin_link;
mod ends;
mod link;
mod text;
mod yapp_link;

// The largest file.
const LARGEST: usize = 1_048_576;

// How often the link breaks at the most, in each transfer.
const BREAKS: u32 = 3;

// By which protocol a session goes.
#[derive(Clone, Copy)]
enum Protocol {
    Yapp,
    YappC,
    Bin,
}

impl Protocol {
    fn name(self) -> &'static str {
        match self {
            Protocol::Yapp => "YAPP",
            Protocol::YappC => "YappC",
            Protocol::Bin => "#BIN#",
        }
    }
}

// One byte more than the largest file, so that a larger one shows. In a function of its own, as the area is, or the proof of its length
// counts a million zeros.
fn file_space() -> [u8; 1048577]
    ensures { 1048577 ≡ length result }
{
    [0; 1048577]
}

fn area_space() -> [u8; 1048576]
    ensures { 1048576 ≡ length result }
{
    [0; 1048576]
}

// ---- The seed

// The next number of a sequence that the seed begins.
fn next(seed: u64) -> u64 {
    ((seed % 2_147_483_648) * 1_103_515_245 + 12_345) % 2_147_483_648
}

// A number from 1 to most, or 1.
fn pick(seed: u64, most: usize) -> usize {
    if most < 1 {
        return 1;
    }
    let n = (seed / 65_536 % 32_768 * 32) as usize % most;
    if n < most { n + 1 } else { 1 }
}

fn pick_protocol(own: Protocol, seed: u64) -> Protocol {
    if seed / 65_536 % 2 == 0 {
        return Protocol::Bin;
    }
    match own {
        Protocol::Yapp => Protocol::Yapp,
        Protocol::YappC | Protocol::Bin => Protocol::YappC,
    }
}

// ---- Sessions

fn print_record<W: Write>(out: &mut W, saved: Saved) -> io::Result<()> {
    let bytes = saved.bytes;
    let count = saved.count;
    if count == 0 {
        return writeln!(out, "  no record");
    }
    match record_reader::record_of(fields::part(&bytes, 0, count)) {
        Some(Record { kept, size, .. }) => {
            writeln!(out, "  record of {count} bytes: kept {kept} of {size}")
        }
        None => writeln!(out, "  record unreadable"),
    }
}

fn print_session<W: Write>(
    out: &mut W,
    number: u32,
    protocol: Protocol,
    left: usize,
) -> io::Result<()> {
    write!(out, "\nsession {number} by {}", protocol.name())?;
    if number <= BREAKS {
        write!(out, ", the link breaks after {left} bytes")?;
    }
    writeln!(out)
}

// How many bytes the link carries in a session: as the seed picks, or any number once it has broken often enough.
fn left_of(number: u32, seed: u64, size: usize) -> usize {
    if number <= BREAKS {
        return pick(seed, size);
    }
    usize::MAX
}

fn protocol_of(number: u32, own: Protocol, seed: u64) -> Protocol {
    if number == 1 {
        return own;
    }
    pick_protocol(own, seed)
}

// The session with this number: two numbers of the seed's sequence pick its protocol and where the link breaks.
fn session<W: Write>(
    out: &mut W,
    number: u32,
    own: Protocol,
    seed: u64,
    before: Saved,
    name: &[u8],
    file: &[u8],
    area: &mut [u8],
) -> io::Result<Saved> {
    let protocol = protocol_of(number, own, seed);
    let left = left_of(number, next(seed), file.len());
    print_session(out, number, protocol, left)?;
    match protocol {
        Protocol::Yapp => yapp_link::session(out, before, false, name, left, file, area),
        Protocol::YappC => yapp_link::session(out, before, true, name, left, file, area),
        Protocol::Bin => bin_link::session(out, before, name, left, file, area),
    }
}

// Sessions until the file is whole.
fn sessions<W: Write>(
    out: &mut W,
    own: Protocol,
    seed: u64,
    name: &[u8],
    file: &[u8],
    area: &mut [u8],
) -> io::Result<()> {
    let mut saved = link::nothing();
    let mut state = next(seed);
    for number in 1..=BREAKS + 1 {
        saved = session(out, number, own, state, saved, name, file, area)?;
        state = next(next(state));
        print_record(out, saved)?;
        if saved.whole {
            break;
        }
    }
    Ok(())
}

fn print_title<W: Write>(out: &mut W, own: Protocol, name: &[u8], size: usize) -> io::Result<()> {
    out.write_all(b"\n")?;
    out.write_all(name)?;
    writeln!(out, ", {size} bytes, by {}", own.name())
}

fn print_compared<W: Write>(out: &mut W, area: &[u8], file: &[u8]) -> io::Result<()> {
    if fields::part(area, 0, file.len()) == file {
        writeln!(out, "the area equals the file")
    } else {
        writeln!(out, "THE AREA DIFFERS FROM THE FILE")
    }
}

// Not inlined, since a function makes room for its locals as it begins: a file that is refused needs no area.
#[inline(never)]
fn transfer<W: Write>(
    out: &mut W,
    own: Protocol,
    seed: u64,
    name: &[u8],
    file: &[u8],
) -> io::Result<()> {
    let mut area = area_space();
    print_title(out, own, name, file.len())?;
    sessions(out, own, seed, name, file, &mut area)?;
    print_compared(out, &area, file)
}

fn all_ways<W: Write>(out: &mut W, name: &[u8], seed: u64, file: &[u8]) -> io::Result<()> {
    for own in [Protocol::Yapp, Protocol::YappC, Protocol::Bin] {
        transfer(out, own, seed, name, file)?;
    }
    Ok(())
}

// ---- What is said on standard error

// An error's words, without the number that std puts behind them.
fn words_of(text: &str) -> &str {
    text.split_once(" (os error ")
        .map_or(text, |(words, _)| words)
}

// A formatter that takes bytes by a call. Std has some forty words for the kinds of errors and hands each over at a place of its own; with what
// takes them inlined at each of these places, they are more than a third of the program.
#[derive(Drop)]
struct OutOfLine<'a, W>(&'a mut fmt::Formatter<W>);

impl<W: fmt::Write> fmt::Write for OutOfLine<'_, W> {
    #[inline(never)]
    fn write_str(&mut self, s: &str) -> fmt::Result {
        self.0.write_str(s)
    }
}

// An error as std prints it.
#[derive(Clone, Copy)]
struct Why(io::Error);

impl fmt::Display for Why {
    fn fmt<W: fmt::Write>(&self, f: &mut fmt::Formatter<W>) -> fmt::Result {
        write!(OutOfLine(f), "{}", self.0)
    }
}

impl fmt::Debug for Why {
    fn fmt<W: fmt::Write>(&self, f: &mut fmt::Formatter<W>) -> fmt::Result {
        write!(OutOfLine(f), "{:?}", self.0)
    }
}

// Says what failed, and why. Where there is no memory for the words, std's own stand there.
fn fail(rt: &HostRuntime, what: &str, why: io::Error) -> ExitCode
    ensures { exit_status result ≡ 1 }
{
    let why = Why(why);
    let _ = match why.to_string(rt.alloc()) {
        Ok(text) => {
            let words = words_of(text.as_str());
            eprintln!(rt; "transfer: {what}: {words}")
        }
        Err(_) => eprintln!(rt; "transfer: {what}: {why}"),
    };
    ExitCode::FAILURE
}

// Says why the program does not do what it was asked for. That is no failure.
fn refuse(rt: &HostRuntime, word: &str, what: &str) -> ExitCode
    ensures { exit_status result ≡ 0 }
{
    let _ = eprintln!(rt; "transfer: {word}{what}");
    ExitCode::SUCCESS
}

fn usage(rt: &HostRuntime) -> ExitCode {
    let _ = eprintln!(rt; "usage: transfer [PATH [SEED]]");
    ExitCode::SUCCESS
}

// ---- The arguments

// The name of a file is what follows the last slash of its path.
fn name_of(path: &[u8]) -> &[u8] {
    match path.iter().rposition(|c| *c == b'/') {
        Some(slash) => &path[slash + 1..],
        None => path,
    }
}

fn try_all(rt: &HostRuntime, path: &str, seed: u64, file: &[u8]) -> ExitCode {
    let name = name_of(path.as_bytes());
    if LARGEST < file.len() {
        return refuse(rt, path, ": over 1048576 bytes");
    }
    if !names::is_name(name) {
        return refuse(rt, path, ": not a name that a header can carry");
    }
    match all_ways(&mut rt.stdout(), name, seed, file) {
        Ok(()) => ExitCode::SUCCESS,
        Err(why) => fail(rt, "standard output", why),
    }
}

// Reads up to the end of the file, or of the buffer, and returns how many bytes came. Not inlined, so that what opening and reading take of the
// stack is free again beside the area.
#[inline(never)]
fn read_path(rt: &HostRuntime, path: &str, buf: &mut [u8]) -> io::Result<usize> {
    let mut source = File::open(rt, path)?;
    let room = buf.len();
    let mut rest = buf;
    while !rest.is_empty() {
        let count = source.read(rest)?;
        if count == 0 {
            break;
        }
        let all = rest;
        rest = &mut all[count..];
    }
    Ok(room - rest.len())
}

// A read that fails is said, and is not the end of the file. The file lies in an array beside the area, and takes no memory of the heap.
fn run(rt: &HostRuntime, path: &str, seed: u64) -> ExitCode {
    let mut space = file_space();
    match read_path(rt, path, &mut space) {
        Ok(count) => try_all(rt, path, seed, fields::part(&space, 0, count)),
        Err(why) => fail(rt, path, why),
    }
}

// The sample, from the root of the repository.
fn run_sample(rt: &HostRuntime, seed: u64) -> ExitCode {
    run(rt, "crates/transfer/data/bag-reads.csv", seed)
}

fn run_seeded(rt: &HostRuntime, path: &str, seed: &str) -> ExitCode {
    match digit_reader::read_size(seed.as_bytes()) {
        Some(n) => run(rt, path, u64::from(n)),
        None => refuse(rt, "", "a seed is a number of at most 8 digits"),
    }
}

// The seed is 1 where none is given.
fn start(rt: &HostRuntime, path: &str, seed: Option<String>) -> ExitCode {
    if !(1..=4095).contains(&path.len()) {
        return refuse(rt, "", "a path has 1 to 4095 bytes");
    }
    match seed {
        Some(word) => run_seeded(rt, path, word.as_str()),
        None => run(rt, path, 1),
    }
}

fn main(rt: HostRuntime) -> Result<ExitCode, Why> {
    let mut words = env::args(&rt).map_err(Why)?.skip(1);
    let code = match (words.next(), words.next(), words.next()) {
        (None, _, _) => run_sample(&rt, 1),
        (Some(path), seed, None) => start(&rt, path.as_str(), seed),
        _ => usage(&rt),
    };
    Ok(code)
}
