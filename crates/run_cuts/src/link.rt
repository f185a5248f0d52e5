// What a session over a link that breaks leaves, and what is asked of it.
ghost use Rattle.std.specs.Prelude.{◌≡◌, ◌≤◌};
ghost use Rattle.calls.specs.Count.{record_count};
ghost use Rattle.calls.specs.Recording.{record_answer, record_left};
ghost use Rattle.records.specs.Record.{number_at};
ghost use Rattle.run_cuts.specs.Link.{begin as begin_of, nothing as nothing_of, passed as passed_of, kept as kept_of, holds as holds_of, is_of_file, Sends, Takes, Records, Ended, turn as turn_of, number as number_of, saved_after as saved_by, turns, is_sound, is_success, is_whole};

use calls::{Outcome, outcomes};
use fields::{buffers, names};
use numbers::little_reader;

// Stands in the place of document 01's number for an end that has not ended.
pub const RUNNING: u8 = 255;

// The area, the record's bytes, none where there is none, and the numbers that the two ends ended with.
#[derive(Clone, Copy)]
pub struct Saved {
    pub area: [u8; 320],
    pub bytes: [u8; 81],
    pub len: usize,
    pub sender: u8,
    pub receiver: u8,
}

// What stands on the link between two turns, and what it brought.
#[derive(Clone, Copy)]
pub struct Link {
    pub area: [u8; 320],
    // What the sender sent last, and what the receiver answered last: the first bytes.
    pub to: [u8; 259],
    pub back: [u8; 259],
    // How many bytes of back are an answer that is still to go over the link.
    pub answered: usize,
    // How many bytes pass before the link breaks.
    pub left: usize,
}

// Before the first turn of a session.
pub fn begin(before: Saved, bytes: usize) -> Link
    ensures { result ≡ begin_of before bytes }
{
    let area = before.area;
    Link {
        area,
        to: [0; 259],
        back: [0; 259],
        answered: 0,
        left: bytes,
    }
}

// Before the first session.
pub fn nothing() -> Saved
    ensures { result ≡ nothing_of }
{
    Saved {
        area: [0xEE; 320],
        bytes: [0; 81],
        len: 0,
        sender: RUNNING,
        receiver: RUNNING,
    }
}

// The bytes that pass.
pub fn passed(buffer: &[u8; 259], sent: usize, left: usize) -> &[u8]
    ensures { result.now ≡ passed_of sent left buffer.now }
{
    fields::part(buffer, 0, sent.min(left))
}

// What stands between two turns.
#[derive(Clone, Copy)]
pub struct Ends<S, R> {
    pub sender: S,
    pub receiver: R,
    pub link: Link,
}

// An end behind a call, and how many bytes it sends.
#[derive(Clone, Copy)]
pub struct Moved<E> {
    pub end: E,
    pub sent: usize,
}

// The sender of a protocol, over the link.
pub trait Sending: Copy {
    ghost sends: { Sends Self };

    ghost ended_of: { Ended Self };

    // The sender gets what came of the answer; where nothing was answered, it may send.
    fn send(self, answered: usize, heard: &[u8], file: &[u8], out: &mut [u8; 259]) -> Moved<Self>
        ensures { sends self answered heard.now file.now out.old ≡ record { moved = result; reply = out.new } };

    // How it ended, if it has.
    fn ended(self) -> Option<Outcome>
        ensures { result ≡ ended_of self };
}

// The receiver of a protocol, over the link.
pub trait Receiving: Copy {
    ghost takes: { Takes Self };

    ghost records: { Records Self };

    ghost ended_of: { Ended Self };

    // The receiver gets what came of what was sent.
    fn take(self, came: &[u8], area: &mut [u8; 320], out: &mut [u8; 259]) -> Moved<Self>
        ensures { takes self came.now area.old out.old ≡ record { moved = result; area = area.new; reply = out.new } };

    // Its record, and how many bytes it is.
    fn put_record(self, out: &mut [u8; 81]) -> usize
        ensures { (result ≡ record_count (record_answer (records self) out.old)) × (out.new ≡ record_left (records self) out.old) };

    // How it ended, if it has.
    fn ended(self) -> Option<Outcome>
        ensures { result ≡ ended_of self };
}

// What was answered goes over the link, and then what the sender sends.
#[tactic(auto, unfolding(crate::specs::Link::turn))]
pub fn turn<S: Sending, R: Receiving>(e: Ends<S, R>, file: &[u8]) -> Ends<S, R>
    ensures { result ≡ turn_of S.sends R.takes file.now e }
{
    let l = e.link;
    let mut area = l.area;
    let mut to = l.to;
    let mut back = l.back;
    let heard = passed(&back, l.answered, l.left);
    let a = e.sender.send(l.answered, heard, file, &mut to);
    let left = l.left.saturating_sub(l.answered);
    let came = passed(&to, a.sent, left);
    let b = e.receiver.take(came, &mut area, &mut back);
    Ends {
        sender: a.end,
        receiver: b.end,
        link: Link {
            area,
            to,
            back,
            answered: b.sent,
            left: left.saturating_sub(a.sent),
        },
    }
}

// The number that an end ended with.
fn number(outcome: Option<Outcome>) -> u8
    ensures { result ≡ number_of outcome }
{
    match outcome {
        Some(outcome) => outcomes::outcome_number(outcome),
        None => RUNNING,
    }
}

#[tactic(auto, unfolding(crate::specs::Link::saved_after))]
fn saved_after<S: Sending, R: Receiving>(e: Ends<S, R>) -> Saved
    ensures { result ≡ saved_by R.records S.ended_of R.ended_of e }
{
    let mut bytes = [0; 81];
    let len = e.receiver.put_record(&mut bytes);
    Saved {
        area: e.link.area,
        bytes,
        len,
        sender: number(e.sender.ended()),
        receiver: number(e.receiver.ended()),
    }
}

// What so many turns leave.
#[tactic(auto, unfolding(crate::specs::Link::turns))]
pub fn session<S: Sending, R: Receiving>(begun: Ends<S, R>, count: usize, file: &[u8]) -> Saved
    ensures { result ≡ saved_by R.records S.ended_of R.ended_of (turns (turn_of S.sends R.takes file.now) count begun) }
{
    let mut e = begun;
    for _ in 0..count {
        e = turn(e, file);
    }
    saved_after(e)
}

// The number that four bytes of a record are.
fn read_at(b: &[u8], at: usize) -> usize
    ensures { (result ≡ number_at at 4 b.now) × (result ≤ 4294967295) }
{
    match little_reader::read_little(fields::part(b, at, 4)) {
        Some(v) => v as usize,
        None => 0,
    }
}

// How many bytes the record says are kept.
#[tactic(auto, unfolding(crate::specs::Link::kept))]
pub fn kept(s: Saved) -> usize
    ensures { (result ≡ kept_of s) × (result ≤ 4294967295) }
{
    read_at(fields::part(&s.bytes, 0, s.len), 8)
}

// Whether the file has so many bytes, and the area those and behind them what it was.
fn holds(area: [u8; 320], file: &[u8], count: usize) -> bool
    ensures { result ≡ holds_of area file.now count }
{
    if file.len() < count {
        return false;
    }
    let mut want = [0xEE; 320];
    buffers::append_bytes(&mut want, 0, fields::part(file, 0, count));
    names::same(&area, &want)
}

// Whether a record is that of the file but for the kept count: its length, kind 2, the size, the stamp and the name.
fn is_of_file(b: &[u8], file: &[u8]) -> bool
    ensures { result ≡ is_of_file b.now file.now }
{
    // By `if`s, since the proof goes test by test.
    if names::same(fields::part(b, 0, 4), b"\x16\x00\x02\x00") {
        if read_at(b, 4) == file.len() {
            let rest = fields::part(b, 12, b.len());
            return names::same(rest, b"\x00\x48\x21\x5A\x07abc.txt");
        }
    }
    false
}

// Whether the record, where there is one, is the file's and says what the area holds.
#[tactic(auto, unfolding(crate::specs::Link::is_sound))]
pub fn is_sound(s: Saved, file: &[u8]) -> bool
    ensures { result ≡ is_sound s file.now }
{
    if s.len == 0 {
        return holds(s.area, file, 0);
    }
    is_of_file(fields::part(&s.bytes, 0, s.len), file) && holds(s.area, file, kept(s))
}

// Whether both ends ended with success.
#[tactic(auto, unfolding(crate::specs::Link::is_success))]
pub fn is_success(s: Saved) -> bool
    ensures { result ≡ is_success s }
{
    s.sender == 0 && s.receiver == 0
}

// Whether they did, and the file is whole.
#[tactic(auto, unfolding(crate::specs::Link::is_whole))]
pub fn is_whole(s: Saved, file: &[u8]) -> bool
    ensures { result ≡ is_whole s file.now }
{
    is_success(s) && kept(s) == file.len() && is_sound(s, file)
}
