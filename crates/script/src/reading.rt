// Scripts and lists of cases: lines, words, numbers, and bytes where `<0D>` is the byte 0D.
ghost use Rattle.std.specs.Prelude.{◌≡◌, ◌-◌, ◌≤◌, ◌<◌, length, IfOk, OnOk};
ghost use Rattle.std.specs.Io.KnownBytes.{Appends};
ghost use Rattle.fields.specs.Lists.{same, up_to};
ghost use Rattle.fields.specs.Buffer.{appended, appended_end};
ghost use Rattle.numbers.specs.Reading.{read_size};
ghost use Rattle.script.specs.Script.{behind as behind_of, word_of, value_of, number_of, nibble as nibble_of, byte_of, first_of, left_behind, decoded_count, decoded_into, place_in, lines_fit, playable as playable_of, refusal};

use crate::printing::put;
use fields::{buffers, names};
use numbers::digit_reader;
use std::io;
use std::io::Write;

// The most bytes that a line of a script has. Space for what a word says has as many.
const LINE: usize = 1_200;

// The most bytes that a script has.
const SCRIPT: usize = 16_384;

// The bytes before the first x; all where there is none.
pub fn before(s: &[u8], x: u8) -> &[u8]
    ensures { result.now ≡ up_to x s.now }
{
    &s[..fields::find(s, x)]
}

// The bytes behind the first x; none where there is none.
#[tactic(auto, unfolding(crate::specs::Script::behind))]
pub fn behind(s: &[u8], x: u8) -> &[u8]
    ensures { (result.now ≡ behind_of x s.now) × (length result.now ≤ length s.now - 1) }
{
    s.get(fields::find(s, x) + 1..).unwrap_or(&[])
}

// The word with this number, from 0 on; of no bytes where there is none.
pub fn word(line: &[u8], number: usize) -> &[u8]
    ensures { result.now ≡ word_of number line.now }
{
    line.split(|c| *c == b' ').nth(number).unwrap_or(&[])
}

// Whether the word with this number is text.
pub fn is_word(line: &[u8], number: usize, text: &[u8]) -> bool
    ensures { result ≡ same (word_of number line.now) text.now }
{
    names::same(word(line, number), text)
}

fn value(s: &[u8]) -> usize
    ensures { (result ≡ value_of (read_size s.now)) × (result ≤ 4294967295) }
{
    digit_reader::read_size(s).unwrap_or(0) as usize
}

// A number of up to nine digits; 0 where it is none.
#[tactic(auto, unfolding(crate::specs::Script::number_of))]
pub fn number(s: &[u8]) -> usize
    ensures { result ≡ number_of s.now }
{
    if s.len() == 9 {
        return value(&s[..1]) * 100_000_000 + value(&s[1..]);
    }
    value(s)
}

// The value of a hex digit in capitals; 0 where it is none.
#[tactic(auto, unfolding(crate::specs::Script::nibble))]
fn nibble(c: u8) -> u8
    ensures { (result ≡ nibble_of c) × (result < 16) }
{
    match c {
        b'0'..=b'9' => c - b'0',
        b'A'..=b'F' => c - b'A' + 10,
        _ => 0,
    }
}

// The byte that s starts with, as it is or as `<0D>`.
#[tactic(auto, unfolding(crate::specs::Script::byte_of))]
fn byte_of(s: &[u8]) -> u8
    ensures { result ≡ byte_of s.now }
{
    match fields::byte_at(s, 0) {
        b'<' => nibble(fields::byte_at(s, 1)) * 16 + nibble(fields::byte_at(s, 2)),
        c => c,
    }
}

// Appends the byte that s starts with at index n of out; nothing where the first bytes of s belong to a byte before.
#[tactic(auto, unfolding(crate::specs::Script::first_of))]
fn append_first(out: &mut [u8], n: usize, left: usize, s: &[u8]) -> usize
    ensures { (result ≡ appended_end n (first_of left s.now) out.old) × (out.new ≡ appended n (first_of left s.now) out.old) }
{
    if left == 0 {
        buffers::append_byte(out, n, byte_of(s))
    } else {
        n
    }
}

// How many bytes behind c belong to a byte before them.
#[tactic(auto, unfolding(crate::specs::Script::left_behind))]
fn left_behind(left: usize, c: u8) -> usize
    ensures { result ≡ left_behind left c }
{
    match (left, c) {
        (0, b'<') => 3,
        (0, _) => 0,
        _ => left - 1,
    }
}

// Lays the bytes that s says into out, and returns how many. Where out has fewer bytes than s, it stays and the answer is 0.
#[tactic(auto, unfolding(crate::specs::Script::decoded_count, crate::specs::Script::decoded_into))]
pub fn decode(s: &[u8], out: &mut [u8]) -> usize
    ensures { (result ≡ decoded_count s.now out.old) × (out.new ≡ decoded_into s.now out.old) }
{
    if out.len() < s.len() {
        return 0;
    }
    let mut n = 0;
    let mut left = 0;
    for (i, c) in s.iter().enumerate() {
        n = append_first(out, n, left, fields::part(s, i, 3));
        left = left_behind(left, *c);
    }
    n
}

// The number of the first word of a line among these words, of which there are so many; that count where it is none of them.
pub fn place_in(words: &[u8], count: usize, line: &[u8]) -> usize
    ensures { result ≡ place_in count 0 words.now (word_of 0 line.now) }
{
    let first = word(line, 0);
    (0..count)
        .find(|i| is_word(words, *i, first))
        .unwrap_or(count)
}

// Whether no line has more than LINE bytes.
fn lines_fit(s: &[u8]) -> bool
    ensures { result ≡ lines_fit 0 s.now }
{
    s.split(|c| *c == b'\n').all(|line| line.len() <= LINE)
}

// The script where it is short enough to be played whole; else none of it, and a line says why.
#[tactic(auto, unfolding(crate::specs::Script::playable, crate::specs::Script::refusal))]
pub fn playable<'a, W: Write>(out: &mut W, script: &'a [u8]) -> io::Result<&'a [u8]>
    ensures script { IfOk result (λ s. s.now ≡ playable_of script.now) }
    ensures line { OnOk result (Appends (W.contents out.old) (W.contents out.new) (refusal script.now)) }
{
    if SCRIPT < script.len() {
        put(
            out,
            b"the script is too long: it has more than 16384 bytes\n",
        )?;
        return Ok(&[]);
    }
    if lines_fit(script) {
        return Ok(script);
    }
    put(
        out,
        b"a line of the script is too long: it has more than 1200 bytes\n",
    )?;
    Ok(&[])
}
