// The elements of #BIN# read: lines, OKs, refusals, the stop frame and what is for display.
ghost use Rattle.std.specs.Prelude.{◌≡◌, drop, true, false, MatchOption};
ghost use Rattle.fields.specs.Lists.{up_to};
ghost use Rattle.lines.specs.Frame.{ends, body as body_of, has_hash, behind, marked as marked_of, line_of, ok_name, ok_read, ok_of, line_frame, ok_frame, shown_of, text_of, frame_of};

use crate::{Frame, Kept, Line, line_stamps};
use fields::{Place, names};
use numbers::digit_reader;

// What stands behind a mark of k bytes and before the final `\r`; None where there is no `\r` at the end.
#[tactic(auto, using(crate::proofs::Steps::ends_with_is, crate::proofs::Steps::body_is))]
fn body(b: &[u8], k: usize) -> Option<&[u8]>
    ensures { MatchOption result (ends b.now ≡ false) (λ t. (ends b.now ≡ true) × (t.now ≡ body_of k b.now)) }
{
    let inside = b.strip_suffix(b"\r")?;
    Some(fields::part(inside, k, inside.len()))
}

// What stands before the first `#`, and what stands behind it.
#[tactic(auto, using(crate::proofs::Steps::field_is, crate::proofs::Steps::rest_is), unfolding(crate::specs::Frame::has_hash, crate::specs::Frame::behind))]
fn cut(t: &[u8]) -> Option<(&[u8], &[u8])>
    ensures { MatchOption result (has_hash t.now ≡ false) (λ x. (has_hash t.now ≡ true) × (x.0.now ≡ up_to 35 t.now) × (x.1.now ≡ behind t.now)) }
{
    let k = fields::find(t, b'#');
    if k < t.len() {
        Some((&t[..k], &t[k + 1..]))
    } else {
        None
    }
}

// The byte x, a field, `#` and more: the field, and what stands behind its `#`.
#[tactic(auto, using(crate::proofs::Steps::marked_not, crate::proofs::Steps::marked_by))]
fn marked(x: u8, t: &[u8]) -> Option<(&[u8], &[u8])>
    ensures { MatchOption result (marked_of x t.now ≡ false) (λ f. (marked_of x t.now ≡ true) × (f.0.now ≡ up_to 35 (drop 1 t.now)) × (f.1.now ≡ behind (drop 1 t.now))) }
{
    cut(t.strip_prefix(&[x])?)
}

// A frame that starts `#BIN#`: the size alone, or `#BIN#`size`#|`crc`#$`stamp`?#`name`\r`.
#[tactic(auto, using(crate::proofs::Steps::crc_fits), unfolding(crate::specs::Frame::line_of, crate::specs::Frame::line_read, crate::specs::Frame::line_crc, crate::specs::Frame::line_stamp, crate::specs::Frame::line_name))]
fn line_of(b: &[u8]) -> Option<Frame>
    ensures { result ≡ line_of b.now }
{
    let t = body(b, 5)?;
    let Some((size, t)) = cut(t) else {
        return Some(Frame::Basic(digit_reader::read_size(t)?));
    };
    let size = digit_reader::read_size(size)?;
    let (crc, t) = marked(b'|', t)?;
    let crc = digit_reader::read_crc(crc)?;
    let (stamp, name) = marked(b'$', t)?;
    let (digits, resumable) = line_stamps::stamp_parts(stamp);
    let stamp = digit_reader::read_hex(digits)?;
    if !names::is_name(name) {
        return None;
    }
    let name = Place {
        start: b.len().saturating_sub(name.len() + 1),
        len: name.len(),
    };
    Some(Frame::Extended(Line {
        size,
        crc: crc as u16,
        stamp,
        resumable,
        name,
    }))
}

// Nothing, or a name.
#[tactic(auto, unfolding(crate::specs::Frame::ok_name))]
fn ok_name(t: &[u8]) -> Option<Frame>
    ensures { result ≡ ok_name t.now }
{
    if t.is_empty() {
        Some(Frame::OK)
    } else if names::is_name(t) {
        Some(Frame::OKName(Place {
            start: 4,
            len: t.len(),
        }))
    } else {
        None
    }
}

// A frame that starts `#OK#`: nothing more, a name, or `#OK#`name`#$`kept`#`crc`\r`.
#[tactic(auto, using(crate::proofs::Steps::crc_fits), unfolding(crate::specs::Frame::ok_of, crate::specs::Frame::ok_read, crate::specs::Frame::ok_kept))]
fn ok_of(b: &[u8]) -> Option<Frame>
    ensures { result ≡ ok_of b.now }
{
    let t = body(b, 4)?;
    let Some((name, t)) = cut(t) else {
        return ok_name(t);
    };
    if !names::is_name(name) {
        return None;
    }
    let (kept, crc) = marked(b'$', t)?;
    let kept = digit_reader::read_size(kept)?;
    let crc = digit_reader::read_crc(crc)?;
    Some(Frame::OKKept(Kept {
        name: Place {
            start: 4,
            len: name.len(),
        },
        kept,
        crc: crc as u16,
    }))
}

// What stands behind a mark of four bytes.
fn text(b: &[u8]) -> Place
    ensures { result ≡ shown_of b.now }
{
    Place {
        start: 4,
        len: b.len().saturating_sub(4),
    }
}

// What the frame b says.
#[tactic(auto, using(crate::proofs::Steps::line_starts, crate::proofs::Steps::ok_starts, crate::proofs::Steps::no_starts, crate::proofs::Steps::ends_with_is), unfolding(crate::specs::Frame::frame_of, crate::specs::Frame::text_of))]
pub fn frame_of(b: &[u8]) -> Frame
    ensures { result ≡ frame_of b.now }
{
    if b.starts_with(b"#BIN#") {
        line_of(b).unwrap_or_else(|| Frame::MalformedLine(faults::line_fault(b)))
    } else if b.starts_with(b"#OK#") {
        ok_of(b).unwrap_or_else(|| Frame::MalformedOK(faults::ok_fault(b)))
    } else if b.starts_with(b"#NO#") {
        Frame::NO(text(b.strip_suffix(b"\r").unwrap_or(b)))
    } else if crate::is_stop(b) {
        Frame::Stop
    } else if crate::is_display(b) {
        Frame::Display(text(b))
    } else {
        Frame::Other
    }
}
