// How far a YAPP packet reaches.
ghost use Rattle.std.specs.Prelude.{◌≡◌, ◌≤◌};
ghost use Rattle.packets.specs.Span.{known, paired, data_length, total, span as span_of};

// What stands at the front of the bytes at hand.
#[derive(Clone, Copy)]
pub enum Span {
    // A packet that is not finished yet, or nothing.
    Open,
    // A packet of this many bytes.
    Whole(usize),
    // This many bytes that start no packet: 1 or 2.
    Drop(usize),
}

// Whether a packet can start with this byte.
#[tactic(auto, unfolding(crate::specs::Span::known))]
fn is_known(first: u8) -> bool
    ensures { result ≡ known first }
{
    matches!(first, 1..=6 | 0x10 | 0x15 | 0x18)
}

// Whether a known first byte may have this second byte.
#[tactic(auto, unfolding(crate::specs::Span::paired))]
fn is_paired(first: u8, second: u8) -> bool
    ensures { result ≡ paired first second }
{
    match first {
        3 => second == 1,
        4 => second == 1,
        5 => second == 1 || second == 2,
        6 => 1 <= second && second <= 6,
        _ => true,
    }
}

// How many bytes of data a DT has by its length byte: 00 means 256.
#[tactic(auto, unfolding(crate::specs::Span::data_length))]
fn data_length(second: u8) -> usize
    ensures { (result ≡ data_length second) × (result ≤ 256) }
{
    match second {
        0 => 256,
        _ => usize::from(second),
    }
}

// How many bytes the packet has that starts with these three.
#[tactic(auto, unfolding(crate::specs::Span::total, crate::specs::Span::counted))]
fn whole_length(checked: bool, first: u8, second: u8, third: u8) -> usize
    ensures { result ≡ total checked first second third }
{
    match first {
        1 | 0x10 | 0x15 | 0x18 => 2 + usize::from(second),
        2 => {
            let data = data_length(second);
            if checked { data + 3 } else { data + 2 }
        }
        5 => {
            if second == 2 {
                3 + usize::from(third)
            } else {
                2
            }
        }
        _ => 2,
    }
}

// How far the packet at the front of b reaches; checked says whether every DT has a checksum (YappC). A reader asks at each byte, and a call
// there costs as much as the look.
#[inline(always)]
#[tactic(auto, unfolding(crate::specs::Span::span_at))]
pub fn span_of(b: &[u8], checked: bool) -> Span
    ensures { result ≡ span_of checked b.now }
{
    match *b {
        [] => Span::Open,
        [first, ..] if !is_known(first) => Span::Drop(1),
        [_] => Span::Open,
        [first, second, ..] if !is_paired(first, second) => Span::Drop(2),
        [first, second, ..] => {
            let whole = whole_length(checked, first, second, fields::byte_at(b, 2));
            if whole <= b.len() {
                Span::Whole(whole)
            } else {
                Span::Open
            }
        }
    }
}
