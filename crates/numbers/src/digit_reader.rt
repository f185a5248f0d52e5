// Decimal and hex digits read, most significant first.
ghost use Rattle.std.specs.Prelude.{◌≡◌, ◌≤◌, ◌<◌, ◌^◌, length};
ghost use Rattle.std.specs.Option.{SomeIff};
ghost use Rattle.numbers.specs.Reading.{radix as radix_of, hex_digit, digit as digit_of, value_from, read_decimal, read_size, read_crc, read_hex};

use crate::Base;

impl Base {
    #[tactic(auto, unfolding(crate::specs::Reading::radix))]
    fn radix(self) -> u32
        ensures { result ≡ radix_of self }
    {
        match self {
            Base::Decimal => 10,
            Base::Hex => 16,
        }
    }

    // The value of a digit, hex digits of either case.
    #[tactic(auto, using(crate::proofs::Reading::digit_is), unfolding(crate::specs::Reading::radix))]
    fn digit(self, c: u8) -> Option<u32>
        ensures { SomeIff result (digit_of self c < radix_of self) (digit_of self c) }
    {
        char::from(c).to_digit(self.radix())
    }
}

// The value of a hex digit of either case; 16 for any other byte.
pub fn hex_digit(c: u8) -> u32
    ensures { result ≡ hex_digit c }
{
    char::from(c).to_digit(16).unwrap_or(16)
}

// The number that digits write; as many digits as a u32 holds.
fn value_of(base: Base, s: &[u8]) -> Option<u32>
    requires { radix_of base ^ length s.now ≤ 4294967296 }
    ensures { result ≡ value_from base 0 s.now }
{
    let mut acc = 0;
    for &c in s {
        acc = acc * base.radix() + base.digit(c)?;
    }
    Some(acc)
}

// The number that 1 to width decimal digits write.
#[tactic(auto, unfolding(crate::specs::Reading::read_decimal))]
fn decimal_of(width: usize, s: &[u8]) -> Option<u32>
    requires { width ≤ 9 }
    ensures { result ≡ read_decimal width s.now }
{
    if (1..=width).contains(&s.len()) {
        value_of(Base::Decimal, s)
    } else {
        None
    }
}

// A size or a position: 1 to 8 digits.
pub fn read_size(s: &[u8]) -> Option<u32>
    ensures { result ≡ read_size s.now }
{
    decimal_of(8, s)
}

// A CRC: 1 to 5 digits, at most 65,535.
#[tactic(auto, unfolding(crate::specs::Reading::read_crc))]
pub fn read_crc(s: &[u8]) -> Option<u32>
    ensures { result ≡ read_crc s.now }
{
    decimal_of(5, s).filter(|v| *v <= 65_535)
}

// Exactly eight hex digits, of either case.
#[tactic(auto, unfolding(crate::specs::Reading::read_hex))]
pub fn read_hex(s: &[u8]) -> Option<u32>
    ensures { result ≡ read_hex s.now }
{
    if s.len() == 8 {
        value_of(Base::Hex, s)
    } else {
        None
    }
}
