// The CRC of `crc` for C and Rust to call, a function for each reading, since C is not passed the enum.
#![tactic(auto)]

ghost use Rattle.std.specs.Prelude.{◌≡◌};
ghost use Rattle.crc.specs.Crc.{walk_from};

use crc::Reading;

// The CRC by document 01's reading goes on over s from the value r; from 0 it is the CRC of s. C passes s as a pointer and a length.
#[unsafe(no_mangle)]
pub extern "C" fn crc_walk_bare(r: u16, s: &[u8]) -> u16
    ensures { result ≡ walk_from Reading.Bare r s.now }
{
    crc::walk(Reading::Bare, r, s)
}

// The same by the reading of request 2026-06; from 0 it is document 01's CRC of s with two zero bytes behind it.
#[unsafe(no_mangle)]
pub extern "C" fn crc_walk_augmented(r: u16, s: &[u8]) -> u16
    ensures { result ≡ walk_from Reading.Augmented r s.now }
{
    crc::walk(Reading::Augmented, r, s)
}
