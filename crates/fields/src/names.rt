// Whether bytes are a file name, and whether two are the same.
ghost use Rattle.std.specs.Prelude.{◌≡◌};
ghost use Rattle.fields.specs.Lists.{same as same_of};
ghost use Rattle.fields.specs.Name.{is_name_byte, is_name};

use crate::Limits;

// Whether a file name may have this byte.
#[tactic(auto, unfolding(crate::specs::Name::is_name_byte))]
pub fn is_name_byte(c: u8) -> bool
    ensures { result ≡ is_name_byte c }
{
    matches!(c, b'!'..=b'~') && !matches!(c, b'#' | b'/' | b'\\' | b':')
}

// Whether s can be a file name.
#[tactic(auto, unfolding(crate::specs::Name::is_name))]
pub fn is_name(s: &[u8]) -> bool
    ensures { result ≡ is_name s.now }
{
    (1..=Limits::NAME).contains(&s.len()) && s.iter().all(|&c| is_name_byte(c))
}

// Whether two slices hold the same bytes.
#[tactic(auto, using(crate::proofs::Lists::same_pointwise))]
pub fn same(a: &[u8], b: &[u8]) -> bool
    ensures { result ≡ same_of a.now b.now }
{
    a == b
}
