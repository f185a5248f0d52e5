// Numbers read from little-endian bytes.
ghost use Rattle.std.specs.Prelude.{◌≡◌};
ghost use Rattle.numbers.specs.Reading.{read_little};

// A little-endian number of at most four bytes.
#[tactic(auto, using(crate::proofs::Reading::little_is), unfolding(crate::specs::Reading::read_little))]
pub fn read_little(s: &[u8]) -> Option<u32>
    ensures { result ≡ read_little s.now }
{
    let mut bytes = [0; 4];
    if bytes.len() < s.len() {
        return None;
    }
    bytes[..s.len()].copy_from_slice(s);
    Some(u32::from_le_bytes(bytes))
}
