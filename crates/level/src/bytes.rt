// The test of lent bytes of conditions 9 and 10.

ghost use Rattle.std.specs.Prelude.{◌≡◌};
ghost use Rattle.level.specs.Bytes.{wrong_bytes};

// Whether there are not `count` bytes, or one is not below the limit.
#[tactic(auto, using(crate::specs::BytesLaws::bytes_tested))]
pub fn wrong_bytes(bytes: &[u8], count: usize, limit: usize) -> bool
    ensures { result ≡ wrong_bytes count limit bytes.now }
{
    if bytes.len() != count {
        return true;
    }
    for byte in bytes {
        if limit <= *byte as usize {
            return true;
        }
    }
    false
}
