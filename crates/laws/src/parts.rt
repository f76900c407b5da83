// The test of a row's parts that the audio's, a feed's and a reading's checks share.

ghost use Rattle.std.specs.Prelude.{◌≡◌};
ghost use Rattle.laws.specs.Parts.{any_outside};

// Whether a part is outside low to high; a NaN is. No part behind the first such is looked at.
pub fn any_outside(parts: &[f64], low: f64, high: f64) -> bool
    ensures { result ≡ any_outside low high parts.now }
{
    for part in parts {
        if !crate::in_range(*part, low, high) {
            return true;
        }
    }
    false
}
