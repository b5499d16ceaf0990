//! Numbers in digits alone.

ghost use Rattle.std.specs.Prelude.{◌≡◌, ◌≤◌, ℕ, IfSome, Some};
ghost use Rattle.line_text.specs.Digits.{NamesNumber};

/// A number in digits alone. None for another word, and for one that doesn't fit 64 bits.
pub fn parse_digits(digits: &str, radix: u32) -> Option<u64>
    requires low { 2 ≤ radix }
    requires high { radix ≤ 36 }
    ensures named { IfSome result (NamesNumber radix digits.now) }
    ensures only { (number : ℕ) → NamesNumber radix digits.now number → result ≡ Some number }
{
    if digits.starts_with('+') {
        return None;
    }
    u64::from_str_radix(digits, radix).ok()
}
