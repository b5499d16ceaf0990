//! Short LEB128 numbers, as most operands are, read in line.

ghost use Rattle.std.specs.Prelude.{◌≡◌, ◌<◌, ◌-ℤ◌, pos, nat_le, if◌then◌else◌, IfSome, Ok};
ghost use Rattle.gimli_core.specs.Reading.{signed_at, unsigned_at};
ghost use Rattle.gimli_core.specs.Seen.{on_bytes};

use gimli_core::{Reader, Result};

/// Takes an unsigned LEB128 number, as `Reader::read_uleb128` does; one of one or two bytes, as
/// most are, in line.
#[inline(always)]
pub(crate) fn read_uleb128<R: Reader>(input: &mut R) -> Result<u64>
    ensures { (result, R.seen input.new)
        ≡ on_bytes unsigned_at (R.seen input.old) }
{
    let mut short = *input;
    let Some(number) = read_short_uleb128(&mut short) else {
        return input.read_uleb128();
    };
    *input = short;
    Ok(number)
}

/// Takes an unsigned LEB128 number of one or two bytes. None where it is longer, or isn't there as
/// a whole.
#[inline(always)]
#[tactic(auto, unfolding(gimli_core::specs::Reading::uleb_at))]
pub(crate) fn read_short_uleb128<R: Reader>(input: &mut R) -> Option<u64>
    ensures read { IfSome result (λ n.
        (Ok n, (R.seen input.new).bytes) ≡ unsigned_at (R.seen input.old).bytes) }
    ensures order { (R.seen input.new).is_big ≡ (R.seen input.old).is_big }
{
    let Ok(first) = input.read_u8() else {
        return None;
    };
    if first < 128 {
        return Some(u64::from(first));
    }
    let Ok(second) = input.read_u8() else {
        return None;
    };
    if second >= 128 {
        return None;
    }
    Some(u64::from(first) - 128 + 128 * u64::from(second))
}

/// Takes a signed LEB128 number of one or two bytes. None where it is longer, or isn't there as a
/// whole.
#[inline(always)]
#[tactic(auto, unfolding(gimli_core::specs::Reading::sleb_at))]
pub(crate) fn read_short_sleb128<R: Reader>(input: &mut R) -> Option<i64>
    ensures read { IfSome result (λ z.
        (Ok z, (R.seen input.new).bytes) ≡ signed_at (R.seen input.old).bytes) }
    ensures order { (R.seen input.new).is_big ≡ (R.seen input.old).is_big }
{
    let Ok(first) = input.read_u8() else {
        return None;
    };
    if first < 128 {
        return Some(signed_7(first));
    }
    let Ok(second) = input.read_u8() else {
        return None;
    };
    if second >= 128 {
        return None;
    }
    Some(i64::from(first) - 128 + 128 * signed_7(second))
}

/// The signed number of seven bits, of which the upper one is the sign.
fn signed_7(bits: u8) -> i64
    requires { bits < 128 }
    ensures { result ≡ pos bits -ℤ pos (if nat_le 64 bits then 128 else 0) }
{
    i64::from((bits + 64) % 128) - 64
}
