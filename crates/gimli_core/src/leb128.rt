//! Steps of reading LEB128 numbers, seven bits at a time, the least significant first.

ghost use Rattle.std.specs.Prelude.{◌≡◌, ◌+◌, ◌*◌, ◌%◌, ◌^◌, ◌<◌, ◌≤◌, ◌-ℤ◌, pos, if◌then◌else◌};
ghost use Rattle.std.specs.Prelude.{nat_le};
ghost use Rattle.gimli_core.specs.inside.Reading.{tenth_at};

use crate::error::{Error, Result};

/// The value with the seven low bits of one more byte above those of the groups before it.
pub(crate) fn with_group(value: u64, byte: u8, group: u32) -> u64
    requires low { value < 2 ^ (7 * group) }
    requires group { group ≤ 9 }
    requires last { group ≡ 9 → byte ≤ 1 }
    ensures { result ≡ value + 2 ^ (7 * group) * (byte % 128) }
{
    value + (u64::from(byte % 128) << (7 * group))
}

/// The signed number of the groups up to this one, whose byte is the last: bit 6 of that is the
/// sign.
pub(crate) fn sign_extended(value: u64, byte: u8, group: u32) -> i64
    requires low { value < 2 ^ (7 * (group + 1)) }
    requires group { group < 9 }
    ensures { result ≡ pos value -ℤ pos (if nat_le 64 byte then 2 ^ (7 * (group + 1)) else 0) }
{
    if byte < 64 {
        value.cast_signed()
    } else {
        value.wrapping_sub(1 << (7 * (group + 1))).cast_signed()
    }
}

/// The signed number of nine groups and the tenth byte, which only repeats the sign. Refused by
/// `BadSignedLeb128` at any other tenth byte.
pub(crate) fn with_tenth(value: u64, byte: u8) -> Result<i64>
    requires { value < 2 ^ 63 }
    ensures { result ≡ tenth_at value byte }
{
    match byte {
        0x00 => Ok(value.cast_signed()),
        0x7f => Ok(value.wrapping_sub(1 << 63).cast_signed()),
        _ => Err(Error::BadSignedLeb128),
    }
}
