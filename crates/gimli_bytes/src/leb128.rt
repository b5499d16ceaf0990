//! The shortest LEB128 of a number (DWARF 5, 7.6), in an array on the stack.

ghost use Rattle.std.specs.Prelude.{◌≡◌, ◌<◌};
ghost use Rattle.gimli_bytes.specs.Number.{uleb, sleb, low_bits as low_bits_of};
ghost use Rattle.gimli_bytes.specs.Number.{has_seven_bits as holds_seven_bits};

use std::marker::Model;

/// A number as LEB128: seven bits a byte, the least significant first.
///
/// <!-- part of crates/gimli_build/src/rows/instruction.rt -->
/// ```rust
/// let operand = Leb128::unsigned(discriminator);
/// write_byte(w, 0)?;
/// w.write_uleb128(operand.bytes().len() as u64 + 1)?;
/// write_byte(w, constants::DW_LNE_set_discriminator.0)?;
/// w.write(operand.bytes())
/// ```
#[derive(Debug, Drop)]
pub struct Leb128 {
    bytes: [u8; 10],
    len: usize,
}

impl Model for Leb128 {
    ghost use Rattle.std.specs.Prelude.{ℕ, List, take, ◌≤◌};

    ghost Value = { List ℕ };

    ghost view = { λ a. take a.len a.bytes };

    ghost invariant = { λ a. a.len ≤ 10 };
}

impl Leb128 {
    /// The shortest spelling of an unsigned number.
    #[inline(never)]
    pub fn unsigned(val: u64) -> Leb128
        ensures { result ≡ uleb val }
    {
        let mut bytes = [0u8; 10];
        let mut rest = val;
        for len in 0..9 {
            if rest < 128 {
                bytes[len] = rest as u8;
                return Leb128 {
                    bytes,
                    len: len + 1,
                };
            }
            bytes[len] = (rest % 128) as u8 + 128;
            rest /= 128;
        }
        bytes[9] = (rest % 128) as u8;
        Leb128 { bytes, len: 10 }
    }

    /// The shortest spelling of a signed number.
    #[inline(never)]
    pub fn signed(val: i64) -> Leb128
        ensures { result ≡ sleb val }
    {
        let mut bytes = [0u8; 10];
        let mut rest = val;
        for len in 0..9 {
            let low = low_bits(rest);
            if has_seven_bits(rest) {
                bytes[len] = low;
                return Leb128 {
                    bytes,
                    len: len + 1,
                };
            }
            bytes[len] = low + 128;
            rest = rest.div_euclid(128);
        }
        bytes[9] = low_bits(rest);
        Leb128 { bytes, len: 10 }
    }

    /// The bytes, at most ten.
    pub fn bytes(&self) -> &[u8]
        ensures { result.now ≡ self.now }
    {
        &self.bytes[..self.len]
    }
}

/// The lowest seven bits of a number, in two's complement.
pub(crate) fn low_bits(val: i64) -> u8
    ensures value { result ≡ low_bits_of val }
    ensures small { result < 128 }
{
    val.rem_euclid(128) as u8
}

/// Whether seven bits hold the number, with its sign.
pub(crate) fn has_seven_bits(val: i64) -> bool
    ensures { result ≡ holds_seven_bits val }
{
    -64 <= val && val < 64
}
