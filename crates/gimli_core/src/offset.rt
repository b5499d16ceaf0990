//! Types of offsets, and addresses of a given size.

ghost use Rattle.std.specs.Prelude.{◌≡◌, ℕ, ◌+◌, ◌-◌, ◌*◌, ◌≤◌, ◌^◌, IsTrue};
ghost use Rattle.std.proofs.Common.{rules};
ghost use Rattle.gimli_core.specs.Numbers.{is_address_size};
ghost use Rattle.gimli_core.specs.Reading.{result_map, offset_of, sized_sum};

use crate::error::{Error, Result};

/// A number of bytes in a reader, or an offset into a section. Every number of 32 bits fits.
pub trait ReaderOffset: Copy + Eq + Ord {
    /// The number that it stands for.
    ghost number: { Self → ℕ };

    /// The first number that is too large for the type.
    ghost limit: { ℕ };

    /// The offset of a number of 8 bits.
    fn from_u8(offset: u8) -> Self
        ensures { number result ≡ offset };

    /// The offset of a number of 16 bits.
    fn from_u16(offset: u16) -> Self
        ensures { number result ≡ offset };

    /// The offset of a number of 32 bits.
    fn from_u32(offset: u32) -> Self
        ensures { number result ≡ offset };

    /// The offset of a number. Refused by `UnsupportedOffset`, exactly where it is too large for
    /// the type.
    fn from_u64(offset: u64) -> Result<Self>
        ensures { result_map number result ≡ offset_of limit offset };

    /// The number that it stands for.
    fn into_u64(self) -> u64
        ensures { result ≡ number self };

    /// Each number of 32 bits is below the limit.
    ghost is_wide: { 2 ^ 32 ≤ limit };
}

impl ReaderOffset for usize {
    ghost number = { λ n. n };

    ghost limit = { 2 ^ 64 };

    ghost is_wide = { Prim.search rules };

    fn from_u8(offset: u8) -> usize {
        usize::from(offset)
    }

    fn from_u16(offset: u16) -> usize {
        usize::from(offset)
    }

    fn from_u32(offset: u32) -> usize {
        offset as usize
    }

    fn from_u64(offset: u64) -> Result<usize> {
        Ok(offset as usize)
    }

    fn into_u64(self) -> u64 {
        self as u64
    }
}

/// An address of a machine, whose size is given in bytes: 1, 2, 4 or 8.
pub trait ReaderAddress: Copy {
    /// The number that it stands for.
    ghost number: { Self → ℕ };

    /// The address so many bytes further on. Refused by `AddressOverflow`, exactly where it is
    /// above the greatest address of the size. Requires that `size` is 1, 2, 4 or 8.
    fn add_sized(self, length: u64, size: u8) -> Result<Self>
        requires { IsTrue (is_address_size size) }
        ensures { result_map number result ≡ sized_sum (number self) length size };

    /// The least tombstone: the second greatest address of the size. Linkers put it, or the
    /// greatest, in place of the address of code that they dropped. Requires that `size` is 1, 2, 4
    /// or 8.
    fn min_tombstone(size: u8) -> Self
        requires { IsTrue (is_address_size size) }
        ensures { number result ≡ 2 ^ (8 * size) - 2 };
}

/// The greatest address of a size.
fn greatest_address(size: u8) -> u64
    requires { IsTrue (is_address_size size) }
    ensures { result + 1 ≡ 2 ^ (8 * size) }
{
    match size {
        1 => 0xff,
        2 => 0xffff,
        4 => 0xffff_ffff,
        _ => 0xffff_ffff_ffff_ffff,
    }
}

impl ReaderAddress for u64 {
    ghost number = { λ n. n };

    fn add_sized(self, length: u64, size: u8) -> Result<u64> {
        match self.checked_add(length) {
            Some(sum) if sum <= greatest_address(size) => Ok(sum),
            _ => Err(Error::AddressOverflow),
        }
    }

    fn min_tombstone(size: u8) -> u64 {
        greatest_address(size) - 1
    }
}
