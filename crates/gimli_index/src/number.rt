//! The numbers of an index: the least significant byte first.

ghost use Rattle.std.specs.Prelude.{◌≡◌, ◌+◌, ◌<◌, ◌≤◌, ℕ, length, slice_index_or};
ghost use Rattle.gimli_index.specs.Header.{number_at};

use gimli_core::{Endianity, LittleEndian};

/// The number of two bytes at an offset.
pub(crate) fn uhalf(bytes: &[u8], offset: usize) -> u16
    requires { offset + 2 ≤ length bytes.now }
    ensures { result ≡ number_at 2 offset bytes.now }
{
    LittleEndian.read_u16(&bytes[offset..])
}

/// The number of four bytes at an offset.
pub(crate) fn word(bytes: &[u8], offset: usize) -> u32
    requires { offset + 4 ≤ length bytes.now }
    ensures { result ≡ number_at 4 offset bytes.now }
{
    LittleEndian.read_u32(&bytes[offset..])
}

/// The number of eight bytes at an offset.
pub(crate) fn long(bytes: &[u8], offset: usize) -> u64
    requires { offset + 8 ≤ length bytes.now }
    ensures { result ≡ number_at 8 offset bytes.now }
{
    LittleEndian.read_u64(&bytes[offset..])
}

/// A law, which does nothing: bytes are below 256.
#[inline(always)]
pub(crate) fn are_bytes(bytes: &[u8])
    ensures { (k : ℕ) → slice_index_or bytes.now k 0 < 256 }
{
    let _ = bytes;
}
