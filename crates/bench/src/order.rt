//! A byte order for each work: so the compiler generates the library's calls for each of them
//! separately, as in a program that does no other work, and what one work costs doesn't depend on
//! the others.

ghost use Rattle.std.specs.Prelude.{false};

use gimli_core::Endianity;

/// The works: to read a section, to convert a unit, to look addresses up, to make and query an
/// index.
pub(crate) const READ: u8 = 0;

pub(crate) const CONVERT: u8 = 1;

pub(crate) const LOOKUP: u8 = 2;

pub(crate) const INDEX: u8 = 3;

/// The least significant byte first, in a work.
#[derive(Clone, Copy, Debug, PartialEq, Eq)]
pub(crate) struct OrderOf<const WORK: u8>;

impl<const WORK: u8> Endianity for OrderOf<WORK> {
    ghost is_big = { λ _. false };

    fn is_big_endian(self) -> bool {
        false
    }
}
