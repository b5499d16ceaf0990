//! The header of an index.

ghost use Rattle.std.specs.Prelude.{◌≡◌, ◌*◌, ◌<◌, ◌^◌, ◌≤◌, length, IfOk};
ghost use Rattle.gimli_index.specs.Header.{header_at, fields_at, size_of, address_size_of};
ghost use Rattle.gimli_index.specs.Header.{start_size_of, statement_size, base_of, highest_base};

use crate::error::IndexError;
use crate::number::{long, uhalf, word};

/// The bytes that each index begins with.
pub(crate) const MAGIC: [u8; 8] = [b'L', b'I', b'N', b'E', b'I', b'D', b'X', 0];

/// The version of the format.
pub(crate) const VERSION: u32 = 2;

/// The bytes of the header.
pub(crate) const HEADER_SIZE: usize = 48;

/// The bytes of a start.
#[derive(Clone, Copy, Debug)]
pub(crate) enum StartSize {
    Four,
    Eight,
}

/// The header of an index.
#[derive(Clone, Copy)]
pub(crate) struct Header {
    pub(crate) address_size: u16,
    pub(crate) start_size: StartSize,
    pub(crate) base: u64,
    /// How many starts there are.
    pub(crate) starts: u32,
    /// How many sources there are.
    pub(crate) sources: u32,
    /// The bytes of all paths.
    pub(crate) paths: u32,
    /// The bytes of the identity.
    pub(crate) identity: u32,
    /// How many statements there are.
    pub(crate) statements: u32,
}

/// A size of addresses.
fn address_size_of(size: u16) -> Result<u16, IndexError>
    ensures { result ≡ address_size_of size }
{
    match size {
        1 | 2 | 4 | 8 => Ok(size),
        _ => Err(IndexError::AddressSize(size)),
    }
}

/// The size of starts that a number stands for.
fn start_size_of(size: u16) -> Result<StartSize, IndexError>
    ensures { result ≡ start_size_of size }
{
    match size {
        4 => Ok(StartSize::Four),
        8 => Ok(StartSize::Eight),
        _ => Err(IndexError::StartSize(size)),
    }
}

impl StartSize {
    /// The highest base: what it and any start come to is an address of 64 bits.
    pub(crate) fn highest_base(self) -> u64
        ensures { result ≡ highest_base self }
    {
        match self {
            StartSize::Four => 0xffff_ffff_0000_0000,
            StartSize::Eight => 0,
        }
    }

    /// A base, unless it is too high.
    fn base_of(self, base: u64) -> Result<u64, IndexError>
        ensures base { result ≡ base_of self base }
        ensures low { IfOk result (λ base. base ≤ highest_base self) }
    {
        if self.highest_base() < base {
            return Err(IndexError::Base(base));
        }
        Ok(base)
    }

    /// The bytes of so many starts.
    pub(crate) fn bytes_of(self, starts: u32) -> usize
        ensures bytes { result ≡ size_of self * starts }
        ensures few { result < 2 ^ 35 }
    {
        match self {
            StartSize::Four => 4 * starts as usize,
            StartSize::Eight => 8 * starts as usize,
        }
    }

    /// The bytes of a statement.
    pub(crate) fn statement_size(self) -> usize
        ensures bytes { result ≡ statement_size self }
        ensures few { result ≤ 16 }
    {
        match self {
            StartSize::Four => 12,
            StartSize::Eight => 16,
        }
    }

    /// The bytes of so many statements.
    pub(crate) fn bytes_of_statements(self, statements: u32) -> usize
        ensures bytes { result ≡ statement_size self * statements }
        ensures few { result < 2 ^ 36 }
    {
        self.statement_size() * statements as usize
    }
}

impl Header {
    /// The header that bytes begin with.
    #[inline(always)]
    pub(crate) fn parse(bytes: &[u8]) -> Result<Header, IndexError>
        ensures header { result ≡ header_at bytes.now }
        ensures low { IfOk result (λ header. header.base ≤ highest_base header.start_size) }
    {
        if !bytes.starts_with(&MAGIC) {
            return Err(IndexError::NotIndex);
        }
        if bytes.len() < HEADER_SIZE {
            return Err(IndexError::HeaderCut);
        }
        match word(bytes, 8) {
            VERSION => Header::fields(bytes),
            version => Err(IndexError::Version(version)),
        }
    }

    /// The fields after the version.
    #[inline(always)]
    fn fields(bytes: &[u8]) -> Result<Header, IndexError>
        requires { 48 ≤ length bytes.now }
        ensures fields { result ≡ fields_at bytes.now }
        ensures low { IfOk result (λ header. header.base ≤ highest_base header.start_size) }
    {
        let address_size = address_size_of(uhalf(bytes, 12))?;
        let start_size = start_size_of(uhalf(bytes, 14))?;
        let base = start_size.base_of(long(bytes, 16))?;
        Ok(Header {
            address_size,
            start_size,
            base,
            starts: word(bytes, 24),
            sources: word(bytes, 28),
            paths: word(bytes, 32),
            identity: word(bytes, 36),
            statements: word(bytes, 40),
        })
    }
}
