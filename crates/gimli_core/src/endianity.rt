//! The two orders of bytes, fixed or chosen at run time.

ghost use Rattle.std.specs.Prelude.{◌≡◌, ◌++◌, ◌≤◌, Bool, true, false, not, length, take, drop};
ghost use Rattle.gimli_core.specs.Numbers.{value_of, number_bytes};

/// An order of bytes.
pub trait Endianity: Copy + Eq {
    /// Whether the most significant byte comes first.
    ghost is_big: { Self → Bool };

    /// Whether the most significant byte comes first.
    fn is_big_endian(self) -> bool
        ensures { result ≡ is_big self };

    /// Whether the least significant byte comes first.
    fn is_little_endian(self) -> bool
        ensures { result ≡ not (is_big self) }
    {
        !self.is_big_endian()
    }

    /// The number of the first two bytes. Requires a slice of two bytes at least.
    fn read_u16(self, buf: &[u8]) -> u16
        requires { 2 ≤ length buf.now }
        ensures { result ≡ value_of (is_big self) (take 2 buf.now) }
    {
        let bytes = [buf[0], buf[1]];
        if self.is_big_endian() {
            u16::from_be_bytes(bytes)
        } else {
            u16::from_le_bytes(bytes)
        }
    }

    /// The number of the first four bytes. Requires a slice of four bytes at least.
    fn read_u32(self, buf: &[u8]) -> u32
        requires { 4 ≤ length buf.now }
        ensures { result ≡ value_of (is_big self) (take 4 buf.now) }
    {
        let bytes = [buf[0], buf[1], buf[2], buf[3]];
        if self.is_big_endian() {
            u32::from_be_bytes(bytes)
        } else {
            u32::from_le_bytes(bytes)
        }
    }

    /// The number of the first eight bytes. Requires a slice of eight bytes at least.
    fn read_u64(self, buf: &[u8]) -> u64
        requires { 8 ≤ length buf.now }
        ensures { result ≡ value_of (is_big self) (take 8 buf.now) }
    {
        let bytes = [
            buf[0], buf[1], buf[2], buf[3], buf[4], buf[5], buf[6], buf[7],
        ];
        if self.is_big_endian() {
            u64::from_be_bytes(bytes)
        } else {
            u64::from_le_bytes(bytes)
        }
    }

    /// The number of the first sixteen bytes. Requires a slice of sixteen bytes at least.
    fn read_u128(self, buf: &[u8]) -> u128
        requires { 16 ≤ length buf.now }
        ensures { result ≡ value_of (is_big self) (take 16 buf.now) }
    {
        let first = self.read_u64(buf);
        let second = self.read_u64(&buf[8..]);
        if self.is_big_endian() {
            u128::from(first) << 64 | u128::from(second)
        } else {
            u128::from(second) << 64 | u128::from(first)
        }
    }

    /// Writes a number over the first two bytes. Requires a slice of two bytes at least.
    fn write_u16(self, buf: &mut [u8], n: u16)
        requires { 2 ≤ length buf.old }
        ensures { buf.new ≡ number_bytes (is_big self) 2 n ++ drop 2 buf.old }
    {
        if self.is_big_endian() {
            buf[..2].copy_from_slice(&n.to_be_bytes());
        } else {
            buf[..2].copy_from_slice(&n.to_le_bytes());
        }
    }

    /// Writes a number over the first four bytes. Requires a slice of four bytes at least.
    fn write_u32(self, buf: &mut [u8], n: u32)
        requires { 4 ≤ length buf.old }
        ensures { buf.new ≡ number_bytes (is_big self) 4 n ++ drop 4 buf.old }
    {
        if self.is_big_endian() {
            buf[..4].copy_from_slice(&n.to_be_bytes());
        } else {
            buf[..4].copy_from_slice(&n.to_le_bytes());
        }
    }

    /// Writes a number over the first eight bytes. Requires a slice of eight bytes at least.
    fn write_u64(self, buf: &mut [u8], n: u64)
        requires { 8 ≤ length buf.old }
        ensures { buf.new ≡ number_bytes (is_big self) 8 n ++ drop 8 buf.old }
    {
        if self.is_big_endian() {
            buf[..8].copy_from_slice(&n.to_be_bytes());
        } else {
            buf[..8].copy_from_slice(&n.to_le_bytes());
        }
    }

    /// Writes a number over the first sixteen bytes. Requires a slice of sixteen bytes at least.
    fn write_u128(self, buf: &mut [u8], n: u128)
        requires { 16 ≤ length buf.old }
        ensures { buf.new ≡ number_bytes (is_big self) 16 n ++ drop 16 buf.old }
    {
        if self.is_big_endian() {
            buf[..16].copy_from_slice(&n.to_be_bytes());
        } else {
            buf[..16].copy_from_slice(&n.to_le_bytes());
        }
    }
}

/// The least significant byte first.
///
/// <!-- part of crates/uses/src/where_is.rt -->
/// ```rust
/// fn section<'a>(elf: &Elf<'a>, name: &[u8]) -> Result<EndianSlice<'a, LittleEndian>> {
///     let bytes = elf.section(name)?.unwrap_or(&[]);
///     Ok(EndianSlice::new(bytes, LittleEndian))
/// }
/// ```
#[derive(Clone, Copy, Debug, PartialEq, Eq, Default)]
pub struct LittleEndian;

/// The most significant byte first.
#[derive(Clone, Copy, Debug, PartialEq, Eq, Default)]
pub struct BigEndian;

/// An order that is known when the program runs.
#[derive(Clone, Copy, Debug, PartialEq, Eq)]
pub enum RunTimeEndian {
    /// The least significant byte first.
    Little,
    /// The most significant byte first.
    Big,
}

impl Endianity for LittleEndian {
    ghost is_big = { λ _. false };

    fn is_big_endian(self) -> bool {
        false
    }
}

impl Endianity for BigEndian {
    ghost is_big = { λ _. true };

    fn is_big_endian(self) -> bool {
        true
    }
}

impl Endianity for RunTimeEndian {
    ghost use Rattle.gimli_core.specs.Order.{is_big_endian};

    ghost is_big = { is_big_endian };

    fn is_big_endian(self) -> bool {
        match self {
            RunTimeEndian::Little => false,
            RunTimeEndian::Big => true,
        }
    }
}
