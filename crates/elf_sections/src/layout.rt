//! How a file encodes its numbers.

ghost use Rattle.std.specs.Prelude.{◌≡◌, ◌+◌, ◌≤◌, length};
ghost use Rattle.elf_sections.specs.Layout.{address_size, number_at, with_number, class_of};
ghost use Rattle.elf_sections.specs.Layout.{order_of, layout_at};
ghost use Rattle.elf_sections.specs.Machine.{size_of};
ghost use Rattle.elf_sections.specs.SectionHeader.{section_header_size};

use crate::error::ElfError;
use crate::machine::Width;
use gimli_core::{Endianity, RunTimeEndian};

/// The bytes that each file begins with (`EI_MAG0` to `EI_MAG3`).
const MAGIC: [u8; 4] = [0x7f, b'E', b'L', b'F'];

/// The class of a file, which the sizes of addresses and offsets depend on.
#[derive(Clone, Copy, Debug)]
pub(crate) enum Class {
    Elf32,
    Elf64,
}

/// How a file encodes its numbers.
#[derive(Clone, Copy, Debug)]
pub(crate) struct Layout {
    pub(crate) class: Class,
    pub(crate) order: RunTimeEndian,
}

/// The class that a number stands for (`EI_CLASS`).
fn class_of(class: u8) -> Result<Class, ElfError>
    ensures { result ≡ class_of class }
{
    match class {
        1 => Ok(Class::Elf32),
        2 => Ok(Class::Elf64),
        _ => Err(ElfError::Class(class)),
    }
}

/// The order of bytes that a number stands for (`EI_DATA`).
fn order_of(order: u8) -> Result<RunTimeEndian, ElfError>
    ensures { result ≡ order_of order }
{
    match order {
        1 => Ok(RunTimeEndian::Little),
        2 => Ok(RunTimeEndian::Big),
        _ => Err(ElfError::ByteOrder(order)),
    }
}

impl Layout {
    /// How the numbers of a file are encoded, by its first 16 bytes (`e_ident`).
    pub(crate) fn parse(bytes: &[u8]) -> Result<Layout, ElfError>
        ensures { result ≡ layout_at bytes.now }
    {
        if !bytes.starts_with(&MAGIC) {
            return Err(ElfError::NotElf);
        }
        if bytes.len() < 16 {
            return Err(ElfError::HeaderCut);
        }
        let class = class_of(bytes[4])?;
        let order = order_of(bytes[5])?;
        if bytes[6] != 1 {
            return Err(ElfError::Version(bytes[6]));
        }
        Ok(Layout { class, order })
    }

    /// The bytes of an address, and of an offset.
    pub(crate) fn address_size(self) -> u8
        ensures { result ≡ address_size self.class }
    {
        match self.class {
            Class::Elf32 => 4,
            Class::Elf64 => 8,
        }
    }

    /// The bytes of a section header.
    pub(crate) fn section_header_size(self) -> usize
        ensures { result ≡ section_header_size self.class }
    {
        16 + 6 * usize::from(self.address_size())
    }

    /// The number of two bytes at an offset.
    pub(crate) fn half(self, bytes: &[u8], offset: usize) -> u16
        requires { offset + 2 ≤ length bytes.now }
        ensures { result ≡ number_at self 2 offset bytes.now }
    {
        self.order.read_u16(&bytes[offset..])
    }

    /// The number of four bytes at an offset.
    pub(crate) fn word(self, bytes: &[u8], offset: usize) -> u32
        requires { offset + 4 ≤ length bytes.now }
        ensures { result ≡ number_at self 4 offset bytes.now }
    {
        self.order.read_u32(&bytes[offset..])
    }

    /// The address, the offset or the size at an offset.
    pub(crate) fn address(self, bytes: &[u8], offset: usize) -> u64
        requires { offset + address_size self.class ≤ length bytes.now }
        ensures { result ≡ number_at self (address_size self.class) offset bytes.now }
    {
        match self.class {
            Class::Elf32 => u64::from(self.word(bytes, offset)),
            Class::Elf64 => self.order.read_u64(&bytes[offset..]),
        }
    }

    /// The number of so many bytes at an offset.
    pub(crate) fn number(self, width: Width, bytes: &[u8], offset: usize) -> u64
        requires { offset + size_of width ≤ length bytes.now }
        ensures { result ≡ number_at self (size_of width) offset bytes.now }
    {
        match width {
            Width::One => u64::from(bytes[offset]),
            Width::Two => u64::from(self.half(bytes, offset)),
            Width::Four => u64::from(self.word(bytes, offset)),
            Width::Eight => self.order.read_u64(&bytes[offset..]),
        }
    }

    /// Writes the lowest so many bytes of a number at an offset.
    pub(crate) fn put_number(self, width: Width, bytes: &mut [u8], offset: usize, number: u64)
        requires { offset + size_of width ≤ length bytes.old }
        ensures { bytes.new ≡ with_number self (size_of width) offset number bytes.old }
    {
        match width {
            Width::One => bytes[offset] = (number % 0x100) as u8,
            Width::Two => {
                let low = (number % 0x1_0000) as u16;
                self.order.write_u16(&mut bytes[offset..], low);
            }
            Width::Four => {
                let low = (number % 0x1_0000_0000) as u32;
                self.order.write_u32(&mut bytes[offset..], low);
            }
            Width::Eight => self.order.write_u64(&mut bytes[offset..], number),
        }
    }
}
