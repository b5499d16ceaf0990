//! The entries of relocation sections.

ghost use Rattle.std.specs.Prelude.{◌≡◌, ◌+◌, ◌*◌, ◌/◌, ◌%◌, ◌≤◌, length};
ghost use Rattle.elf_sections.specs.Layout.{address_size, number_at};
ghost use Rattle.elf_sections.specs.Relocation.{fields, relocation_size, kinds, signed_of};
ghost use Rattle.elf_sections.specs.Relocation.{addend_of, info_of, relocation, of_machine};
ghost use Rattle.elf_sections.specs.Relocation.{swapped};

use crate::layout::{Class, Layout};
use crate::machine::MIPS;
use gimli_core::RunTimeEndian;

/// How the entries of a section are noted.
#[derive(Clone, Copy)]
pub(crate) enum Form {
    /// The addend stands at the place (`SHT_REL`).
    Rel,
    /// The addend stands in the entry (`SHT_RELA`).
    Rela,
}

/// An entry of a relocation section.
#[derive(Clone, Copy)]
pub(crate) struct Relocation {
    /// The offset of the place in its section (`r_offset`).
    pub(crate) offset: u64,
    /// The index of the symbol (`ELF64_R_SYM`).
    pub(crate) symbol: u32,
    /// What is done with the place (`ELF64_R_TYPE`).
    pub(crate) kind: u32,
    /// What is added to the symbol's value, modulo 2^64 (`r_addend`).
    pub(crate) addend: Option<u64>,
}

impl Relocation {
    /// The bytes of an entry.
    pub(crate) fn size(layout: Layout, form: Form) -> usize
        ensures { result ≡ relocation_size layout.class form }
    {
        let address = usize::from(layout.address_size());
        match form {
            Form::Rel => 2 * address,
            Form::Rela => 3 * address,
        }
    }

    /// The entry that bytes begin with.
    pub(crate) fn parse(layout: Layout, form: Form, bytes: &[u8]) -> Relocation
        requires { relocation_size layout.class form ≤ length bytes.now }
        ensures { result ≡ relocation layout form bytes.now }
    {
        let (symbol, kind) = symbol_and_kind(layout, bytes);
        Relocation {
            offset: layout.address(bytes, 0),
            symbol,
            kind,
            addend: addend_of(layout, form, bytes),
        }
    }

    /// The entry as the machine has it: in little-endian files of 64 bits for MIPS, `r_info` is the
    /// word of the symbol and four bytes, of which the last is the kind.
    pub(crate) fn of_machine(self, machine: u16, layout: Layout) -> Relocation
        ensures { result ≡ of_machine machine layout self }
    {
        match (layout.class, layout.order) {
            (Class::Elf64, RunTimeEndian::Little) if machine == MIPS => Relocation {
                symbol: self.kind,
                kind: swapped(self.symbol),
                ..self
            },
            _ => self,
        }
    }
}

/// The bytes of a word, in the other order.
fn swapped(word: u32) -> u32
    ensures { result ≡ swapped word }
{
    word % 0x100 * 0x100_0000
        + word / 0x100 % 0x100 * 0x1_0000
        + word / 0x1_0000 % 0x100 * 0x100
        + word / 0x100_0000
}

/// The symbol and the kind of an entry (`r_info`).
fn symbol_and_kind(layout: Layout, bytes: &[u8]) -> (u32, u32)
    requires { 2 * address_size layout.class ≤ length bytes.now }
    ensures symbol { result.0 ≡ info_of layout bytes.now / kinds layout.class }
    ensures kind { result.1 ≡ info_of layout bytes.now % kinds layout.class }
{
    match layout.class {
        Class::Elf32 => {
            let info = layout.word(bytes, 4);
            (info / 0x100, info % 0x100)
        }
        Class::Elf64 => {
            let info = layout.address(bytes, 8);
            ((info / 0x1_0000_0000) as u32, (info % 0x1_0000_0000) as u32)
        }
    }
}

/// The addend of an entry (`r_addend`).
fn addend_of(layout: Layout, form: Form, bytes: &[u8]) -> Option<u64>
    requires { relocation_size layout.class form ≤ length bytes.now }
    ensures { result ≡ addend_of layout form bytes.now }
{
    match form {
        Form::Rel => None,
        Form::Rela => {
            let address = usize::from(layout.address_size());
            Some(signed_at(layout, bytes, 2 * address))
        }
    }
}

/// The number of an address's size at an offset, which may be negative, in 64 bits.
fn signed_at(layout: Layout, bytes: &[u8], offset: usize) -> u64
    requires { offset + address_size layout.class ≤ length bytes.now }
    ensures { result ≡ signed_of layout.class
        (number_at layout (address_size layout.class) offset bytes.now) }
{
    match layout.class {
        Class::Elf32 => sign_extended(layout.word(bytes, offset)),
        Class::Elf64 => layout.address(bytes, offset),
    }
}

/// A number of 32 bits that may be negative, in 64 bits.
fn sign_extended(word: u32) -> u64
    ensures { result ≡ signed_of Class.Elf32 word }
{
    let word = u64::from(word);
    if word < 0x8000_0000 {
        word
    } else {
        word + 0xffff_ffff_0000_0000
    }
}
