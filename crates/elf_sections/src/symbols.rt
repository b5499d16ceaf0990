//! The symbols of a program, by which its code has names.

ghost use Rattle.std.specs.Prelude.{◌≡◌, ◌≤◌, ◌/◌, length, drop, slice_get};
ghost use Rattle.std.specs.Option.{option_copied, option_map};
ghost use Rattle.elf_sections.specs.Entries.{entries, symbol_size};
ghost use Rattle.elf_sections.specs.Symbols.{layout_of, code_symbol, name_at};
ghost use Rattle.elf_sections.specs.Table.{is_name_at};

use crate::debug_file::name_end;
use crate::entries::Entries;
use crate::layout::{Class, Layout};
use crate::section_table::is_name_at;
use crate::symbol::Symbol;
use gimli_core::RunTimeEndian;

/// A symbol of a program.
#[derive(Clone, Copy, Debug, PartialEq, Eq)]
pub struct CodeSymbol {
    /// The offset of its name in the section of names (`st_name`).
    pub name: u32,
    /// What it stands for, 2 for a function: the lower four bits of `st_info`.
    pub kind: u8,
    /// The index of its section, 0 where it is defined elsewhere (`st_shndx`).
    pub section: u16,
    /// Its address, or in an object file its offset in its section (`st_value`).
    pub address: u64,
    /// How many bytes it has, 0 where that isn't known (`st_size`).
    pub size: u64,
}

/// A symbol table (`.symtab`, `.dynsym`), and the section of its names (`.strtab`, `.dynstr`).
#[derive(Clone, Copy, Debug)]
pub struct SymbolTable<'a> {
    layout: Layout,
    entries: Entries<'a>,
    names: &'a [u8],
    ghost sized: { entries.size ≡ symbol_size layout.class },
}

impl<'a> SymbolTable<'a> {
    /// The table that a section holds, of a program whose addresses have 4 bytes or 8.
    pub fn new(
        is_big_endian: bool,
        address_size: u8,
        section: &'a [u8],
        names: &'a [u8],
    ) -> SymbolTable<'a>
        ensures layout { result.layout ≡ layout_of is_big_endian address_size }
        ensures section { result.entries.bytes ≡ section.entry }
        ensures names { result.names ≡ names.entry }
    {
        let layout = Layout {
            class: if address_size == 4 {
                Class::Elf32
            } else {
                Class::Elf64
            },
            order: if is_big_endian {
                RunTimeEndian::Big
            } else {
                RunTimeEndian::Little
            },
        };
        let entries = Entries {
            bytes: section,
            size: Symbol::size(layout),
        };
        SymbolTable {
            layout,
            entries,
            names,
        }
    }

    /// How many symbols there are. Bytes after the last whole one are passed over.
    pub fn count(&self) -> usize
        ensures { result ≡ length self.now.entries.bytes.now / symbol_size self.now.layout.class }
    {
        self.entries.count()
    }

    /// The symbol of an index; None where there is none.
    pub fn get(&self, index: usize) -> Option<CodeSymbol>
        ensures { result ≡ option_map (code_symbol self.now.layout) (slice_get
            (entries (symbol_size self.now.layout.class) self.now.entries.bytes.now) index) }
    {
        match self.entries.get(index) {
            Some(entry) => Some(CodeSymbol::parse(self.layout, entry)),
            None => None,
        }
    }

    /// The name at an offset in the section of names, which a zero byte ends; None where none does.
    pub fn name(&self, offset: u32) -> Option<&'a [u8]>
        ensures { option_copied result ≡ name_at self.now.names.now offset }
    {
        let text = text_from(self.names, offset as usize);
        match name_end(text) {
            Some(end) => Some(&text[..end]),
            None => None,
        }
    }

    /// Whether the name at an offset in the section of names is this one. It looks at no more bytes
    /// than this one has, whatever the length of the other.
    pub fn is_name(&self, offset: u32, name: &[u8]) -> bool
        ensures { result ≡ is_name_at self.now.names.now offset name.now }
    {
        is_name_at(self.names, offset, name)
    }
}

/// The bytes from an offset on; none past the last.
fn text_from(names: &[u8], offset: usize) -> &[u8]
    ensures { result.now ≡ drop offset names.now }
{
    if offset < names.len() {
        &names[offset..]
    } else {
        &[]
    }
}

impl CodeSymbol {
    /// The symbol that bytes begin with.
    fn parse(layout: Layout, bytes: &[u8]) -> CodeSymbol
        requires { symbol_size layout.class ≤ length bytes.now }
        ensures { result ≡ code_symbol layout bytes.now }
    {
        match layout.class {
            Class::Elf32 => CodeSymbol {
                name: layout.word(bytes, 0),
                kind: bytes[12] % 16,
                section: layout.half(bytes, 14),
                address: layout.address(bytes, 4),
                size: layout.address(bytes, 8),
            },
            Class::Elf64 => CodeSymbol {
                name: layout.word(bytes, 0),
                kind: bytes[4] % 16,
                section: layout.half(bytes, 6),
                address: layout.address(bytes, 8),
                size: layout.address(bytes, 16),
            },
        }
    }
}
