//! Symbols.

ghost use Rattle.std.specs.Prelude.{◌≡◌, ◌≤◌, length};
ghost use Rattle.elf_sections.specs.Entries.{entries, symbol_size, symbol, symbol_at};

use crate::entries::Entries;
use crate::error::ElfError;
use crate::layout::{Class, Layout};

/// A symbol.
#[derive(Clone, Copy)]
pub(crate) struct Symbol {
    /// Its offset in its section (`st_value`).
    pub(crate) value: u64,
    /// The index of its section (`st_shndx`).
    pub(crate) section: u16,
}

impl Symbol {
    /// The bytes of an entry of a symbol table.
    pub(crate) fn size(layout: Layout) -> usize
        ensures { result ≡ symbol_size layout.class }
    {
        match layout.class {
            Class::Elf32 => 16,
            Class::Elf64 => 24,
        }
    }

    /// The symbol that bytes begin with.
    fn parse(layout: Layout, bytes: &[u8]) -> Symbol
        requires { symbol_size layout.class ≤ length bytes.now }
        ensures { result ≡ symbol layout bytes.now }
    {
        match layout.class {
            Class::Elf32 => Symbol {
                value: layout.address(bytes, 4),
                section: layout.half(bytes, 14),
            },
            Class::Elf64 => Symbol {
                value: layout.address(bytes, 8),
                section: layout.half(bytes, 6),
            },
        }
    }

    /// The symbol of an index in a table.
    pub(crate) fn at(layout: Layout, table: &Entries<'_>, index: u32) -> Result<Symbol, ElfError>
        requires { symbol_size layout.class ≤ table.now.size }
        ensures { result ≡ symbol_at layout (entries table.now.size table.now.bytes.now) index }
    {
        match table.get(index as usize) {
            Some(entry) => Ok(Symbol::parse(layout, entry)),
            None => Err(ElfError::SymbolOutside(index)),
        }
    }
}
