//! The addresses in the line programs of an object file, moved to where its sections are placed.

ghost use Rattle.std.specs.Prelude.{◌≤◌};

use crate::code_layout::{CodeLayout, word_at};
use elf_sections::SymbolTable;
use gimli_core::{Endianity, RunTimeEndian};

/// The machine of MIPS, whose relocations of 64 bits have the symbol first (`EM_MIPS`).
const MIPS: u32 = 8;

/// The operation that sets the address (`DW_LNE_set_address`; DWARF 5, section 7.22).
const SET_ADDRESS: u8 = 2;

/// How the relocations of an object file are read.
#[derive(Clone, Copy)]
pub(crate) struct Relocations<'m> {
    pub(crate) order: RunTimeEndian,
    /// Whether addresses have 8 bytes, and not 4.
    pub(crate) is_64_bit: bool,
    /// The first bytes of the file (System V ABI, chapter 4).
    pub(crate) file: &'m [u8],
    pub(crate) symbols: SymbolTable<'m>,
    pub(crate) layout: &'m CodeLayout,
}

impl Relocations<'_> {
    /// Moves the addresses that relocations name: each by the start of the section that has its
    /// symbol. What is no operand of `DW_LNE_set_address` stays.
    pub(crate) fn move_addresses(&self, entries: &[u8], has_addend: bool, lines: &mut [u8]) {
        for entry in entries.chunks_exact(self.entry_size(has_addend)) {
            if let Some((offset, start)) = self.parse(entry) {
                self.move_address(offset, start, lines);
            }
        }
    }

    /// How many bytes a relocation has (`Elf32_Rel`, `Elf32_Rela`, `Elf64_Rel`, `Elf64_Rela`).
    fn entry_size(&self, has_addend: bool) -> usize
        ensures { 8 ≤ result }
    {
        match (self.is_64_bit, has_addend) {
            (false, false) => 8,
            (false, true) => 12,
            (true, false) => 16,
            (true, true) => 24,
        }
    }

    /// The place that a relocation changes, and the start of the section of its symbol. None where
    /// that section isn't placed.
    fn parse(&self, entry: &[u8]) -> Option<(usize, u64)> {
        let (offset, symbol) = if self.is_64_bit {
            (
                self.long_at(entry)?,
                word_at(self.order, entry, self.place_of_symbol())?,
            )
        } else {
            let offset = word_at(self.order, entry, 0)?;
            (u64::from(offset), word_at(self.order, entry, 4)? >> 8)
        };
        let symbol = self.symbols.get(symbol as usize)?;
        let start = self.layout.start_of(symbol.section);
        if start == 0 {
            return None;
        }
        Some((usize::try_from(offset).ok()?, start))
    }

    /// Where the number of a symbol is in a relocation of 64 bits: in the higher half of `r_info`,
    /// but on MIPS in its first four bytes, in either byte order.
    fn place_of_symbol(&self) -> usize {
        if self.order.is_big_endian() || self.machine() == Some(MIPS) {
            8
        } else {
            12
        }
    }

    /// The machine of the file (`e_machine`, at byte 18; `e_version` follows it).
    fn machine(&self) -> Option<u32> {
        let word = word_at(self.order, self.file, 18)?;
        Some(if self.order.is_big_endian() {
            word >> 16
        } else {
            word & 0xffff
        })
    }

    /// The number of the first eight bytes.
    fn long_at(&self, bytes: &[u8]) -> Option<u64> {
        if bytes.len() < 8 {
            return None;
        }
        Some(self.order.read_u64(bytes))
    }

    /// Moves the address at an offset, if it is the operand of `DW_LNE_set_address`: before it
    /// stand 0, the length of the instruction and its operation (DWARF 5, section 6.2.3).
    fn move_address(&self, offset: usize, start: u64, lines: &mut [u8]) {
        let width = if self.is_64_bit { 8 } else { 4 };
        let before = offset
            .checked_sub(3)
            .and_then(|from| lines.get(from..offset));
        match before {
            Some([0, length, SET_ADDRESS]) if usize::from(*length) == width + 1 => {}
            _ => return,
        }
        let Some(operand) = lines.get_mut(offset..) else {
            return;
        };
        if operand.len() >= width {
            self.add(start, operand);
        }
    }

    /// Adds to the address that bytes begin with.
    fn add(&self, start: u64, operand: &mut [u8]) {
        if self.is_64_bit && operand.len() >= 8 {
            let address = self.order.read_u64(operand);
            self.order.write_u64(operand, address.wrapping_add(start));
        } else if operand.len() >= 4 {
            let address = self.order.read_u32(operand);
            let start = u32::try_from(start).unwrap_or(0);
            self.order.write_u32(operand, address.wrapping_add(start));
        }
    }
}
