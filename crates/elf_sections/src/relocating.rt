//! The relocations of an object file's sections.

ghost use Rattle.std.specs.Prelude.{◌≡◌, ◌+◌, ◌≤◌, filter, length, slice_get, nat_lt, IfOk};
ghost use Rattle.std.specs.Prelude.{if◌then◌else◌};
ghost use Rattle.gimli_core.specs.Reading.{result_map};
ghost use Rattle.elf_sections.specs.declared.error.ElfError.TheVariants.{RelocationOutside};
ghost use Rattle.elf_sections.specs.Gives.{Gives};
ghost use Rattle.elf_sections.specs.Steps.{steps};
ghost use Rattle.elf_sections.specs.Entries.{entries, symbol_size, symbols_in};
ghost use Rattle.elf_sections.specs.Machine.{size_of};
ghost use Rattle.elf_sections.specs.Relocation.{relocation_size, relocates};
ghost use Rattle.elf_sections.specs.Relocating.{is_in_memory, address_of, with_addend};
ghost use Rattle.elf_sections.specs.Relocating.{address_value};
ghost use Rattle.elf_sections.specs.Relocating.{value_of, changed, applied, entry_applied};
ghost use Rattle.elf_sections.specs.Relocating.{section_applied};
ghost use Rattle.elf_sections.specs.Relocating.{all_applied, room_after};

use crate::elf::Elf;
use crate::entries::Entries;
use crate::error::ElfError;
use crate::machine::{Change, Operation, Width, change_of};
use crate::place::SectionPlace;
use crate::relocation::{Form, Relocation};
use crate::section_bytes::SectionBytes;
use crate::section_header::SectionHeader;
use crate::symbol::Symbol;
use std::alloc::Global;

/// An index that is kept elsewhere (`SHN_XINDEX`).
const XINDEX: u16 = 0xffff;

/// The relocations of a file, and which addresses count.
#[derive(Clone, Copy)]
pub(crate) struct Relocator<'a> {
    pub(crate) elf: Elf<'a>,
    pub(crate) place: SectionPlace,
}

/// A number and the addend of an entry, modulo 2^64. An entry without an addend has it at the
/// place.
fn with_addend(addend: Option<u64>, old: u64, number: u64) -> u64
    ensures { result ≡ with_addend addend old number }
{
    match addend {
        Some(addend) => number.wrapping_add(addend),
        None => number.wrapping_add(old),
    }
}

/// An address and the addend of an entry, or all ones where there is no address.
fn address_value(addend: Option<u64>, old: u64, address: Option<u64>) -> u64
    ensures { result ≡ address_value addend old address }
{
    match address {
        Some(address) => with_addend(addend, old, address),
        None => u64::MAX,
    }
}

/// The bytes that are left of so many, once a section of relocations takes its own.
fn room_after(room: u64, header: &SectionHeader) -> Result<u64, ElfError>
    ensures { result ≡ room_after room header.now }
{
    match room.checked_sub(header.size) {
        Some(room) => Ok(room),
        None => Err(ElfError::RelocationsTooLarge),
    }
}

/// The offset of a place of so many bytes, which has to be within these bytes.
fn offset_in(bytes: &[u8], offset: u64, width: Width) -> Result<usize, ElfError>
    ensures { result ≡ (if nat_lt (length bytes.now) (offset + size_of width)
        then Err RelocationOutside else Ok offset) }
{
    match offset.checked_add(width.size() as u64) {
        Some(end) if end <= bytes.len() as u64 => Ok(offset as usize),
        _ => Err(ElfError::RelocationOutside),
    }
}

impl<'a> Relocator<'a> {
    ghost use Rattle.elf_sections.specs.Elf.{file_of};
    ghost use Rattle.elf_sections.specs.SectionBytes.{bytes_of};

    /// What the section of an index holds, relocated.
    pub(crate) fn relocated(
        &self,
        alloc: Global,
        index: usize,
        bytes: SectionBytes<'_>,
    ) -> Result<Vec<u8>, ElfError>
        ensures { Gives (λ made. made.items) result
            (all_applied (file_of self.now.elf) self.now.place index (bytes_of bytes.entry)) }
    {
        self.fit(index)?;
        let mut made = bytes.into_vec(alloc)?;
        self.apply_all(index, &mut made)?;
        Ok(made)
    }

    /// Checks that the sections of relocations of the section of an index have no more bytes than
    /// the file.
    fn fit(&self, index: usize) -> Result<u64, ElfError>
        ensures { let file = file_of self.now.elf in result
            ≡ steps room_after (length file.bytes) (filter (relocates index) file.headers) }
    {
        let mut room = self.elf.bytes.len() as u64;
        for other in 0..self.elf.table.len() {
            let header = self.elf.table.header(other);
            if header.relocates(index) {
                room = room_after(room, &header)?;
            }
        }
        Ok(room)
    }

    /// Applies the sections of relocations of the section of an index.
    fn apply_all(&self, index: usize, bytes: &mut [u8]) -> Result<(), ElfError>
        ensures { result_map (λ _. bytes.new) result
            ≡ steps (section_applied (file_of self.now.elf) self.now.place) bytes.old
            (filter (relocates index) (file_of self.now.elf).headers) }
    {
        for other in 0..self.elf.table.len() {
            let header = self.elf.table.header(other);
            if header.relocates(index) {
                self.apply_section(&header, bytes)?;
            }
        }
        Ok(())
    }

    /// Applies the entries of a section of relocations.
    fn apply_section(&self, header: &SectionHeader, bytes: &mut [u8]) -> Result<(), ElfError>
        ensures { result_map (λ _. bytes.new) result
            ≡ section_applied (file_of self.now.elf) self.now.place bytes.old header.now }
    {
        let form = header.form();
        let smallest = Relocation::size(self.elf.layout, form);
        let all = Entries::parse(self.elf.bytes, smallest, header)?;
        let symbols = self.symbols(header.link)?;
        self.apply_entries(form, &all, &symbols, bytes)
    }

    /// The entries of the symbol table of an index.
    fn symbols(&self, index: u32) -> Result<Entries<'a>, ElfError>
        ensures read { let file = file_of self.now.elf in
            result_map (λ all. entries all.size all.bytes.now) result
            ≡ symbols_in file.layout file.bytes (slice_get file.headers index) }
        ensures wide { IfOk result (λ all. symbol_size self.now.elf.layout.class ≤ all.size) }
    {
        match self.elf.table.get(index as usize) {
            Some(header) if header.is_symbol_table() => {
                Entries::parse(self.elf.bytes, Symbol::size(self.elf.layout), &header)
            }
            _ => Err(ElfError::NoSymbols),
        }
    }

    /// Applies entries, in order.
    fn apply_entries(
        &self,
        form: Form,
        all: &Entries<'_>,
        symbols: &Entries<'_>,
        bytes: &mut [u8],
    ) -> Result<(), ElfError>
        requires wide { relocation_size self.now.elf.layout.class form ≤ all.now.size }
        requires symbols { symbol_size self.now.elf.layout.class ≤ symbols.now.size }
        ensures { result_map (λ _. bytes.new) result ≡ steps
            (entry_applied (file_of self.now.elf) self.now.place form
            (entries symbols.now.size symbols.now.bytes.now))
            bytes.old (entries all.now.size all.now.bytes.now) }
    {
        for index in 0..all.count() {
            let noted = Relocation::parse(self.elf.layout, form, all.at(index));
            let entry = noted.of_machine(self.elf.machine, self.elf.layout);
            self.apply(&entry, symbols, bytes)?;
        }
        Ok(())
    }

    /// Applies an entry.
    fn apply(
        &self,
        entry: &Relocation,
        symbols: &Entries<'_>,
        bytes: &mut [u8],
    ) -> Result<(), ElfError>
        requires { symbol_size self.now.elf.layout.class ≤ symbols.now.size }
        ensures { result_map (λ _. bytes.new) result
            ≡ applied (file_of self.now.elf) self.now.place
            (entries symbols.now.size symbols.now.bytes.now) bytes.old entry.now }
    {
        match change_of(self.elf.machine, entry.kind)? {
            Change::Nothing => Ok(()),
            Change::Number(operation, width) => {
                let symbol = Symbol::at(self.elf.layout, symbols, entry.symbol)?;
                self.change(operation, width, entry, symbol, bytes)
            }
        }
    }

    /// Changes the number at the place of an entry.
    fn change(
        &self,
        operation: Operation,
        width: Width,
        entry: &Relocation,
        symbol: Symbol,
        bytes: &mut [u8],
    ) -> Result<(), ElfError>
        ensures { result_map (λ _. bytes.new) result
            ≡ changed (file_of self.now.elf) self.now.place operation (size_of width) entry.now
            symbol bytes.old }
    {
        let offset = offset_in(bytes, entry.offset, width)?;
        let old = self.elf.layout.number(width, bytes, offset);
        let value = self.value_of(operation, symbol, entry.addend, old)?;
        let number = operation.number_after(old, value);
        self.elf.layout.put_number(width, bytes, offset, number);
        Ok(())
    }

    /// The value that an entry puts at its place, adds to it or subtracts from it.
    fn value_of(
        &self,
        operation: Operation,
        symbol: Symbol,
        addend: Option<u64>,
        old: u64,
    ) -> Result<u64, ElfError>
        ensures { result ≡ value_of operation (file_of self.now.elf).headers self.now.place
            symbol addend old }
    {
        match operation {
            Operation::Address => {
                let address = self.address_of(symbol)?;
                Ok(address_value(addend, old, address))
            }
            _ => Ok(with_addend(addend, old, symbol.value)),
        }
    }

    /// The address of a symbol; None where it doesn't count.
    fn address_of(&self, symbol: Symbol) -> Result<Option<u64>, ElfError>
        ensures { result ≡ address_of (file_of self.now.elf).headers self.now.place symbol }
    {
        let SectionPlace::Only(index) = self.place else {
            return Ok(Some(symbol.value));
        };
        if symbol.section == XINDEX {
            return Err(ElfError::SymbolSection);
        }
        let section = usize::from(symbol.section);
        if section != index && self.is_in_memory(section) {
            return Ok(None);
        }
        Ok(Some(symbol.value))
    }

    /// Whether there is a section of an index that is in memory when the program runs.
    fn is_in_memory(&self, index: usize) -> bool
        ensures { result ≡ is_in_memory (slice_get (file_of self.now.elf).headers index) }
    {
        match self.elf.table.get(index) {
            Some(header) => header.is_in_memory(),
            None => false,
        }
    }
}
