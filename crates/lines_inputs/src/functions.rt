//! The names of code, by the symbols of a program.

use crate::code_layout::CodeLayout;
use elf_sections::{CodeSymbol, SymbolTable};
use std::alloc::{AllocError, Global};
use std::collections::BTreeMap;

/// A symbol that is a function (`STT_FUNC`).
const FUNCTION: u8 = 2;

/// A function that chooses another as the program begins (`STT_GNU_IFUNC`).
const CHOOSING: u8 = 10;

/// How many bytes of a name, from its beginning on, make its key.
const KEYED: usize = 64;

/// The code of a function. Of several that begin at one address the greatest counts, and of these
/// the first in the table.
#[derive(Clone, Copy, PartialEq, Eq, PartialOrd, Ord)]
pub(crate) struct CodeRange {
    pub(crate) start: u64,
    size: u64,
    /// How many symbols are left from it on.
    left: usize,
    pub(crate) name: u32,
    /// The index of its section.
    section: u16,
    /// Where its section ends.
    section_end: u64,
}

/// A function by the key of its name.
#[derive(Clone, Copy, PartialEq, Eq, PartialOrd, Ord)]
struct NamedRange {
    key: u64,
    /// Which of the ranges it is.
    index: usize,
}

/// The functions of a program, in the order of their addresses.
#[derive(Drop)]
pub struct Functions<'n> {
    pub(crate) table: SymbolTable<'n>,
    pub(crate) names: &'n [u8],
    /// Where the sections of code of an object file are placed; none of another program.
    layout: &'n CodeLayout,
    pub(crate) ranges: Vec<CodeRange>,
    /// The functions in the order of their keys, once these are sorted.
    named: Vec<NamedRange>,
}

impl<'n> Functions<'n> {
    /// The functions among the symbols that are in sections of code: of all sections, each where an
    /// object file's `layout` places it, or of one section only. `code_ends` has the end of the
    /// code of each section, by its index.
    pub(crate) fn new(
        alloc: Global,
        table: SymbolTable<'n>,
        names: &'n [u8],
        layout: &'n CodeLayout,
        section: Option<u16>,
        code_ends: &[u64],
    ) -> Result<Functions<'n>, AllocError> {
        let mut ranges = Vec::new(alloc);
        let count = table.count();
        for index in 0..count {
            let Some(symbol) = table.get(index) else {
                continue;
            };
            let section_end = *code_ends.get(usize::from(symbol.section)).unwrap_or(&0);
            if is_function(symbol, section) && symbol.address < section_end {
                let start = layout.start_of(symbol.section);
                ranges.push(CodeRange {
                    start: start.saturating_add(symbol.address),
                    size: symbol.size,
                    left: count.saturating_sub(index),
                    name: symbol.name,
                    section: symbol.section,
                    section_end: start.saturating_add(section_end),
                })?;
            }
        }
        ranges.sort()?;
        Ok(Functions {
            table,
            names,
            layout,
            ranges,
            named: Vec::new(alloc),
        })
    }

    /// Sorts the functions by their names. Call it before you look up many: each is then found
    /// without a search through all.
    pub fn sort_names(&mut self, alloc: Global) -> Result<(), AllocError> {
        let mut named = Vec::with_capacity(alloc, self.ranges.len())?;
        for (index, range) in self.ranges.iter().enumerate() {
            let name = self.names.get(range.name as usize..).unwrap_or(&[]);
            let key = key_of(name);
            named.push(NamedRange { key, index })?;
        }
        named.sort()?;
        self.named = named;
        Ok(())
    }

    /// The last function that begins at an address or below it.
    fn last_to(&self, address: u64) -> Option<&CodeRange> {
        let after = self.ranges.partition_point(|range| range.start <= address);
        self.ranges.get(after.checked_sub(1)?)
    }

    /// The name of the function that holds an address.
    pub fn name_at(&self, address: u64) -> Option<&'n [u8]> {
        let range = self.last_to(address)?;
        if address >= self.end_of(range) {
            return None;
        }
        self.table.name(range.name)
    }

    /// Where the function that begins at an address ends, or where the next one begins, if that
    /// comes first.
    pub fn end_from(&self, address: u64) -> Option<u64> {
        let range = self.last_to(address)?;
        if range.start != address {
            return None;
        }
        let after = self.ranges.partition_point(|range| range.start <= address);
        let end = self.end_of(range);
        Some(match self.ranges.get(after) {
            Some(next) => end.min(next.start),
            None => end,
        })
    }

    /// The first function of a name.
    fn first_of(&self, name: &[u8]) -> Option<&CodeRange> {
        if self.named.is_empty() {
            let mut ranges = self.ranges.iter();
            return ranges.find(|range| self.table.is_name(range.name, name));
        }
        let key = key_of(name);
        let from = self.named.partition_point(|named| named.key < key);
        for named in self.named.get(from..)? {
            let range = self.ranges.get(named.index)?;
            if named.key != key {
                return None;
            }
            if self.table.is_name(range.name, name) {
                return Some(range);
            }
        }
        None
    }

    /// Where the functions of a name begin, in ascending order, each address once.
    pub fn starts_of(&self, alloc: Global, name: &[u8]) -> Result<Vec<u64>, AllocError> {
        // Symbols may share a name, whose bytes are compared once.
        let mut known = BTreeMap::new(alloc);
        let mut starts = Vec::new(alloc);
        for range in &self.ranges {
            if self.has_name(range, name, &mut known)? && starts.last() != Some(&range.start) {
                starts.push(range.start)?;
            }
        }
        Ok(starts)
    }

    /// Whether a function has a name. `known` keeps the answers so far, by the offset in the table
    /// of names.
    fn has_name(
        &self,
        range: &CodeRange,
        name: &[u8],
        known: &mut BTreeMap<u32, bool>,
    ) -> Result<bool, AllocError> {
        if let Some(is_name) = known.get(&range.name) {
            return Ok(*is_name);
        }
        let is_name = self.table.is_name(range.name, name);
        known.insert(range.name, is_name)?;
        Ok(is_name)
    }

    /// The addresses of the first function of a name: where it begins, and where it ends.
    pub fn range_of(&self, name: &[u8]) -> Option<(u64, u64)> {
        let range = self.first_of(name)?;
        Some((range.start, self.end_of(range)))
    }

    /// The index of the section of the first function of a name. None where there is none.
    pub fn section_of(&self, name: &[u8]) -> Option<u16> {
        let range = self.first_of(name)?;
        Some(range.section)
    }

    /// The address at an offset in the first function of a name. None where there is none.
    pub fn address_in(&self, name: &str, offset: u64) -> Option<u64> {
        let (start, _) = self.range_of(name.as_bytes())?;
        start.checked_add(offset)
    }

    /// The name of the section that has an address, and the offset in it, where the sections of an
    /// object file are placed. None in another program.
    pub fn place_of(&self, address: u64) -> Option<(&'n [u8], u64)> {
        self.layout.place_of(address)
    }

    /// Where a function ends, within its section. One whose bytes aren't counted ends where the
    /// next begins.
    fn end_of(&self, range: &CodeRange) -> u64 {
        let start = range.start;
        let after = self.ranges.partition_point(|range| range.start <= start);
        let end = match self.ranges.get(after) {
            Some(next) if range.size == 0 => next.start,
            None if range.size == 0 => u64::MAX,
            _ => start.saturating_add(range.size),
        };
        end.min(range.section_end)
    }
}

/// The key of the name that bytes begin with, which a zero byte or their end ends.
pub(crate) fn key_of(bytes: &[u8]) -> u64 {
    let mut key = 0u64;
    for byte in bytes.iter().take(KEYED) {
        if *byte == 0 {
            break;
        }
        // The prime of FNV-1a of 64 bits.
        key = (key ^ u64::from(*byte)).wrapping_mul(0x100_0000_01b3);
    }
    key
}

/// Whether a symbol is a function of the program, or of one of its sections.
fn is_function(symbol: CodeSymbol, section: Option<u16>) -> bool {
    let is_there = section.is_none_or(|section| symbol.section == section);
    is_there && (symbol.kind == FUNCTION || symbol.kind == CHOOSING)
}
