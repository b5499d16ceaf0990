//! An object file of x86-64 with a line program whose addresses are symbols: it is built, written
//! with relocations, and put next to them for a linker (System V ABI, chapter 4).
#![tactic(auto)]

use crate::make_unit::{print_bytes, write_unit};
use gimli_core::{LittleEndian, SectionId};
use gimli_write::{
    Addends, Address, DebugLine, DebugLineStr, EndianVec, Error, RelocatableVec, Relocation,
    RelocationTarget, Result,
};
use std::alloc::Global;

/// A function of ten bytes: `endbr64; mov eax, 1; ret`, and the same with 2.
const CODE: [&[u8]; 2] = [
    b"\xf3\x0f\x1e\xfa\xb8\x01\0\0\0\xc3",
    b"\xf3\x0f\x1e\xfa\xb8\x02\0\0\0\xc3",
];

/// The names of sections and symbols; a name with which another one ends is stored inside it.
const NAMES: &[u8] = b"\0.text.first\0.text.second\0.rela.debug_line\0.debug_line_str\0\
    .rela.debug_info\0.debug_abbrev\0.symtab\0.strtab\0.rela.debug_aranges\0\
    .rela.debug_rnglists\0.note.GNU-stack\0";

/// The symbol 0, those of the sections `.debug_line_str`, `.debug_line`, `.debug_abbrev`,
/// `.debug_info` and `.debug_rnglists`, and those of both functions: each with its name, its kind,
/// its section, its offset and its size.
const SYMBOLS: &[u8] = b"\0\0\0\0\0\0\0\0\0\0\0\0\0\0\0\0\0\0\0\0\0\0\0\0\
    \0\0\0\0\x03\0\x05\0\0\0\0\0\0\0\0\0\0\0\0\0\0\0\0\0\
    \0\0\0\0\x03\0\x03\0\0\0\0\0\0\0\0\0\0\0\0\0\0\0\0\0\
    \0\0\0\0\x03\0\x08\0\0\0\0\0\0\0\0\0\0\0\0\0\0\0\0\0\
    \0\0\0\0\x03\0\x06\0\0\0\0\0\0\0\0\0\0\0\0\0\0\0\0\0\
    \0\0\0\0\x03\0\x0d\0\0\0\0\0\0\0\0\0\0\0\0\0\0\0\0\0\
    \x07\0\0\0\x12\0\x01\0\0\0\0\0\0\0\0\0\x0a\0\0\0\0\0\0\0\
    \x13\0\0\0\x12\0\x02\0\0\0\0\0\0\0\0\0\x0a\0\0\0\0\0\0\0";

/// A unit of version 5 with one entry (DWARF 5, section 7.5.1.1): its name, its directory, its
/// lines, and its addresses from 0 on. The relocations are those of the abbreviations, the lines
/// and the ranges, which begin 12 bytes after the start of their section.
const UNIT: &[u8] = b"\x20\0\0\0\x05\0\x01\x08\0\0\0\0\x01a.c\0/w\0\0\0\0\0\
    \0\0\0\0\0\0\0\0\0\0\0\0";

const UNIT_RELOCATIONS: &[u8] = b"\x08\0\0\0\0\0\0\0\x0a\0\0\0\x03\0\0\0\0\0\0\0\0\0\0\0\
    \x14\0\0\0\0\0\0\0\x0a\0\0\0\x02\0\0\0\0\0\0\0\0\0\0\0\
    \x20\0\0\0\0\0\0\0\x0a\0\0\0\x05\0\0\0\x0c\0\0\0\0\0\0\0";

/// An entry without children that has these (section 7.5.3).
const ABBREVIATION: &[u8] = b"\x01\x11\0\x03\x08\x1b\x08\x10\x17\x11\x01\x55\x17\0\0\0";

/// The addresses of the unit, by which it is found (section 6.1.2): ten bytes from each function
/// on. The relocations are those of the unit's offset, and of these addresses.
const SPANS: &[u8] = b"\x3c\0\0\0\x02\0\0\0\0\0\x08\0\0\0\0\0\
    \0\0\0\0\0\0\0\0\x0a\0\0\0\0\0\0\0\0\0\0\0\0\0\0\0\x0a\0\0\0\0\0\0\0\
    \0\0\0\0\0\0\0\0\0\0\0\0\0\0\0\0";

const SPAN_RELOCATIONS: &[u8] = b"\x06\0\0\0\0\0\0\0\x0a\0\0\0\x04\0\0\0\0\0\0\0\0\0\0\0\
    \x10\0\0\0\0\0\0\0\x01\0\0\0\x06\0\0\0\0\0\0\0\0\0\0\0\
    \x20\0\0\0\0\0\0\0\x01\0\0\0\x07\0\0\0\0\0\0\0\0\0\0\0";

/// The same addresses, for the unit's entry (section 7.28): DW_RLE_start_length twice, and an end.
const RANGES: &[u8] = b"\x1d\0\0\0\x05\0\x08\0\0\0\0\0\
    \x07\0\0\0\0\0\0\0\0\x0a\x07\0\0\0\0\0\0\0\0\x0a\0";

const RANGE_RELOCATIONS: &[u8] = b"\x0d\0\0\0\0\0\0\0\x01\0\0\0\x06\0\0\0\0\0\0\0\0\0\0\0\
    \x17\0\0\0\0\0\0\0\x01\0\0\0\x07\0\0\0\0\0\0\0\0\0\0\0";

/// The header of a relocatable file of x86-64 with sixteen sections, the tenth of which has their
/// names; the headers of the sections begin after it.
const START: &[u8] = b"\x7fELF\x02\x01\x01\0\0\0\0\0\0\0\0\0\x01\0\x3e\0\x01\0\0\0\
    \0\0\0\0\0\0\0\0\0\0\0\0\0\0\0\0\x40\0\0\0\0\0\0\0\0\0\0\0\x40\0\0\0\0\0\x40\0\x10\0\x0a\0";

/// Prints the bytes of the object file, in hexadecimal digits.
pub fn start(alloc: Global, text: &mut String) -> Result<()> {
    let mut object = Vec::new(alloc);
    make_object(alloc, &mut object)?;
    print_bytes("object", &object, text)
}

/// Appends the object file: two functions, each in a section of its own, their lines, and a unit
/// that leads to the lines.
fn make_object(alloc: Global, object: &mut Vec<u8>) -> Result<()> {
    let section = RelocatableVec::new(alloc, LittleEndian, Addends::Listed);
    let mut lines = DebugLine::from(section);
    let mut texts = DebugLineStr::from(EndianVec::new(alloc, LittleEndian));
    make_with(alloc, &mut lines, &mut texts, object)
}

/// Writes the lines and their texts to empty sections, and appends the object file.
fn make_with(
    alloc: Global,
    lines: &mut DebugLine<RelocatableVec<LittleEndian>>,
    texts: &mut DebugLineStr<EndianVec<LittleEndian>>,
    object: &mut Vec<u8>,
) -> Result<()> {
    write_unit(alloc, [symbol(6), symbol(7)], lines, texts)?;
    let mut relocations = Vec::new(alloc);
    add_relocations(&mut relocations, lines.0.relocations())?;
    add_sections(lines.0.slice(), texts.0.slice(), &relocations, object)
}

/// Appends the sections of the object file, three of which are handed in. Four numbers come before
/// the bytes of a section: where its name is, with its kind; its flags; its link, with its info;
/// and the size of an entry.
fn add_sections<'s>(
    lines: &'s [u8],
    texts: &'s [u8],
    relocations: &'s [u8],
    object: &mut Vec<u8>,
) -> Result<()> {
    let sections = [
        ([0x1_0000_0001, 6, 0, 0], CODE[0]),
        ([0x1_0000_000d, 6, 0, 0], CODE[1]),
        ([0x1_0000_001f, 0, 0, 0], lines),
        ([0x4_0000_001a, 0x40, 0x3_0000_0009, 24], relocations),
        ([0x1_0000_002b, 0x30, 0, 1], texts),
        ([0x1_0000_0040, 0, 0, 0], UNIT),
        ([0x4_0000_003b, 0x40, 0x6_0000_0009, 24], UNIT_RELOCATIONS),
        ([0x1_0000_004c, 0, 0, 0], ABBREVIATION),
        ([0x2_0000_005a, 0, 0x6_0000_000a, 24], SYMBOLS),
        ([0x3_0000_0062, 0, 0, 0], NAMES),
        ([0x1_0000_006f, 0, 0, 0], SPANS),
        ([0x4_0000_006a, 0x40, 0xb_0000_0009, 24], SPAN_RELOCATIONS),
        ([0x1_0000_0083, 0, 0, 0], RANGES),
        ([0x4_0000_007e, 0x40, 0xd_0000_0009, 24], RANGE_RELOCATIONS),
        // Without this one a linker makes the stack executable, and warns.
        ([0x1_0000_0093, 0, 0, 0], b""),
    ];
    add_object(object, &sections)
}

fn symbol(symbol: usize) -> Address {
    Address::Symbol { symbol, addend: 0 }
}

/// Relocations with their addends. Refused for a size that no relocation of x86-64 has, and for a
/// section that the file doesn't have.
fn add_relocations(bytes: &mut Vec<u8>, list: &[Relocation]) -> Result<()> {
    for relocation in list {
        let symbol = match relocation.target {
            RelocationTarget::OfSymbol(symbol) => symbol as u64,
            RelocationTarget::OfSection(SectionId::DebugLineStr) => 1,
            RelocationTarget::OfSection(SectionId::DebugLine) => 2,
            RelocationTarget::OfSection(SectionId::DebugInfo) => 4,
            RelocationTarget::OfSection(SectionId::DebugStr) => return Err(Error::InvalidReference),
        };
        // R_X86_64_8, R_X86_64_16, R_X86_64_32 and R_X86_64_64.
        let kind = match relocation.size {
            1 => 14,
            2 => 12,
            4 => 10,
            8 => 1,
            size => return Err(Error::UnsupportedWordSize(size)),
        };
        let info = symbol.rotate_left(32) | kind;
        let addend = relocation.addend.cast_unsigned();
        add_numbers(bytes, &[relocation.offset as u64, info, addend])?;
    }
    Ok(())
}

/// Numbers of eight bytes.
fn add_numbers(bytes: &mut Vec<u8>, numbers: &[u64]) -> Result<()> {
    for number in numbers {
        bytes.extend_from_slice(&number.to_le_bytes())?;
    }
    Ok(())
}

/// The headers of the file and of its sections, the first of them empty, and the bytes of these.
fn add_object(bytes: &mut Vec<u8>, sections: &[([u64; 4], &[u8])]) -> Result<()> {
    bytes.extend_from_slice(START)?;
    bytes.extend_from_slice(&[0; 64])?;
    let mut offset = 1088u64;
    for (header, section) in sections {
        let [name, flags, link, entry_size] = *header;
        let size = section.len() as u64;
        add_numbers(bytes, &[name, flags, 0, offset, size, link, 1, entry_size])?;
        offset = offset.wrapping_add(size);
    }
    for (_, section) in sections {
        bytes.extend_from_slice(section)?;
    }
    Ok(())
}
