//! The sections of object files: compressed, and relocated; files that aren't read whole; and the
//! debug files of programs. `readelf -h -S -z -x -R` prints the same of each section.

use crate::{Found, first_false};
use debug_files::{Outline, Refusal, checksum};
use elf_sections::SectionPlace::{self, AllAtZero, Only};
use elf_sections::{Elf, ElfError};
use inflate::Error::OutputSmaller;
use std::alloc::Global;
use std::io::Cursor;

/// An object file of 32-bit RISC-V, put together by hand. Its `.debug_line` is compressed by zlib
/// (`SHF_COMPRESSED`): 01 00 00 00, 10 00, 2c, 00 00 00 00, 07. Its relocations put `.text.b` + 3
/// at 0, add 6, the difference of two symbols of `.text`, at 4, and put `.debug_str` + 5 at 7.
/// `.text` is section 1, and `.text.b` section 2.
const RISCV: &[u8] =
    b"\x7fELF\x01\x01\x01\0\0\0\0\0\0\0\0\0\x01\0\xf3\0\x01\0\0\0\0\0\0\0\0\0\0\00\x01\0\0\0\0\
    \0\04\0\0\0\0\0(\0\x08\0\x07\0\0\0\0\0\0\0\0\0\0\0\0\0\0a.c\0b.c\0\x01\0\0\0\x0c\0\0\0\
    \x01\0\0\0x\xdacd``\x10`\xd0\x01\x92\x0c\xec\0\x01\xa7\0E\0\0\0\0\x01\x02\0\0\x01\0\0\0\
    \x04\0\0\0\x22\x03\0\0\0\0\0\0\x04\0\0\0&\x01\0\0\0\0\0\0\x07\0\0\0\x01\x04\0\0\x05\0\0\
    \0\0\0\0\0\0\0\0\0\0\0\0\0\0\0\0\0\0\0\0\0\0\0\0\0\0\0\0\0\x03\0\x01\0\0\0\0\0\x02\0\0\0\
    \0\0\0\0\x03\0\x02\0\0\0\0\0\x06\0\0\0\0\0\0\0\x03\0\x01\0\0\0\0\0\0\0\0\0\0\0\0\0\x03\0\
    \x03\0\0.text\0.text.b\0.debug_str\0.debug_line\0.rela.debug_line\0.symtab\0.shstrtab\0\
    \0\0\0\0\0\0\0\0\0\0\0\0\0\0\0\0\0\0\0\0\0\0\0\0\0\0\0\0\0\0\0\0\0\0\0\0\0\0\0\0\x01\0\0\
    \0\x01\0\0\0\x06\0\0\0\0\0\0\04\0\0\0\x08\0\0\0\0\0\0\0\0\0\0\0\x01\0\0\0\0\0\0\0\x07\0\
    \0\0\x01\0\0\0\x06\0\0\0\0\0\0\0<\0\0\0\x04\0\0\0\0\0\0\0\0\0\0\0\x01\0\0\0\0\0\0\0\x0f\
    \0\0\0\x01\0\0\0\0\0\0\0\0\0\0\0@\0\0\0\x09\0\0\0\0\0\0\0\0\0\0\0\x01\0\0\0\0\0\0\0\x1a\
    \0\0\0\x01\0\0\0\0\x08\0\0\0\0\0\0I\0\0\0\x1e\0\0\0\0\0\0\0\0\0\0\0\x01\0\0\0\0\0\0\0&\0\
    \0\0\x04\0\0\0\0\0\0\0\0\0\0\0g\0\0\00\0\0\0\x06\0\0\0\x04\0\0\0\x01\0\0\0\x0c\0\0\07\0\
    \0\0\x02\0\0\0\0\0\0\0\0\0\0\0\x97\0\0\0P\0\0\0\0\0\0\0\x04\0\0\0\x01\0\0\0\x10\0\0\0?\0\
    \0\0\x03\0\0\0\0\0\0\0\0\0\0\0\xe7\0\0\0I\0\0\0\0\0\0\0\0\0\0\0\x01\0\0\0\0\0\0\0";

/// An object file of ARM whose most significant byte comes first. Its `.zdebug_line` holds
/// 00 00 00 04, 00 00 00 02 in the older form, and 0x100 and 0x200 are added to these (`SHT_REL`).
const ARM: &[u8] =
    b"\x7fELF\x01\x02\x01\0\0\0\0\0\0\0\0\0\0\x01\0(\0\0\0\x01\0\0\0\0\0\0\0\0\0\0\0\xcf\0\0\0\
    \0\04\0\0\0\0\0(\0\x06\0\x05\0\0\0\0\0\0\0\0ZLIB\0\0\0\0\0\0\0\x08x\xdac```a```\x02\0\0\
    \x1e\0\x07\0\0\0\0\0\0\x01\x02\0\0\0\x04\0\0\x02\x02\0\0\0\0\0\0\0\0\0\0\0\0\0\0\0\0\0\0\
    \0\0\0\0\x01\0\0\0\0\0\x03\0\0\x01\0\0\0\0\0\0\x02\0\0\0\0\0\x03\0\0\x01\0.text\0.zdebug\
    _line\0.rel.zdebug_line\0.symtab\0.shstrtab\0\0\0\0\0\0\0\0\0\0\0\0\0\0\0\0\0\0\0\0\0\0\
    \0\0\0\0\0\0\0\0\0\0\0\0\0\0\0\0\0\0\0\0\0\0\x01\0\0\0\x01\0\0\0\x06\0\0\0\0\0\0\04\0\0\
    \0\x08\0\0\0\0\0\0\0\0\0\0\0\x01\0\0\0\0\0\0\0\x07\0\0\0\x01\0\0\0\0\0\0\0\0\0\0\0<\0\0\
    \0\x1c\0\0\0\0\0\0\0\0\0\0\0\x01\0\0\0\0\0\0\0\x14\0\0\0\x09\0\0\0\0\0\0\0\0\0\0\0X\0\0\
    \0\x10\0\0\0\x04\0\0\0\x02\0\0\0\x01\0\0\0\x08\0\0\0%\0\0\0\x02\0\0\0\0\0\0\0\0\0\0\0h\0\
    \0\00\0\0\0\0\0\0\0\x01\0\0\0\x01\0\0\0\x10\0\0\0-\0\0\0\x03\0\0\0\0\0\0\0\0\0\0\0\x98\0\
    \0\07\0\0\0\0\0\0\0\0\0\0\0\x01\0\0\0\0";

/// The name of the section of line programs.
const LINES: &[u8] = b".debug_line";

/// A file, where its sections are to be, and its `.debug_line` then: each section at 0; only
/// `.text`, so that the address in `.text.b` is all ones, and what isn't code stays at 0; and the
/// older form, whose addends stand at their places.
const RELOCATED: [(&[u8], SectionPlace, &[u8]); 3] = [
    (RISCV, AllAtZero, b"\x03\0\0\0\x16\0\x2c\x05\0\0\0\x07"),
    (RISCV, Only(1), b"\xff\xff\xff\xff\x16\0\x2c\x05\0\0\0\x07"),
    (ARM, AllAtZero, b"\0\0\x01\x04\0\0\x02\x02"),
];

/// Whether `.debug_line` of a file is relocated to these bytes.
fn is_relocated(alloc: Global, file: &[u8], place: SectionPlace, wanted: &[u8]) -> bool {
    let found = match Elf::parse(file) {
        Ok(elf) => elf.relocated(alloc, LINES, place, 12),
        Err(e) => Err(e),
    };
    match found {
        Ok(Some(section)) => section.as_slice() == wanted,
        _ => false,
    }
}

/// The first file whose section is relocated otherwise.
pub fn relocated(alloc: Global) -> Found {
    Ok(
        RELOCATED.iter().position(|(file, place, wanted)| !is_relocated(
            alloc, *file, *place, *wanted,
        )),
    )
}

// ---- files that aren't read whole

/// A file, the name of a section, and what it holds.
type Sought = (&'static [u8], &'static [u8], Option<&'static [u8]>);

/// One section that is stored as it is, one that is compressed, one of the older form, and none.
const SOUGHT: [Sought; 4] = [
    (RISCV, b".debug_str", Some(b"\0a.c\0b.c\0")),
    (RISCV, LINES, Some(b"\x01\0\0\0\x10\0\x2c\0\0\0\0\x07")),
    (ARM, LINES, Some(b"\0\0\0\x04\0\0\0\x02")),
    (RISCV, b".debug_info", None),
];

/// What a section of a file holds, up to a limit.
fn held(alloc: Global, file: &[u8], name: &[u8], limit: u64) -> Result<Option<Vec<u8>>, Refusal> {
    let mut file = Cursor::new(file);
    Outline::read(alloc, &mut file)?.section(alloc, &mut file, name, limit)
}

/// Whether a section holds these bytes.
fn holds(alloc: Global, (file, name, wanted): &Sought) -> bool {
    held(alloc, *file, *name, 12).is_ok_and(|found| found.as_deref() == *wanted)
}

/// The first section that holds something else.
pub fn sought(alloc: Global) -> Found {
    Ok(SOUGHT.iter().position(|case| !holds(alloc, case)))
}

/// What an outline says of the order of bytes, the size of addresses, object files and the lowest
/// address of code.
fn outlined(alloc: Global, file: &[u8]) -> Result<(bool, u8, bool, Option<u64>), Refusal> {
    let outline = Outline::read(alloc, &mut Cursor::new(file))?;
    let it = outline.sections()?;
    let order = it.is_big_endian();
    Ok((
        order,
        it.address_size(),
        it.is_relocatable(),
        it.lowest_code_address(),
    ))
}

/// ARM's most significant byte comes first, and both are object files of 32 bits, whose code is at
/// 0.
pub fn outlines(alloc: Global) -> Found {
    Ok(first_false(&[
        outlined(alloc, RISCV).ok() == Some((false, 4, true, Some(0))),
        outlined(alloc, ARM).ok() == Some((true, 4, true, Some(0))),
    ]))
}

/// Why `.debug_line` of a file isn't read.
fn refusal(alloc: Global, file: &[u8]) -> Option<ElfError> {
    match held(alloc, file, LINES, u64::MAX) {
        Err(Refusal::Elf(error)) => Some(error),
        _ => None,
    }
}

/// The first length at which a file that is cut there isn't refused as expected: the magic number
/// has 4 bytes, the header 52, and the section table ends the file.
pub fn cut(alloc: Global) -> Found {
    for count in 0..RISCV.len() {
        let wanted = match count {
            0..=3 => ElfError::NotElf,
            4..=51 => ElfError::HeaderCut,
            _ => ElfError::SectionTableCut,
        };
        if refusal(alloc, &RISCV[..count]) != Some(wanted) {
            return Ok(Some(count));
        }
    }
    Ok(None)
}

/// Where a size or an offset is replaced by one greater than the file, and the refusal: of the
/// section table (`e_shoff`), of the names (`sh_size` of section 7), of the section (`sh_offset`,
/// `sh_size` of section 4), and of what it is compressed to (`ch_size`). None is allocated.
const HUGE: [(usize, ElfError); 5] = [
    (32, ElfError::SectionTableCut),
    (0x130 + 7 * 40 + 20, ElfError::NamesCut),
    (0x130 + 4 * 40 + 16, ElfError::SectionCut),
    (0x130 + 4 * 40 + 20, ElfError::SectionCut),
    (0x49 + 4, ElfError::Decompression(OutputSmaller)),
];

/// Why the file isn't read with the greatest number of four bytes at an offset.
fn refusal_with(alloc: Global, offset: usize) -> Option<ElfError> {
    let mut file = Vec::from_slice(alloc, RISCV).ok()?;
    for byte in file.iter_mut().skip(offset).take(4) {
        *byte = 0xff;
    }
    refusal(alloc, &file)
}

/// The first number that is refused otherwise.
pub fn huge(alloc: Global) -> Found {
    Ok(HUGE.iter().position(|(offset, wanted)| refusal_with(alloc, *offset) != Some(*wanted)))
}

/// A file, the name of a section, the limit, and why it isn't decompressed, if it isn't:
/// `.debug_line` says that it holds as many bytes as the limit, or one more, in both forms. What
/// isn't compressed has no limit.
const LIMITS: [(&[u8], &[u8], u64, Option<ElfError>); 5] = [
    (RISCV, LINES, 12, None),
    (RISCV, LINES, 11, Some(ElfError::SectionTooLarge(12))),
    (ARM, LINES, 8, None),
    (ARM, LINES, 7, Some(ElfError::SectionTooLarge(8))),
    (RISCV, b".debug_str", 0, None),
];

/// Why a limit keeps a section from being decompressed, in a file that is read whole.
fn whole_refusal(alloc: Global, file: &[u8], name: &[u8], limit: u64) -> Option<ElfError> {
    match Elf::parse(file) {
        Ok(elf) => elf.section_data(alloc, name, limit).err(),
        Err(e) => Some(e),
    }
}

/// Whether a section is refused so by a limit, of a file that is read whole and of one that isn't.
fn is_limited(
    alloc: Global,
    (file, name, limit, wanted): &(&[u8], &[u8], u64, Option<ElfError>),
) -> bool {
    let sought = match held(alloc, *file, *name, *limit) {
        Err(Refusal::Elf(error)) => Some(error),
        Err(_) => return false,
        Ok(_) => None,
    };
    sought == *wanted && whole_refusal(alloc, *file, *name, *limit) == *wanted
}

/// The first section that is refused otherwise.
pub fn limits(alloc: Global) -> Found {
    Ok(LIMITS.iter().position(|case| !is_limited(alloc, case)))
}

// ---- debug files

/// How many bytes `a` a file has, and its checksum: files of less than a piece, of a piece, and of
/// more. zlib's `crc32` returns the same.
const CHECKSUMS: [(usize, u32); 4] = [
    (0, 0),
    (65_536, 0xc320_91ff),
    (65_537, 0xc576_715f),
    (200_000, 0xe069_539b),
];

/// The checksum of so many bytes `a`.
fn checksum_of(alloc: Global, count: usize) -> Option<u32> {
    let bytes = vec![in alloc; b'a'; count].ok()?;
    checksum(alloc, &mut Cursor::new(bytes)).ok()
}

/// The first file that has another checksum.
pub fn checksums(alloc: Global) -> Found {
    Ok(CHECKSUMS.iter().position(|(count, wanted)| checksum_of(alloc, *count) != Some(*wanted)))
}
