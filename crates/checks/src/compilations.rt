//! What the first entries of units say of their compilations, from bytes by hand. The header is
//! that of DWARF 5, section 7.5.1, and of DWARF 2 to 4, section 7.5.1.1; a declaration that of
//! section 7.5.3, a form that of 7.5.4 to 7.5.6, and an index counts as in 7.26.

use crate::Found;
use gimli_compilation::{Compilation, CompilationSections, Compilations, Refusal};
use gimli_core::{BigEndian, DwForm, EndianSlice, Endianity, Error, LittleEndian, ReaderOffsetId};
use std::alloc::Global;

/// What a unit says: its version, the offset of its line program, its directory and its name; or
/// why it can't be read.
type Said = Result<(u16, Option<u64>, Text, Text), Refusal>;

/// A text that a unit may have.
type Text = Option<&'static [u8]>;

/// `.debug_abbrev`, each a table of its own, but for the three declarations at 48: a unit (0x11),
/// and at 86 a type (0x41), with DW_AT_stmt_list (0x10), DW_AT_comp_dir (0x1b), DW_AT_name (0x03)
/// and DW_AT_str_offsets_base (0x72), each with its form: data4 (0x06), data8 (0x07), string
/// (0x08), strp (0x0e), sec_offset (0x17), strx (0x1a), line_strp (0x1f), strx1 to strx4 (0x25 to
/// 0x28), and at 96 the form 2, which no version has.
const ABBREVIATIONS: &[u8] = b"\x01\x11\0\x10\x06\x1b\x08\x03\x0e\0\0\0\
    \x01\x11\0\x10\x07\x1b\x0e\x03\x08\0\0\0\
    \x01\x11\x01\x10\x17\x1b\x0e\x03\x0e\0\0\0\
    \x01\x11\x01\x10\x17\x1b\x1f\x03\x1f\0\0\0\
    \x01\x11\0\x1b\x25\x03\x26\x10\x17\x72\x17\0\0\
    \x02\x11\0\x1b\x27\x03\x28\x10\x17\x72\x17\0\0\
    \x03\x11\0\x1b\x1a\x03\x1a\x10\x17\0\0\0\
    \x01\x41\0\x10\x17\x1b\x1f\0\0\0\
    \x01\x11\0\x1b\x02\0\0\0";

/// The declarations, units, and `.debug_str_offsets`, the least significant byte first. Up to
/// version 4 a unit is unit_length, version, debug_abbrev_offset, address_size, the code of its
/// entry, and the values; in version 5 unit_length, version, unit_type, address_size,
/// debug_abbrev_offset, for a type its signature and offset, the code and the values. The offsets
/// have unit_length 12, version 5 and padding, and at 8 the offsets 1 and 4.
const LITTLE: [&[u8]; 3] = [
    ABBREVIATIONS,
    b"\x13\0\0\0\x02\0\0\0\0\0\x04\x01\x2a\0\0\0/u\0\x04\0\0\0\
    \x02\0\0\0\x06\0\
    \x1d\0\0\0\x05\0\x02\x08\x56\0\0\0abcdefgh\x20\0\0\0\x01\x2a\0\0\0\0\0\0\0\
    \x13\0\0\0\x03\0\0\0\0\0\x04\x01\x80\0\0\0/t\0\x04\0\0\0\
    \x13\0\0\0\x04\0\0\0\0\0\x04\x01\x2b\0\0\0/u\0\x04\0\0\0\
    \x14\0\0\0\x04\0\x18\0\0\0\x08\x01\x07\0\0\0\x01\0\0\0\x04\0\0\0\
    \x14\0\0\0\x05\0\x01\x08\x30\0\0\0\x01\0\x01\0\x09\0\0\0\x08\0\0\0\
    \x0f\0\0\0\x05\0\x03\x08\x30\0\0\0\x03\0\x01\x09\0\0\0\
    \x09\0\0\0\x05\0\x07\x08\0\0\0\0\x01\
    \x09\0\0\0\x05\0\x01\x08\0\0\0\0\x02\
    \x09\0\0\0\x05\0\x01\x08\x60\0\0\0\x01",
    b"\x0c\0\0\0\x05\0\0\0\x01\0\0\0\x04\0\0\0",
];

/// Their offsets and what they say. DW_FORM_data4 is an offset up to version 3 alone; a type has
/// the line program of the first unit; a partial unit has no base, so its indexes say nothing; the
/// last three have an unknown type, a code without a declaration, and an unknown form.
const SAID_LITTLE: [(u64, Said); 11] = [
    (0, Ok((2, Some(0x2a), Some(b"/u"), Some(b"a.c")))),
    (23, Err(Refusal::Bytes(Error::UnknownVersion(6)))),
    (29, Ok((5, Some(0x2a), Some(b"/v"), None))),
    (62, Ok((3, Some(0x80), Some(b"/t"), Some(b"a.c")))),
    (85, Ok((4, None, Some(b"/u"), Some(b"a.c")))),
    (108, Ok((4, Some(7), Some(b"/w"), Some(b"a.c")))),
    (132, Ok((5, Some(9), Some(b"/w"), Some(b"a.c")))),
    (156, Ok((5, Some(9), None, None))),
    (175, Err(Refusal::UnknownUnitType(7))),
    (188, Err(Refusal::MissingAbbreviation(2))),
    (201, Err(Refusal::Bytes(Error::UnknownForm(DwForm(2))))),
];

/// Sections like `LITTLE`, the most significant byte first; the first unit is of the 64-bit format.
const BIG: [&[u8]; 3] = [
    ABBREVIATIONS,
    b"\xff\xff\xff\xff\0\0\0\0\0\0\0\x20\0\x03\0\0\0\0\0\0\0\x0c\x08\x01\
    \0\0\0\x01\0\0\0\x02\0\0\0\0\0\0\0\x01c.c\0\
    \0\0\0\x15\0\x05\x01\x08\0\0\0\x24\x01\0\0\x01\0\0\0\0\0\0\0\0\x03\
    \0\0\0\x18\0\x05\x01\x08\0\0\0\x30\x02\0\0\x01\0\0\0\0\0\0\0\x09\0\0\0\x08",
    b"\0\0\0\x0c\0\x05\0\0\0\0\0\x01\0\0\0\x04",
];

const SAID_BIG: [(u64, Said); 3] = [
    (0, Ok((3, Some(0x1_0000_0002), Some(b"/w"), Some(b"c.c")))),
    (44, Ok((5, Some(0x100), Some(b"/v"), Some(b"b.c")))),
    (69, Ok((5, Some(9), Some(b"a.c"), Some(b"/w")))),
];

/// Two tables, whose attributes are all of the form string: at 0 the code 1 with a name, 2 with a
/// directory, 3 with a name and a directory, and 2 once more with a name; at 31 the code 1 with a
/// directory, 3 with a name, and 2, cut before the form of its name. Units of version 4 name them.
const TABLES: [&[u8]; 3] = [
    b"\x01\x11\0\x03\x08\0\0\
    \x02\x11\0\x1b\x08\0\0\
    \x03\x11\0\x03\x08\x1b\x08\0\0\
    \x02\x11\0\x03\x08\0\0\0\
    \x01\x11\0\x1b\x08\0\0\
    \x03\x11\0\x03\x08\0\0\
    \x02\x11\0\x03",
    b"\x0d\0\0\0\x04\0\0\0\0\0\x08\x03n\0/d\0\
    \x0b\0\0\0\x04\0\0\0\0\0\x08\x02/e\0\
    \x0a\0\0\0\x04\0\0\0\0\0\x08\x01m\0\
    \x0b\0\0\0\x04\0\x1f\0\0\0\x08\x01/f\0\
    \x0a\0\0\0\x04\0\0\0\0\0\x08\x01o\0\
    \x0a\0\0\0\x04\0\x1f\0\0\0\x08\x03p\0\
    \x0a\0\0\0\x04\0\x1f\0\0\0\x08\x02q\0\
    \x0a\0\0\0\x04\0\x1f\0\0\0\x08\x04r\0\
    \x0b\0\0\0\x04\0\x1f\0\0\0\x08\x01/g\0\
    \x08\0\0\0\x04\0\0\0\0\0\x08\x04\
    \x0b\0\0\0\x04\0\0\0\0\0\x08\x02/h\0",
    b"",
];

/// A table that is cut refuses each code that isn't before the cut, where no byte is left.
const CUT: Said = Err(Refusal::Bytes(Error::UnexpectedEof(ReaderOffsetId(0))));

/// Of two declarations of one code the first counts.
const SAID_TABLES: [(u64, Said); 11] = [
    (0, Ok((4, None, Some(b"/d"), Some(b"n")))),
    (17, Ok((4, None, Some(b"/e"), None))),
    (32, Ok((4, None, None, Some(b"m")))),
    (46, Ok((4, None, Some(b"/f"), None))),
    (61, Ok((4, None, None, Some(b"o")))),
    (75, Ok((4, None, None, Some(b"p")))),
    (89, CUT),
    (103, CUT),
    (117, Ok((4, None, Some(b"/g"), None))),
    (132, Err(Refusal::MissingAbbreviation(4))),
    (144, Ok((4, None, Some(b"/h"), None))),
];

/// Units of version 4 that name texts of `STRINGS` in no order, each by its directory and its name.
const TEXTS: [&[u8]; 3] = [
    ABBREVIATIONS,
    b"\x14\0\0\0\x04\0\x18\0\0\0\x08\x01\x01\0\0\0\x06\0\0\0\x05\0\0\0\
    \x14\0\0\0\x04\0\x18\0\0\0\x08\x01\x01\0\0\0\x04\0\0\0\x05\0\0\0\
    \x14\0\0\0\x04\0\x18\0\0\0\x08\x01\x01\0\0\0\x02\0\0\0\x01\0\0\0\
    \x14\0\0\0\x04\0\x18\0\0\0\x08\x01\x01\0\0\0\x00\0\0\0\x03\0\0\0\
    \x14\0\0\0\x04\0\x18\0\0\0\x08\x01\x01\0\0\0\x07\0\0\0\x09\0\0\0\
    \x14\0\0\0\x04\0\x18\0\0\0\x08\x01\x01\0\0\0\x08\0\0\0\x00\0\0\0\
    \x14\0\0\0\x04\0\x18\0\0\0\x08\x01\x01\0\0\0\x09\0\0\0\x00\0\0\0\
    \x14\0\0\0\x04\0\x18\0\0\0\x08\x01\x01\0\0\0\x0a\0\0\0\x00\0\0\0\
    \x14\0\0\0\x04\0\x18\0\0\0\x08\x01\x01\0\0\0\x0b\0\0\0\x00\0\0\0\
    \x14\0\0\0\x04\0\x18\0\0\0\x08\x01\x01\0\0\0\x01\0\0\0\x04\0\0\0",
    b"",
];

/// Of the last text, at 8, the end is missing.
const STRINGS: &[u8] = b"\0/w\0a.c\0xy";

const SAID_TEXTS: [(u64, Said); 10] = [
    (0, Ok((4, Some(1), Some(b"c"), Some(b".c")))),
    (24, Ok((4, Some(1), Some(b"a.c"), Some(b".c")))),
    (48, Ok((4, Some(1), Some(b"w"), Some(b"/w")))),
    (72, Ok((4, Some(1), Some(b""), Some(b"")))),
    (
        96,
        Err(Refusal::Bytes(Error::UnexpectedEof(ReaderOffsetId(1)))),
    ),
    (
        120,
        Err(Refusal::Bytes(Error::UnexpectedEof(ReaderOffsetId(2)))),
    ),
    (
        144,
        Err(Refusal::Bytes(Error::UnexpectedEof(ReaderOffsetId(1)))),
    ),
    (
        168,
        Err(Refusal::Bytes(Error::UnexpectedEof(ReaderOffsetId(0)))),
    ),
    (
        192,
        Err(Refusal::Bytes(Error::UnexpectedEof(ReaderOffsetId(10)))),
    ),
    (216, Ok((4, Some(1), Some(b"/w"), Some(b"a.c")))),
];

/// A table of eight declarations without attributes, 41 bytes, and units of version 4 that begin it
/// at each declaration and name the last one: after five units, which take 40, 35, 30, 25 and 20
/// bytes, 14 of 164 are left, and the sixth would take 15.
const OVERLAPPING: [&[u8]; 3] = [
    b"\x01\x11\0\0\0\x02\x11\0\0\0\x03\x11\0\0\0\x04\x11\0\0\0\
    \x05\x11\0\0\0\x06\x11\0\0\0\x07\x11\0\0\0\x08\x11\0\0\0\0",
    b"\x08\0\0\0\x04\0\x00\0\0\0\x08\x08\
    \x08\0\0\0\x04\0\x05\0\0\0\x08\x08\
    \x08\0\0\0\x04\0\x0a\0\0\0\x08\x08\
    \x08\0\0\0\x04\0\x0f\0\0\0\x08\x08\
    \x08\0\0\0\x04\0\x14\0\0\0\x08\x08\
    \x08\0\0\0\x04\0\x19\0\0\0\x08\x08\
    \x08\0\0\0\x04\0\x1e\0\0\0\x08\x08\
    \x08\0\0\0\x04\0\x23\0\0\0\x08\x08",
    b"",
];

/// The sections of a program: `.debug_str` has /w at 1 and a.c at 4, `.debug_line_str` /v at 0 and
/// b.c at 3.
fn sections<E: Endianity>(
    order: E,
    [abbreviations, info, offsets]: [&'static [u8]; 3],
) -> CompilationSections<EndianSlice<'static, E>> {
    CompilationSections {
        debug_info: EndianSlice::new(info, order),
        debug_abbrev: EndianSlice::new(abbreviations, order),
        debug_str: EndianSlice::new(b"\0/w\0a.c\0", order),
        debug_line_str: EndianSlice::new(b"/v\0b.c\0", order),
        debug_str_offsets: EndianSlice::new(offsets, order),
    }
}

/// What a unit says.
fn said<E: Endianity>(unit: Result<Compilation<EndianSlice<'static, E>>, Refusal>) -> Said {
    let unit = unit?;
    let directory = unit.comp_dir.map(|text| text.slice());
    let name = unit.name.map(|text| text.slice());
    Ok((unit.version, unit.stmt_list, directory, name))
}

/// The first unit that says something else.
fn first_wrong<E: Endianity>(
    alloc: Global,
    sections: &CompilationSections<EndianSlice<'static, E>>,
    wanted: &[(u64, Said)],
) -> Found {
    let mut units = sections.units(alloc);
    for (at, wanted) in wanted.iter().enumerate() {
        let found = units.next()?.map(|it| (it.offset, said(it.compilation)));
        if found != Some(*wanted) {
            return Ok(Some(at));
        }
    }
    Ok(units.next()?.map(|_| wanted.len()))
}

/// The first unit that says something else. A refused unit ends no walk.
pub fn units(alloc: Global) -> Found {
    let little = first_wrong(alloc, &sections(LittleEndian, LITTLE), &SAID_LITTLE)?;
    let big = first_wrong(alloc, &sections(BigEndian, BIG), &SAID_BIG)?;
    let tables = first_wrong(alloc, &sections(LittleEndian, TABLES), &SAID_TABLES)?;
    Ok(little.or(big).or(tables))
}

/// The first unit that says something else of its texts.
pub fn texts(alloc: Global) -> Found {
    let mut sections = sections(LittleEndian, TEXTS);
    sections.debug_str = EndianSlice::new(STRINGS, LittleEndian);
    first_wrong(alloc, &sections, &SAID_TEXTS)
}

/// Whether five units are read of tables that overlap, and no more.
pub fn overlapping(alloc: Global) -> Found {
    let mut units = sections(LittleEndian, OVERLAPPING).units(alloc);
    for at in 0..5 {
        let found = units.next()?.map(|it| (it.offset, said(it.compilation)));
        if found != Some((12 * at, Ok((4, None, None, None)))) {
            return Ok(Some(at as usize));
        }
    }
    Ok(match units.next() {
        Err(Error::OutOfMemory) => None,
        _ => Some(5),
    })
}

/// Offsets of line programs and their directories: of a unit and of a type after it, of another
/// unit, and of none.
const DIRECTORIES: [(u64, Text); 3] = [(0x2a, Some(b"/u")), (0x80, Some(b"/t")), (0x81, None)];

/// The first line program that has another directory.
pub fn lines(alloc: Global) -> Found {
    let compilations = Compilations::new(alloc, &sections(LittleEndian, LITTLE))?;
    let directory = |line| compilations.directory_of(line).map(|text| text.slice());
    let mut cases = DIRECTORIES.iter();
    Ok(cases.position(|(line, wanted)| directory(*line) != *wanted))
}
