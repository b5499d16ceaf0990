//! A section with relocations: each call that lists a place, and the unit of a converted program.

use crate::converted::{Texts, VERSION_5, conversion};
use crate::units::{TWO_ADDRESSES, program, slice};
use crate::{Found, first_false};
use gimli_core::SectionId::{DebugLine, DebugLineStr, DebugStr};
use gimli_core::{BigEndian, LittleEndian, Reader};
use gimli_line::IncompleteLineProgram;
use gimli_write::Error::LengthOutOfBounds;
use gimli_write::RelocationTarget::{self, OfSection, OfSymbol};
use gimli_write::{
    Addends, Address, DebugLine as Section, LineProgram, RelocatableVec, Relocation, Result, Writer,
};
use std::alloc::Global;

/// A symbol.
const SYMBOL: Address = Address::Symbol {
    symbol: 9,
    addend: -2,
};

/// A place that a linker fills in.
fn place(offset: usize, size: u8, target: RelocationTarget, addend: i64) -> Relocation {
    Relocation {
        offset,
        size,
        target,
        addend,
    }
}

/// Each call that lists a place, by its own name or through the trait.
fn list_each<W: Writer>(w: &mut W) -> Result<()> {
    w.write(b"\0\0\0\0")?;
    w.write_offset_at(1, 0x0203, DebugStr, 2)?;
    w.write_address(SYMBOL, 4)?;
    w.write_reference(5, 3)?;
    w.write_offset(0x0405, DebugLine, 8)
}

/// What these calls leave, with the addends in place.
const IN_PLACE: &[u8] = b"\0\x02\x03\0\xff\xff\xff\xfe\0\0\0\0\0\0\0\0\0\x04\x05";

/// The first of these that is otherwise: the places are of the size that is asked for.
pub fn calls(alloc: Global) -> Found {
    let mut section = RelocatableVec::new(alloc, BigEndian, Addends::InPlace);
    let wanted = [
        place(1, 2, OfSection(DebugStr), 0),
        place(4, 4, OfSymbol(9), 0),
        place(8, 3, OfSymbol(5), 0),
        place(11, 8, OfSection(DebugLine), 0),
    ];
    Ok(first_false(&[
        list_each(&mut section) == Ok(()),
        section.write_offset_at(19, 0, DebugStr, 2) == Err(LengthOutOfBounds),
        section.write_at(0, b"\0") == Ok(()),
        *section.slice() == *IN_PLACE,
        section.relocations() == wanted.as_slice(),
    ]))
}

/// DWARF 5, section 6.2.4, by hand, after three bytes. Each text and the address of a symbol is a
/// place, with its addend in the list. The line strings are `/w`, `q` and `a.c`; the name is file
/// 0, and the rows have the register's file 1.
const UNIT: &[u8] =
    b"\xaa\xbb\xcc\x4f\0\0\0\x05\0\x04\0\x32\0\0\0\x01\x01\x01\xfb\x0e\x0d\0\x01\x01\x01\x01\0\0\0\
      \x01\0\0\x01\x01\x01\x1f\x01\0\0\0\0\x04\x01\x1f\x02\x0f\x03\x0f\x04\x0f\
      \x02\0\0\0\0\0\0\0\0\0\0\0\0\0\0\
      \0\x05\x02\x10\0\0\0\x01\0\x05\x02\0\0\0\0\x01\x02\x04\0\x01\x01";

/// Where an address of a source is: itself, and from 0x1000 on at a symbol.
fn place_of(address: u64) -> Address {
    match address {
        0..=0xfff => Address::Constant(address),
        _ => SYMBOL,
    }
}

/// The first part of a program's unit that is otherwise, or what isn't written.
fn first_wrong_in(
    unit: &mut Section<RelocatableVec<LittleEndian>>,
    program: &LineProgram,
    texts: &mut Texts,
) -> Found {
    unit.0.write(b"\xaa\xbb\xcc")?;
    let (lines, strings) = (&mut texts.line_strings, &mut texts.strings);
    if !program.can_write(lines, strings) {
        return Ok(Some(0));
    }
    let offset = program.write(unit, program.encoding(), lines, strings)?;
    let wanted = [
        place(37, 4, OfSection(DebugLineStr), 0),
        place(51, 4, OfSection(DebugLineStr), 3),
        place(58, 4, OfSection(DebugLineStr), 5),
        place(76, 4, OfSymbol(9), -2),
    ];
    Ok(first_false(&[
        offset.0 == 3,
        *unit.0.slice() == *UNIT,
        unit.0.relocations() == wanted.as_slice(),
    ]))
}

/// What `first_wrong_in` finds in an empty section.
fn first_wrong(program: &LineProgram, texts: &mut Texts) -> Found {
    let alloc = *texts.line_strings.allocator();
    // Its texts aren't in other tables.
    if can_write(program, &Texts::new(alloc)) {
        return Ok(Some(0));
    }
    let mut unit = Section::from(RelocatableVec::new(alloc, LittleEndian, Addends::Listed));
    first_wrong_in(&mut unit, program, texts)
}

/// Whether the texts of a program are in these tables.
fn can_write(program: &LineProgram, texts: &Texts) -> bool {
    program.can_write(&texts.line_strings, &texts.strings)
}

/// What is otherwise of a source that is converted to version 5: its texts stand in a table.
fn first_wrong_of<R: Reader>(
    source: IncompleteLineProgram<R>,
    name: R,
    texts: &mut Texts,
) -> Found {
    let conversion = conversion(source, Some(name), Some(VERSION_5), texts)?;
    let (program, _) = conversion.convert(|address| Some(place_of(address)))?;
    first_wrong(&program, texts)
}

/// What `first_wrong_of` finds for a unit, its directory and its name.
fn first_wrong_of_unit<R: Reader>(alloc: Global, slices: [R; 3], texts: &mut Texts) -> Found {
    let [unit, directory, name] = slices;
    first_wrong_of(program(alloc, unit, Some(directory))?, name, texts)
}

/// What `first_wrong_of` finds for the unit with two addresses.
pub fn unit(alloc: Global) -> Found {
    let slices = [slice(TWO_ADDRESSES), slice(b"/w"), slice(b"q")];
    first_wrong_of_unit(alloc, slices, &mut Texts::new(alloc))
}
