//! A writer of a caller's own, which returns an error after so many calls: over a unit of version 4
//! and one of version 5, what `write` returns for each number of calls, and which texts are in the
//! tables then.

ghost use Rattle.std.specs.Prelude.{◌≤◌, length};

use crate::converted::{Texts, VERSION_5};
use crate::{Found, first_false};
use gimli_core::{Encoding, LineEncoding, LittleEndian, SectionId};
use gimli_write::{
    Address, DebugLine, Error, FileInfo, LineProgram, LineString, LineStringId, Result, Sink,
    Writer,
};
use std::alloc::Global;

/// A section whose bytes are known beforehand. It keeps none, and says whether each call wrote the
/// ones that are due there.
#[derive(Drop)]
struct KnownSection {
    due: &'static [u8],
    len: usize,
    calls_left: usize,
    agrees: bool,
    ghost fits: { len ≤ length due.now },
}

impl KnownSection {
    /// An empty section that takes so many calls.
    fn new(due: &'static [u8], calls: usize) -> KnownSection {
        KnownSection {
            due,
            len: 0,
            calls_left: calls,
            agrees: true,
        }
    }
}

/// Whether bytes are those that are due, or the blank word of a length, which is written later.
fn are_due(bytes: &[u8], due: &[u8]) -> bool {
    bytes == due || bytes == [0; 4].as_slice()
}

impl Sink for KnownSection {
    ghost use Rattle.std.specs.Prelude.{◌≡◌, ◌⊎◌, [], false, true, take};
    ghost use Rattle.gimli_bytes.specs.Hand.{plain};
    ghost use Rattle.gimli_bytes.specs.declared.error.Error.TheVariants.{MissingBaseAddress};
    ghost use Rattle.gimli_bytes.specs.declared.error.Error.TheVariants.{LengthOutOfBounds};

    ghost contents = { λ w. take w.len w.due.now };

    ghost is_big = { λ w. false };

    ghost keeps_bytes = { false };

    ghost completes = { λ w. false };

    ghost completed = { λ at w. [] };

    ghost hand = { λ at. plain };

    ghost fails_for_memory_alone = { false };

    ghost refuses = { λ w bytes e. ((e ≡ MissingBaseAddress) × (w.calls_left ≡ 0))
        ⊎ (e ≡ LengthOutOfBounds) };

    ghost unrefused = { λ w. true };

    ghost all_or_none = { true };
}

impl Writer for KnownSection {
    type Endian = LittleEndian;

    fn endian(&self) -> LittleEndian {
        LittleEndian
    }

    fn len(&self) -> usize {
        self.len
    }

    fn write(&mut self, bytes: &[u8]) -> Result<()> {
        let (due, len) = (self.due, self.len);
        if self.calls_left == 0 {
            return Err(Error::MissingBaseAddress);
        }
        if bytes.len() > due.len() - len {
            return Err(Error::LengthOutOfBounds);
        }
        let end = len + bytes.len();
        self.agrees &= are_due(bytes, &due[len..end]);
        self.calls_left -= 1;
        self.len = end;
        Ok(())
    }

    fn write_at(&mut self, offset: usize, bytes: &[u8]) -> Result<()> {
        let (due, len) = (self.due, self.len);
        if self.calls_left == 0 {
            return Err(Error::MissingBaseAddress);
        }
        if offset > len || bytes.len() > len - offset {
            return Err(Error::LengthOutOfBounds);
        }
        self.agrees &= bytes == &due[offset..offset + bytes.len()];
        self.calls_left -= 1;
        Ok(())
    }

    fn write_address(&mut self, address: Address, size: u8) -> Result<()> {
        match address {
            Address::Constant(val) => self.write_udata(val, size),
            Address::Symbol { .. } => Err(Error::InvalidAddress),
        }
    }

    fn write_offset(&mut self, val: usize, _section: SectionId, size: u8) -> Result<()> {
        self.write_udata(val as u64, size)
    }

    fn write_offset_at(
        &mut self,
        offset: usize,
        val: usize,
        _section: SectionId,
        size: u8,
    ) -> Result<()> {
        self.write_udata_at(offset, val as u64, size)
    }

    fn write_reference(&mut self, _symbol: usize, _size: u8) -> Result<()> {
        Err(Error::InvalidReference)
    }
}

/// DWARF 4, section 6.2.4, by hand: the file `a.c`, an address of 0x1000 with a row of line 1, a
/// row of line 3 after four bytes, and an end after four more.
const VERSION_4_UNIT: &[u8] =
    b"\x2f\0\0\0\x04\0\x1b\0\0\0\x01\x01\x01\xfb\x0e\x0d\0\x01\x01\x01\x01\0\0\0\x01\0\0\x01\0\
      a.c\0\0\0\0\0\0\x05\x02\0\x10\0\0\x01\x4c\x02\x04\0\x01\x01";

/// DWARF 5, section 6.2.4, by hand: the same rows, which have the register's file 1, in the
/// directory `/w`. File 0 is `a.c` with the source `s`, and file 1 is `b.c`, whose source is the
/// empty text. The texts stand at 0, 3, 7, 9 and 13 of `.debug_line_str`.
const VERSION_5_UNIT: &[u8] =
    b"\x4b\0\0\0\x05\0\x04\0\x35\0\0\0\x01\x01\x01\xfb\x0e\x0d\0\x01\x01\x01\x01\0\0\0\x01\0\0\x01\
      \x01\x01\x1f\x01\0\0\0\0\x03\x01\x1f\x02\x0f\x81\x40\x1f\x02\
      \x03\0\0\0\0\x07\0\0\0\x09\0\0\0\0\x0d\0\0\0\
      \0\x05\x02\0\x10\0\0\x01\x4c\x02\x04\0\x01\x01";

/// The encoding of a program of version 4.
const VERSION_4: Encoding = Encoding {
    version: 4,
    ..VERSION_5
};

/// Adds the rows and the end.
fn add_rows(program: &mut LineProgram) -> Result<()> {
    program.try_set_address(Address::Constant(0x1000))?;
    add_row(program, 0, 1)?;
    add_row(program, 4, 3)?;
    program.try_end_sequence(8)
}

/// Adds a row.
fn add_row(program: &mut LineProgram, address_offset: u64, line: u64) -> Result<()> {
    let row = program.row();
    row.address_offset = address_offset;
    row.line = line;
    program.try_generate_row()
}

/// The program of a unit without its rows, whose texts go to these tables from version 5 on.
fn with_files(alloc: Global, encoding: Encoding, texts: &mut Texts) -> Result<LineProgram> {
    let lines = &mut texts.line_strings;
    let directory = LineString::new(b"/w", encoding, lines)?;
    let name = LineString::new(b"a.c", encoding, lines)?;
    let source = LineString::new(b"s", encoding, lines)?;
    let info = FileInfo {
        source: Some(source),
        ..FileInfo::default()
    };
    let line_encoding = LineEncoding::default();
    if !LineProgram::accepts(encoding, line_encoding) {
        return Err(Error::InvalidRange);
    }
    LineProgram::new(
        alloc,
        encoding,
        line_encoding,
        directory,
        None,
        name,
        Some(info),
    )
}

/// Adds the file that the rows have: `a.c` in version 4, which has no file 0.
fn add_file(program: &mut LineProgram, encoding: Encoding, texts: &mut Texts) -> Result<()> {
    let lines = &mut texts.line_strings;
    let name = if encoding.version == 4 {
        LineString::new(b"a.c", encoding, lines)?
    } else {
        LineString::new(b"b.c", encoding, lines)?
    };
    program.try_add_file(name, program.default_directory(), None)?;
    program.file_has_source = true;
    Ok(())
}

/// Whether the tables have only the strings of the program, or also the empty string: a refused
/// call may have added it, and any other call must have; up to version 4 there is none.
fn are_kept(texts: &mut Texts, version: u16, is_refused: bool) -> Result<bool> {
    let (count, lines) = (texts.strings.count(), texts.line_strings.count());
    if version == 4 {
        return Ok((count, lines) == (0, 0));
    }
    let added = lines == 5 || lines == 4 && is_refused;
    Ok(
        count == 0
            && added
            && texts.line_strings.add(b"/w")? == LineStringId(0)
            && texts.line_strings.add(b"a.c")? == LineStringId(1)
            && texts.line_strings.add(b"s")? == LineStringId(2)
            && texts.line_strings.add(b"b.c")? == LineStringId(3)
            && texts.line_strings.add(b"")? == LineStringId(4),
    )
}

/// Writes a program to a section that takes so many calls: whether this returned the writer's
/// error, and whether all is as it has to be.
fn write_after(
    program: &LineProgram,
    due: &'static [u8],
    calls: usize,
    texts: &mut Texts,
) -> Result<(bool, bool)> {
    let (lines, strings) = (&mut texts.line_strings, &mut texts.strings);
    if !program.can_write(lines, strings) {
        return Ok((false, false));
    }
    let mut unit = DebugLine::from(KnownSection::new(due, calls));
    let written = program.write(&mut unit, program.encoding(), lines, strings);
    let section = unit.0;
    match written {
        Ok(offset) => {
            let whole = offset.0 == 0 && section.len == due.len();
            Ok((
                false,
                whole && section.agrees && are_kept(texts, program.version(), false)?,
            ))
        }
        Err(Error::MissingBaseAddress) => {
            let part = section.calls_left == 0 && section.agrees;
            Ok((true, part && are_kept(texts, program.version(), true)?))
        }
        Err(_) => Ok((false, false)),
    }
}

/// What `write_after` returns for a new program with new tables.
fn write_new(
    alloc: Global,
    encoding: Encoding,
    due: &'static [u8],
    calls: usize,
) -> Result<(bool, bool)> {
    let mut texts = Texts::new(alloc);
    write_with(alloc, encoding, due, calls, &mut texts)
}

/// What `write_after` returns for a new program, whose strings go to these tables.
fn write_with(
    alloc: Global,
    encoding: Encoding,
    due: &'static [u8],
    calls: usize,
    texts: &mut Texts,
) -> Result<(bool, bool)> {
    let mut program = with_files(alloc, encoding, texts)?;
    fill_and_write(&mut program, encoding, due, calls, texts)
}

/// Adds the file and the rows to a program, and writes it.
fn fill_and_write(
    program: &mut LineProgram,
    encoding: Encoding,
    due: &'static [u8],
    calls: usize,
    texts: &mut Texts,
) -> Result<(bool, bool)> {
    add_file(program, encoding, texts)?;
    add_rows(program)?;
    write_after(program, due, calls, texts)
}

/// No unit here takes so many calls.
const MOST_CALLS: usize = 1000;

/// The first number of calls for which it is otherwise, up to the one at which nothing is refused.
fn first_wrong(alloc: Global, encoding: Encoding, due: &'static [u8]) -> Found {
    for calls in 0..MOST_CALLS {
        let (is_refused, is_right) = write_new(alloc, encoding, due, calls)?;
        if !is_right {
            return Ok(Some(calls));
        }
        if !is_refused {
            return Ok(None);
        }
    }
    Ok(Some(MOST_CALLS))
}

/// The first number of calls that is wrong of either unit.
pub fn refused(alloc: Global) -> Found {
    let first = first_wrong(alloc, VERSION_4, VERSION_4_UNIT)?;
    Ok(first.or(first_wrong(alloc, VERSION_5, VERSION_5_UNIT)?))
}
