//! Conversions and their tables of strings, and what is in these after a start that is refused.

ghost use Rattle.std.specs.Prelude.{IfSome, IsTrue};
ghost use Rattle.gimli_core.specs.Numbers.{is_address_size};

use crate::units::{TWO_ADDRESSES, program, slice};
use crate::{Found, first_false};
use gimli_core::{Encoding, Format, Reader};
use gimli_line::IncompleteLineProgram;
use gimli_write::{
    ConvertError, ConvertLineProgram, ConvertResult, LineStringId, LineStringTable, StringId,
    StringTable,
};
use std::alloc::Global;

/// The encoding of a program of version 5.
pub const VERSION_5: Encoding = Encoding {
    address_size: 4,
    format: Format::Dwarf32,
    version: 5,
};

/// The tables of texts that conversions add to.
#[derive(Drop)]
pub struct Texts {
    pub line_strings: LineStringTable,
    pub strings: StringTable,
}

impl Texts {
    /// Empty tables.
    pub fn new(alloc: Global) -> Texts {
        Texts {
            line_strings: LineStringTable::default(alloc),
            strings: StringTable::default(alloc),
        }
    }
}

/// A conversion of a program, to this encoding or to its own. Its own texts stand in its header.
pub fn conversion<R: Reader>(
    program: IncompleteLineProgram<R>,
    name: Option<R>,
    encoding: Option<Encoding>,
    texts: &mut Texts,
) -> ConvertResult<ConvertLineProgram<'_, '_, R>>
    requires { IfSome encoding (λ e. IsTrue (is_address_size e.address_size)) }
{
    let none = program.header().raw_program_buf();
    let (lines, strings) = (&mut texts.line_strings, &mut texts.strings);
    ConvertLineProgram::new(none, none, program, name, encoding, None, lines, strings)
}

/// Whether a start without a name, which is refused, leaves the old strings first in both tables.
/// No clause says so.
fn keeps_texts<R: Reader>(program: IncompleteLineProgram<R>, texts: &mut Texts) -> Found {
    texts.line_strings.add(b"old")?;
    texts.strings.add(b"old")?;
    let refused = conversion(program, None, Some(VERSION_5), texts).err();
    let kept = texts.line_strings.count() > 0 && texts.strings.count() > 0;
    Ok(first_false(&[
        refused == Some(ConvertError::MissingCompilationName),
        kept,
        texts.line_strings.add(b"old") == Ok(LineStringId(0)),
        texts.strings.add(b"old") == Ok(StringId(0)),
    ]))
}

/// What `keeps_texts` checks, for a unit.
fn keeps_texts_of<R: Reader>(alloc: Global, unit: R, directory: R, texts: &mut Texts) -> Found {
    keeps_texts(program(alloc, unit, Some(directory))?, texts)
}

/// What `keeps_texts` checks, for the unit with two addresses.
pub fn refused(alloc: Global) -> Found {
    keeps_texts_of(
        alloc,
        slice(TWO_ADDRESSES),
        slice(b"/w"),
        &mut Texts::new(alloc),
    )
}
