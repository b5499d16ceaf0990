//! What a unit is written from.

ghost use Rattle.std.specs.Prelude.{◌≡◌};
ghost use Rattle.gimli_bytes.specs.Texts.{texts_in};
ghost use Rattle.gimli_build.specs.LineText.{line_text};
ghost use Rattle.gimli_build.specs.Conditions.{CanWrite};
ghost use Rattle.gimli_build.specs.inside.EmptySource.{StandsForNone};

use crate::built::line_program::LineProgram;
use crate::built::line_string::LineString;
use gimli_bytes::{LineStringTable, StringTable};
use gimli_core::Format;
use std::marker::Model;

/// A program that can be written: with the two tables that its texts are in, and the text that
/// stands for the source of a file that has none.
#[derive(Debug, Drop)]
pub(crate) struct UnitInput<'a> {
    program: &'a LineProgram,
    empty: &'a LineString,
    line_strings: &'a LineStringTable,
    strings: &'a StringTable,
}

impl<'a> Model for UnitInput<'a> {
    ghost use Rattle.gimli_bytes.specs.Texts.{texts_in};
    ghost use Rattle.gimli_build.specs.LineText.{line_text};
    ghost use Rattle.gimli_build.specs.inside.EmptySource.{Input, IsInput};

    ghost Value = { Input };

    ghost view = { λ input. record {
      program = input.program.now;
      texts = texts_in input.strings.now input.line_strings.now;
    } };

    ghost invariant = { λ input. IsInput input.program.now
        (texts_in input.strings.now input.line_strings.now) (line_text input.empty.now) };
}

impl<'a> UnitInput<'a> {
    /// A program with its texts. Requires that it can be written with them.
    pub(crate) fn new(
        program: &'a LineProgram,
        empty: &'a LineString,
        line_strings: &'a LineStringTable,
        strings: &'a StringTable,
    ) -> UnitInput<'a>
        requires can { CanWrite program.now (texts_in strings.now line_strings.now) }
        requires empty { StandsForNone program.now (texts_in strings.now line_strings.now)
            (line_text empty.now) }
        ensures program { result.program ≡ program.now }
        ensures texts { result.texts ≡ texts_in strings.now line_strings.now }
    {
        UnitInput {
            program,
            empty,
            line_strings,
            strings,
        }
    }

    /// The program.
    pub(crate) fn program(&self) -> &'a LineProgram
        ensures program { result.now ≡ self.now.program }
        ensures can { CanWrite self.now.program self.now.texts }
    {
        self.program
    }

    /// The format of the program's words.
    pub(crate) fn format(&self) -> Format
        ensures { result ≡ self.now.program.encoding.format }
    {
        self.program.format()
    }

    /// The texts of `.debug_str`.
    pub(crate) fn strings(&self) -> &'a StringTable
        ensures { result.now ≡ self.now.texts.strings }
    {
        self.strings
    }

    /// The texts of `.debug_line_str`.
    pub(crate) fn line_strings(&self) -> &'a LineStringTable
        ensures { result.now ≡ self.now.texts.line_strings }
    {
        self.line_strings
    }

    /// The empty text, where the program needs one.
    pub(crate) fn empty(&self) -> &'a LineString
        ensures { StandsForNone self.now.program self.now.texts (line_text result.now) }
    {
        self.empty
    }
}
