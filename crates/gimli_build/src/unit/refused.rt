//! Where `write` refuses a program first, and why. Nothing is written to find it, and no memory is
//! taken.

ghost use Rattle.std.specs.Prelude.{◌≡◌, ◌<◌, ◌+◌, ◌-◌, ◌^◌, Bool, false, None, IsTrue, IfSome};
ghost use Rattle.std.specs.Prelude.{length, min, option_map, ◌&&◌, nat_eq, nat_le, if◌then◌else◌};
ghost use Rattle.gimli_core.specs.Numbers.{is_address_size, word_size};
ghost use Rattle.gimli_bytes.specs.Texts.{StringTables, texts_in};
ghost use Rattle.gimli_build.specs.LineText.{line_text, IsWithin};
ghost use Rattle.gimli_build.specs.Conditions.{CanWrite};
ghost use Rattle.gimli_build.specs.Cause.{item_cause, text_cause, word_cause, header_length};
ghost use Rattle.gimli_build.specs.Cause.{unit_length, unit_length_cause};
ghost use Rattle.gimli_build.specs.Refused.{FindsFirst, cause_of_directory, cause_of_file};
ghost use Rattle.gimli_build.specs.Refused.{cause_of_item, empty_cause, source_cause, wanted_form};
ghost use Rattle.gimli_build.specs.Refused.{encoding_cause, first_refusal, program_seen};
ghost use Rattle.gimli_build.specs.Refused.{items_seen, without_symbol};
ghost use Rattle.gimli_build.specs.declared.unit.refusal.Symbols.{Symbols};
ghost use Rattle.gimli_build.specs.Unit.{opcode_bytes};
ghost use Rattle.gimli_build.specs.Version5Tables.{first_form, sources as sources_of};

use crate::built::items::BuiltItem;
use crate::built::line_program::LineProgram;
use crate::built::line_string::LineString;
use crate::rows::sizes::items_size;
use crate::tables::sizes::tables_size;
use crate::tables::version_5::{directory_form, path_form, source_form};
use crate::unit::is_incompatible;
use crate::unit::refusal::{Refusal, Symbols};
use gimli_bytes::{Address, Error, LineStringTable, StringTable};
use gimli_core::{DwForm, Encoding, Format, constants};

impl LineProgram {
    /// Returns the first part of the program that `write` refuses, for a unit of this encoding, and
    /// why; or `None`, and then `write` fails only if memory is short, or with an error of its
    /// writer. Requires a program that `can_write` with these tables.
    ///
    /// `symbols` says whether the writer takes symbols as addresses. The parts come in the order in
    /// which `write` asks for them: what the header says of the encoding, the directories, the
    /// files, the header length, the items, and the unit length (DWARF 5, section 6.2.4). The
    /// errors are those of `write`; `laws::first_refusal_is_first_cause` states it. A call takes
    /// time in proportion to the program, and no memory.
    pub fn first_refusal(
        &self,
        encoding: Encoding,
        line_strings: &LineStringTable,
        strings: &StringTable,
        symbols: Symbols,
    ) -> Option<Refusal>
        requires { CanWrite self.now (texts_in strings.now line_strings.now) }
        ensures { (is_big : Bool) → result
            ≡ first_refusal symbols is_big encoding self.now
            (texts_in strings.now line_strings.now) }
    {
        if let Some(error) = encoding_cause(encoding, self) {
            return Some(Refusal::Header(error));
        }
        if let Some((number, error)) = self.first_directory(line_strings, strings) {
            return Some(Refusal::Directory(number, error));
        }
        if let Some((number, error)) = self.first_file(line_strings, strings) {
            return Some(Refusal::File(number, error));
        }
        if let Some(error) = header_length_cause(self) {
            return Some(Refusal::Header(error));
        }
        if let Some((number, error)) = self.first_item(symbols) {
            return Some(Refusal::Item(number, error));
        }
        match unit_length_cause(self) {
            Some(error) => Some(Refusal::Header(error)),
            None => None,
        }
    }

    /// The first directory that is refused, by its index, and why: its text has another form than
    /// that of the first one, stands in a table up to version 4, or has too large an offset.
    fn first_directory(
        &self,
        line_strings: &LineStringTable,
        strings: &StringTable,
    ) -> Option<(usize, Error)>
        requires { CanWrite self.now (texts_in strings.now line_strings.now) }
        ensures { FindsFirst
            (cause_of_directory self.now (texts_in strings.now line_strings.now)) result }
    {
        for index in 0..self.tables().directories().len() {
            if let Some(cause) = self.directory_cause(index, line_strings, strings) {
                return Some((index, cause));
            }
        }
        None
    }

    /// Why the directory with an index is refused.
    fn directory_cause(
        &self,
        index: usize,
        line_strings: &LineStringTable,
        strings: &StringTable,
    ) -> Option<Error>
        requires can { CanWrite self.now (texts_in strings.now line_strings.now) }
        requires there { index < length self.now.directories }
        ensures { result
            ≡ cause_of_directory self.now (texts_in strings.now line_strings.now) index }
    {
        let directories = self.tables().directories();
        let form = wanted_form(self.version(), directory_form(directories));
        let cause = text_cause(
            self.format(),
            form,
            &directories[index],
            line_strings,
            strings,
        );
        if is_handed(self.version(), index) {
            return None;
        }
        cause
    }

    /// The first file that is refused, by its index, and why: its path is refused as a directory
    /// is, or its source, or the empty text that stands for no source, whose offset may be too
    /// large.
    fn first_file(
        &self,
        line_strings: &LineStringTable,
        strings: &StringTable,
    ) -> Option<(usize, Error)>
        requires { CanWrite self.now (texts_in strings.now line_strings.now) }
        ensures { FindsFirst
            (cause_of_file self.now (texts_in strings.now line_strings.now)) result }
    {
        let sources = source_form(self.tables());
        for index in 0..self.tables().file_count() {
            if let Some(cause) = self.file_cause(index, sources, line_strings, strings) {
                return Some((index, cause));
            }
        }
        None
    }

    /// Why the file with an index is refused, where the first source has the form `sources`.
    fn file_cause(
        &self,
        index: usize,
        sources: DwForm,
        line_strings: &LineStringTable,
        strings: &StringTable,
    ) -> Option<Error>
        requires can { CanWrite self.now (texts_in strings.now line_strings.now) }
        requires there { index < length self.now.files }
        requires form { sources.0 ≡ first_form (sources_of self.now.files) }
        ensures { result ≡ cause_of_file self.now (texts_in strings.now line_strings.now) index }
    {
        let tables = self.tables();
        let (path, _, info) = tables.file(index);
        let form = wanted_form(self.version(), path_form(tables));
        match text_cause(self.format(), form, path, line_strings, strings) {
            Some(cause) => Some(cause),
            None => self.source_cause(&info.source, sources, line_strings, strings),
        }
    }

    /// Why a source is refused, or the empty text that stands for none, if sources are written.
    fn source_cause(
        &self,
        source: &Option<LineString>,
        sources: DwForm,
        line_strings: &LineStringTable,
        strings: &StringTable,
    ) -> Option<Error>
        requires within { IfSome source.now (λ text.
            IsWithin (texts_in strings.now line_strings.now) (line_text text)) }
        requires form { sources.0 ≡ first_form (sources_of self.now.files) }
        ensures { result ≡ source_cause self.now (texts_in strings.now line_strings.now)
            (option_map line_text source.now) }
    {
        if self.version() < 5 || !self.file_has_source {
            return None;
        }
        match source {
            Some(text) => text_cause(self.format(), sources, text, line_strings, strings),
            None => empty_cause(self.format(), sources, line_strings, strings),
        }
    }

    /// The first set address that is refused, by its index among the items, and why: a symbol that
    /// isn't taken, or an address that is wider than those of the program.
    fn first_item(&self, symbols: Symbols) -> Option<(usize, Error)>
        requires { self.now.is_none ≡ false }
        ensures { FindsFirst (cause_of_item (program_seen symbols self.now)) result }
    {
        for index in 0..self.built_items().len() {
            if let Some(cause) = self.item_cause(symbols, index) {
                return Some((index, cause));
            }
        }
        None
    }

    /// Why the item with an index is refused.
    fn item_cause(&self, symbols: Symbols, index: usize) -> Option<Error>
        requires program { self.now.is_none ≡ false }
        requires there { index < length self.now.items }
        ensures { result ≡ cause_of_item (program_seen symbols self.now) index }
    {
        let size = self.encoding().address_size;
        let item = &self.built_items()[index];
        match symbols {
            Symbols::Taken => constant_cause(size, item),
            Symbols::Refused => item_cause(size, item),
        }
    }
}

/// Why a program is refused for a unit of an encoding, whatever its parts are.
fn encoding_cause(unit: Encoding, program: &LineProgram) -> Option<Error>
    ensures { result ≡ encoding_cause unit program.now }
{
    let version = program.version();
    if is_incompatible(unit, program.encoding()) {
        return Some(Error::IncompatibleLineProgramEncoding);
    }
    if !(2..=5).contains(&version) {
        return Some(Error::UnsupportedVersion(version));
    }
    let operations = program.line_encoding().maximum_operations_per_instruction;
    (version < 4 && operations != 1).then_some(Error::NeedVersion(4))
}

/// Why the header length is refused. It is counted in the 32-bit format alone, since a word of the
/// other holds each.
fn header_length_cause(program: &LineProgram) -> Option<Error>
    ensures { (texts : StringTables) → result
        ≡ word_cause program.now.encoding.format (header_length program.now texts) }
{
    if program.format() == Format::Dwarf64 {
        return None;
    }
    word_cause(program.format(), header_length(program) as usize)
}

/// Why the unit length is refused, where no item is. It is counted in the 32-bit format alone too.
fn unit_length_cause(program: &LineProgram) -> Option<Error>
    requires { program.now.is_none ≡ false }
    ensures { (symbols : Symbols) (is_big : Bool) (texts : StringTables) →
        FindsFirst (cause_of_item (program_seen symbols program.now)) None →
        result ≡ unit_length_cause program.now.encoding.format
        (unit_length is_big (program_seen symbols program.now) texts) }
{
    if program.format() == Format::Dwarf64 {
        return None;
    }
    length_cause(program.format(), unit_length(program))
}

/// Why a unit length is refused.
fn length_cause(format: Format, length: u64) -> Option<Error>
    ensures { result ≡ unit_length_cause format length }
{
    if format == Format::Dwarf64 {
        return None;
    }
    if length > 0xffff_ffff {
        return Some(Error::ValueTooLarge);
    }
    (length >= 0xffff_fff0).then_some(Error::InitialLengthOverflow)
}

/// How many bytes the header length counts, up to the greatest number of 64 bits.
fn header_length(program: &LineProgram) -> u64
    ensures { (texts : StringTables) → result
        ≡ min (header_length program.now texts) (2 ^ 64 - 1) }
{
    tables_size(program).saturating_add(fixed_size(program.version()))
}

/// How many bytes of the fields that the header length counts stand before the tables.
fn fixed_size(version: u16) -> u64
    ensures { result ≡ (if nat_le 4 version then 5 else 4) + length opcode_bytes }
{
    if version >= 4 { 18 } else { 17 }
}

/// How many bytes the unit length counts where no item is refused, up to the greatest number of 64
/// bits.
fn unit_length(program: &LineProgram) -> u64
    requires { program.now.is_none ≡ false }
    ensures { (symbols : Symbols) (is_big : Bool) (texts : StringTables) →
        FindsFirst (cause_of_item (program_seen symbols program.now)) None →
        result ≡ min (unit_length is_big (program_seen symbols program.now) texts) (2 ^ 64 - 1) }
{
    let opening = opening_size(program.encoding());
    let items = program.built_items();
    let size = items_size(program.encoding(), program.line_encoding(), items);
    header_length(program)
        .saturating_add(size)
        .saturating_add(opening)
}

/// How many bytes stand after the unit length and before what the header length counts.
fn opening_size(encoding: Encoding) -> u64
    ensures { result
        ≡ (if nat_le encoding.version 4 then 2 else 4) + word_size encoding.format }
{
    let word = u64::from(encoding.format.word_size());
    if encoding.version <= 4 {
        2 + word
    } else {
        4 + word
    }
}

/// Whether a directory is the working directory in a version up to 4, where it isn't written.
fn is_handed(version: u16, index: usize) -> bool
    ensures { result ≡ (nat_le version 4 && nat_eq index 0) }
{
    version <= 4 && index == 0
}

/// The form that texts have to have, where the first of their table has this one.
fn wanted_form(version: u16, form: DwForm) -> DwForm
    ensures { result.0 ≡ wanted_form version form.0 }
{
    if version <= 4 {
        constants::DW_FORM_string
    } else {
        form
    }
}

/// Why a text is refused that has to have this form.
fn text_cause(
    format: Format,
    form: DwForm,
    text: &LineString,
    line_strings: &LineStringTable,
    strings: &StringTable,
) -> Option<Error>
    requires { IsWithin (texts_in strings.now line_strings.now) (line_text text.now) }
    ensures { result ≡ text_cause format (texts_in strings.now line_strings.now)
        (form.0, line_text text.now) }
{
    if text.form() != form {
        return Some(Error::LineStringFormMismatch);
    }
    match text {
        LineString::String(_) => None,
        LineString::StringRef(id) => word_cause(format, strings.offset(*id).0),
        LineString::LineStringRef(id) => word_cause(format, line_strings.offset(*id).0),
    }
}

/// Why the empty text is refused, which `write` adds to the table of this form.
fn empty_cause(
    format: Format,
    form: DwForm,
    line_strings: &LineStringTable,
    strings: &StringTable,
) -> Option<Error>
    ensures { result ≡ empty_cause format (texts_in strings.now line_strings.now) form.0 }
{
    match form {
        constants::DW_FORM_strp => word_cause(format, strings.offset_of(&[]).0),
        constants::DW_FORM_line_strp => word_cause(format, line_strings.offset_of(&[]).0),
        _ => None,
    }
}

/// Why an offset is refused.
fn word_cause(format: Format, offset: usize) -> Option<Error>
    ensures { result ≡ word_cause format offset }
{
    let is_large = format == Format::Dwarf32 && offset as u64 > 0xffff_ffff;
    is_large.then_some(Error::ValueTooLarge)
}

/// Why an item is refused.
fn item_cause(size: u8, item: &BuiltItem) -> Option<Error>
    requires { IsTrue (is_address_size size) }
    ensures { result ≡ item_cause size item.now }
{
    match item {
        BuiltItem::SetAddress(Address::Constant(address)) => {
            (*address > greatest_address(size)).then_some(Error::ValueTooLarge)
        }
        BuiltItem::SetAddress(Address::Symbol { .. }) => Some(Error::InvalidAddress),
        _ => None,
    }
}

/// Why an item is refused by a writer that takes symbols.
fn constant_cause(size: u8, item: &BuiltItem) -> Option<Error>
    requires { IsTrue (is_address_size size) }
    ensures { result ≡ item_cause size (without_symbol item.now) }
{
    match item {
        BuiltItem::SetAddress(Address::Constant(address)) => {
            (*address > greatest_address(size)).then_some(Error::ValueTooLarge)
        }
        _ => None,
    }
}

/// The greatest address of so many bytes.
fn greatest_address(size: u8) -> u64
    requires { IsTrue (is_address_size size) }
    ensures { result + 1 ≡ 256 ^ size }
{
    match size {
        1 => 0xff,
        2 => 0xffff,
        4 => 0xffff_ffff,
        _ => 0xffff_ffff_ffff_ffff,
    }
}
