//! The sections from which compilations are read, and what a unit says of its own.

ghost use Rattle.std.specs.Prelude.{◌≡◌, ℕ, List, IfErr, IfOk, IsTrue, drop, option_map};
ghost use Rattle.gimli_core.specs.Layout.{layout_of};
ghost use Rattle.gimli_core.specs.Numbers.{is_address_size};
ghost use Rattle.gimli_core.specs.Reading.{result_map};
ghost use Rattle.gimli_compilation.specs.inside.AbbreviationReading.{IsListed, listed};
ghost use Rattle.gimli_compilation.specs.inside.AbbreviationTable.{AreTables};
ghost use Rattle.gimli_compilation.specs.Unit.{string_offset_production, text_from};
ghost use Rattle.gimli_compilation.specs.inside.Unit.{place_of};

use crate::abbreviation::{MemoryResult, Tables, charge};
use crate::attributes::{Attributes, parse_attributes};
use crate::form::{NumberKind, Value};
use crate::header::{UnitHeader, split_unit};
use crate::refusal::Refusal;
use crate::texts::Texts;
use gimli_core::{Encoding, Error, Format, Reader, ReaderOffset, Result};
use std::alloc::Global;

/// The sections from which compilations are read. A section that the program lacks is empty.
///
/// <!-- part of crates/uses/src/where_is.rt -->
/// ```rust
/// let sections = CompilationSections {
///     debug_info: section(&elf, b".debug_info")?,
///     debug_abbrev: section(&elf, b".debug_abbrev")?,
///     debug_str: section(&elf, b".debug_str")?,
///     debug_line_str: section(&elf, b".debug_line_str")?,
///     debug_str_offsets: section(&elf, b".debug_str_offsets")?,
/// };
/// ```
#[derive(Clone, Copy, Debug)]
pub struct CompilationSections<R> {
    /// `.debug_info`
    pub debug_info: R,
    /// `.debug_abbrev`
    pub debug_abbrev: R,
    /// `.debug_str`
    pub debug_str: R,
    /// `.debug_line_str`
    pub debug_line_str: R,
    /// `.debug_str_offsets`
    pub debug_str_offsets: R,
}

/// What the first entry of a unit says of its compilation.
#[derive(Clone, Copy, Debug, PartialEq, Eq)]
pub struct Compilation<R> {
    /// The version of the unit.
    pub version: u16,
    /// The offset of the line program in `.debug_line`.
    pub stmt_list: Option<u64>,
    /// The directory in which the compiler ran. None where there is none or it is in another file.
    pub comp_dir: Option<R>,
    /// The name of the primary source file. None where there is none or it is in another file.
    pub name: Option<R>,
}

/// What is kept of a unit for the next one.
#[derive(Drop)]
pub(crate) struct Kept<R: Reader> {
    pub tables: Tables<R>,
    pub strings: Texts<R>,
    pub line_strings: Texts<R>,
    /// How many more bytes of specifications may be read for first entries.
    room: u64,
}

/// How many bytes of specifications may be read for first entries, for each byte of `.debug_info`.
/// A unit has at least 12 bytes, which pay for 60 attributes without a value.
const SPECIFICATIONS_READ: u64 = 16;

/// What comes of a unit whose bytes could be read.
#[derive(Drop)]
enum Outcome<R> {
    Found(Compilation<R>),
    UnknownUnitType(u8),
    MissingAbbreviation(u64),
}

impl<R> Value<R> {
    ghost use Rattle.gimli_compilation.specs.Value.{section_offset};

    /// The number of a value that is an offset into a section.
    fn section_offset(&self) -> Option<u64>
        ensures { result ≡ section_offset self.now }
    {
        match *self {
            Value::Number(NumberKind::SectionOffset, offset) => Some(offset),
            _ => None,
        }
    }
}

impl<R> Outcome<R> {
    ghost use Rattle.gimli_compilation.specs.inside.Unit.{answer_of};

    /// What a caller sees of an outcome.
    fn answer(outcome: Result<Outcome<R>>) -> std::result::Result<Compilation<R>, Refusal>
        ensures { result ≡ answer_of outcome }
    {
        match outcome {
            Ok(Outcome::Found(compilation)) => Ok(compilation),
            Ok(Outcome::UnknownUnitType(number)) => Err(Refusal::UnknownUnitType(number)),
            Ok(Outcome::MissingAbbreviation(code)) => Err(Refusal::MissingAbbreviation(code)),
            Err(error) => Err(Refusal::Bytes(error)),
        }
    }
}

/// The text that begins at an offset of a section.
fn some_text<R: Reader>(texts: &mut Texts<R>, offset: u64) -> MemoryResult<Result<Option<R>>>
    ensures same { texts.new ≡ texts.old }
    ensures read { IfOk result (λ text. (bytes : List ℕ)
        → (result_map (option_map (λ r. (R.seen r).bytes)) text, bytes)
        ≡ (text_from R.Offset.limit texts.old offset).read bytes) }
{
    match texts.text(offset)? {
        Ok(text) => Ok(Ok(Some(text))),
        Err(error) => Ok(Err(error)),
    }
}

/// The place of an index in a table that begins at a base. Refused by `UnsupportedOffset` where it
/// has more than 64 bits.
fn place_of(base: u64, index: u64, size: u8) -> Result<u64>
    ensures { result ≡ place_of base index size }
{
    match index.checked_mul(u64::from(size)) {
        Some(distance) => match base.checked_add(distance) {
            Some(place) => Ok(place),
            None => Err(Error::UnsupportedOffset),
        },
        None => Err(Error::UnsupportedOffset),
    }
}

/// The string offset of an index.
#[tactic(auto, unfolding(crate::specs::Unit::string_offset_production))]
fn string_offset<R: Reader>(section: &R, format: Format, base: u64, index: u64) -> Result<u64>
    ensures { result
        ≡ ((string_offset_production (layout_of (R.seen section.now).is_big R.Offset.limit)
        format base index).read (R.seen section.now).bytes).0 }
{
    let size = format.word_size();
    let place = R::Offset::from_u64(place_of(base, index, size)?)?;
    let mut input = *section;
    input.split(place)?;
    input.read_uint(usize::from(size))
}

impl<R: Reader> CompilationSections<R> {
    ghost use Rattle.gimli_compilation.specs.Sections.{compilation_seen, sections_of};
    ghost use Rattle.gimli_compilation.specs.Unit.{HasCompilationAt, HasRefusalAt};
    ghost use Rattle.gimli_compilation.specs.inside.Value.{attributes_seen, value_seen};
    ghost use Rattle.gimli_compilation.specs.inside.Seen.{header_seen};
    ghost use Rattle.gimli_compilation.specs.Unit.{compilation_production, content_production};
    ghost use Rattle.gimli_compilation.specs.Unit.{entry_production, found_entry, text_by, text_of};
    ghost use Rattle.gimli_compilation.specs.inside.Unit.{outcome_seen};

    /// What is kept before the first unit.
    pub(crate) fn nothing_kept(&self, alloc: Global) -> Kept<R>
        ensures tables { AreTables R.seen (R.seen self.now.debug_abbrev).bytes result.tables }
        ensures strings { result.strings ≡ (R.seen self.now.debug_str).bytes }
        ensures line_strings { result.line_strings ≡ (R.seen self.now.debug_line_str).bytes }
    {
        Kept {
            tables: Tables::new(alloc, &self.debug_abbrev),
            strings: Texts::new(alloc, &self.debug_str),
            line_strings: Texts::new(alloc, &self.debug_line_str),
            room: self
                .debug_info
                .len()
                .into_u64()
                .saturating_mul(SPECIFICATIONS_READ),
        }
    }

    /// The compilation of the unit that begins at an offset of `.debug_info`; an offset past the
    /// end leaves no bytes. The refusal is that of the first part that fails: the header, the table
    /// of declarations up to the code of the first entry, the attributes of this entry, or the
    /// texts that they refer to.
    pub(crate) fn compilation(
        &self,
        offset: R::Offset,
        kept: &mut Kept<R>,
    ) -> MemoryResult<std::result::Result<Compilation<R>, Refusal>>
        requires tables { AreTables R.seen (R.seen self.now.debug_abbrev).bytes kept.old.tables }
        requires strings { kept.old.strings ≡ (R.seen self.now.debug_str).bytes }
        requires line_strings { kept.old.line_strings ≡ (R.seen self.now.debug_line_str).bytes }
        ensures tables { AreTables R.seen (R.seen self.now.debug_abbrev).bytes kept.new.tables }
        ensures strings { kept.new.strings ≡ kept.old.strings }
        ensures line_strings { kept.new.line_strings ≡ kept.old.line_strings }
        ensures compilation { IfOk result (λ answer. IfOk answer (λ compilation.
            HasCompilationAt (sections_of R.seen R.Offset.limit self.now)
            (R.Offset.number offset) (compilation_seen R.seen compilation))) }
        ensures refusal { IfOk result (λ answer. IfErr answer
            (HasRefusalAt (sections_of R.seen R.Offset.limit self.now)
            (R.Offset.number offset))) }
    {
        let mut input = self.info_at(offset);
        let (mut unit, format) = match split_unit(&mut input) {
            Ok(unit) => unit,
            Err(error) => return Ok(Err(Refusal::Bytes(error))),
        };
        let outcome = self.parse_content(&mut unit, format, kept)?;
        Ok(Outcome::answer(outcome))
    }

    /// The bytes of `.debug_info` from an offset on; none where it is past the end.
    pub(crate) fn info_at(&self, offset: R::Offset) -> R
        ensures bytes { (R.seen result).bytes
            ≡ drop (R.Offset.number offset) (R.seen self.now.debug_info).bytes }
        ensures order { (R.seen result).is_big ≡ (R.seen self.now.debug_info).is_big }
    {
        let mut input = self.debug_info;
        if input.skip(offset).is_err() {
            input.empty();
        }
        input
    }

    /// Takes the content of a unit up to its first entry.
    #[tactic(auto, unfolding(crate::specs::Unit::content_production))]
    fn parse_content(
        &self,
        unit: &mut R,
        format: Format,
        kept: &mut Kept<R>,
    ) -> MemoryResult<Result<Outcome<R>>>
        requires order { (R.seen unit.old).is_big ≡ (R.seen self.now.debug_info).is_big }
        requires tables { AreTables R.seen (R.seen self.now.debug_abbrev).bytes kept.old.tables }
        requires strings { kept.old.strings ≡ (R.seen self.now.debug_str).bytes }
        requires line_strings { kept.old.line_strings ≡ (R.seen self.now.debug_line_str).bytes }
        ensures tables { AreTables R.seen (R.seen self.now.debug_abbrev).bytes kept.new.tables }
        ensures strings { kept.new.strings ≡ kept.old.strings }
        ensures line_strings { kept.new.line_strings ≡ kept.old.line_strings }
        ensures read { IfOk result (λ outcome.
            (result_map (outcome_seen (compilation_seen R.seen)) outcome, (R.seen unit.new).bytes)
            ≡ (content_production (sections_of R.seen R.Offset.limit self.now)
            format).read (R.seen unit.old).bytes) }
    {
        let header = match UnitHeader::parse(unit, format) {
            Ok(header) => header,
            Err(error) => return Ok(Err(error)),
        };
        if !header.unit_type.is_known() {
            return Ok(Ok(Outcome::UnknownUnitType(header.unit_type.0)));
        }
        self.parse_entry(unit, header, kept)
    }

    /// Takes the first entry of a unit.
    #[tactic(auto, unfolding(crate::specs::Unit::entry_production))]
    fn parse_entry(
        &self,
        unit: &mut R,
        header: UnitHeader<R>,
        kept: &mut Kept<R>,
    ) -> MemoryResult<Result<Outcome<R>>>
        requires order { (R.seen unit.old).is_big ≡ (R.seen self.now.debug_info).is_big }
        requires size { IsTrue (is_address_size header.encoding.address_size) }
        requires tables { AreTables R.seen (R.seen self.now.debug_abbrev).bytes kept.old.tables }
        requires strings { kept.old.strings ≡ (R.seen self.now.debug_str).bytes }
        requires line_strings { kept.old.line_strings ≡ (R.seen self.now.debug_line_str).bytes }
        ensures tables { AreTables R.seen (R.seen self.now.debug_abbrev).bytes kept.new.tables }
        ensures strings { kept.new.strings ≡ kept.old.strings }
        ensures line_strings { kept.new.line_strings ≡ kept.old.line_strings }
        ensures read { IfOk result (λ outcome.
            (result_map (outcome_seen (compilation_seen R.seen)) outcome, (R.seen unit.new).bytes)
            ≡ (entry_production (sections_of R.seen R.Offset.limit self.now)
            (header_seen R.Offset.number header)).read (R.seen unit.old).bytes) }
    {
        let code = match unit.read_uleb128() {
            Ok(code) => code,
            Err(error) => return Ok(Err(error)),
        };
        let table = header.abbreviations;
        match kept.tables.find(&self.debug_abbrev, table, code)? {
            Ok(Some(found)) => self.parse_found(unit, header.encoding, found, kept),
            Ok(None) => Ok(Ok(Outcome::MissingAbbreviation(code))),
            Err(error) => Ok(Err(error)),
        }
    }

    /// Takes an entry whose specifications are known. Fails where no memory is left, or where more
    /// bytes of specifications would be read than may be.
    #[tactic(auto, unfolding(crate::specs::Unit::found_entry))]
    fn parse_found(
        &self,
        unit: &mut R,
        encoding: Encoding,
        mut specifications: R,
        kept: &mut Kept<R>,
    ) -> MemoryResult<Result<Outcome<R>>>
        requires order { (R.seen unit.old).is_big ≡ (R.seen self.now.debug_info).is_big }
        requires size { IsTrue (is_address_size encoding.address_size) }
        requires closed { IsListed (R.seen specifications).bytes }
        requires strings { kept.old.strings ≡ (R.seen self.now.debug_str).bytes }
        requires line_strings { kept.old.line_strings ≡ (R.seen self.now.debug_line_str).bytes }
        ensures tables { kept.new.tables ≡ kept.old.tables }
        ensures strings { kept.new.strings ≡ kept.old.strings }
        ensures line_strings { kept.new.line_strings ≡ kept.old.line_strings }
        ensures read { IfOk result (λ outcome.
            (result_map (outcome_seen (compilation_seen R.seen)) outcome, (R.seen unit.new).bytes)
            ≡ (found_entry (sections_of R.seen R.Offset.limit self.now) encoding
            (listed (R.seen specifications).bytes)).read (R.seen unit.old).bytes) }
    {
        let before = specifications.len().into_u64();
        let parsed = parse_attributes(unit, encoding, &mut specifications);
        let after = specifications.len().into_u64();
        charge(&mut kept.room, before.saturating_sub(after))?;
        let attributes = match parsed {
            Ok(attributes) => attributes,
            Err(error) => return Ok(Err(error)),
        };
        let compilation = self.compilation_of(encoding, &attributes, kept)?;
        match compilation {
            Ok(compilation) => Ok(Ok(Outcome::Found(compilation))),
            Err(error) => Ok(Err(error)),
        }
    }

    /// What the attributes of an entry say.
    #[tactic(auto, unfolding(crate::specs::Unit::compilation_production))]
    fn compilation_of(
        &self,
        encoding: Encoding,
        attributes: &Attributes<R>,
        kept: &mut Kept<R>,
    ) -> MemoryResult<Result<Compilation<R>>>
        requires strings { kept.old.strings ≡ (R.seen self.now.debug_str).bytes }
        requires line_strings { kept.old.line_strings ≡ (R.seen self.now.debug_line_str).bytes }
        ensures kept { kept.new ≡ kept.old }
        ensures read { IfOk result (λ compilation.
            (bytes : List ℕ) → (result_map (compilation_seen R.seen) compilation, bytes)
            ≡ (compilation_production (sections_of R.seen R.Offset.limit self.now)
            encoding (attributes_seen R.seen attributes.now)).read bytes) }
    {
        let base = attributes.str_offsets_base.section_offset();
        let comp_dir = match self.text_of(encoding.format, base, &attributes.comp_dir, kept)? {
            Ok(comp_dir) => comp_dir,
            Err(error) => return Ok(Err(error)),
        };
        let name = match self.text_of(encoding.format, base, &attributes.name, kept)? {
            Ok(name) => name,
            Err(error) => return Ok(Err(error)),
        };
        Ok(Ok(Compilation {
            version: encoding.version,
            stmt_list: attributes.stmt_list.section_offset(),
            comp_dir,
            name,
        }))
    }

    /// The text of a value; None where the value has no text, or one in another file.
    fn text_of(
        &self,
        format: Format,
        base: Option<u64>,
        value: &Value<R>,
        kept: &mut Kept<R>,
    ) -> MemoryResult<Result<Option<R>>>
        requires strings { kept.old.strings ≡ (R.seen self.now.debug_str).bytes }
        requires line_strings { kept.old.line_strings ≡ (R.seen self.now.debug_line_str).bytes }
        ensures kept { kept.new ≡ kept.old }
        ensures read { IfOk result (λ text.
            (bytes : List ℕ) → (result_map (option_map (λ r. (R.seen r).bytes)) text, bytes)
            ≡ (text_of (sections_of R.seen R.Offset.limit self.now) format base
            (value_seen R.seen value.now)).read bytes) }
    {
        match *value {
            Value::Text(text) => Ok(Ok(Some(text))),
            Value::Number(kind, number) => self.text_by(format, base, kind, number, kept),
            Value::Passed => Ok(Ok(None)),
        }
    }

    /// The text that a number refers to.
    #[tactic(auto, unfolding(crate::specs::Unit::text_by))]
    fn text_by(
        &self,
        format: Format,
        base: Option<u64>,
        kind: NumberKind,
        number: u64,
        kept: &mut Kept<R>,
    ) -> MemoryResult<Result<Option<R>>>
        requires strings { kept.old.strings ≡ (R.seen self.now.debug_str).bytes }
        requires line_strings { kept.old.line_strings ≡ (R.seen self.now.debug_line_str).bytes }
        ensures kept { kept.new ≡ kept.old }
        ensures read { IfOk result (λ text.
            (bytes : List ℕ) → (result_map (option_map (λ r. (R.seen r).bytes)) text, bytes)
            ≡ (text_by (sections_of R.seen R.Offset.limit self.now) format base kind
            number).read bytes) }
    {
        match kind {
            NumberKind::StringOffset => some_text(&mut kept.strings, number),
            NumberKind::LineStringOffset => some_text(&mut kept.line_strings, number),
            NumberKind::StringIndex => match base {
                Some(base) => {
                    match string_offset(&self.debug_str_offsets, format, base, number) {
                        Ok(offset) => some_text(&mut kept.strings, offset),
                        Err(error) => Ok(Err(error)),
                    }
                }
                None => Ok(Ok(None)),
            },
            _ => Ok(Ok(None)),
        }
    }
}
