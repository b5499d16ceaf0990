//! The header of a unit, part by part, in the order of its fields (DWARF 5, 6.2.4; DWARF 2 to 4,
//! 6.2.4).

ghost use Rattle.std.specs.Prelude.{◌≡◌, ◌<◌, IfOk, IsTrue, option_map};
ghost use Rattle.gimli_core.specs.Layout.{layout_of};
ghost use Rattle.gimli_core.specs.Numbers.{is_address_size};
ghost use Rattle.gimli_core.specs.Reading.{result_map};
ghost use Rattle.gimli_core.specs.Seen.{taken};
ghost use Rattle.gimli_line.specs.header.HeaderGrammar.{
  version_production,
  address_size_production,
  operations_production,
  line_encoding_production,
  parameters_production,
};
ghost use Rattle.gimli_line.specs.header.Parameters.{IsLineEncoding};
ghost use Rattle.gimli_line.specs.header.Productions.{positive};

use crate::header::file_entry::FileEntry;
use crate::header::parameters::Parameters;
use crate::header::program_header::LineProgramHeader;
use crate::header::tables::{parse_directory_table, parse_file_table};
use gimli_core::{
    DebugLineOffset, Encoding, Error, Format, LineEncoding, Reader, ReaderOffset, Result,
};
use std::alloc::Global;

/// Takes a byte that isn't 0. Refused by `error` where it is.
#[tactic(auto, unfolding(crate::specs::header::Productions::positive))]
fn parse_positive<R: Reader>(input: &mut R, error: Error) -> Result<u8>
    ensures read { (result, R.seen input.new)
        ≡ taken (positive error) (R.seen input.old) }
    ensures positive { IfOk result (λ n. 0 < n) }
{
    let n = input.read_u8()?;
    if n == 0 {
        return Err(error);
    }
    Ok(n)
}

/// Takes a version, from 2 to 5: the versions of the line table, which are those of DWARF (DWARF 5,
/// appendix F). Refused by `UnknownVersion` at any other.
#[tactic(auto, unfolding(crate::specs::header::HeaderGrammar::version_production))]
fn parse_version<R: Reader>(input: &mut R) -> Result<u16>
    ensures { (result, R.seen input.new)
        ≡ taken (version_production (R.seen input.old).is_big) (R.seen input.old) }
{
    let version = input.read_u16()?;
    if version < 2 || version > 5 {
        return Err(Error::UnknownVersion(u64::from(version)));
    }
    Ok(version)
}

/// The address size of a unit: the handed one up to version 4, else the unit's own, which a
/// segment selector size of 0 follows.
#[tactic(auto, unfolding(crate::specs::header::HeaderGrammar::address_size_production))]
fn parse_address_size<R: Reader>(input: &mut R, version: u16, handed: u8) -> Result<u8>
    requires { IsTrue (is_address_size handed) }
    ensures read { (result, R.seen input.new)
        ≡ taken (address_size_production version handed) (R.seen input.old) }
    ensures size { IfOk result (λ n. IsTrue (is_address_size n)) }
{
    if version <= 4 {
        return Ok(handed);
    }
    let address_size = input.read_address_size()?;
    let segment_selector_size = input.read_u8()?;
    if segment_selector_size != 0 {
        return Err(Error::UnsupportedSegmentSize(segment_selector_size));
    }
    Ok(address_size)
}

/// Takes the encoding of rows. Up to version 3 there is no maximum of operations; it is 1 then.
#[tactic(auto, unfolding(crate::specs::header::HeaderGrammar::line_encoding_production))]
fn parse_line_encoding<R: Reader>(input: &mut R, version: u16) -> Result<LineEncoding>
    ensures read { (result, R.seen input.new)
        ≡ taken (line_encoding_production version) (R.seen input.old) }
    ensures allowed { IfOk result IsLineEncoding }
{
    let minimum_instruction_length = parse_positive(input, Error::MinimumInstructionLengthZero)?;
    let maximum_operations_per_instruction = parse_operations(input, version)?;
    let default_is_stmt = input.read_u8()? != 0;
    let line_base = input.read_i8()?;
    let line_range = parse_positive(input, Error::LineRangeZero)?;
    Ok(LineEncoding {
        minimum_instruction_length,
        maximum_operations_per_instruction,
        default_is_stmt,
        line_base,
        line_range,
    })
}

/// The maximum of operations of an instruction: there from version 4 on, for machines whose
/// instructions are bundles of operations.
fn parse_operations<R: Reader>(input: &mut R, version: u16) -> Result<u8>
    ensures read { (result, R.seen input.new)
        ≡ taken (operations_production version) (R.seen input.old) }
    ensures positive { IfOk result (λ n. 0 < n) }
{
    if version <= 3 {
        return Ok(1);
    }
    parse_positive(input, Error::MaximumOperationsPerInstructionZero)
}

/// Takes the parameters by which instructions are executed.
#[tactic(auto, unfolding(crate::specs::header::HeaderGrammar::parameters_production))]
fn parse_parameters<R: Reader>(input: &mut R, encoding: Encoding) -> Result<Parameters>
    requires { IsTrue (is_address_size encoding.address_size) }
    ensures read { (result, R.seen input.new)
        ≡ taken (parameters_production encoding) (R.seen input.old) }
    ensures positive { IfOk result (λ parameters. 0 < parameters.opcode_base) }
    ensures encoding { IfOk result (λ parameters. parameters.encoding ≡ encoding) }
{
    let line_encoding = parse_line_encoding(input, encoding.version)?;
    let opcode_base = parse_positive(input, Error::OpcodeBaseZero)?;
    Ok(Parameters {
        encoding,
        line_encoding,
        opcode_base,
    })
}

/// What stands in front of the header length, and what that length counts.
#[derive(Drop)]
struct HeaderOpening<R: Reader> {
    encoding: Encoding,
    header_length: R::Offset,
    /// The further fields of the header.
    fields: R,
}

impl<R: Reader> HeaderOpening<R> {
    ghost use Rattle.gimli_line.specs.header.HeaderGrammar.{opening_production};
    ghost use Rattle.gimli_line.specs.inside.header.HeaderGrammar.{opening_seen};

    /// Takes a unit up to the end of its header; what is left is its program.
    #[tactic(auto, unfolding(crate::specs::header::HeaderGrammar::opening_production))]
    fn parse(input: &mut R, handed: u8, format: Format) -> Result<Self>
        requires { IsTrue (is_address_size handed) }
        ensures read { (result_map (opening_seen R.seen R.Offset.number) result, R.seen input.new)
            ≡ taken (opening_production (layout_of (R.seen input.old).is_big R.Offset.limit) handed
            format) (R.seen input.old) }
        ensures fields { IfOk result (λ opening.
            (R.seen opening.fields).is_big ≡ (R.seen input.old).is_big) }
        ensures size { IfOk result (λ opening.
            IsTrue (is_address_size opening.encoding.address_size)) }
    {
        let version = parse_version(input)?;
        let address_size = parse_address_size(input, version, handed)?;
        let header_length = input.read_length(format)?;
        let fields = input.split(header_length)?;
        Ok(HeaderOpening {
            encoding: Encoding {
                address_size,
                format,
                version,
            },
            header_length,
            fields,
        })
    }
}

impl<R, Offset> LineProgramHeader<R, Offset>
where
    R: Reader<Offset = Offset>,
    Offset: ReaderOffset,
{
    ghost use Rattle.gimli_core.specs.Results.{Gives};
    ghost use Rattle.gimli_core.specs.declared.error.Error.TheVariants.{OutOfMemory};
    ghost use Rattle.gimli_core.specs.declared.attribute_value.AttributeValue.TheVariants.{String};
    ghost use Rattle.gimli_line.specs.header.Header.{plain_file, unit_entry};
    ghost use Rattle.gimli_line.specs.header.Orders.{HasOneOrder};
    ghost use Rattle.gimli_line.specs.header.HeaderGrammar.{handed_value, fields_production};
    ghost use Rattle.gimli_line.specs.header.HeaderGrammar.{header_production};
    ghost use Rattle.gimli_line.specs.inside.header.HeaderGrammar.{opening_seen};
    ghost use Rattle.gimli_line.specs.header.File.{file_seen};

    /// Takes the header of a unit, and its program. The unit length says where the unit ends, and
    /// the header length where the program begins, so what a later version appends to a header is
    /// skipped.
    #[tactic(auto, unfolding(crate::specs::header::HeaderGrammar::header_production))]
    pub(crate) fn parse(
        alloc: Global,
        input: &mut R,
        offset: DebugLineOffset<Offset>,
        address_size: u8,
        comp_dir: Option<R>,
        comp_name: Option<R>,
    ) -> Result<Self>
        requires { IsTrue (is_address_size address_size) }
        ensures read { Gives OutOfMemory (λ header. header.meaning) result
            ((header_production (layout_of (R.seen input.old).is_big Offset.limit)
            (unit_entry R.seen address_size comp_dir comp_name)).read (R.seen input.old).bytes).0 }
        ensures layout { IfOk result (λ header.
            header.layout ≡ layout_of (R.seen input.old).is_big Offset.limit) }
        ensures offset { IfOk result (λ header. header.offset ≡ offset) }
        ensures order { IfOk result (HasOneOrder R.seen) }
        ensures directory { IfOk result (λ header. header.comp_dir
            ≡ handed_value header.meaning.parameters.encoding comp_dir) }
        ensures name { IfOk result (λ header. option_map (λ file. file.path_name) header.comp_file
            ≡ handed_value header.meaning.parameters.encoding (option_map String comp_name)) }
    {
        let (unit_length, format) = input.read_initial_length()?;
        let mut program_buf = input.split(unit_length)?;
        let opening = HeaderOpening::parse(&mut program_buf, address_size, format)?;
        Self::parse_fields(
            alloc,
            opening,
            program_buf,
            offset,
            unit_length,
            comp_dir,
            comp_name,
        )
    }

    /// Takes the fields of a header within its length.
    #[tactic(auto, unfolding(crate::specs::header::HeaderGrammar::fields_production))]
    fn parse_fields(
        alloc: Global,
        opening: HeaderOpening<R>,
        program_buf: R,
        offset: DebugLineOffset<Offset>,
        unit_length: Offset,
        comp_dir: Option<R>,
        comp_name: Option<R>,
    ) -> Result<Self>
        requires size { IsTrue (is_address_size opening.encoding.address_size) }
        requires order { (R.seen opening.fields).is_big ≡ (R.seen program_buf).is_big }
        ensures read { Gives OutOfMemory (λ header. header.meaning) result
            ((fields_production (layout_of (R.seen program_buf).is_big Offset.limit)
            (unit_entry R.seen opening.encoding.address_size comp_dir comp_name)
            (Offset.number unit_length)
            (opening_seen R.seen Offset.number opening) (R.seen program_buf).bytes).read
            (R.seen opening.fields).bytes).0 }
        ensures layout { IfOk result (λ header.
            header.layout ≡ layout_of (R.seen program_buf).is_big Offset.limit) }
        ensures offset { IfOk result (λ header. header.offset ≡ offset) }
        ensures order { IfOk result (HasOneOrder R.seen) }
        ensures directory { IfOk result (λ header. header.comp_dir
            ≡ handed_value header.meaning.parameters.encoding comp_dir) }
        ensures name { IfOk result (λ header. option_map (λ file. file.path_name) header.comp_file
            ≡ handed_value header.meaning.parameters.encoding (option_map String comp_name)) }
    {
        let encoding = opening.encoding;
        let mut input = opening.fields;
        let parameters = parse_parameters(&mut input, encoding)?;
        let standard_opcode_lengths = input.split(Offset::from_u8(parameters.opcode_base - 1))?;
        let (directory_entry_format, include_directories) = parse_directory_table(
            alloc, &mut input, encoding,
        )?;
        let (file_name_entry_format, file_names) = parse_file_table(alloc, &mut input, encoding)?;
        Ok(LineProgramHeader {
            parameters,
            offset,
            unit_length,
            header_length: opening.header_length,
            standard_opcode_lengths,
            directory_entry_format,
            include_directories,
            file_name_entry_format,
            file_names,
            program_buf,
            comp_dir: Self::comp_dir_of(encoding, comp_dir),
            comp_file: Self::comp_file_of(encoding, comp_name),
        })
    }

    /// The handed directory, where the version takes it.
    fn comp_dir_of(encoding: Encoding, comp_dir: Option<R>) -> Option<R>
        ensures bytes { option_map (λ r. (R.seen r).bytes) result
            ≡ handed_value encoding (option_map (λ r. (R.seen r).bytes) comp_dir) }
        ensures own { result ≡ handed_value encoding comp_dir }
    {
        if encoding.version <= 4 {
            comp_dir
        } else {
            None
        }
    }

    /// The file of the handed name, where the version takes it.
    fn comp_file_of(encoding: Encoding, comp_name: Option<R>) -> Option<FileEntry<R, Offset>>
        ensures file { option_map (file_seen R.seen Offset.number) result
            ≡ handed_value encoding
            (option_map (λ path. plain_file path 0 0 0)
            (option_map (λ r. (R.seen r).bytes) comp_name)) }
        ensures path { option_map (λ file. file.path_name) result
            ≡ handed_value encoding (option_map String comp_name) }
    {
        match comp_name {
            Some(name) if encoding.version <= 4 => Some(FileEntry::of_path(name)),
            _ => None,
        }
    }
}
