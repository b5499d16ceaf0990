//! The header of a unit (DWARF 5, section 7.5.1; DWARF 2 to 4, section 7.5.1.1).

ghost use Rattle.gimli_core.specs.Seen.{taken};
ghost use Rattle.std.specs.Prelude.{◌≡◌, IfOk, IsTrue};
ghost use Rattle.gimli_core.specs.Layout.{layout_of};
ghost use Rattle.gimli_core.specs.Numbers.{is_address_size};
ghost use Rattle.gimli_core.specs.Reading.{result_map};
ghost use Rattle.gimli_compilation.specs.Header.{frame_production, version_production};
ghost use Rattle.gimli_compilation.specs.inside.Seen.{frame_seen};

use crate::constants::{self, DwUt};
use gimli_core::{Encoding, Error, Format, Reader, ReaderOffset, Result};

/// Takes the frame of a unit: its length, and as many bytes as that says. Returns the latter, and
/// the format.
#[tactic(auto, unfolding(crate::specs::Header::frame_production))]
pub(crate) fn split_unit<R: Reader>(input: &mut R) -> Result<(R, Format)>
    ensures read { (result_map (frame_seen R.seen) result, R.seen input.new)
        ≡ taken (frame_production (layout_of (R.seen input.old).is_big R.Offset.limit))
        (R.seen input.old) }
    ensures part { IfOk result (λ unit. (R.seen unit.0).is_big ≡ (R.seen input.old).is_big) }
{
    let (length, format) = input.read_initial_length()?;
    let unit = input.split(length)?;
    Ok((unit, format))
}

/// Takes a version, from 2 to 5. Refused by `UnknownVersion` at any other.
#[tactic(auto, unfolding(crate::specs::Header::version_production))]
fn parse_version<R: Reader>(input: &mut R) -> Result<u16>
    ensures read { (result, R.seen input.new)
        ≡ taken (version_production (R.seen input.old).is_big) (R.seen input.old) }
{
    let version = input.read_u16()?;
    if version < 2 || version > 5 {
        return Err(Error::UnknownVersion(u64::from(version)));
    }
    Ok(version)
}

impl DwUt {
    ghost use Rattle.std.specs.Prelude.{◌≡◌};
    ghost use Rattle.gimli_compilation.specs.Header.{is_unit_type, type_fields_size};

    /// Whether it is a type that the standard defines.
    pub(crate) fn is_known(self) -> bool
        ensures { result ≡ is_unit_type self.0 }
    {
        1 <= self.0 && self.0 <= 6
    }

    /// The number of bytes of the fields that only headers of this type have: a signature and the
    /// offset of a type, or the number of the compilation that is in another file.
    fn fields_size(self, format: Format) -> u8
        ensures { result ≡ type_fields_size self.0 format }
    {
        match self {
            constants::DW_UT_type | constants::DW_UT_split_type => 8 + format.word_size(),
            constants::DW_UT_skeleton | constants::DW_UT_split_compile => 8,
            _ => 0,
        }
    }
}

/// What the header of a unit says.
#[derive(Drop)]
pub(crate) struct UnitHeader<R: Reader> {
    pub encoding: Encoding,
    /// The type; up to version 4, which has none in `.debug_info`, that of a full compilation.
    pub unit_type: DwUt,
    /// Where the declarations of the unit begin in `.debug_abbrev`.
    pub abbreviations: R::Offset,
}

impl<R: Reader> UnitHeader<R> {
    ghost use Rattle.gimli_core.specs.Seen.{taken};
    ghost use Rattle.gimli_compilation.specs.Header.{header_production, new_fields_production};
    ghost use Rattle.gimli_compilation.specs.Header.{old_fields_production};
    ghost use Rattle.gimli_compilation.specs.inside.Seen.{header_seen};

    /// Takes the fields after the length of a unit.
    #[tactic(auto, unfolding(crate::specs::Header::header_production))]
    pub(crate) fn parse(input: &mut R, format: Format) -> Result<Self>
        ensures read { (result_map (header_seen R.Offset.number) result, R.seen input.new)
            ≡ taken (header_production (layout_of (R.seen input.old).is_big R.Offset.limit) format)
            (R.seen input.old) }
        ensures size { IfOk result
            (λ header. IsTrue (is_address_size header.encoding.address_size)) }
    {
        let version = parse_version(input)?;
        if version <= 4 {
            Self::parse_old(input, format, version)
        } else {
            Self::parse_new(input, format, version)
        }
    }

    /// The fields after the version, up to version 4.
    #[tactic(auto, unfolding(crate::specs::Header::old_fields_production))]
    fn parse_old(input: &mut R, format: Format, version: u16) -> Result<Self>
        ensures read { (result_map (header_seen R.Offset.number) result, R.seen input.new)
            ≡ taken
            (old_fields_production (layout_of (R.seen input.old).is_big R.Offset.limit) format
            version) (R.seen input.old) }
        ensures size { IfOk result
            (λ header. IsTrue (is_address_size header.encoding.address_size)) }
    {
        let abbreviations = input.read_offset(format)?;
        let address_size = input.read_address_size()?;
        Ok(UnitHeader {
            encoding: Encoding {
                address_size,
                format,
                version,
            },
            unit_type: constants::DW_UT_compile,
            abbreviations,
        })
    }

    /// The fields after the version, in version 5.
    #[tactic(auto, unfolding(crate::specs::Header::new_fields_production))]
    fn parse_new(input: &mut R, format: Format, version: u16) -> Result<Self>
        ensures read { (result_map (header_seen R.Offset.number) result, R.seen input.new)
            ≡ taken
            (new_fields_production (layout_of (R.seen input.old).is_big R.Offset.limit) format
            version) (R.seen input.old) }
        ensures size { IfOk result
            (λ header. IsTrue (is_address_size header.encoding.address_size)) }
    {
        let unit_type = DwUt(input.read_u8()?);
        let address_size = input.read_address_size()?;
        let abbreviations = input.read_offset(format)?;
        input.split(R::Offset::from_u8(unit_type.fields_size(format)))?;
        Ok(UnitHeader {
            encoding: Encoding {
                address_size,
                format,
                version,
            },
            unit_type,
            abbreviations,
        })
    }
}
