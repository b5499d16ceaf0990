//! Values of the tables of version 5, by their forms.

ghost use Rattle.std.specs.Prelude.{◌≡◌, IfOk, drop};
ghost use Rattle.gimli_core.specs.Form.{block_production, form_production, shapes};
ghost use Rattle.gimli_core.specs.Production.{below_limit, unsigned};
ghost use Rattle.gimli_core.specs.Reading.{result_map};
ghost use Rattle.gimli_core.specs.Seen.{taken};
ghost use Rattle.gimli_core.specs.Layout.{layout_of};
ghost use Rattle.gimli_core.specs.Values.{value_seen, ValueHasOrder};
ghost use Rattle.gimli_line.specs.inside.header.HeaderGrammar.{form_among};

use crate::run::leb128::read_uleb128;
use gimli_core::{
    AttributeValue, DebugLineStrOffset, DebugStrOffset, DebugStrOffsetsIndex, DwForm, Error,
    Format, Reader, ReaderOffset, Result, constants,
};

/// Takes a value in a form. Refused by `UnknownForm` at a form that line programs don't know.
pub(crate) fn parse_attribute<R: Reader>(
    input: &mut R,
    format: Format,
    form: DwForm,
) -> Result<AttributeValue<R>>
    ensures read { (result_map (value_seen R.seen R.Offset.number) result, R.seen input.new)
        ≡ taken (form_production (layout_of (R.seen input.old).is_big R.Offset.limit) format form.0)
        (R.seen input.old) }
    ensures part { IfOk result (ValueHasOrder R.seen (R.seen input.old).is_big) }
{
    match form {
        constants::DW_FORM_block1 => {
            let len = input.read_u8()?;
            parse_block(input, R::Offset::from_u8(len))
        }
        constants::DW_FORM_block2 => {
            let len = input.read_u16()?;
            parse_block(input, R::Offset::from_u16(len))
        }
        constants::DW_FORM_block4 => {
            let len = input.read_u32()?;
            parse_block(input, R::Offset::from_u32(len))
        }
        constants::DW_FORM_block => {
            let len = parse_offset(input)?;
            parse_block(input, len)
        }
        constants::DW_FORM_data16 => parse_block(input, R::Offset::from_u8(16)),
        _ => parse_number(input, format, form),
    }
}

/// Takes a value in a form that isn't a block: a number, or what `parse_word_or_text` takes.
fn parse_number<R: Reader>(input: &mut R, format: Format, form: DwForm) -> Result<AttributeValue<R>>
    ensures read { (result_map (value_seen R.seen R.Offset.number) result, R.seen input.new)
        ≡ taken
        (form_among (layout_of (R.seen input.old).is_big R.Offset.limit) format (drop 5 shapes)
        form.0) (R.seen input.old) }
    ensures part { IfOk result (ValueHasOrder R.seen (R.seen input.old).is_big) }
{
    match form {
        constants::DW_FORM_data1 => Ok(AttributeValue::Data1(input.read_u8()?)),
        constants::DW_FORM_data2 => Ok(AttributeValue::Data2(input.read_u16()?)),
        constants::DW_FORM_data4 => Ok(AttributeValue::Data4(input.read_u32()?)),
        constants::DW_FORM_data8 => Ok(AttributeValue::Data8(input.read_u64()?)),
        constants::DW_FORM_udata => Ok(AttributeValue::Udata(input.read_uleb128()?)),
        constants::DW_FORM_sdata => Ok(AttributeValue::Sdata(input.read_sleb128()?)),
        constants::DW_FORM_flag => Ok(AttributeValue::Flag(input.read_u8()? != 0)),
        _ => parse_word_or_text(input, format, form),
    }
}

/// Takes a word of the format, a text or an index.
fn parse_word_or_text<R: Reader>(
    input: &mut R,
    format: Format,
    form: DwForm,
) -> Result<AttributeValue<R>>
    ensures read { (result_map (value_seen R.seen R.Offset.number) result, R.seen input.new)
        ≡ taken
        (form_among (layout_of (R.seen input.old).is_big R.Offset.limit) format (drop 12 shapes)
        form.0) (R.seen input.old) }
    ensures part { IfOk result (ValueHasOrder R.seen (R.seen input.old).is_big) }
{
    match form {
        constants::DW_FORM_sec_offset => Ok(AttributeValue::SecOffset(input.read_offset(format)?)),
        constants::DW_FORM_string => {
            let text = input.read_null_terminated_slice()?;
            Ok(AttributeValue::String(text))
        }
        constants::DW_FORM_strp => {
            let offset = input.read_offset(format)?;
            Ok(AttributeValue::DebugStrRef(DebugStrOffset(offset)))
        }
        constants::DW_FORM_strp_sup | constants::DW_FORM_GNU_strp_alt => {
            let offset = input.read_offset(format)?;
            Ok(AttributeValue::DebugStrRefSup(DebugStrOffset(offset)))
        }
        constants::DW_FORM_line_strp => {
            let offset = input.read_offset(format)?;
            Ok(AttributeValue::DebugLineStrRef(DebugLineStrOffset(offset)))
        }
        _ => parse_index(input, format, form),
    }
}

/// Takes an index of a text. Refused by `UnknownForm` at a form that has none.
fn parse_index<R: Reader>(input: &mut R, format: Format, form: DwForm) -> Result<AttributeValue<R>>
    ensures read { (result_map (value_seen R.seen R.Offset.number) result, R.seen input.new)
        ≡ taken
        (form_among (layout_of (R.seen input.old).is_big R.Offset.limit) format (drop 18 shapes)
        form.0) (R.seen input.old) }
    ensures part { IfOk result (ValueHasOrder R.seen (R.seen input.old).is_big) }
{
    let index = match form {
        constants::DW_FORM_strx | constants::DW_FORM_GNU_str_index => parse_offset(input)?,
        constants::DW_FORM_strx1 => R::Offset::from_u8(input.read_u8()?),
        constants::DW_FORM_strx2 => R::Offset::from_u16(input.read_u16()?),
        constants::DW_FORM_strx3 => R::Offset::from_u64(input.read_uint(3)?)?,
        constants::DW_FORM_strx4 => R::Offset::from_u32(input.read_u32()?),
        _ => return Err(Error::UnknownForm(form)),
    };
    Ok(AttributeValue::DebugStrOffsetsIndex(DebugStrOffsetsIndex(index)))
}

/// Takes so many bytes, as a block.
fn parse_block<R: Reader>(input: &mut R, len: R::Offset) -> Result<AttributeValue<R>>
    ensures read { (result_map (value_seen R.seen R.Offset.number) result, R.seen input.new)
        ≡ taken (block_production (R.Offset.number len)) (R.seen input.old) }
    ensures part { IfOk result (ValueHasOrder R.seen (R.seen input.old).is_big) }
{
    let block = input.split(len)?;
    Ok(AttributeValue::Block(block))
}

/// Takes an unsigned LEB128 number as an offset. Refused by `UnsupportedOffset` where the offset
/// type is too narrow.
pub(crate) fn parse_offset<R: Reader>(input: &mut R) -> Result<R::Offset>
    ensures { (result_map R.Offset.number result, R.seen input.new)
        ≡ taken (below_limit (layout_of (R.seen input.old).is_big R.Offset.limit) unsigned)
        (R.seen input.old) }
{
    let number = read_uleb128(input)?;
    R::Offset::from_u64(number)
}
