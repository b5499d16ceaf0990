//! Values of attributes, by their forms (DWARF 5, sections 7.5.5 and 7.5.6).

ghost use Rattle.gimli_core.specs.Seen.{taken};
ghost use Rattle.std.specs.Map.{lookup};
ghost use Rattle.std.specs.Prelude.{◌≡◌, ◌++◌, nat_eq, IsTrue};
ghost use Rattle.gimli_core.specs.Layout.{layout_of};
ghost use Rattle.gimli_core.specs.Numbers.{is_address_size};
ghost use Rattle.gimli_core.specs.Reading.{result_map};
ghost use Rattle.gimli_compilation.specs.Form.{block_shapes, data_kind, leb_shapes, number_shapes};
ghost use Rattle.gimli_compilation.specs.Form.{reference_size, shapes};
ghost use Rattle.gimli_compilation.specs.inside.Value.{value_seen};
ghost use Rattle.gimli_compilation.specs.Form.{form_production, known_form_production};
ghost use Rattle.gimli_compilation.specs.Form.{passed_production, shape_production};
ghost use Rattle.gimli_compilation.specs.inside.Value.{IsReadable};

use crate::constants;
use gimli_core::{DwForm, Encoding, Error, Reader, ReaderOffset, Result, constants as shared};

/// What the number of an attribute is.
#[derive(Clone, Copy)]
pub(crate) enum NumberKind {
    /// An offset into a section that the attribute names.
    SectionOffset,
    /// The offset of a text in `.debug_str`.
    StringOffset,
    /// The offset of a text in `.debug_line_str`.
    LineStringOffset,
    /// The index of a text in the string offsets of the unit.
    StringIndex,
    /// Any other number.
    Other,
}

/// The value of an attribute.
#[derive(Clone, Copy)]
pub(crate) enum Value<R> {
    /// A number.
    Number(NumberKind, u64),
    /// A text that stands in the entry.
    Text(R),
    /// A value of which nothing is kept.
    Passed,
}

/// How a value lies in the bytes.
#[derive(Clone, Copy)]
pub(crate) enum Shape {
    /// A number of so many bytes.
    Fixed(u8, NumberKind),
    /// An unsigned LEB128 number.
    Unsigned(NumberKind),
    /// A signed LEB128 number.
    Signed,
    /// So many bytes.
    Block(u8),
    /// A length of so many bytes, and that many bytes.
    Counted(u8),
    /// A length as an unsigned LEB128 number, and that many bytes.
    UnsignedCounted,
    /// Bytes that aren't zero, and a zero byte.
    String,
}

/// What a number of four or eight bytes is: up to version 3 it may be an offset into a section.
fn data_kind(version: u16) -> NumberKind
    ensures { result ≡ data_kind version }
{
    if version <= 3 {
        NumberKind::SectionOffset
    } else {
        NumberKind::Other
    }
}

/// The size of a reference to an entry anywhere: that of an address up to version 2, else a word of
/// the format.
fn reference_size(encoding: Encoding) -> u8
    ensures { result ≡ reference_size encoding }
{
    if encoding.version <= 2 {
        encoding.address_size
    } else {
        encoding.format.word_size()
    }
}

/// How a value of a form lies in the bytes; None where the form isn't known.
fn shape_of(form: DwForm, encoding: Encoding) -> Option<Shape>
    ensures { result ≡ lookup (nat_eq form.0) (shapes encoding) }
{
    let word_size = encoding.format.word_size();
    match form {
        constants::DW_FORM_addr => Some(Shape::Fixed(encoding.address_size, NumberKind::Other)),
        constants::DW_FORM_ref_addr => Some(Shape::Fixed(
            reference_size(encoding),
            NumberKind::Other,
        )),
        shared::DW_FORM_sec_offset => Some(Shape::Fixed(word_size, NumberKind::SectionOffset)),
        shared::DW_FORM_strp => Some(Shape::Fixed(word_size, NumberKind::StringOffset)),
        shared::DW_FORM_line_strp => Some(Shape::Fixed(word_size, NumberKind::LineStringOffset)),
        shared::DW_FORM_strp_sup => Some(Shape::Fixed(word_size, NumberKind::Other)),
        constants::DW_FORM_GNU_ref_alt => Some(Shape::Fixed(word_size, NumberKind::Other)),
        shared::DW_FORM_GNU_strp_alt => Some(Shape::Fixed(word_size, NumberKind::Other)),
        shared::DW_FORM_data4 => Some(Shape::Fixed(4, data_kind(encoding.version))),
        shared::DW_FORM_data8 => Some(Shape::Fixed(8, data_kind(encoding.version))),
        _ => number_shape(form),
    }
}

/// The forms after those that depend on the unit: numbers of a fixed size, and what comes after
/// them.
fn number_shape(form: DwForm) -> Option<Shape>
    ensures { result ≡ lookup (nat_eq form.0) (number_shapes ++ (leb_shapes ++ block_shapes)) }
{
    match form {
        shared::DW_FORM_data1
        | constants::DW_FORM_ref1
        | shared::DW_FORM_flag
        | constants::DW_FORM_addrx1 => Some(Shape::Fixed(1, NumberKind::Other)),
        shared::DW_FORM_data2 | constants::DW_FORM_ref2 | constants::DW_FORM_addrx2 => {
            Some(Shape::Fixed(2, NumberKind::Other))
        }
        constants::DW_FORM_addrx3 => Some(Shape::Fixed(3, NumberKind::Other)),
        constants::DW_FORM_ref4 | constants::DW_FORM_ref_sup4 | constants::DW_FORM_addrx4 => {
            Some(Shape::Fixed(4, NumberKind::Other))
        }
        constants::DW_FORM_ref8 | constants::DW_FORM_ref_sig8 | constants::DW_FORM_ref_sup8 => {
            Some(Shape::Fixed(8, NumberKind::Other))
        }
        constants::DW_FORM_flag_present => Some(Shape::Fixed(0, NumberKind::Other)),
        shared::DW_FORM_strx1 => Some(Shape::Fixed(1, NumberKind::StringIndex)),
        shared::DW_FORM_strx2 => Some(Shape::Fixed(2, NumberKind::StringIndex)),
        shared::DW_FORM_strx3 => Some(Shape::Fixed(3, NumberKind::StringIndex)),
        shared::DW_FORM_strx4 => Some(Shape::Fixed(4, NumberKind::StringIndex)),
        _ => leb_shape(form),
    }
}

/// The forms after the numbers of a fixed size: LEB128 numbers, and what comes after them.
fn leb_shape(form: DwForm) -> Option<Shape>
    ensures { result ≡ lookup (nat_eq form.0) (leb_shapes ++ block_shapes) }
{
    match form {
        shared::DW_FORM_udata
        | constants::DW_FORM_ref_udata
        | constants::DW_FORM_addrx
        | constants::DW_FORM_loclistx
        | constants::DW_FORM_rnglistx
        | constants::DW_FORM_GNU_addr_index
        | shared::DW_FORM_GNU_str_index => Some(Shape::Unsigned(NumberKind::Other)),
        shared::DW_FORM_strx => Some(Shape::Unsigned(NumberKind::StringIndex)),
        shared::DW_FORM_sdata => Some(Shape::Signed),
        _ => block_shape(form),
    }
}

/// The forms after the LEB128 numbers: blocks and texts.
fn block_shape(form: DwForm) -> Option<Shape>
    ensures { result ≡ lookup (nat_eq form.0) block_shapes }
{
    match form {
        shared::DW_FORM_data16 => Some(Shape::Block(16)),
        shared::DW_FORM_block1 => Some(Shape::Counted(1)),
        shared::DW_FORM_block2 => Some(Shape::Counted(2)),
        shared::DW_FORM_block4 => Some(Shape::Counted(4)),
        shared::DW_FORM_block | constants::DW_FORM_exprloc => Some(Shape::UnsignedCounted),
        shared::DW_FORM_string => Some(Shape::String),
        _ => None,
    }
}

/// Skips so many bytes. Refused by `UnsupportedOffset` where the offset type is too narrow.
fn pass_bytes<R: Reader>(input: &mut R, count: u64) -> Result<Value<R>>
    ensures read { (result_map (value_seen R.seen) result, R.seen input.new)
        ≡ taken (passed_production (layout_of (R.seen input.old).is_big R.Offset.limit) count)
        (R.seen input.old) }
{
    let count = R::Offset::from_u64(count)?;
    input.split(count)?;
    Ok(Value::Passed)
}

/// Takes a value of a shape.
fn parse_shape<R: Reader>(input: &mut R, shape: Shape) -> Result<Value<R>>
    requires { IsReadable shape }
    ensures read { (result_map (value_seen R.seen) result, R.seen input.new)
        ≡ taken (shape_production (layout_of (R.seen input.old).is_big R.Offset.limit) shape)
        (R.seen input.old) }
{
    match shape {
        Shape::Fixed(size, kind) => {
            let number = input.read_uint(usize::from(size))?;
            Ok(Value::Number(kind, number))
        }
        Shape::Unsigned(kind) => {
            let number = input.read_uleb128()?;
            Ok(Value::Number(kind, number))
        }
        Shape::Signed => {
            input.read_sleb128()?;
            Ok(Value::Passed)
        }
        Shape::Block(size) => pass_bytes(input, u64::from(size)),
        Shape::Counted(size) => {
            let count = input.read_uint(usize::from(size))?;
            pass_bytes(input, count)
        }
        Shape::UnsignedCounted => {
            let count = input.read_uleb128()?;
            pass_bytes(input, count)
        }
        Shape::String => {
            let text = input.read_null_terminated_slice()?;
            Ok(Value::Text(text))
        }
    }
}

/// Takes a value in any form but `DW_FORM_implicit_const` and `DW_FORM_indirect`. Refused by
/// `UnknownForm` at these, and at a form that isn't known.
#[tactic(auto, unfolding(crate::specs::Form::known_form_production))]
fn parse_known_form<R: Reader>(input: &mut R, encoding: Encoding, form: DwForm) -> Result<Value<R>>
    requires { IsTrue (is_address_size encoding.address_size) }
    ensures read { (result_map (value_seen R.seen) result, R.seen input.new)
        ≡ taken (known_form_production (layout_of (R.seen input.old).is_big R.Offset.limit) encoding
        form.0) (R.seen input.old) }
{
    match shape_of(form, encoding) {
        Some(shape) => parse_shape(input, shape),
        None => Err(Error::UnknownForm(form)),
    }
}

/// Takes a value in a form. The value of `DW_FORM_implicit_const` stands in the declaration; that
/// of `DW_FORM_indirect` has its form in front. Refused by `UnknownForm` at a form that isn't
/// known.
#[tactic(auto, unfolding(crate::specs::Form::form_production))]
pub(crate) fn parse_form<R: Reader>(
    input: &mut R,
    encoding: Encoding,
    form: DwForm,
) -> Result<Value<R>>
    requires { IsTrue (is_address_size encoding.address_size) }
    ensures read { (result_map (value_seen R.seen) result, R.seen input.new)
        ≡ taken
        (form_production (layout_of (R.seen input.old).is_big R.Offset.limit) encoding form.0)
        (R.seen input.old) }
{
    match form {
        constants::DW_FORM_implicit_const => Ok(Value::Passed),
        constants::DW_FORM_indirect => {
            let form = DwForm(input.read_uleb128_u16()?);
            parse_known_form(input, encoding, form)
        }
        _ => parse_known_form(input, encoding, form),
    }
}
