//! The numbers that DWARF gives to unit types, to attributes, and to the forms that only entries
//! have. The constants have the standard's names.

use gimli_core::DwForm;

/// The type of a unit of version 5. DWARF 5, 7.5.1 gives the numbers.
#[derive(Clone, Copy, Debug, PartialEq, Eq)]
pub struct DwUt(pub u8);

/// A full compilation.
pub const DW_UT_compile: DwUt = DwUt(0x01);

/// A type.
pub const DW_UT_type: DwUt = DwUt(0x02);

/// A part of a compilation that others import.
pub const DW_UT_partial: DwUt = DwUt(0x03);

/// What is left here of a compilation whose entries are in another file.
pub const DW_UT_skeleton: DwUt = DwUt(0x04);

/// The compilation in the other file.
pub const DW_UT_split_compile: DwUt = DwUt(0x05);

/// A type in the other file.
pub const DW_UT_split_type: DwUt = DwUt(0x06);

/// The name of an attribute. DWARF 5, 7.5.4 gives the numbers.
#[derive(Clone, Copy, Debug, PartialEq, Eq)]
pub struct DwAt(pub u16);

/// The name of the primary source file.
pub const DW_AT_name: DwAt = DwAt(0x03);

/// The offset of the line program in `.debug_line`.
pub const DW_AT_stmt_list: DwAt = DwAt(0x10);

/// The directory in which the compiler ran.
pub const DW_AT_comp_dir: DwAt = DwAt(0x1b);

/// Where the string offsets of the unit begin in `.debug_str_offsets`.
pub const DW_AT_str_offsets_base: DwAt = DwAt(0x72);

/// An address.
pub const DW_FORM_addr: DwForm = DwForm(0x0001);

/// An offset of an entry in `.debug_info`; up to version 2 of the size of an address.
pub const DW_FORM_ref_addr: DwForm = DwForm(0x0010);

/// An offset of an entry in its unit, in one byte.
pub const DW_FORM_ref1: DwForm = DwForm(0x0011);

/// The same in two bytes.
pub const DW_FORM_ref2: DwForm = DwForm(0x0012);

/// The same in four bytes.
pub const DW_FORM_ref4: DwForm = DwForm(0x0013);

/// The same in eight bytes.
pub const DW_FORM_ref8: DwForm = DwForm(0x0014);

/// The same as an unsigned LEB128 number.
pub const DW_FORM_ref_udata: DwForm = DwForm(0x0015);

/// The form comes before the value, as an unsigned LEB128 number.
pub const DW_FORM_indirect: DwForm = DwForm(0x0016);

/// An expression: its length as an unsigned LEB128 number, and that many bytes.
pub const DW_FORM_exprloc: DwForm = DwForm(0x0018);

/// True; it takes no bytes.
pub const DW_FORM_flag_present: DwForm = DwForm(0x0019);

/// An index into `.debug_addr`, as an unsigned LEB128 number.
pub const DW_FORM_addrx: DwForm = DwForm(0x001b);

/// An offset of an entry in the supplementary object file, in four bytes.
pub const DW_FORM_ref_sup4: DwForm = DwForm(0x001c);

/// The signature of a type.
pub const DW_FORM_ref_sig8: DwForm = DwForm(0x0020);

/// A number that stands in the declaration.
pub const DW_FORM_implicit_const: DwForm = DwForm(0x0021);

/// An index of a list of locations, as an unsigned LEB128 number.
pub const DW_FORM_loclistx: DwForm = DwForm(0x0022);

/// An index of a list of ranges, as an unsigned LEB128 number.
pub const DW_FORM_rnglistx: DwForm = DwForm(0x0023);

/// An offset of an entry in the supplementary object file, in eight bytes.
pub const DW_FORM_ref_sup8: DwForm = DwForm(0x0024);

/// An index into `.debug_addr`, in one byte.
pub const DW_FORM_addrx1: DwForm = DwForm(0x0029);

/// The same in two bytes.
pub const DW_FORM_addrx2: DwForm = DwForm(0x002a);

/// The same in three bytes.
pub const DW_FORM_addrx3: DwForm = DwForm(0x002b);

/// The same in four bytes.
pub const DW_FORM_addrx4: DwForm = DwForm(0x002c);

/// GNU's form of `DW_FORM_addrx` before version 5.
pub const DW_FORM_GNU_addr_index: DwForm = DwForm(0x1f01);

/// GNU's form of a reference into the supplementary object file.
pub const DW_FORM_GNU_ref_alt: DwForm = DwForm(0x1f20);
