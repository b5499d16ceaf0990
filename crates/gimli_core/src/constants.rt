//! The numbers that DWARF gives to opcodes, content types, forms and pointer encodings.
//! The constants have the standard's names.

ghost use Rattle.std.specs.Prelude.{◌≡◌, bit_and};

use std::fmt;

/// A standard opcode of a line program. DWARF 5, 6.2.5.2 says what each does, 7.22 gives their
/// numbers.
#[derive(Clone, Copy, Debug, PartialEq, Eq)]
pub struct DwLns(pub u8);

/// Makes a row, and clears the registers that apply to one row only.
pub const DW_LNS_copy: DwLns = DwLns(0x01);

/// Advances address and op_index by an unsigned number of operations.
pub const DW_LNS_advance_pc: DwLns = DwLns(0x02);

/// Advances the line by a signed number.
pub const DW_LNS_advance_line: DwLns = DwLns(0x03);

/// Sets the file.
pub const DW_LNS_set_file: DwLns = DwLns(0x04);

/// Sets the column.
pub const DW_LNS_set_column: DwLns = DwLns(0x05);

/// Toggles is_stmt.
pub const DW_LNS_negate_stmt: DwLns = DwLns(0x06);

/// Sets basic_block.
pub const DW_LNS_set_basic_block: DwLns = DwLns(0x07);

/// Advances address and op_index as special opcode 255 does.
pub const DW_LNS_const_add_pc: DwLns = DwLns(0x08);

/// Adds a number of two bytes, which isn't in LEB128, to the address.
pub const DW_LNS_fixed_advance_pc: DwLns = DwLns(0x09);

/// Sets prologue_end. From version 3 on.
pub const DW_LNS_set_prologue_end: DwLns = DwLns(0x0a);

/// Sets epilogue_begin. From version 3 on.
pub const DW_LNS_set_epilogue_begin: DwLns = DwLns(0x0b);

/// Sets the instruction set. From version 3 on.
pub const DW_LNS_set_isa: DwLns = DwLns(0x0c);

/// An extended opcode of a line program. DWARF 5, 6.2.5.3 says what each does, 7.22 gives their
/// numbers.
#[derive(Clone, Copy, Debug, PartialEq, Eq)]
pub struct DwLne(pub u8);

/// Makes the end row of a sequence, and resets all registers.
pub const DW_LNE_end_sequence: DwLne = DwLne(0x01);

/// Sets the address.
pub const DW_LNE_set_address: DwLne = DwLne(0x02);

/// Defines a file. Up to version 4: version 5 reserves the number.
pub const DW_LNE_define_file: DwLne = DwLne(0x03);

/// Sets the discriminator. The standard has it from version 4 on.
pub const DW_LNE_set_discriminator: DwLne = DwLne(0x04);

/// A content type of the tables of version 5: what a part of an entry means. DWARF 5, 6.2.4.1 and
/// 7.22.
#[derive(Clone, Copy, Debug, PartialEq, Eq)]
pub struct DwLnct(pub u16);

/// The path of a directory or a file.
pub const DW_LNCT_path: DwLnct = DwLnct(0x0001);

/// The directory of a file.
pub const DW_LNCT_directory_index: DwLnct = DwLnct(0x0002);

/// When a file was last changed.
pub const DW_LNCT_timestamp: DwLnct = DwLnct(0x0003);

/// The size of a file, in bytes.
pub const DW_LNCT_size: DwLnct = DwLnct(0x0004);

/// The MD5 digest of a file, 16 bytes.
pub const DW_LNCT_MD5: DwLnct = DwLnct(0x0005);

/// The source text of a file: an extension of LLVM, in the range that the standard leaves to users.
pub const DW_LNCT_LLVM_source: DwLnct = DwLnct(0x2001);

/// The form of a value: how it is spelled. DWARF 5, 7.5.5 says what each is, 7.5.6 gives their
/// numbers.
#[derive(Clone, Copy, Debug, PartialEq, Eq)]
pub struct DwForm(pub u16);

/// A block after its length in two bytes.
pub const DW_FORM_block2: DwForm = DwForm(0x0003);

/// A block after its length in four bytes.
pub const DW_FORM_block4: DwForm = DwForm(0x0004);

/// Two bytes.
pub const DW_FORM_data2: DwForm = DwForm(0x0005);

/// Four bytes.
pub const DW_FORM_data4: DwForm = DwForm(0x0006);

/// Eight bytes.
pub const DW_FORM_data8: DwForm = DwForm(0x0007);

/// A text in place, ended by a zero byte.
pub const DW_FORM_string: DwForm = DwForm(0x0008);

/// A block after its length as an unsigned LEB128 number.
pub const DW_FORM_block: DwForm = DwForm(0x0009);

/// A block after its length in one byte.
pub const DW_FORM_block1: DwForm = DwForm(0x000a);

/// One byte.
pub const DW_FORM_data1: DwForm = DwForm(0x000b);

/// One byte: 0 is false, any other true.
pub const DW_FORM_flag: DwForm = DwForm(0x000c);

/// A signed LEB128 number.
pub const DW_FORM_sdata: DwForm = DwForm(0x000d);

/// The offset of a text in `.debug_str`.
pub const DW_FORM_strp: DwForm = DwForm(0x000e);

/// An unsigned LEB128 number.
pub const DW_FORM_udata: DwForm = DwForm(0x000f);

/// An offset into a section that the content type names.
pub const DW_FORM_sec_offset: DwForm = DwForm(0x0017);

/// An index into `.debug_str_offsets`, as an unsigned LEB128 number.
pub const DW_FORM_strx: DwForm = DwForm(0x001a);

/// The offset of a text in the supplementary object file.
pub const DW_FORM_strp_sup: DwForm = DwForm(0x001d);

/// Sixteen bytes.
pub const DW_FORM_data16: DwForm = DwForm(0x001e);

/// The offset of a text in `.debug_line_str`.
pub const DW_FORM_line_strp: DwForm = DwForm(0x001f);

/// An index into `.debug_str_offsets`, in one byte.
pub const DW_FORM_strx1: DwForm = DwForm(0x0025);

/// The same in two bytes.
pub const DW_FORM_strx2: DwForm = DwForm(0x0026);

/// The same in three bytes.
pub const DW_FORM_strx3: DwForm = DwForm(0x0027);

/// The same in four bytes.
pub const DW_FORM_strx4: DwForm = DwForm(0x0028);

/// GNU's form of `DW_FORM_strx` before version 5.
pub const DW_FORM_GNU_str_index: DwForm = DwForm(0x1f02);

/// GNU's form of `DW_FORM_strp_sup` before version 5.
pub const DW_FORM_GNU_strp_alt: DwForm = DwForm(0x1f21);

/// How a pointer is encoded (Linux Standard Base, DWARF Extensions): a format in the low four bits,
/// and what it is relative to in the three bits above. The highest bit, 0x80, says that the pointer
/// is indirect: neither `format` nor `application` keeps it.
#[derive(Clone, Copy, Debug, PartialEq, Eq)]
pub struct DwEhPe(pub u8);

/// An address of the size of the machine.
pub const DW_EH_PE_absptr: DwEhPe = DwEhPe(0x00);

/// An unsigned LEB128 number.
pub const DW_EH_PE_uleb128: DwEhPe = DwEhPe(0x01);

/// Two bytes, unsigned.
pub const DW_EH_PE_udata2: DwEhPe = DwEhPe(0x02);

/// Four bytes, unsigned.
pub const DW_EH_PE_udata4: DwEhPe = DwEhPe(0x03);

/// Eight bytes, unsigned.
pub const DW_EH_PE_udata8: DwEhPe = DwEhPe(0x04);

/// A signed LEB128 number.
pub const DW_EH_PE_sleb128: DwEhPe = DwEhPe(0x09);

/// Two bytes, signed.
pub const DW_EH_PE_sdata2: DwEhPe = DwEhPe(0x0a);

/// Four bytes, signed.
pub const DW_EH_PE_sdata4: DwEhPe = DwEhPe(0x0b);

/// Eight bytes, signed.
pub const DW_EH_PE_sdata8: DwEhPe = DwEhPe(0x0c);

/// Relative to the pointer's own address.
pub const DW_EH_PE_pcrel: DwEhPe = DwEhPe(0x10);

impl DwEhPe {
    /// The format of the number: the low four bits.
    pub fn format(self) -> DwEhPe
        ensures { result.0 ≡ bit_and self.0 0x0f }
    {
        DwEhPe(self.0 & 0x0f)
    }

    /// What the number is relative to: the three bits above the format.
    pub fn application(self) -> DwEhPe
        ensures { result.0 ≡ bit_and self.0 0x70 }
    {
        DwEhPe(self.0 & 0x70)
    }
}

impl fmt::Display for DwEhPe {
    fn fmt<W: fmt::Write>(&self, f: &mut fmt::Formatter<W>) -> fmt::Result {
        let encoding = self.0;
        write!(f, "DwEhPe({encoding:#04x})")
    }
}
