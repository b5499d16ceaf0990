//! Readers over bytes, byte order, LEB128, and the constants, offsets and errors of DWARF line
//! programs.
//!
//! A [`Reader`] means two things: the list of the bytes left, and an order of bytes. The contract
//! of each function says what it takes from the front of that list, and what it leaves.
#![tactic(auto)]

mod attribute_value;
mod common;
pub mod constants;
mod endian_slice;
mod endianity;
mod error;
pub mod laws;
mod leb128;
mod offset;
mod reader;
mod section;

pub use attribute_value::AttributeValue;
pub use common::{
    DebugLineOffset, DebugLineStrOffset, DebugStrOffset, DebugStrOffsetsIndex, Encoding, Format,
    LineEncoding, SectionId,
};
pub use constants::{
    DW_EH_PE_absptr, DW_EH_PE_pcrel, DW_EH_PE_sdata2, DW_EH_PE_sdata4, DW_EH_PE_sdata8,
    DW_EH_PE_sleb128, DW_EH_PE_udata2, DW_EH_PE_udata4, DW_EH_PE_udata8, DW_EH_PE_uleb128,
    DW_FORM_GNU_str_index, DW_FORM_GNU_strp_alt, DW_FORM_block, DW_FORM_block1, DW_FORM_block2,
    DW_FORM_block4, DW_FORM_data1, DW_FORM_data2, DW_FORM_data4, DW_FORM_data8, DW_FORM_data16,
    DW_FORM_flag, DW_FORM_line_strp, DW_FORM_sdata, DW_FORM_sec_offset, DW_FORM_string,
    DW_FORM_strp, DW_FORM_strp_sup, DW_FORM_strx, DW_FORM_strx1, DW_FORM_strx2, DW_FORM_strx3,
    DW_FORM_strx4, DW_FORM_udata, DW_LNCT_LLVM_source, DW_LNCT_MD5, DW_LNCT_directory_index,
    DW_LNCT_path, DW_LNCT_size, DW_LNCT_timestamp, DW_LNE_define_file, DW_LNE_end_sequence,
    DW_LNE_set_address, DW_LNE_set_discriminator, DW_LNS_advance_line, DW_LNS_advance_pc,
    DW_LNS_const_add_pc, DW_LNS_copy, DW_LNS_fixed_advance_pc, DW_LNS_negate_stmt,
    DW_LNS_set_basic_block, DW_LNS_set_column, DW_LNS_set_epilogue_begin, DW_LNS_set_file,
    DW_LNS_set_isa, DW_LNS_set_prologue_end, DwEhPe, DwForm, DwLnct, DwLne, DwLns,
};
pub use endian_slice::EndianSlice;
pub use endianity::{BigEndian, Endianity, LittleEndian, RunTimeEndian};
pub use error::{Error, ReaderOffsetId, Result};
pub use offset::{ReaderAddress, ReaderOffset};
pub use reader::Reader;
pub use section::Section;
