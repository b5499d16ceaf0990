//! What a unit that is written is encoded by.

ghost use Rattle.std.specs.Prelude.{◌≡◌, ℕ, Err, IfErr, IfOk, None, Some};
ghost use Rattle.gimli_build.specs.Conditions.{Accepts};
ghost use Rattle.gimli_c.specs.Causes.{HasEncodingFault, nowhere};
ghost use Rattle.gimli_c.specs.inside.Causes.{refusal_of};
ghost use Rattle.gimli_c.specs.Handed.{IsRefusal, encoding_of, line_encoding_of};
ghost use Rattle.gimli_c.specs.Refused.{encoding_fault, HasBadLines};

use crate::check::{Refusal, refusal_of};
use crate::location::is_address_size;
use crate::status::{
    UNKNOWN_VERSION, UNSUPPORTED_ADDRESS_SIZE, UNSUPPORTED_LINE_ENCODING, UNSUPPORTED_OFFSET_SIZE,
};
use gimli_build::LineProgram;
use gimli_core::{Encoding, Format, LineEncoding};

/// What a unit is encoded by.
#[repr(C)]
#[derive(Clone, Copy)]
pub struct GimliEncoding {
    /// The version, from 2 to 5.
    pub version: u16,
    /// The number of bytes of an address: 1, 2, 4 or 8.
    pub address_size: u8,
    /// The number of bytes of an offset: 4 or 8.
    pub offset_size: u8,
    /// The number of bytes of the shortest machine instruction, from 1 on. All addresses of a
    /// sequence are a whole number of these after the first.
    pub minimum_instruction_length: u8,
    /// How many operations an instruction of the machine has, from 1 on; 1 before version 4.
    pub maximum_operations_per_instruction: u8,
    /// What each sequence starts with in the register is_stmt: false if 0, else true.
    pub default_is_stmt: u8,
    /// The least line advance of a special opcode, at most 0.
    pub line_base: i8,
    /// How many line advances special opcodes have: at most 127, and more than `-line_base`.
    pub line_range: u8,
}

/// The encodings of a unit, or why they are refused.
pub(crate) fn encodings(given: &GimliEncoding) -> Result<(Encoding, LineEncoding), Refusal>
    ensures encoding { IfOk result (λ e. e.0 ≡ encoding_of given.now) }
    ensures lines { IfOk result (λ e. e.1 ≡ line_encoding_of given.now) }
    ensures accepts { IfOk result (λ e. Accepts e.0 e.1) }
    ensures well { IfOk result (λ e. encoding_fault given.now ≡ None) }
    ensures fault { (s : ℕ) → encoding_fault given.now ≡ Some s → result ≡ Err (refusal_of s) }
    ensures bad_lines { HasBadLines given.now
        → result ≡ Err (refusal_of UNSUPPORTED_LINE_ENCODING) }
    ensures err { IfErr result (λ r. IsRefusal r.status) }
    ensures nowhere { IfErr result (λ r. r.at ≡ nowhere) }
    ensures cause { IfErr result (λ r. HasEncodingFault given.now r.status) }
{
    if given.version < 2 || given.version > 5 {
        return Err(refusal_of(UNKNOWN_VERSION));
    }
    if !is_address_size(given.address_size) {
        return Err(refusal_of(UNSUPPORTED_ADDRESS_SIZE));
    }
    let format = match given.offset_size {
        4 => Format::Dwarf32,
        8 => Format::Dwarf64,
        _ => return Err(refusal_of(UNSUPPORTED_OFFSET_SIZE)),
    };
    let encoding = Encoding {
        address_size: given.address_size,
        format,
        version: given.version,
    };
    let lines = LineEncoding {
        minimum_instruction_length: given.minimum_instruction_length,
        maximum_operations_per_instruction: given.maximum_operations_per_instruction,
        default_is_stmt: given.default_is_stmt != 0,
        line_base: given.line_base,
        line_range: given.line_range,
    };
    if !LineProgram::accepts(encoding, lines) {
        return Err(refusal_of(UNSUPPORTED_LINE_ENCODING));
    }
    Ok((encoding, lines))
}
