//! What the bytes of a section of line programs are spent on.

ghost use Rattle.std.specs.Prelude.{◌≡◌, ◌<◌};
ghost use Rattle.gimli_line.specs.run.Instruction.{ins_seen};
ghost use Rattle.lines_reports.specs.Spent.{number, spent_on};

use gimli_core::Reader;
use gimli_line::LineInstruction;

/// What bytes of a section are spent on, in the order of a unit's parts and of opcodes;
/// instructions by DWARF 5, sections 6.2.5.1 to 6.2.5.3.
#[derive(Clone, Copy)]
pub enum Spent {
    /// The header of a unit, without its tables.
    Header,
    /// The tables of a header.
    Tables,
    /// Special opcodes.
    Special,
    /// `DW_LNS_copy`
    Copy,
    /// `DW_LNS_advance_pc`
    AdvancePc,
    /// `DW_LNS_advance_line`
    AdvanceLine,
    /// `DW_LNS_set_file`
    SetFile,
    /// `DW_LNS_set_column`
    SetColumn,
    /// `DW_LNS_negate_stmt`
    NegateStatement,
    /// `DW_LNS_set_basic_block`
    SetBasicBlock,
    /// `DW_LNS_const_add_pc`
    ConstAddPc,
    /// `DW_LNS_fixed_advance_pc`
    FixedAddPc,
    /// `DW_LNS_set_prologue_end`
    SetPrologueEnd,
    /// `DW_LNS_set_epilogue_begin`
    SetEpilogueBegin,
    /// `DW_LNS_set_isa`
    SetIsa,
    /// A standard opcode that isn't known.
    UnknownStandard,
    /// `DW_LNE_end_sequence`
    EndSequence,
    /// `DW_LNE_set_address`
    SetAddress,
    /// `DW_LNE_define_file`
    DefineFile,
    /// `DW_LNE_set_discriminator`
    SetDiscriminator,
    /// An extended opcode that isn't known.
    UnknownExtended,
    /// What can't be read.
    Unread,
}

impl Spent {
    /// Their names, in the same order. The name of an instruction is that of its opcode.
    pub const NAMES: &'static str = "header tables special copy advance_pc advance_line set_file \
        set_column negate_stmt set_basic_block const_add_pc fixed_advance_pc set_prologue_end \
        set_epilogue_begin set_isa unknown_standard end_sequence set_address define_file \
        set_discriminator unknown_extended unread";

    /// Its place among all.
    pub fn number(self) -> usize
        ensures number { result ≡ number self }
        ensures bound { result < 22 }
    {
        self as usize
    }

    /// The opcode of an instruction.
    pub fn on<R: Reader>(instruction: &LineInstruction<R>) -> Spent
        ensures { result ≡ spent_on (ins_seen R.seen R.Offset.number instruction.now) }
    {
        match instruction {
            LineInstruction::Special(_) => Spent::Special,
            LineInstruction::Copy => Spent::Copy,
            LineInstruction::AdvancePc(_) => Spent::AdvancePc,
            LineInstruction::AdvanceLine(_) => Spent::AdvanceLine,
            LineInstruction::SetFile(_) => Spent::SetFile,
            LineInstruction::SetColumn(_) => Spent::SetColumn,
            LineInstruction::NegateStatement => Spent::NegateStatement,
            LineInstruction::SetBasicBlock => Spent::SetBasicBlock,
            LineInstruction::ConstAddPc => Spent::ConstAddPc,
            LineInstruction::FixedAddPc(_) => Spent::FixedAddPc,
            LineInstruction::SetPrologueEnd => Spent::SetPrologueEnd,
            LineInstruction::SetEpilogueBegin => Spent::SetEpilogueBegin,
            LineInstruction::SetIsa(_) => Spent::SetIsa,
            LineInstruction::UnknownStandard0(_) => Spent::UnknownStandard,
            LineInstruction::UnknownStandard1(_, _) => Spent::UnknownStandard,
            LineInstruction::UnknownStandardN(_, _) => Spent::UnknownStandard,
            LineInstruction::EndSequence => Spent::EndSequence,
            LineInstruction::SetAddress(_) => Spent::SetAddress,
            LineInstruction::DefineFile(_) => Spent::DefineFile,
            LineInstruction::SetDiscriminator(_) => Spent::SetDiscriminator,
            LineInstruction::UnknownExtended(_, _) => Spent::UnknownExtended,
        }
    }
}
