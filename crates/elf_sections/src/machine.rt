//! What the kinds of relocations mean.

ghost use Rattle.std.specs.Prelude.{◌≡◌, ◌+◌, ◌*◌, ◌/◌, ◌%◌};
ghost use Rattle.elf_sections.specs.Machine.{change_of, known, size_of, number_after, change_in};
ghost use Rattle.elf_sections.specs.Machine.{x86_64_kinds, i386_kinds, aarch64_kinds, arm_kinds};
ghost use Rattle.elf_sections.specs.Machine.{riscv_kinds, powerpc64_kinds, s390x_kinds};
ghost use Rattle.elf_sections.specs.Machine.{powerpc_kinds, mips_kinds, sparc_kinds, m68k_kinds};
ghost use Rattle.elf_sections.specs.Machine.{bpf_kinds, loongarch_kinds};

use crate::error::ElfError;

/// `EM_X86_64`.
const X86_64: u16 = 62;
/// `EM_I386`.
const I386: u16 = 3;
/// `EM_AARCH64`.
const AARCH64: u16 = 183;
/// `EM_ARM`.
const ARM: u16 = 40;
/// `EM_RISCV`.
const RISCV: u16 = 243;
/// `EM_PPC64`.
const PPC64: u16 = 21;
/// `EM_S390`.
const S390: u16 = 22;
/// `EM_PPC`.
const PPC: u16 = 20;
/// `EM_MIPS`.
pub(crate) const MIPS: u16 = 8;
/// `EM_SPARC`, `EM_SPARC32PLUS` and `EM_SPARCV9`.
const SPARC: u16 = 2;

const SPARC32PLUS: u16 = 18;

const SPARCV9: u16 = 43;
/// `EM_68K`.
const M68K: u16 = 4;
/// `EM_BPF`.
const BPF: u16 = 247;
/// `EM_LOONGARCH`.
const LOONGARCH: u16 = 258;

/// The bytes of a number.
#[derive(Clone, Copy)]
pub(crate) enum Width {
    One,
    Two,
    Four,
    Eight,
}

impl Width {
    /// How many bytes these are.
    pub(crate) fn size(self) -> usize
        ensures { result ≡ size_of self }
    {
        match self {
            Width::One => 1,
            Width::Two => 2,
            Width::Four => 4,
            Width::Eight => 8,
        }
    }
}

/// How the number at a relocation's place is changed.
#[derive(Clone, Copy)]
pub(crate) enum Operation {
    /// It becomes the value, which is an address.
    Address,
    /// It becomes the value.
    Set,
    /// The value is added to it.
    Add,
    /// The value is subtracted from it.
    Subtract,
    /// Its six lowest bits become those of the value.
    SetSix,
    /// The value is subtracted from its six lowest bits.
    SubtractSix,
}

impl Operation {
    /// The number at the place afterwards, of which only as many of the lowest bytes count as the
    /// place has.
    pub(crate) fn number_after(self, old: u64, value: u64) -> u64
        ensures { result ≡ number_after self old value }
    {
        match self {
            Operation::Address | Operation::Set => value,
            Operation::Add => old.wrapping_add(value),
            Operation::Subtract => old.wrapping_sub(value),
            Operation::SetSix => with_six(old, value),
            Operation::SubtractSix => with_six(old, old.wrapping_sub(value)),
        }
    }
}

/// A number with the six lowest bits of another one.
fn with_six(number: u64, six: u64) -> u64
    ensures { result ≡ number / 64 * 64 + six % 64 }
{
    number / 64 * 64 + six % 64
}

/// What a kind of relocations does.
#[derive(Clone, Copy)]
pub(crate) enum Change {
    /// It does nothing.
    Nothing,
    /// It changes the number of so many bytes at its place.
    Number(Operation, Width),
}

/// What a kind means on a machine (`e_machine`).
pub(crate) fn change_of(machine: u16, kind: u32) -> Result<Change, ElfError>
    ensures { result ≡ change_of machine kind }
{
    match machine {
        X86_64 => known(kind, x86_64_change(kind)),
        I386 => known(kind, i386_change(kind)),
        AARCH64 => known(kind, aarch64_change(kind)),
        ARM => known(kind, arm_change(kind)),
        RISCV => known(kind, riscv_change(kind)),
        PPC64 => known(kind, powerpc64_change(kind)),
        S390 => known(kind, s390x_change(kind)),
        PPC => known(kind, powerpc_change(kind)),
        MIPS => known(kind, mips_change(kind)),
        SPARC | SPARC32PLUS | SPARCV9 => known(kind, sparc_change(kind)),
        M68K => known(kind, m68k_change(kind)),
        BPF => known(kind, bpf_change(kind)),
        LOONGARCH => known(kind, loongarch_change(kind)),
        _ => Err(ElfError::UnknownMachine(machine)),
    }
}

/// What a kind means, where it is known.
fn known(kind: u32, change: Option<Change>) -> Result<Change, ElfError>
    ensures { result ≡ known kind change }
{
    change.ok_or(ElfError::UnknownRelocation(kind))
}

/// x86-64: R_X86_64_NONE, 64, 32 and 32S.
fn x86_64_change(kind: u32) -> Option<Change>
    ensures { result ≡ change_in x86_64_kinds kind }
{
    match kind {
        0 => Some(Change::Nothing),
        1 => Some(Change::Number(Operation::Address, Width::Eight)),
        10 | 11 => Some(Change::Number(Operation::Address, Width::Four)),
        _ => None,
    }
}

/// i386: R_386_NONE and 32.
fn i386_change(kind: u32) -> Option<Change>
    ensures { result ≡ change_in i386_kinds kind }
{
    match kind {
        0 => Some(Change::Nothing),
        1 => Some(Change::Number(Operation::Address, Width::Four)),
        _ => None,
    }
}

/// AArch64: R_AARCH64_NONE, of both numbers, ABS64, ABS32 and ABS16.
fn aarch64_change(kind: u32) -> Option<Change>
    ensures { result ≡ change_in aarch64_kinds kind }
{
    match kind {
        0 | 256 => Some(Change::Nothing),
        257 => Some(Change::Number(Operation::Address, Width::Eight)),
        258 => Some(Change::Number(Operation::Address, Width::Four)),
        259 => Some(Change::Number(Operation::Address, Width::Two)),
        _ => None,
    }
}

/// ARM: R_ARM_NONE and ABS32.
fn arm_change(kind: u32) -> Option<Change>
    ensures { result ≡ change_in arm_kinds kind }
{
    match kind {
        0 => Some(Change::Nothing),
        2 => Some(Change::Number(Operation::Address, Width::Four)),
        _ => None,
    }
}

/// RISC-V: R_RISCV_NONE, 32 and 64; ADD8 to ADD64, SUB8 to SUB64, SUB6, SET6, and SET8 to SET32.
fn riscv_change(kind: u32) -> Option<Change>
    ensures { result ≡ change_in riscv_kinds kind }
{
    match kind {
        0 => Some(Change::Nothing),
        1 => Some(Change::Number(Operation::Address, Width::Four)),
        2 => Some(Change::Number(Operation::Address, Width::Eight)),
        33 => Some(Change::Number(Operation::Add, Width::One)),
        34 => Some(Change::Number(Operation::Add, Width::Two)),
        35 => Some(Change::Number(Operation::Add, Width::Four)),
        36 => Some(Change::Number(Operation::Add, Width::Eight)),
        37 => Some(Change::Number(Operation::Subtract, Width::One)),
        38 => Some(Change::Number(Operation::Subtract, Width::Two)),
        39 => Some(Change::Number(Operation::Subtract, Width::Four)),
        40 => Some(Change::Number(Operation::Subtract, Width::Eight)),
        52 => Some(Change::Number(Operation::SubtractSix, Width::One)),
        53 => Some(Change::Number(Operation::SetSix, Width::One)),
        54 => Some(Change::Number(Operation::Set, Width::One)),
        55 => Some(Change::Number(Operation::Set, Width::Two)),
        56 => Some(Change::Number(Operation::Set, Width::Four)),
        _ => None,
    }
}

/// 64-bit PowerPC: R_PPC64_NONE, ADDR32 and ADDR64.
fn powerpc64_change(kind: u32) -> Option<Change>
    ensures { result ≡ change_in powerpc64_kinds kind }
{
    match kind {
        0 => Some(Change::Nothing),
        1 => Some(Change::Number(Operation::Address, Width::Four)),
        38 => Some(Change::Number(Operation::Address, Width::Eight)),
        _ => None,
    }
}

/// s390x: R_390_NONE, 32 and 64.
fn s390x_change(kind: u32) -> Option<Change>
    ensures { result ≡ change_in s390x_kinds kind }
{
    match kind {
        0 => Some(Change::Nothing),
        4 => Some(Change::Number(Operation::Address, Width::Four)),
        22 => Some(Change::Number(Operation::Address, Width::Eight)),
        _ => None,
    }
}

/// 32-bit PowerPC: R_PPC_NONE, ADDR32 and UADDR32.
fn powerpc_change(kind: u32) -> Option<Change>
    ensures { result ≡ change_in powerpc_kinds kind }
{
    match kind {
        0 => Some(Change::Nothing),
        1 | 24 => Some(Change::Number(Operation::Address, Width::Four)),
        _ => None,
    }
}

/// MIPS: R_MIPS_NONE, 32 and 64.
fn mips_change(kind: u32) -> Option<Change>
    ensures { result ≡ change_in mips_kinds kind }
{
    match kind {
        0 => Some(Change::Nothing),
        2 => Some(Change::Number(Operation::Address, Width::Four)),
        18 => Some(Change::Number(Operation::Address, Width::Eight)),
        _ => None,
    }
}

/// SPARC: R_SPARC_NONE, 32, UA32, 64 and UA64.
fn sparc_change(kind: u32) -> Option<Change>
    ensures { result ≡ change_in sparc_kinds kind }
{
    match kind {
        0 => Some(Change::Nothing),
        3 | 23 => Some(Change::Number(Operation::Address, Width::Four)),
        32 | 54 => Some(Change::Number(Operation::Address, Width::Eight)),
        _ => None,
    }
}

/// 68000: R_68K_NONE and 32.
fn m68k_change(kind: u32) -> Option<Change>
    ensures { result ≡ change_in m68k_kinds kind }
{
    match kind {
        0 => Some(Change::Nothing),
        1 => Some(Change::Number(Operation::Address, Width::Four)),
        _ => None,
    }
}

/// BPF: R_BPF_NONE, 64_ABS64 and 64_ABS32.
fn bpf_change(kind: u32) -> Option<Change>
    ensures { result ≡ change_in bpf_kinds kind }
{
    match kind {
        0 => Some(Change::Nothing),
        2 => Some(Change::Number(Operation::Address, Width::Eight)),
        3 => Some(Change::Number(Operation::Address, Width::Four)),
        _ => None,
    }
}

/// LoongArch: R_LARCH_NONE, 32 and 64; ADD8 to ADD64, and SUB8 to SUB64, without those of 24 bits.
fn loongarch_change(kind: u32) -> Option<Change>
    ensures { result ≡ change_in loongarch_kinds kind }
{
    match kind {
        0 => Some(Change::Nothing),
        1 => Some(Change::Number(Operation::Address, Width::Four)),
        2 => Some(Change::Number(Operation::Address, Width::Eight)),
        47 => Some(Change::Number(Operation::Add, Width::One)),
        48 => Some(Change::Number(Operation::Add, Width::Two)),
        50 => Some(Change::Number(Operation::Add, Width::Four)),
        51 => Some(Change::Number(Operation::Add, Width::Eight)),
        52 => Some(Change::Number(Operation::Subtract, Width::One)),
        53 => Some(Change::Number(Operation::Subtract, Width::Two)),
        55 => Some(Change::Number(Operation::Subtract, Width::Four)),
        56 => Some(Change::Number(Operation::Subtract, Width::Eight)),
        _ => None,
    }
}
