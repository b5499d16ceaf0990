//! Making an index.

ghost use Rattle.std.specs.Prelude.{◌≡◌, ◌≢◌, ◌^◌, [], ℕ, true, false, IfErr, IfOk, List};
ghost use Rattle.gimli_core.specs.Numbers.{is_address_size};
ghost use Rattle.gimli_compilation.specs.Sections.{sections_of};
ghost use Rattle.gimli_c.specs.MadeIndex.{make_status, index_source, program, source_handed};
ghost use Rattle.gimli_c.specs.MadeIndex.{AreAllUnitsOf, CopiesIndex, IsIndexBytesOf};
ghost use Rattle.gimli_c.specs.MadeIndex.{IsIndexRefusal};
ghost use Rattle.gimli_c.specs.Location.{slice_seen};

use crate::comp_dir::sections_in;
use crate::file::put_bytes;
use crate::location::{is_address_size, order};
use crate::status::{
    INDEX_DISORDERED, INDEX_TOO_LARGE, OUT_OF_MEMORY, PLACE_TOO_LARGE, UNKNOWN_OPTIONS,
    UNSUPPORTED_ADDRESS_SIZE,
};
use gimli_compilation::{CompilationSections, Compilations};
use gimli_core::{EndianSlice, RunTimeEndian};
use gimli_index::{MakeError, write_index};
use gimli_line::DebugLine;
use gimli_lookup::{Program, StringSections};
use std::alloc::Global;

/// A reader of a section that is handed over.
type Slice<'s> = EndianSlice<'s, RunTimeEndian>;

/// How an index is made.
#[repr(C)]
#[derive(Clone, Copy)]
pub struct GimliIndexOptions {
    /// `OPTIONS_SIZE`: the number of bytes of this struct, by which a later library knows it.
    pub size: usize,
    /// The address below which there is no code; 0 leaves no rows out.
    pub lowest: u64,
    /// The number of bytes of an address up to version 4: 1, 2, 4 or 8.
    pub address_size: u8,
    /// Whether the most significant byte of a number comes first.
    pub is_big: bool,
    /// The most bytes that all paths of the index may have, of which each stands once.
    pub limit: usize,
}

/// The number of bytes of `GimliIndexOptions`.
pub const OPTIONS_SIZE: usize = 32;

/// The number of a refusal.
fn make_status(error: MakeError) -> u32
    ensures { result ≡ make_status error }
{
    match error {
        MakeError::NotAscending => INDEX_DISORDERED,
        MakeError::TooManyEntries => INDEX_TOO_LARGE,
        MakeError::TooManyStatements => INDEX_TOO_LARGE,
        MakeError::TooManySources => INDEX_TOO_LARGE,
        MakeError::PathsTooLarge => INDEX_TOO_LARGE,
        MakeError::IdentityTooLarge => INDEX_TOO_LARGE,
        MakeError::LineTooLarge => PLACE_TOO_LARGE,
        MakeError::ColumnTooLarge => PLACE_TOO_LARGE,
        MakeError::OutOfMemory => OUT_OF_MEMORY,
    }
}

/// The units of a section, with their headers, and these sections of strings, while no compilation
/// is known. Refused by `OUT_OF_MEMORY` alone.
pub(crate) fn program_of<'s>(
    alloc: Global,
    section: &'s [u8],
    texts: &StringSections<Slice<'s>>,
    options: &GimliIndexOptions,
) -> Result<Program<Slice<'s>>, u32>
    requires { is_address_size options.now.address_size ≡ true }
    ensures ok { (line_strings strings : List ℕ) → IfOk result (λ made. AreAllUnitsOf
        (program section.now options.now.is_big options.now.address_size options.now.lowest
        line_strings strings) made.lookup) }
    ensures paths { IfOk result (λ made. made.paths ≡ (texts.now, [])) }
    ensures err { IfErr result (λ s. s ≡ OUT_OF_MEMORY) }
{
    let section = DebugLine::new(section, order(options.is_big));
    match Program::new(
        alloc,
        &section,
        *texts,
        options.address_size,
        options.lowest,
    ) {
        Ok(program) => Ok(program),
        Err(_) => Err(OUT_OF_MEMORY),
    }
}

/// The bytes of an index. Requires a size that addresses can have.
fn made_index<'s>(
    alloc: Global,
    section: &'s [u8],
    texts: &StringSections<Slice<'s>>,
    sections: &CompilationSections<Slice<'s>>,
    options: &GimliIndexOptions,
    identity: &[u8],
) -> Result<Vec<u8>, u32>
    requires { is_address_size options.now.address_size ≡ true }
    ensures ok { IfOk result (λ bytes. IsIndexBytesOf (index_source
        (program section.now options.now.is_big options.now.address_size options.now.lowest
        texts.now.debug_line_str.slice.now texts.now.debug_str.slice.now)
        (sections_of slice_seen (2 ^ 64) sections.now)
        identity.now)
        bytes.items) }
    ensures err { IfErr result IsIndexRefusal }
{
    let mut program = program_of(alloc, section, texts, options)?;
    let Ok(compilations) = Compilations::new(alloc, sections) else {
        return Err(OUT_OF_MEMORY);
    };
    program.set_compilations(compilations);
    let mut bytes = Vec::new(alloc);
    let size = u16::from(options.address_size);
    match write_index(&program, size, identity, options.limit, &mut bytes) {
        Ok(()) => Ok(bytes),
        Err(e) => Err(make_status(e)),
    }
}

/// Makes the index of a program (`docs/reference/INDEX.md`). At `NO_ROOM` `size` says how many
/// bytes it takes, at another status than 0 it is 0; and nothing is written. Reads all units for
/// each call. The other statuses are those of `gimli_line_index_of_sections` in
/// `include/gimli_line.h`.
#[unsafe(no_mangle)]
pub extern "C" fn gimli_line_proved_index_write(
    alloc: Global,
    section: &[u8],
    line_strings: &[u8],
    strings: &[u8],
    info: &[u8],
    abbreviations: &[u8],
    string_offsets: &[u8],
    options: &GimliIndexOptions,
    identity: &[u8],
    stored: &mut [u8],
    size: &mut usize,
) -> u32
    ensures index { CopiesIndex (source_handed options.now section.now line_strings.now strings.now
        info.now abbreviations.now string_offsets.now identity.now) options.now result
        stored.old stored.new size.new }
    ensures options { options.now.size ≢ OPTIONS_SIZE → result ≡ UNKNOWN_OPTIONS }
    ensures size { options.now.size ≡ OPTIONS_SIZE →
        is_address_size options.now.address_size ≡ false → result ≡ UNSUPPORTED_ADDRESS_SIZE }
{
    *size = 0;
    if options.size != OPTIONS_SIZE {
        return UNKNOWN_OPTIONS;
    }
    if !is_address_size(options.address_size) {
        return UNSUPPORTED_ADDRESS_SIZE;
    }
    let order = order(options.is_big);
    let texts = StringSections {
        debug_line_str: EndianSlice::new(line_strings, order),
        debug_str: EndianSlice::new(strings, order),
    };
    let sections = sections_in(
        info,
        abbreviations,
        line_strings,
        strings,
        string_offsets,
        options.is_big,
    );
    match made_index(alloc, section, &texts, &sections, options, identity) {
        Ok(made) => put_bytes(made.as_slice(), stored, size),
        Err(status) => status,
    }
}
