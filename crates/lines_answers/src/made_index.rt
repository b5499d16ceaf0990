//! The command `index`: the index of a program's lines, as bytes.

ghost use Rattle.std.specs.Prelude.{◌≡◌, IfOk, IfSome};
ghost use Rattle.lines_answers.specs.MadeIndexes.{IsMade};

use crate::opened_index::identity_of;
use elf_sections::{Elf, ElfError, usual_limit};
use gimli_core::Reader;
use gimli_index::{MakeError, write_index};
use lines_inputs::{FunctionStarts, Input, InputError, InputSections, Result, program_of};
use lines_words::{Files, InputKind, Output};
use std::alloc::{AllocError, Global};

/// An index, and what came of making it.
#[derive(Drop)]
pub struct MadeIndex {
    /// Its bytes; None where there is none, which was reported.
    pub bytes: Option<Vec<u8>>,
    /// Where the functions of the program begin, where its symbols were read.
    pub starts: FunctionStarts,
    /// The status of the program: 0, or 1 where something was reported.
    pub status: u8,
}

impl MadeIndex {
    /// No index.
    pub fn none(alloc: Global, status: u8) -> MadeIndex
        ensures { result.status ≡ status }
    {
        MadeIndex {
            bytes: None,
            starts: FunctionStarts::none(alloc),
            status,
        }
    }
}

/// What names a program in its index: the build id that it has, or else the SHA-256 of its line
/// programs. Refused as `InputError` says.
pub fn program_identity(
    alloc: Global,
    kind: InputKind,
    files: Files<'_>,
) -> Result<Vec<u8>, InputError> {
    if let Some(id) = own_build_id(kind, files, None) {
        return Ok(Vec::from_slice(alloc, id).map_err(ElfError::from)?);
    }
    let program = InputSections::new(alloc, kind, files)?;
    Ok(identity_of(alloc, None, program.lines()).map_err(ElfError::from)?)
}

/// The build id that is given, or else that of an ELF file.
fn own_build_id<'i>(
    kind: InputKind,
    files: Files<'i>,
    build_id: Option<&'i [u8]>,
) -> Option<&'i [u8]> {
    match (build_id, kind) {
        (None, InputKind::Elf) => Elf::parse(files.file).ok()?.build_id().ok()?,
        _ => build_id,
    }
}

/// The bytes of the index of a program, which is named by the build id where there is one, or else
/// by the SHA-256 of the line programs. Its paths have at most as many bytes as a compressed
/// section of the file may have. None where there is none, which is reported. A fault of a unit is
/// reported; what stands before it is in the index all the same.
pub fn index_of_program(
    alloc: Global,
    program: &InputSections<'_>,
    kind: InputKind,
    files: Files<'_>,
    build_id: Option<&[u8]>,
    output: &mut Output<'_>,
) -> Result<Option<Vec<u8>>> {
    let input = program.input();
    if !input.is_linked {
        output.tell(input.refusal());
        return Ok(None);
    }
    let build_id = own_build_id(kind, files, build_id);
    let identity = identity_of(alloc, build_id, program.lines())?;
    let limit = usual_limit(files.file.len() as u64).max(files.limit);
    index_of_input(alloc, &input, &identity, limit as usize, output)
}

/// The bytes of the index of what is read, whose paths have at most `limit` bytes. None where there
/// is none, which is reported.
fn index_of_input<R: Reader>(
    alloc: Global,
    input: &Input<R>,
    identity: &[u8],
    limit: usize,
    output: &mut Output<'_>,
) -> Result<Option<Vec<u8>>>
    ensures { IfOk result (λ made. IfSome made (λ made.
        IsMade R.seen R.Offset.limit input.now identity.now made.items)) }
{
    let program = program_of(alloc, input, output)?;
    let mut bytes = Vec::new(alloc);
    let size = u16::from(input.notation.address_size.bytes());
    match write_index(&program, size, identity, limit, &mut bytes) {
        Ok(()) => Ok(Some(bytes)),
        Err(MakeError::OutOfMemory) => Err(AllocError),
        Err(refusal) => {
            output.tell(refusal);
            Ok(None)
        }
    }
}
