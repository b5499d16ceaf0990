//! What an index of a lookup is made from.

ghost use Rattle.std.specs.Prelude.{◌≡◌, ◌≢◌, IfOk, IfErr, MatchOption};
ghost use Rattle.gimli_lookup.specs.declared.path_error.PathError.TheVariants.{OutOfMemory};
ghost use Rattle.gimli_lookup.specs.ProgramPaths.{texts_seen};
ghost use Rattle.gimli_index.specs.Found.{reason_of, unit_path};
ghost use Rattle.gimli_index.specs.inside.Paths.{made_path};

use crate::error::MakeError;
use gimli_core::Reader;
use gimli_line::LineRow;
use gimli_lookup::{PathError, ProgramPaths, SectionLookup, UnitLookup};
use std::alloc::Global;

/// The number of the reason that the header of a unit isn't known.
const NO_HEADER: u32 = 8;

/// What an index is made from: the rows of a lookup, and what the whole paths of its files are made
/// of.
#[derive(Drop)]
pub(crate) struct Origin<'a, R: Reader> {
    pub(crate) alloc: Global,
    pub(crate) lookup: &'a SectionLookup<R>,
    pub(crate) paths: &'a ProgramPaths<R>,
    /// The most bytes that all paths may have.
    pub(crate) limit: usize,
}

/// The number of the reason why a path isn't known; None where memory is missing.
fn reason_of(error: PathError) -> Option<u32>
    ensures { MatchOption result (error ≡ OutOfMemory)
        (λ reason. (error ≢ OutOfMemory) × (reason ≢ 0) × (reason ≡ reason_of error)) }
{
    match error {
        PathError::UnsupportedStringIndex => Some(1),
        PathError::UnsupportedSupplementaryString => Some(2),
        PathError::StringOffsetOutOfBounds => Some(3),
        PathError::UnterminatedString => Some(4),
        PathError::ExpectedStringAttributeValue => Some(5),
        PathError::InvalidDirectoryIndex(_) => Some(6),
        PathError::InvalidFileIndex(_) => Some(7),
        PathError::OutOfMemory => None,
    }
}

impl<R: Reader> Origin<'_, R> {
    /// The whole path of a row's file, or the number of the reason why it isn't known. Fails only
    /// with `OutOfMemory`.
    pub(crate) fn path_of(
        &self,
        unit: &UnitLookup<R>,
        row: &LineRow,
    ) -> Result<Result<Vec<u8>, u32>, MakeError>
        ensures path { IfOk result (λ path. made_path path ≡ unit_path
            (texts_seen R.seen self.now.paths.now) unit.now row.now) }
        ensures reason { IfOk result (λ path. IfErr path (λ reason. reason ≢ 0)) }
        ensures err { IfErr result (λ e. e ≡ MakeError.OutOfMemory) }
    {
        let Some(header) = unit.header() else {
            return Ok(Err(NO_HEADER));
        };
        match self.paths.of_row(self.alloc, header, row) {
            Ok(path) => Ok(Ok(path)),
            Err(e) => match reason_of(e) {
                Some(reason) => Ok(Err(reason)),
                None => Err(MakeError::OutOfMemory),
            },
        }
    }
}
