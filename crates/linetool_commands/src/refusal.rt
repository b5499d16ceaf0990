//! Why a command stops early, and what it reports then.

ghost use Rattle.std.specs.Prelude.{◌≡◌, ◌≢◌};
ghost use Rattle.std.specs.IoError.{error_kind};

use gimli_core::Error;
use gimli_write::Error as WriteError;
use std::io;
use std::io::{ErrorKind, Write};

/// The status where a command is refused.
const REFUSED: u8 = 1;

/// Why a command stops early.
#[derive(Clone, Copy)]
pub enum Refusal {
    /// The file can't be read.
    File,
    /// A fault in the header of the unit.
    Header,
    /// A fault in the rows of the unit.
    Rows,
    /// The unit can't be built or written, for this reason.
    Writing(WriteError),
    /// Memory was refused.
    Memory,
    /// Standard output takes no more.
    Output,
}

impl Refusal {
    /// The refusal of reading the file.
    pub fn of_reading(error: &io::Error) -> Refusal
        ensures memory { error_kind error.now ≡ ErrorKind.OutOfMemory → result ≡ Refusal.Memory }
        ensures file { error_kind error.now ≢ ErrorKind.OutOfMemory → result ≡ Refusal.File }
    {
        match error.kind() {
            ErrorKind::OutOfMemory => Refusal::Memory,
            _ => Refusal::File,
        }
    }

    /// The refusal of reading a unit, whose faults are named by `fault`.
    pub fn of_unit(error: Error, fault: Refusal) -> Refusal
        ensures memory { error ≡ Error.OutOfMemory → result ≡ Refusal.Memory }
        ensures fault { error ≢ Error.OutOfMemory → result ≡ fault }
    {
        match error {
            Error::OutOfMemory => Refusal::Memory,
            _ => fault,
        }
    }

    /// The refusal of building or writing a unit.
    pub fn of_writing(error: WriteError) -> Refusal
        ensures memory { error ≡ WriteError.OutOfMemory → result ≡ Refusal.Memory }
        ensures writing { error ≢ WriteError.OutOfMemory → result ≡ Refusal.Writing error }
    {
        match error {
            WriteError::OutOfMemory => Refusal::Memory,
            _ => Refusal::Writing(error),
        }
    }

    /// Reports on standard error why the command stops, and returns the status of the program.
    /// Nothing is reported where standard output takes no more.
    pub fn report<E: Write>(self, err: &mut E) -> u8
        ensures { result ≡ 1 }
    {
        // Where standard error can't be written to, the status still says it.
        let _ = match self {
            Refusal::File => err.write_all(b"refused: file\n"),
            Refusal::Header => err.write_all(b"refused: header\n"),
            Refusal::Rows => err.write_all(b"refused: rows\n"),
            Refusal::Writing(error) => writeln!(err, "refused: {error:?}"),
            Refusal::Memory => err.write_all(b"refused: memory\n"),
            Refusal::Output => Ok(()),
        };
        REFUSED
    }
}
