//! A limit on the bytes of paths that a command makes or reads and doesn't print, so that its time
//! stays in proportion to the sections and to what it prints.

use crate::input::Input;
use gimli_core::Reader;
use std::fmt;

/// How many bytes of paths may be made for each byte of the sections. A file of version 5 whose
/// name stands in `.debug_line_str` takes five bytes of its table: four for the name, and one for
/// the index of its directory. So a path of 320 bytes may be made once for each such file.
const FOR_A_BYTE: u64 = 64;

/// How many more may be made, whatever the sections have.
const BESIDE: u64 = 1 << 24;

/// The bytes of the paths that a command made or read and didn't print whole, and their limit.
#[derive(Clone, Copy)]
pub struct PathBudget {
    /// The most of them that are allowed.
    limit: u64,
    /// How many were counted.
    made: u64,
}

impl PathBudget {
    /// A budget of a program, of which nothing is spent: 64 bytes for each byte of its sections,
    /// and 16 MiB, or the given limit if that is larger.
    pub fn new<R: Reader>(input: &Input<R>, limit: Option<u64>) -> PathBudget {
        let own = input.all_bytes().saturating_mul(FOR_A_BYTE);
        PathBudget {
            limit: own.saturating_add(BESIDE).max(limit.unwrap_or(0)),
            made: 0,
        }
    }

    /// Counts bytes that were made, or were read for a path that isn't printed.
    pub fn count(&mut self, bytes: u64) {
        self.made = self.made.saturating_add(bytes);
    }

    /// Whether more bytes were counted than the limit allows.
    pub fn is_spent(&self) -> bool {
        self.made > self.limit
    }
}

/// Why a command stops once the budget is spent.
impl fmt::Display for PathBudget {
    fn fmt<W: fmt::Write>(&self, f: &mut fmt::Formatter<W>) -> fmt::Result {
        let limit = self.limit;
        write!(
            f,
            "the paths of its files would take more than {limit} bytes, which is the limit; \
             --memory-limit raises it"
        )
    }
}
