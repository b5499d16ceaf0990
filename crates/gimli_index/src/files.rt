//! The sources of an index: the files that its places are of.

ghost use Rattle.std.specs.Prelude.{◌≡◌, ◌∷◌, [], MatchOption};
ghost use Rattle.gimli_index.specs.Files.{file_of, files_left, files_of};
ghost use Rattle.gimli_index.specs.Views.{index_of};

use crate::line_index::{LineIndex, path_of};
use crate::number::long;
use crate::place::NoPath;

/// A file of a unit.
#[derive(Clone, Copy, Debug)]
pub struct SourceFile<'a> {
    /// The offset in `.debug_line` of the unit, by which `DW_AT_stmt_list` names it.
    pub unit: u64,
    /// The whole path of the file, or why there is none.
    pub path: Result<&'a [u8], NoPath>,
}

/// The files that the places of an index are of: an iterator.
#[derive(Clone, Copy, Debug)]
pub struct SourceFiles<'a> {
    index: LineIndex<'a>,
    /// The number of the next source.
    next: usize,
}

impl<'a> LineIndex<'a> {
    ghost use Rattle.gimli_index.specs.Views.{index_of};

    /// The files that places are of, each with its unit, in the order in which entries number them.
    /// Several may have one path.
    pub fn sources(&self) -> SourceFiles<'a>
        ensures { files_left result ≡ files_of (index_of self.now) }
    {
        SourceFiles {
            index: *self,
            next: 0,
        }
    }
}

impl<'a> SourceFiles<'a> {
    /// The next file.
    fn next_file(&mut self) -> Option<SourceFile<'a>>
        ensures { MatchOption result
            ((files_left self.old ≡ []) × (files_left self.new ≡ []))
            (λ file. files_left self.old ≡ file_of file ∷ files_left self.new) }
    {
        if self.next >= self.index.sources {
            return None;
        }
        let source = self.index.source(self.next);
        self.next += 1;
        Some(SourceFile {
            unit: long(source, 0),
            path: path_of(self.index.path_bytes, source),
        })
    }
}

impl<'a> Iterator for SourceFiles<'a> {
    ghost use Rattle.std.specs.Iterator.{YieldsFirstBy, item_count};
    ghost use Rattle.gimli_index.specs.Files.{file_of, files_left};

    type Item = SourceFile<'a>;

    ghost next_gives = { YieldsFirstBy (λ file. file_of file) (λ files. files_left files) };

    ghost remaining = { item_count (λ files. files_left files) };

    fn next(&mut self) -> Option<SourceFile<'a>> {
        self.next_file()
    }
}
