//! Whether a program can be written.

ghost use Rattle.std.specs.Prelude.{IsTrue, All, map, ◌↔◌};
ghost use Rattle.gimli_bytes.specs.Texts.{texts_in};
ghost use Rattle.gimli_build.specs.LineText.{line_text, IsWithin};
ghost use Rattle.gimli_build.specs.TableFields.{details};
ghost use Rattle.gimli_build.specs.Conditions.{CanWrite};
ghost use Rattle.gimli_build.specs.inside.Tables.{IsFileWritable};

use crate::built::files::{FileInfo, FileTable};
use crate::built::line_program::LineProgram;
use crate::built::line_string::LineString;
use gimli_bytes::{LineStringTable, StringTable};

impl LineProgram {
    /// Whether `write` takes the program with these tables: it isn't a placeholder, each of its
    /// texts is in itself or in these tables, and no source that is written has a zero byte, which
    /// would end it (DWARF 5, section 7.5.5, class string).
    pub fn can_write(&self, line_strings: &LineStringTable, strings: &StringTable) -> bool
        ensures { IsTrue result ↔ CanWrite self.now (texts_in strings.now line_strings.now) }
    {
        if self.is_none() {
            return false;
        }
        let tables = self.tables();
        let writes_sources = self.version() >= 5 && self.file_has_source;
        are_within(tables.directories(), line_strings, strings)
            && are_files_writable(tables, writes_sources, line_strings, strings)
    }
}

/// Whether each of some texts is in its program or in these tables.
fn are_within(texts: &[LineString], line_strings: &LineStringTable, strings: &StringTable) -> bool
    ensures { IsTrue result ↔ All (IsWithin (texts_in strings.now line_strings.now))
        (map line_text texts.now) }
{
    for text in texts {
        if !text.is_within(line_strings, strings) {
            return false;
        }
    }
    true
}

/// Whether each file can be written.
fn are_files_writable(
    tables: &FileTable,
    writes_sources: bool,
    line_strings: &LineStringTable,
    strings: &StringTable,
) -> bool
    ensures { IsTrue result ↔ All (λ f. IsFileWritable writes_sources
        (texts_in strings.now line_strings.now) f.0.0 f.1) tables.now.files }
{
    for index in 0..tables.file_count() {
        let (path, _, info) = tables.file(index);
        if !is_file_writable(path, info, writes_sources, line_strings, strings) {
            return false;
        }
    }
    true
}

/// Whether a file can be written.
fn is_file_writable(
    path: &LineString,
    info: &FileInfo,
    writes_sources: bool,
    line_strings: &LineStringTable,
    strings: &StringTable,
) -> bool
    ensures { IsTrue result ↔ IsFileWritable writes_sources
        (texts_in strings.now line_strings.now) (line_text path.now) (details info.now) }
{
    if !path.is_within(line_strings, strings) {
        return false;
    }
    match &info.source {
        Some(source) => {
            source.is_within(line_strings, strings) && (!writes_sources || source.has_no_zero())
        }
        None => true,
    }
}
