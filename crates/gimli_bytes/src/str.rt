//! The tables of texts of `.debug_str` and `.debug_line_str`: each text once, at a fixed offset.

ghost use Rattle.std.specs.Prelude.{◌≡◌, ◌≢◌, ℕ, ◌<◌, ◌^◌, List, [], length, IfOk, IfErr, OnOk};
ghost use Rattle.std.specs.Prelude.{OnErr, Ok, Some, IsOk, IsTrue, All, Contains, slice_get};
ghost use Rattle.gimli_bytes.specs.Texts.{AreTexts, KeepsTexts, with_text, index_of_text};
ghost use Rattle.gimli_bytes.specs.Texts.{offset_of, table_bytes, byte_count};
ghost use Rattle.gimli_bytes.specs.Written.{IsAppendInParts};

use crate::error::{Error, Result};
use crate::section::{DebugLineStr, DebugStr};
use crate::writer::Writer;
use gimli_core::{DebugLineStrOffset, DebugStrOffset};
use indexmap::IndexSet;
use std::alloc::Global;
use std::marker::Model;

/// Distinct texts without zero bytes, in the order in which they came.
#[derive(Debug, Drop)]
struct Texts {
    strings: IndexSet<Vec<u8>>,
    offsets: Vec<usize>,
    len: usize,
}

impl Model for Texts {
    ghost use Rattle.std.specs.Prelude.{◌≡◌, ℕ, List};
    ghost use Rattle.gimli_bytes.specs.Texts.{AreTexts, byte_count};
    ghost use Rattle.gimli_bytes.specs.inside.TextFields.{texts_of, IsInside};

    ghost Value = { List (List ℕ) };

    ghost view = { λ t. texts_of t.strings.keys };

    ghost invariant = { λ t. IsInside (texts_of t.strings.keys) t.offsets.items t.len };
}

impl Texts {
    fn new(alloc: Global) -> Texts
        ensures { result ≡ [] }
    {
        Texts {
            strings: IndexSet::new(alloc),
            offsets: Vec::new(alloc),
            len: 0,
        }
    }

    fn count(&self) -> usize
        ensures count { result ≡ length self.now }
        ensures texts { AreTexts self.now }
        ensures short { byte_count self.now < 2 ^ 64 }
    {
        // The number of bytes is this.
        let _len = self.len;
        self.strings.len()
    }

    fn get(&self, index: usize) -> &[u8]
        requires { index < length self.now }
        ensures text { slice_get self.now index ≡ Some result.now }
        ensures texts { AreTexts self.now }
    {
        self.strings.get_index(index).unwrap().as_slice()
    }

    fn add(&mut self, text: &[u8]) -> Result<usize>
        requires { All (λ b. b ≢ 0) text.now }
        ensures ok { OnOk result (self.new ≡ with_text self.old text.now) }
        ensures id { IfOk result (λ index. index ≡ index_of_text self.old text.now) }
        ensures found { IfOk result (λ index. slice_get self.new index ≡ Some text.now) }
        ensures stays { OnOk result (KeepsTexts self.old self.new) }
        ensures there { Contains self.old text.now → IsOk result }
        ensures err { OnErr result (self.new ≡ self.old) }
        ensures memory { IfErr result (λ e. e ≡ Error.OutOfMemory) }
    {
        if let Some(index) = self.strings.get_index_of(text) {
            return Ok(index);
        }
        if text.len() >= usize::MAX - self.len {
            return Err(Error::OutOfMemory);
        }
        let alloc = *self.strings.allocator();
        let copy = text.to_vec(alloc)?;
        self.offsets.reserve(1)?;
        let (index, _) = self.strings.insert_full(copy)?;
        self.offsets.push_reserved(self.len);
        self.len = self.len + text.len() + 1;
        Ok(index)
    }

    fn offset(&self, index: usize) -> usize
        requires { index < length self.now }
        ensures offset { result ≡ offset_of self.now index }
        ensures texts { AreTexts self.now }
    {
        self.offsets[index]
    }

    fn offset_of(&self, text: &[u8]) -> usize
        ensures { result
            ≡ offset_of (with_text self.now text.now) (index_of_text self.now text.now) }
    {
        match self.strings.get_index_of(text) {
            Some(index) => self.offsets[index],
            None => self.len,
        }
    }

    fn write<W: Writer>(&self, w: &mut W) -> Result<()>
        ensures appends { IsAppendInParts W.Sink w.old w.new result (table_bytes self.now) }
        ensures texts { AreTexts self.now }
    {
        for text in self.strings.as_slice() {
            w.write(text.as_slice())?;
            w.write_u8(0)?;
        }
        Ok(())
    }
}

/// The index of a text in its [`StringTable`].
#[derive(Clone, Copy, Debug, PartialEq, Eq, Hash)]
pub struct StringId(pub usize);

/// A table of distinct texts that is written to a section `.debug_str`.
#[derive(Debug, Drop)]
pub struct StringTable {
    texts: Texts,
}

impl Model for StringTable {
    ghost use Rattle.std.specs.Prelude.{ℕ, List};

    ghost Value = { List (List ℕ) };

    ghost view = { λ t. t.texts };
}

impl StringTable {
    /// A table without texts.
    pub fn default(alloc: Global) -> StringTable
        ensures { result ≡ [] }
    {
        StringTable {
            texts: Texts::new(alloc),
        }
    }

    /// Appends a text, and returns its id. A text that is there already keeps its id, changes
    /// nothing and is never refused. Any other fails only with `OutOfMemory`, also where the table
    /// would have more bytes than `usize` can count; then the table is as it was. Requires a text
    /// without zero bytes.
    pub fn add(&mut self, text: &[u8]) -> Result<StringId>
        requires { All (λ b. b ≢ 0) text.now }
        ensures ok { OnOk result (self.new ≡ with_text self.old text.now) }
        ensures id { IfOk result (λ id. id.0 ≡ index_of_text self.old text.now) }
        ensures found { IfOk result (λ id. slice_get self.new id.0 ≡ Some text.now) }
        ensures stays { OnOk result (KeepsTexts self.old self.new) }
        ensures there { Contains self.old text.now → IsOk result }
        ensures err { OnErr result (self.new ≡ self.old) }
        ensures memory { IfErr result (λ e. e ≡ Error.OutOfMemory) }
    {
        Ok(StringId(self.texts.add(text)?))
    }

    /// The number of texts.
    pub fn count(&self) -> usize
        ensures count { result ≡ length self.now }
        ensures texts { AreTexts self.now }
        ensures short { byte_count self.now < 2 ^ 64 }
    {
        self.texts.count()
    }

    /// The text of an id. Requires an id of this table: below `count`.
    pub fn get(&self, id: StringId) -> &[u8]
        requires { id.0 < length self.now }
        ensures text { slice_get self.now id.0 ≡ Some result.now }
        ensures texts { AreTexts self.now }
    {
        self.texts.get(id.0)
    }

    /// Where the text of an id begins in the section, if the table is written to an empty one.
    /// Requires an id of this table: below `count`.
    pub fn offset(&self, id: StringId) -> DebugStrOffset
        requires { id.0 < length self.now }
        ensures offset { result.0 ≡ offset_of self.now id.0 }
        ensures texts { AreTexts self.now }
    {
        DebugStrOffset(self.texts.offset(id.0))
    }

    /// Where a text begins in the section, once it is added: where it is now, or after the texts
    /// that are there.
    pub fn offset_of(&self, text: &[u8]) -> DebugStrOffset
        ensures { result.0
            ≡ offset_of (with_text self.now text.now) (index_of_text self.now text.now) }
    {
        DebugStrOffset(self.texts.offset_of(text))
    }

    /// Appends each text and a zero byte. Refused as the section's `write` is.
    pub fn write<W: Writer>(&self, w: &mut DebugStr<W>) -> Result<()>
        ensures appends { IsAppendInParts W.Sink w.old.0 w.new.0 result (table_bytes self.now) }
        ensures texts { AreTexts self.now }
    {
        self.texts.write(&mut w.0)
    }
}

/// The index of a text in its [`LineStringTable`].
#[derive(Clone, Copy, Debug, PartialEq, Eq, Hash)]
pub struct LineStringId(pub usize);

/// A table of distinct texts that is written to a section `.debug_line_str`.
#[derive(Debug, Drop)]
pub struct LineStringTable {
    texts: Texts,
}

impl Model for LineStringTable {
    ghost use Rattle.std.specs.Prelude.{ℕ, List};

    ghost Value = { List (List ℕ) };

    ghost view = { λ t. t.texts };
}

impl LineStringTable {
    /// A table without texts.
    pub fn default(alloc: Global) -> LineStringTable
        ensures { result ≡ [] }
    {
        LineStringTable {
            texts: Texts::new(alloc),
        }
    }

    /// What the table takes its memory from: the one allocator of its type.
    pub fn allocator(&self) -> &Global
        ensures { (other : Global) → result.now ≡ other }
    {
        self.texts.strings.allocator()
    }

    /// Appends a text, and returns its id. A text that is there already keeps its id, changes
    /// nothing and is never refused. Any other fails only with `OutOfMemory`, also where the table
    /// would have more bytes than `usize` can count; then the table is as it was. Requires a text
    /// without zero bytes.
    pub fn add(&mut self, text: &[u8]) -> Result<LineStringId>
        requires { All (λ b. b ≢ 0) text.now }
        ensures ok { OnOk result (self.new ≡ with_text self.old text.now) }
        ensures id { IfOk result (λ id. id.0 ≡ index_of_text self.old text.now) }
        ensures found { IfOk result (λ id. slice_get self.new id.0 ≡ Some text.now) }
        ensures stays { OnOk result (KeepsTexts self.old self.new) }
        ensures there { Contains self.old text.now → IsOk result }
        ensures err { OnErr result (self.new ≡ self.old) }
        ensures memory { IfErr result (λ e. e ≡ Error.OutOfMemory) }
    {
        Ok(LineStringId(self.texts.add(text)?))
    }

    /// The number of texts.
    pub fn count(&self) -> usize
        ensures count { result ≡ length self.now }
        ensures texts { AreTexts self.now }
        ensures short { byte_count self.now < 2 ^ 64 }
    {
        self.texts.count()
    }

    /// The text of an id. Requires an id of this table: below `count`.
    pub fn get(&self, id: LineStringId) -> &[u8]
        requires { id.0 < length self.now }
        ensures text { slice_get self.now id.0 ≡ Some result.now }
        ensures texts { AreTexts self.now }
    {
        self.texts.get(id.0)
    }

    /// Where the text of an id begins in the section, if the table is written to an empty one.
    /// Requires an id of this table: below `count`.
    pub fn offset(&self, id: LineStringId) -> DebugLineStrOffset
        requires { id.0 < length self.now }
        ensures offset { result.0 ≡ offset_of self.now id.0 }
        ensures texts { AreTexts self.now }
    {
        DebugLineStrOffset(self.texts.offset(id.0))
    }

    /// Where a text begins in the section, once it is added: where it is now, or after the texts
    /// that are there.
    pub fn offset_of(&self, text: &[u8]) -> DebugLineStrOffset
        ensures { result.0
            ≡ offset_of (with_text self.now text.now) (index_of_text self.now text.now) }
    {
        DebugLineStrOffset(self.texts.offset_of(text))
    }

    /// Appends each text and a zero byte. Refused as the section's `write` is.
    pub fn write<W: Writer>(&self, w: &mut DebugLineStr<W>) -> Result<()>
        ensures appends { IsAppendInParts W.Sink w.old.0 w.new.0 result (table_bytes self.now) }
        ensures texts { AreTexts self.now }
    {
        self.texts.write(&mut w.0)
    }
}
