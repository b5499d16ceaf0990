//! Functions by their names, for callers without the program, or with only a part of the name.

use crate::functions::{CodeRange, Functions, key_of};
use elf_sections::SymbolTable;
use lines_words::bytes_of_word;
use std::alloc::{AllocError, Global};
use std::collections::BTreeSet;

/// How many names are hints at most.
const HINTS: usize = 5;

/// Where a function begins, by the key of its name.
#[derive(Clone, Copy, PartialEq, Eq, PartialOrd, Ord)]
struct NamedStart {
    key: u64,
    start: u64,
    name: u32,
}

/// Where the functions of a program begin, by their names.
#[derive(Drop)]
pub struct FunctionStarts {
    /// In the order of their keys.
    starts: Vec<NamedStart>,
    names: Vec<u8>,
}

impl FunctionStarts {
    /// No function is known.
    pub fn none(alloc: Global) -> FunctionStarts {
        FunctionStarts {
            starts: Vec::new(alloc),
            names: Vec::new(alloc),
        }
    }

    /// Those of a program.
    pub fn new(alloc: Global, functions: &Functions<'_>) -> Result<FunctionStarts, AllocError> {
        let mut starts = FunctionStarts::none(alloc);
        starts.add_all(functions)?;
        Ok(starts)
    }

    /// Adds functions.
    fn add_all(&mut self, functions: &Functions<'_>) -> Result<(), AllocError> {
        self.names.extend_from_slice(functions.names)?;
        for range in &functions.ranges {
            let name = functions.names.get(range.name as usize..).unwrap_or(&[]);
            self.starts.push(NamedStart {
                key: key_of(name),
                start: range.start,
                name: range.name,
            })?;
        }
        self.starts.sort()
    }

    /// The address at an offset in the first function of a name. None where there is none.
    pub fn address_in(&self, name: &str, offset: u64) -> Option<u64> {
        let table = SymbolTable::new(false, 8, &[], &self.names);
        let key = key_of(name.as_bytes());
        let from = self.starts.partition_point(|start| start.key < key);
        for start in self.starts.get(from..)? {
            if start.key != key {
                return None;
            }
            if table.is_name(start.name, name.as_bytes()) {
                return start.start.checked_add(offset);
            }
        }
        None
    }
}

/// A string of a section of names that has a word in it.
#[derive(Clone, Copy)]
struct StringWith {
    /// Where it begins.
    start: usize,
    /// Where the last occurrence of the word begins.
    word: usize,
}

impl<'n> Functions<'n> {
    /// Names that may be meant by a name that no function has: up to five that have it in them, in
    /// the order of their addresses. If a name has it with its length before it, as compilers of
    /// C++ and Rust write a part of a name, only such names are meant. Of `space::name(int)` only
    /// the last part, `name`, is looked for.
    pub fn hints(&self, alloc: Global, name: &str) -> Result<Vec<&'n [u8]>, AllocError> {
        let word = bytes_of_word(alloc, last_part_of(name))?;
        if word.is_empty() {
            return Ok(Vec::new(alloc));
        }
        let length = word.len();
        let mut part = format!(in alloc; "{length}")?.into_bytes();
        part.extend_from_slice(&word)?;
        self.hints_by(alloc, &part, &word)
    }

    /// Names with a word in them, or if there are none, names with another word in them.
    fn hints_by(
        &self,
        alloc: Global,
        word: &[u8],
        other: &[u8],
    ) -> Result<Vec<&'n [u8]>, AllocError> {
        let found = self.names_with(alloc, word)?;
        if found.is_empty() {
            return self.names_with(alloc, other);
        }
        Ok(found)
    }

    /// The first names that have a word in them.
    fn names_with(&self, alloc: Global, word: &[u8]) -> Result<Vec<&'n [u8]>, AllocError> {
        let strings = strings_with(alloc, self.names, word)?;
        let mut found = Vec::new(alloc);
        self.add_names(&strings, &mut BTreeSet::new(alloc), &mut found)?;
        Ok(found)
    }

    /// Adds the first names that have a word in them, each once.
    fn add_names(
        &self,
        strings: &[StringWith],
        seen: &mut BTreeSet<u32>,
        found: &mut Vec<&'n [u8]>,
    ) -> Result<(), AllocError> {
        for range in &self.ranges {
            if found.len() >= HINTS {
                break;
            }
            if let Some(name) = self.new_name(range, strings, seen)? {
                if !found.contains(&name) {
                    found.push(name)?;
                }
            }
        }
        Ok(())
    }

    /// The name of a function, if a word is in it and it wasn't seen before.
    fn new_name(
        &self,
        range: &CodeRange,
        strings: &[StringWith],
        seen: &mut BTreeSet<u32>,
    ) -> Result<Option<&'n [u8]>, AllocError> {
        if !has_word(strings, range.name as usize) || !seen.insert(range.name)? {
            return Ok(None);
        }
        Ok(self.table.name(range.name))
    }
}

/// The last part of the name of a function, without parameters: of `a<b>::c<d>(e)` the part `c`.
fn last_part_of(name: &str) -> &str {
    let (mut name, _) = name.split_once('(').unwrap_or((name, ""));
    if name.ends_with('>') {
        name = name.rsplit_once('<').map_or(name, |(head, _)| head);
    }
    let (_, part) = name.rsplit_once(':').unwrap_or(("", name));
    let (part, _) = part.split_once('<').unwrap_or((part, ""));
    part.trim_ascii()
}

/// The strings that have a word in them.
fn strings_with(alloc: Global, names: &[u8], word: &[u8]) -> Result<Vec<StringWith>, AllocError> {
    let mut strings = Vec::new(alloc);
    let mut start = 0usize;
    for string in names.split(|byte| *byte == 0) {
        if let Some(place) = last_place(string, word) {
            let word = start.saturating_add(place);
            strings.push(StringWith { start, word })?;
        }
        start = start.saturating_add(string.len()).saturating_add(1);
    }
    Ok(strings)
}

/// Where the last occurrence of a word in a string begins.
fn last_place(string: &[u8], word: &[u8]) -> Option<usize> {
    if word.is_empty() {
        return None;
    }
    string.windows(word.len()).rposition(|place| place == word)
}

/// Whether the name at an offset has the word of strings in it.
fn has_word(strings: &[StringWith], name: usize) -> bool {
    let after = strings.partition_point(|string| string.start <= name);
    match after.checked_sub(1).and_then(|index| strings.get(index)) {
        Some(string) => name <= string.word,
        None => false,
    }
}
