//! Addresses, offsets and lines in words, and lines of standard input that name what they ask.

ghost use Rattle.std.specs.Prelude.{◌≡◌, ℕ, List, false, is_ok, IfOk, IfSome, MatchOption, Ok};
ghost use Rattle.std.specs.Prelude.{Some, string_bytes};
ghost use Rattle.hex.specs.Hex.{decode_of};
ghost use Rattle.lines_words.specs.LineQuestions.{AsksFor, Parts, map_path};
ghost use Rattle.lines_words.specs.Words.{HasPrefix, NamesAddress, NamesOffset};
ghost use Rattle.lines_words.specs.Words.{NamesPlace, NamesTarget};

use crate::request::CodeAddress;
use hex::FromHexError;
use line_text::parse_digits;
use std::alloc::{AllocError, Global};

/// An address in hexadecimal digits of either case, with or without `0x`. None for another word,
/// and for one that doesn't fit 64 bits.
pub fn parse_address(word: &str) -> Option<u64>
    ensures named { IfSome result (NamesAddress word.now) }
    ensures only { (address : ℕ) → NamesAddress word.now address → result ≡ Some address }
{
    match without_prefix(word) {
        Some(digits) => parse_digits(digits, 16),
        None => parse_digits(word, 16),
    }
}

/// A number in decimal digits, or in hexadecimal ones after `0x`. None for another word, and for
/// one that doesn't fit 64 bits.
pub fn parse_offset(word: &str) -> Option<u64>
    ensures named { IfSome result (NamesOffset word.now) }
    ensures only { (offset : ℕ) → NamesOffset word.now offset → result ≡ Some offset }
{
    match without_prefix(word) {
        Some(digits) => parse_digits(digits, 16),
        None => parse_digits(word, 10),
    }
}

/// A path and a line of it: what stands before the last colon, and the decimal digits after it.
/// None for another word, for an empty path, and for a line that doesn't fit 64 bits.
pub fn parse_target(word: &str) -> Option<(&str, u64)>
    ensures named { IfSome result (λ target. NamesTarget word.now target.0.now target.1) }
    ensures only { (path : List ℕ) (line : ℕ) → NamesTarget word.now path line
        → MatchOption result ⊥ (λ target. (target.0.now ≡ path) × (target.1 ≡ line)) }
{
    let (path, digits) = word.rsplit_once(':')?;
    if path.is_empty() {
        return None;
    }
    let line = parse_digits(digits, 10)?;
    Some((path, line))
}

/// A section and an offset in it: what stands before the last plus sign, and the address after it.
/// None for another word, and for an empty name.
pub fn parse_place(word: &str) -> Option<(&str, u64)>
    ensures named { IfSome result (λ place. NamesPlace word.now place.0.now place.1) }
    ensures only { (section : List ℕ) (offset : ℕ) → NamesPlace word.now section offset
        → MatchOption result ⊥ (λ place. (place.0.now ≡ section) × (place.1 ≡ offset)) }
{
    let (section, digits) = word.rsplit_once('+')?;
    if section.is_empty() {
        return None;
    }
    let offset = parse_address(digits)?;
    Some((section, offset))
}

/// Where a word says that code is: at an address; at an offset in a function or in a section, or at
/// the beginning of one, by its name; or at what a line of a backtrace names, as the Linux kernel
/// and glibc print it. None where it names nothing. A word that is an address isn't taken for a
/// name.
pub fn parse_code_address(word: &str) -> Option<CodeAddress<'_>> {
    if let Some((place, address)) = parse_frame(word) {
        return match place.is_empty() {
            true => Some(CodeAddress::Linked(address)),
            false => parse_named_code(place),
        };
    }
    match parse_sized(word) {
        Some(place) => parse_named_code(place),
        None => parse_named_code(word),
    }
}

/// Where a word says that code is by itself.
fn parse_named_code(word: &str) -> Option<CodeAddress<'_>> {
    if let Some(address) = parse_address(word.strip_prefix('+').unwrap_or(word)) {
        return Some(CodeAddress::Linked(address));
    }
    if let Some((section, offset)) = parse_place(word) {
        return Some(CodeAddress::InSection { section, offset });
    }
    match word.is_empty() {
        true => None,
        false => Some(CodeAddress::InSection {
            section: word,
            offset: 0,
        }),
    }
}

/// The place in a line of a backtrace of the kernel, before the size of its function. None for
/// another word.
fn parse_sized(word: &str) -> Option<&str> {
    let (place, size) = without_module(word).rsplit_once('/')?;
    parse_address(size)?;
    Some(place)
}

/// A word without the name of a module at its end, where one is there.
fn without_module(word: &str) -> &str {
    match word.strip_suffix(']') {
        Some(head) => match head.rsplit_once('[') {
            Some((head, _)) => head.strip_suffix(' ').unwrap_or(word),
            None => word,
        },
        None => word,
    }
}

/// The place in a line of a backtrace of glibc, and the address in memory. None for another line.
fn parse_frame(line: &str) -> Option<(&str, u64)> {
    let (head, digits) = line.strip_suffix(']')?.rsplit_once('[')?;
    let address = parse_address(digits)?;
    let named = head.strip_suffix(' ').unwrap_or(head);
    let (_, place) = named.strip_suffix(')')?.rsplit_once('(')?;
    Some((place, address))
}

/// What stands after `0x` or `0X`.
fn without_prefix(word: &str) -> Option<&str>
    ensures cases { MatchOption result ((digits : List ℕ) → HasPrefix word.now digits → ⊥)
        (λ digits. HasPrefix word.now digits.now) }
{
    let rest = word.strip_prefix('0')?;
    match rest.strip_prefix('x') {
        Some(digits) => Some(digits),
        None => rest.strip_prefix('X'),
    }
}

/// What a line names, and the address after it, with a tab between them, or where the line has
/// none, a blank. Where several are there, the last one separates them. None for another line, and
/// for an empty name.
pub fn parse_line_question(line: &str) -> Option<(&str, u64)>
    ensures named { IfSome result (λ asked. AsksFor line.now asked.0.now asked.1) }
    ensures only { (name : List ℕ) (address : ℕ) → AsksFor line.now name address
        → MatchOption result ⊥ (λ asked. (asked.0.now ≡ name) × (asked.1 ≡ address)) }
{
    let (name, word) = parts(line)?;
    if name.is_empty() {
        return None;
    }
    let address = parse_address(word)?;
    Some((name, address))
}

/// What a line names, and where code is in it, separated as in `parse_line_question`. None for
/// another line, and for an empty name.
pub fn parse_code_question(line: &str) -> Option<(&str, CodeAddress<'_>)> {
    let (name, word) = parts(line)?;
    if name.is_empty() {
        return None;
    }
    let address = parse_code_address(word)?;
    Some((name, address))
}

/// The two parts of a line.
fn parts(line: &str) -> Option<(&str, &str)>
    ensures { MatchOption result ((name word : List ℕ) → Parts line.now name word → ⊥)
        (λ parts. Parts line.now parts.0.now parts.1.now) }
{
    match line.rsplit_once('\t') {
        Some((name, word)) => Some((name, word)),
        None => match line.rsplit_once(' ') {
            Some((name, word)) => Some((name, word)),
            None => None,
        },
    }
}

/// The build id that a word names in hexadecimal digits of either case. None for another word.
pub fn build_id_of(alloc: Global, word: &str) -> Result<Option<Vec<u8>>, AllocError>
    ensures { IfOk result (λ id. MatchOption id (is_ok (decode_of word.now) ≡ false)
        (λ id. decode_of word.now ≡ Ok id.items)) }
{
    match hex::decode(alloc, word) {
        Ok(id) => Ok(Some(id)),
        Err(FromHexError::OutOfMemory) => Err(AllocError),
        Err(_) => Ok(None),
    }
}

/// The path of the index of a build id, the first byte of which names a folder of its own.
pub fn map_path(alloc: Global, folder: &str, first: u8, rest: &[u8]) -> Result<String, AllocError>
    ensures { IfOk result (λ path. string_bytes path ≡ map_path folder.now first rest.now) }
{
    let shelf = hex::encode(alloc, [first].as_slice())?;
    let name = hex::encode(alloc, rest)?;
    let mut path = String::from_str(alloc, folder)?;
    path.push('/')?;
    path.push_str(&shelf)?;
    path.push('/')?;
    path.push_str(&name)?;
    path.push_str(".lines")?;
    Ok(path)
}
