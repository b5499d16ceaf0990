//! The words of a line of a script or of a command, and what they say.

ghost use Rattle.std.specs.Prelude.{◌≡◌, ◌≤◌, IsTrue, true};

use crate::stop::Stop;
use crate::words::{parse_number, push_bytes, push_text};
use gimli_bytes::Address;
use gimli_core::{Encoding, Format, LineEncoding, RunTimeEndian};
use line_text::{AddressSize, parse_order, parse_size};
use std::alloc::Global;

/// The longest array that a program is written into.
const LONGEST_ARRAY: u64 = 0x10_0000;

/// What a program is written into.
#[derive(Clone, Copy)]
pub enum Target {
    /// A vector.
    Vector,
    /// Pieces of so many bytes: 1, 4 or 16.
    Pieces(u64),
    /// An array of this many bytes.
    Array(usize),
}

/// Where a text is kept.
#[derive(Clone, Copy)]
pub enum Form {
    /// Where `LineString::new` keeps it.
    Usual,
    /// In the line program itself.
    Inside,
    /// In the table of `.debug_str`.
    Strings,
    /// In the table of `.debug_line_str`.
    LineStrings,
}

/// The words of a line that are left, and why its call isn't made. A default replaces each word
/// that is missing, or isn't what it is taken for.
#[derive(Clone, Copy)]
pub struct Arguments<'a> {
    alloc: Global,
    rest: &'a [&'a str],
    stop: Option<Stop>,
}

impl<'a> Arguments<'a> {
    /// All these words.
    pub fn new(alloc: Global, words: &'a [&'a str]) -> Arguments<'a> {
        Arguments {
            alloc,
            rest: words,
            stop: None,
        }
    }

    /// Keeps why the call isn't made. The first cause counts, but `Stop::Bad`, for words that are
    /// no call, comes before any other.
    pub fn refuse(&mut self, stop: Stop) {
        if self.stop.is_none() || matches!(stop, Stop::Bad) {
            self.stop = Some(stop);
        }
    }

    /// Refused where the call isn't made, and where a word is left.
    pub fn end(&self) -> Result<(), Stop> {
        match (self.rest, self.stop) {
            ([], None) => Ok(()),
            ([], Some(stop)) => Err(stop),
            _ => Err(Stop::Bad),
        }
    }

    /// Whether the call may be made: its conditions are met, and its words are what they must be.
    pub fn may_call(&mut self, is_met: bool) -> bool
        ensures { IsTrue result → is_met ≡ true }
    {
        if !is_met {
            self.refuse(Stop::Condition);
        }
        is_met && self.end().is_ok()
    }

    /// Whether no text of the call is refused so far.
    pub fn is_fine(&self) -> bool {
        self.stop.is_none()
    }

    /// Whether no word is left.
    pub fn is_empty(&self) -> bool {
        self.rest.is_empty()
    }

    /// Whether the next word is this one; then it is taken.
    pub fn takes(&mut self, word: &str) -> bool {
        match self.rest {
            [first, rest @ ..] if *first == word => {
                self.rest = rest;
                true
            }
            _ => false,
        }
    }

    /// A word.
    pub fn word(&mut self) -> &'a str {
        match self.rest {
            [word, rest @ ..] => {
                self.rest = rest;
                word
            }
            [] => {
                self.refuse(Stop::Bad);
                ""
            }
        }
    }

    /// A number that is at most the given one.
    pub fn number(&mut self, greatest: u64) -> u64
        ensures { result ≤ greatest }
    {
        match parse_number(self.word()) {
            Some(number) if number <= greatest => number,
            _ => {
                self.refuse(Stop::Bad);
                0
            }
        }
    }

    /// What a word says, or something else where it says nothing.
    fn found<T: Copy>(&mut self, found: Option<T>, other: T) -> T {
        match found {
            Some(found) => found,
            None => {
                self.refuse(Stop::Bad);
                other
            }
        }
    }

    /// All words that are left. Where numbers are asked for, each word must be one, and all are
    /// taken.
    pub fn numbers(&mut self, is_asked: bool) -> &'a [&'a str] {
        let numbers = self.rest;
        if is_asked {
            for _ in numbers {
                self.number(u64::MAX);
            }
        }
        numbers
    }

    /// A number of eight bits.
    fn byte(&mut self) -> u8 {
        self.number(0xff) as u8
    }

    /// A number of eight bits with a sign.
    fn signed(&mut self) -> i8 {
        let word = self.word();
        let number = match word.strip_prefix('-') {
            Some(digits) => 0i64.checked_sub_unsigned(parse_number(digits).unwrap_or(u64::MAX)),
            None => i64::try_from(parse_number(word).unwrap_or(u64::MAX)).ok(),
        };
        let number = number.and_then(|number| i8::try_from(number).ok());
        self.found(number, 0)
    }

    /// A byte order.
    pub fn order(&mut self) -> RunTimeEndian {
        let order = parse_order(self.word());
        self.found(order, RunTimeEndian::Little)
    }

    /// The size of an address.
    pub fn address_size(&mut self) -> AddressSize {
        let size = parse_size(self.word());
        self.found(size, AddressSize::Eight)
    }

    /// What a program is written into.
    pub fn target(&mut self) -> Target {
        let target = match self.word() {
            "vec" => Some(Target::Vector),
            "array" => Some(Target::Array(self.number(LONGEST_ARRAY) as usize)),
            "pieces" => match self.number(16) {
                size @ (1 | 4 | 16) => Some(Target::Pieces(size)),
                _ => None,
            },
            _ => None,
        };
        self.found(target, Target::Vector)
    }

    /// All that is left, as bytes.
    pub fn bytes(&mut self) -> Vec<u8> {
        let mut bytes = Vec::new(self.alloc);
        for word in self.rest {
            if let Err(stop) = push_bytes(&mut bytes, word) {
                self.refuse(stop);
            }
        }
        self.rest = &[];
        bytes
    }

    /// What the numbers of a unit are encoded by: a version, a format and the size of an address.
    pub fn encoding(&mut self) -> Encoding {
        let version = self.number(0xffff) as u16;
        let format = match self.number(64) {
            32 => Some(Format::Dwarf32),
            64 => Some(Format::Dwarf64),
            _ => None,
        };
        Encoding {
            format: self.found(format, Format::Dwarf32),
            address_size: self.byte(),
            version,
        }
    }

    /// What rows are encoded by.
    pub fn line_encoding(&mut self) -> LineEncoding {
        LineEncoding {
            minimum_instruction_length: self.byte(),
            maximum_operations_per_instruction: self.byte(),
            default_is_stmt: self.number(1) == 1,
            line_base: self.signed(),
            line_range: self.byte(),
        }
    }

    /// A text and where it is kept: in this form, or where that is the usual one, in the form that
    /// letters before the text name, if there are any.
    pub fn text_in(&mut self, form: Form) -> (Form, Vec<u8>) {
        let all = self.word();
        let (form, word) = match (form, all.split_at_checked(2)) {
            (Form::Usual, Some(("s:", word))) => (Form::Inside, word),
            (Form::Usual, Some(("l:", word))) => (Form::LineStrings, word),
            (Form::Usual, Some(("p:", word))) => (Form::Strings, word),
            _ => (form, all),
        };
        let mut text = Vec::new(self.alloc);
        if let Err(stop) = push_text(&mut text, word) {
            self.refuse(stop);
        }
        (form, text)
    }

    /// A text, or none for the word `-`. Where none is asked for, no word is taken, and there is
    /// none.
    pub fn optional_text(&mut self, is_asked: bool) -> Option<Vec<u8>> {
        if !is_asked || self.takes("-") {
            return None;
        }
        let (_, text) = self.text_in(Form::Inside);
        Some(text)
    }

    /// An MD5 digest in 32 hexadecimal digits; zeros where no word is left.
    pub fn md5(&mut self) -> [u8; 16] {
        let mut bytes = Vec::new(self.alloc);
        let mut digest = [0; 16];
        if !self.is_empty() {
            match push_bytes(&mut bytes, self.word()) {
                Ok(()) if bytes.len() == 16 => digest.copy_from_slice(bytes.as_slice()),
                Ok(()) => self.refuse(Stop::Bad),
                Err(stop) => self.refuse(stop),
            }
        }
        digest
    }

    /// A number, or none where no word is left.
    pub fn optional_number(&mut self) -> Option<u64> {
        if self.is_empty() {
            return None;
        }
        Some(self.number(u64::MAX))
    }

    /// Some of these letters alone, or `-` for none.
    pub fn letters(&mut self, letters: &str) -> &'a str {
        let word = self.word();
        if word != "-" && !word.chars().all(|letter| letters.contains(letter)) {
            self.refuse(Stop::Bad);
        }
        word
    }

    /// An address, or `symbol`.
    pub fn address(&mut self) -> Address {
        if self.takes("symbol") {
            return Address::Symbol {
                symbol: 0,
                addend: 0,
            };
        }
        Address::Constant(self.number(u64::MAX))
    }
}
