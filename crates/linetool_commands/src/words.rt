//! The words after the program's name, and what they ask for.

ghost use Rattle.std.specs.Prelude.{◌≡◌, ◌<◌, ◌^◌, ℕ, IfSome, IsSome, Some};
ghost use Rattle.std.specs.Str.Parse.{IsNumeral, digits_value};
ghost use Rattle.std.specs.List.{list_any};
ghost use Rattle.linetool_commands.specs.Words.{is_capital, NamesAddress, NamesLocation};

use gimli_core::RunTimeEndian;
use line_text::{AddressSize, UnitLocation, parse_digits, parse_order, parse_size};

/// A command, with what its words say.
#[derive(Clone, Copy)]
pub enum Command {
    /// Prints a unit that is built, and its rows.
    Demo,
    /// Prints the pieces of that unit, and its rows.
    DemoPieces,
    /// Prints the rows of a unit.
    Rows(UnitLocation),
    /// Prints the sequences of a unit, each with its rows.
    Sequences(UnitLocation),
    /// Prints a line for each unit of a section.
    Units(Numbers),
    /// Prints the two rows of a unit that cover an address.
    Find(Query),
}

/// An address that is looked up in a unit.
#[derive(Clone, Copy)]
pub struct Query {
    /// Where the unit stands.
    pub location: UnitLocation,
    /// The address.
    pub address: u64,
}

/// How the numbers of a section are read.
#[derive(Clone, Copy)]
pub struct Numbers {
    /// The byte order.
    pub order: RunTimeEndian,
    /// How wide an address is.
    pub address_size: AddressSize,
}

impl Command {
    ghost use Rattle.std.specs.Prelude.{map};
    ghost use Rattle.linetool_commands.specs.Words.{IsCommand};

    /// What the words ask for; None where they are no command.
    pub fn parse(words: &[&str]) -> Option<Command>
        ensures command { IfSome result (IsCommand (map (λ word. word.now) words.now)) }
        ensures only { (command : Command) → IsCommand (map (λ word. word.now) words.now) command
            → result ≡ Some command }
    {
        match words {
            ["demo"] => Some(Command::Demo),
            ["demo", "pieces"] => Some(Command::DemoPieces),
            ["rows", _file, order, size, offset] => {
                Some(Command::Rows(parse_location(order, size, offset)?))
            }
            ["sequences", _file, order, size, offset] => {
                Some(Command::Sequences(parse_location(order, size, offset)?))
            }
            ["units", _file, order, size] => { Some(Command::Units(Numbers::parse(order, size)?)) }
            ["find", _file, order, size, offset, address] => {
                Some(Command::Find(Query::parse(order, size, offset, address)?))
            }
            _ => None,
        }
    }
}

impl Numbers {
    ghost use Rattle.linetool_commands.specs.Words.{NamesNumbers};

    /// What two words say of the numbers of a section.
    fn parse(order: &str, size: &str) -> Option<Numbers>
        ensures named { IfSome result (NamesNumbers order.now size.now) }
        ensures only { (numbers : Numbers) → NamesNumbers order.now size.now numbers
            → result ≡ Some numbers }
    {
        let order = parse_order(order)?;
        let address_size = parse_size(size)?;
        Some(Numbers {
            order,
            address_size,
        })
    }
}

impl Query {
    ghost use Rattle.linetool_commands.specs.Words.{NamesQuery};

    /// The query that four words name.
    fn parse(order: &str, size: &str, offset: &str, address: &str) -> Option<Query>
        ensures named { IfSome result (NamesQuery order.now size.now offset.now address.now) }
        ensures only { (query : Query) → NamesQuery order.now size.now offset.now address.now query
            → result ≡ Some query }
    {
        let location = parse_location(order, size, offset)?;
        let address = parse_address(address)?;
        Some(Query { location, address })
    }
}

/// The location that three words name.
fn parse_location(order: &str, size: &str, offset: &str) -> Option<UnitLocation>
    ensures named { IfSome result (NamesLocation order.now size.now offset.now) }
    ensures only { (location : UnitLocation) → NamesLocation order.now size.now offset.now location
        → result ≡ Some location }
{
    let order = parse_order(order)?;
    let address_size = parse_size(size)?;
    let offset = parse_offset(offset)?;
    Some(UnitLocation {
        order,
        address_size,
        offset,
    })
}

/// A number in decimal digits, where it fits.
fn parse_offset(word: &str) -> Option<usize>
    ensures digits { IfSome result (λ n. IsNumeral 10 word.now × (n ≡ digits_value 10 word.now)) }
    ensures fits { IsNumeral 10 word.now → digits_value 10 word.now < 2 ^ 64 → IsSome result }
{
    let offset = parse_digits(word, 10)?;
    Some(offset as usize)
}

/// An address in one to sixteen lower-case hexadecimal digits.
fn parse_address(word: &str) -> Option<u64>
    ensures named { IfSome result (NamesAddress word.now) }
    ensures only { (address : ℕ) → NamesAddress word.now address → result ≡ Some address }
{
    if word.len() > 16 || has_capital(word) {
        return None;
    }
    parse_digits(word, 16)
}

/// Whether a word has a capital letter.
fn has_capital(word: &str) -> bool
    ensures { result ≡ list_any is_capital word.now }
{
    word.as_bytes()
        .iter()
        .any(|letter| (b'A'..=b'Z').contains(letter))
}
