//! From a line of a path to addresses.

ghost use Rattle.std.specs.Prelude.{◌≡◌, ◌<◌, ◌≤◌, ◌+◌, ◌^◌, ◌∷◌, [], ℕ, Bool, true, false, nat_eq};
ghost use Rattle.std.specs.Prelude.{IfSome, MatchOption, Some, length, option_map};
ghost use Rattle.std.specs.List.{list_any};
ghost use Rattle.std.specs.Option.{option_map_or};
ghost use Rattle.gimli_core.specs.Reading.{result_map};
ghost use Rattle.gimli_lookup.specs.Components.{components};
ghost use Rattle.gimli_lookup.specs.inside.Statements.{IsFirstWith};
ghost use Rattle.gimli_index.specs.Lines.{addresses_left, addresses_of, begins_with, is_named};
ghost use Rattle.gimli_index.specs.Lines.{is_of};
ghost use Rattle.gimli_index.specs.Lines.{AreAddressesFrom};
ghost use Rattle.gimli_index.specs.Meaning.{statement_at, statements_of};
ghost use Rattle.gimli_index.specs.Order.{last_number, IsOrdered};
ghost use Rattle.gimli_index.specs.Views.{index_of};
ghost use Rattle.gimli_index.specs.inside.Order.{left_from, IsFirstPlace};

use crate::addresses::Addresses;
use crate::components::Components;
use crate::line_index::LineIndex;
use crate::number::are_bytes;
use crate::order::{key_of, path_number};
use crate::path_ends::ends_with;

/// The first line of a path that has a statement.
#[derive(Clone, Copy)]
struct FirstLine {
    line: u64,
    /// The number of its first statement.
    number: usize,
}

/// Whether the last components of a path are all those of another, which has one at least.
fn ends_in(path: &[u8], end: &[u8]) -> bool
    ensures { result ≡ begins_with (components path.now) (components end.now) }
{
    let mut asked = Components::new(end);
    match asked.next_component() {
        Some(_) => ends_with(path, end),
        None => false,
    }
}

impl<'a> LineIndex<'a> {
    /// Whether the file of a statement is named by a path.
    fn is_named(&self, number: usize, path: &[u8]) -> bool
        requires { number < self.now.statements }
        ensures { result ≡ is_named path.now (statement_at (index_of self.now) number).path }
    {
        match self.statement_path(number) {
            Ok(own) => ends_in(own, path),
            Err(_) => false,
        }
    }

    /// Whether a statement is of a line of the files that a path names.
    fn is_of(&self, number: usize, path: &[u8], line: u64) -> bool
        requires { number < self.now.statements }
        ensures { result ≡ is_of path.now line (statement_at (index_of self.now) number) }
    {
        self.statement_line(number) == line && self.is_named(number, path)
    }

    /// The line of a statement, if it is of the files that a path names, and not below the asked
    /// one.
    fn line_from(&self, number: usize, path: &[u8], asked: u64) -> Option<u64>
        requires { number < self.now.statements }
        ensures line { let s = statement_at (index_of self.now) number in MatchOption result
            ((l : ℕ) → asked ≤ l → is_of path.now l s ≡ false)
            (λ line. (asked ≤ line) × (is_of path.now line s ≡ true)) }
        ensures few { IfSome result (λ line. line < 2 ^ 32) }
    {
        let line = self.statement_line(number);
        if line < asked {
            return None;
        }
        if !self.is_named(number, path) {
            return None;
        }
        Some(line)
    }

    /// The first line from the asked one on that has a statement in files that a path names, whose
    /// name has this number.
    fn first_line(&self, path: &[u8], name: u64, asked: u64) -> Option<FirstLine>
        requires name { name ≡ last_number (components path.now) }
        requires few { name < 2 ^ 31 }
        ensures line { IsOrdered (index_of self.now) → IsFirstWith
            (λ l. list_any (is_of path.now l) (statements_of (index_of self.now))) asked
            (option_map (λ (first : FirstLine). first.line) result) }
        ensures place { IsOrdered (index_of self.now) → IfSome result
            (λ first. IsFirstPlace (index_of self.now) path.now first.line first.number) }
    {
        are_bytes(self.statement_bytes);
        for number in self.first_at(key_of(name, asked))..self.statements {
            if self.statement_name(number) != name {
                return None;
            }
            if let Some(line) = self.line_from(number, path, asked) {
                return Some(FirstLine { line, number });
            }
        }
        None
    }

    /// The addresses for a breakpoint at a line of the files that a path names, in ascending order,
    /// each once. For each run of adjacent rows of that line of one file in a sequence, it is the
    /// address of the first row that is a statement (DWARF 5, section 6.2.2). If the line has none,
    /// those of the next line that has any; None if no line from it on has any.
    ///
    /// A path names a file where the file's path ends with its components (`stl_map.h`,
    /// `bits/stl_map.h`); one from the root is a whole path, and one without a component names
    /// none. `/` and backslashes separate components, and `.`, `..` and doubled separators are
    /// resolved by text.
    ///
    /// Takes no memory. It searches the statements by halves, and then looks at those of the line
    /// in files of the same name. It returns on any bytes. What it returns is known if the
    /// statements are in order: [`check`](LineIndex::check) tests this, and it holds for each index
    /// that this crate made. The statements that [`write_index`](crate::write_index) makes have the
    /// addresses that its lookup has.
    pub fn addresses_of<'p>(&self, path: &'p [u8], line: u64) -> Option<Addresses<'a, 'p>>
        ensures { IsOrdered (index_of self.now) → AreAddressesFrom
            (addresses_of path.now (statements_of (index_of self.now))) line result }
    {
        let name = path_number(Ok(path));
        let first = self.first_line(path, name, line)?;
        Some(Addresses {
            index: *self,
            path,
            line: first.line,
            next: first.number,
            end: self.first_at(key_of(name, first.line) + 1),
            last: None,
        })
    }
}

impl<'a, 'p> Addresses<'a, 'p> {
    /// The line.
    pub fn line(&self) -> u64
        ensures { result ≡ self.now.line }
    {
        self.line
    }

    /// An upper bound on how many addresses are left.
    pub fn most(&self) -> usize
        ensures { length (addresses_left self.now) ≤ result }
    {
        self.end.saturating_sub(self.next)
    }

    /// Whether an address is the one that was given last.
    fn is_last(&self, address: u64) -> bool
        ensures { result ≡ option_map_or (nat_eq address) self.now.last false }
    {
        match self.last {
            Some(last) => address == last,
            None => false,
        }
    }

    /// The address of a statement, if it is one of the line and not the address that was given
    /// last.
    fn new_address(&self, number: usize) -> Option<u64>
        requires { number < self.now.end }
        ensures { MatchOption result (left_from self.now number ≡ left_from self.now (number + 1))
            (λ address. left_from self.now number
            ≡ address ∷ left_from (record self.now { last = Some address }) (number + 1)) }
    {
        if !self.index.is_of(number, self.path, self.line) {
            return None;
        }
        let address = self.index.statement_address(number);
        if self.is_last(address) {
            return None;
        }
        Some(address)
    }

    /// The next statement of the line with another address, and that address.
    fn next_place(&self) -> Option<(usize, u64)>
        ensures within { IfSome result (λ found. found.0 < self.now.end) }
        ensures left { MatchOption result (addresses_left self.now ≡ [])
            (λ found. addresses_left self.now ≡ found.1
            ∷ left_from (record self.now { last = Some found.1 }) (found.0 + 1)) }
    {
        for number in self.next..self.end {
            if let Some(address) = self.new_address(number) {
                return Some((number, address));
            }
        }
        None
    }

    /// The next address.
    fn next_address(&mut self) -> Option<u64>
        ensures { MatchOption result
            ((addresses_left self.old ≡ []) × (addresses_left self.new ≡ []))
            (λ address. addresses_left self.old ≡ address ∷ addresses_left self.new) }
    {
        match self.next_place() {
            Some((number, address)) => {
                self.next = number + 1;
                self.last = Some(address);
                Some(address)
            }
            None => {
                self.next = self.end;
                None
            }
        }
    }
}

impl<'a, 'p> Iterator for Addresses<'a, 'p> {
    ghost use Rattle.std.specs.Iterator.{YieldsFirst, item_count};
    ghost use Rattle.gimli_index.specs.Lines.{addresses_left};

    type Item = u64;

    ghost next_gives = { YieldsFirst (λ found. addresses_left found) };

    ghost remaining = { item_count (λ found. addresses_left found) };

    fn next(&mut self) -> Option<u64> {
        self.next_address()
    }
}
