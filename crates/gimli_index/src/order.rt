//! The order of the statements of an index: by the names of their files, their lines and their
//! addresses.

ghost use Rattle.std.specs.Prelude.{◌≡◌, ◌<◌, ◌≤◌, ◌^◌, ◌+◌, ◌*◌, ◌%◌, ℕ, fold, length, IfOk};
ghost use Rattle.gimli_core.specs.Reading.{result_map};
ghost use Rattle.gimli_index.specs.Header.{size_of};
ghost use Rattle.gimli_index.specs.Meaning.{statement_at, statement_from};
ghost use Rattle.gimli_index.specs.Order.{key_of, name_at, name_number, path_number};
ghost use Rattle.gimli_index.specs.Order.{IsOrdered};
ghost use Rattle.gimli_index.specs.Views.{index_of};
ghost use Rattle.gimli_index.specs.inside.Order.{key_at, rank_at, statement_name};

use crate::components::Components;
use crate::header::StartSize;
use crate::line_index::{LineIndex, path_of};
use crate::number::{are_bytes, long, word};
use crate::place::NoPath;

/// The highest line of a key.
const HIGHEST_LINE: u64 = 0xffff_ffff;

/// One above the addresses, for a rank that is a key and below it an address.
const ADDRESSES: u128 = 0x1_0000_0000_0000_0000;

/// The number of a name.
fn name_number(name: &[u8]) -> u64
    ensures number { result ≡ name_number name.now }
    ensures few { result < 2 ^ 31 }
{
    let mut number: u64 = 0;
    for byte in name {
        number = (number * 31 + u64::from(*byte)) % 0x8000_0000;
    }
    number
}

/// The number of the name of a file, which is the last component of its path; 0 where there is
/// none.
pub(crate) fn path_number(path: Result<&[u8], NoPath>) -> u64
    ensures number { result ≡ path_number (result_map (λ own. own.now) path.entry) }
    ensures few { result < 2 ^ 31 }
{
    let Ok(path) = path else {
        return 0;
    };
    let mut components = Components::new(path);
    match components.next_component() {
        Some(name) => name_number(name),
        None => 0,
    }
}

/// The key of a line, in files whose name has a number.
pub(crate) fn key_of(name: u64, line: u64) -> u64
    requires { name < 2 ^ 32 }
    ensures key { result ≡ key_of name line }
{
    name * 0x1_0000_0000 + line.min(HIGHEST_LINE)
}

/// The rank of a key and an address.
pub(crate) fn rank_of(key: u64, address: u64) -> u128
    ensures { result ≡ key * 2 ^ 64 + address }
{
    u128::from(key) * ADDRESSES + u128::from(address)
}

impl<'a> LineIndex<'a> {
    /// The bytes from a statement on.
    fn statement(&self, number: usize) -> &'a [u8]
        requires { number < self.now.statements }
        ensures bytes { result.now ≡ statement_from (index_of self.now) number }
        ensures whole { 8 + size_of self.now.start_size ≤ length result.now }
    {
        &self.statement_bytes[self.start_size.statement_size() * number..]
    }

    /// The line of a statement.
    pub(crate) fn statement_line(&self, number: usize) -> u64
        requires { number < self.now.statements }
        ensures line { result ≡ (statement_at (index_of self.now) number).line }
        ensures few { result < 2 ^ 32 }
    {
        u64::from(word(self.statement(number), 4))
    }

    /// The address of a statement.
    pub(crate) fn statement_address(&self, number: usize) -> u64
        requires { number < self.now.statements }
        ensures { result ≡ (statement_at (index_of self.now) number).address }
    {
        let bytes = self.statement(number);
        match self.start_size {
            StartSize::Four => self.base + u64::from(word(bytes, 8)),
            StartSize::Eight => self.base + long(bytes, 8),
        }
    }

    /// The path of the file of a statement.
    pub(crate) fn statement_path(&self, number: usize) -> Result<&'a [u8], NoPath>
        requires { number < self.now.statements }
        ensures { result_map (λ path. path.now) result
            ≡ (statement_at (index_of self.now) number).path }
    {
        let source = word(self.statement(number), 0) as usize;
        if source >= self.sources {
            return Err(NoPath::Outside);
        }
        path_of(self.path_bytes, self.source(source))
    }

    /// The number of the name of a source, as it stands in its bytes.
    pub(crate) fn name_at(&self, source: usize) -> u64
        requires { source < self.now.sources }
        ensures name { result ≡ name_at (index_of self.now) source }
        ensures few { result < 2 ^ 32 }
    {
        u64::from(word(self.source(source), 20))
    }

    /// The number of the name of the source of a statement; 0 where there is no such source.
    pub(crate) fn statement_name(&self, number: usize) -> u64
        requires { number < self.now.statements }
        ensures name { result ≡ statement_name (index_of self.now) number }
        ensures few { result < 2 ^ 32 }
    {
        let source = word(self.statement(number), 0) as usize;
        if source < self.sources {
            self.name_at(source)
        } else {
            0
        }
    }

    /// The key of a statement, by that number.
    pub(crate) fn statement_key(&self, number: usize) -> u64
        requires { number < self.now.statements }
        ensures { result ≡ key_at (index_of self.now) number }
    {
        key_of(self.statement_name(number), self.statement_line(number))
    }

    /// The rank of a statement: its key, and below it its address.
    pub(crate) fn statement_rank(&self, number: usize) -> u128
        requires { number < self.now.statements }
        ensures { result ≡ rank_at (index_of self.now) number }
    {
        rank_of(self.statement_key(number), self.statement_address(number))
    }

    /// The number of the first statement that has at least this key; the number of all where there
    /// is none.
    pub(crate) fn first_at(&self, key: u64) -> usize
        ensures within { result ≤ self.now.statements }
        ensures before { IsOrdered (index_of self.now) → (k : ℕ) → k < result
            → key_at (index_of self.now) k < key }
        ensures after { IsOrdered (index_of self.now) → (k : ℕ) → result ≤ k
            → k < self.now.statements → key ≤ key_at (index_of self.now) k }
    {
        are_bytes(self.statement_bytes);
        let mut low = 0;
        let mut high = self.statements;
        while low < high {
            let middle = low + (high - low) / 2;
            if self.statement_key(middle) < key {
                low = middle + 1;
            } else {
                high = middle;
            }
        }
        low
    }
}
