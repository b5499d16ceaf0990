//! The attributes of an entry that a user of line programs needs (DWARF 5, sections 2.2, 3.1.1 and
//! 7.5.4).

ghost use Rattle.std.specs.Prelude.{◌≡◌, IsTrue};
ghost use Rattle.gimli_core.specs.Layout.{layout_of};
ghost use Rattle.gimli_core.specs.Numbers.{is_address_size};
ghost use Rattle.gimli_core.specs.Reading.{result_map};
ghost use Rattle.gimli_compilation.specs.Value.{no_attributes};
ghost use Rattle.gimli_compilation.specs.inside.Value.{attributes_seen};
ghost use Rattle.gimli_compilation.specs.inside.AbbreviationReading.{listed, IsListed};
ghost use Rattle.gimli_compilation.specs.Unit.{attributes_production};

use crate::abbreviation::parse_specification;
use crate::constants::{self, DwAt};
use crate::form::{Value, parse_form};
use gimli_core::{Encoding, Reader, Result};

/// The values of the attributes that are asked for; `Passed` where there is none.
#[derive(Clone, Copy)]
pub(crate) struct Attributes<R> {
    pub stmt_list: Value<R>,
    pub comp_dir: Value<R>,
    pub name: Value<R>,
    pub str_offsets_base: Value<R>,
}

impl<R> Attributes<R> {
    ghost use Rattle.gimli_compilation.specs.Value.{no_attributes, attributes_with};

    /// None of them.
    fn none() -> Self
        ensures { result ≡ no_attributes }
    {
        Attributes {
            stmt_list: Value::Passed,
            comp_dir: Value::Passed,
            name: Value::Passed,
            str_offsets_base: Value::Passed,
        }
    }
}

impl<R: Drop> Attributes<R> {
    ghost use Rattle.gimli_compilation.specs.Value.{attributes_with};

    /// Keeps a value, where its attribute is one of these.
    fn update(&mut self, name: DwAt, value: Value<R>)
        ensures { self.new ≡ attributes_with self.old name.0 value }
    {
        match name {
            constants::DW_AT_stmt_list => self.stmt_list = value,
            constants::DW_AT_comp_dir => self.comp_dir = value,
            constants::DW_AT_name => self.name = value,
            constants::DW_AT_str_offsets_base => self.str_offsets_base = value,
            _ => {}
        }
    }
}

/// Takes the attributes of an entry, and their specifications from another reader. Requires that
/// the specifications are ended there.
pub(crate) fn parse_attributes<R: Reader>(
    input: &mut R,
    encoding: Encoding,
    specifications: &mut R,
) -> Result<Attributes<R>>
    requires size { IsTrue (is_address_size encoding.address_size) }
    requires closed { IsListed (R.seen specifications.old).bytes }
    ensures read { (result_map (attributes_seen R.seen) result, (R.seen input.new).bytes)
        ≡ (attributes_production (layout_of (R.seen input.old).is_big R.Offset.limit) encoding
        no_attributes (listed (R.seen specifications.old).bytes)).read (R.seen input.old).bytes }
{
    let mut attributes = Attributes::none();
    loop {
        let specification = parse_specification(specifications)?;
        if specification.is_end() {
            return Ok(attributes);
        }
        let value = parse_form(input, encoding, specification.form)?;
        attributes.update(specification.name, value);
    }
}
