//! The parameters by which instructions are read and executed.

use gimli_core::{Encoding, LineEncoding};
use std::marker::Model;

/// The parameters by which instructions are read and executed.
#[derive(Clone, Copy, Debug, PartialEq, Eq)]
pub(crate) struct Parameters {
    pub(crate) encoding: Encoding,
    pub(crate) line_encoding: LineEncoding,
    /// The number of the first special opcode.
    pub(crate) opcode_base: u8,
}

impl Model for Parameters {
    ghost use Rattle.gimli_line.specs.header.Parameters.{Parameters};
    ghost use Rattle.gimli_line.specs.inside.header.HeaderGrammar.{AreAllowed};

    ghost Value = { Parameters };

    ghost view = { λ a.
        record {
          encoding = a.encoding;
          line_encoding = a.line_encoding;
          opcode_base = a.opcode_base;
        } };

    ghost inverse = { λ v.
        record {
          encoding = v.encoding;
          line_encoding = v.line_encoding;
          opcode_base = v.opcode_base;
        } };

    ghost invariant = { λ a. AreAllowed
        (record {
          encoding = a.encoding;
          line_encoding = a.line_encoding;
          opcode_base = a.opcode_base;
        }) };
}
