//! A section, over a reader of its contents.

ghost use Rattle.std.specs.Prelude.{◌≡◌};

use crate::common::SectionId;

/// A section over a reader of its bytes.
pub trait Section<R>: From<R> {
    ghost use Rattle.gimli_core.specs.declared.common.SectionId.{SectionId};

    /// Which section it is.
    ghost section: { SectionId };

    /// The reader that the section was made from.
    ghost contents: { Self → R };

    /// Which section it is.
    fn id() -> SectionId
        ensures { result ≡ section };

    /// The reader of the whole section.
    fn reader(&self) -> &R
        ensures { result.now ≡ contents self.now };

    /// A section that is made from a reader holds that reader.
    ghost holds_reader: { (reader : R) (made : Self) → Self.from_gives reader made
        → contents made ≡ reader };
}
