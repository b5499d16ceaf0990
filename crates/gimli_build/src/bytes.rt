//! A byte, a text with the zero byte that ends it, and an offset, as they are written.

ghost use Rattle.std.specs.Prelude.{[], ◌∷◌, ◌++◌, Ok};
ghost use Rattle.gimli_core.specs.Numbers.{word_size};
ghost use Rattle.gimli_build.specs.inside.Writes.{Writes, always};

use gimli_bytes::{Result, Writer};
use gimli_core::{Format, SectionId};

/// Appends a byte, which is the same in either byte order.
#[inline(always)]
pub(crate) fn write_byte<W: Writer>(w: &mut W, byte: u8) -> Result<()>
    ensures { Writes W.Sink w.old w.new result (always (Ok (byte ∷ []))) }
{
    w.write(&[byte])
}

/// Appends a text and a zero byte.
pub(crate) fn write_text<W: Writer>(w: &mut W, text: &[u8]) -> Result<()>
    ensures { Writes W.Sink w.old w.new result (always (Ok (text.now ++ 0 ∷ []))) }
{
    w.write(text)?;
    write_byte(w, 0)
}

/// Appends an offset into a section, as a word of the format.
pub(crate) fn write_section_offset<W: Writer>(
    w: &mut W,
    format: Format,
    offset: usize,
    section: SectionId,
) -> Result<()>
    ensures { Writes W.Sink w.old w.new result
        (λ hand. hand.offset (W.is_big w.old) section offset (word_size format)) }
{
    w.write_offset(offset, section, format.word_size())
}
