//! The notes of a section (System V ABI, chapter 5, "Note Section").

ghost use Rattle.std.specs.Prelude.{◌≡◌, ◌<◌, ◌^◌, drop, IfSome};
ghost use Rattle.std.specs.Option.{option_map, option_copied};
ghost use Rattle.elf_sections.specs.Notes.{padded, note_at, note_size, is_build_id, build_id_in};
ghost use Rattle.elf_sections.specs.NoteViews.{note_of};

use crate::layout::Layout;

/// The type of a note whose descriptor is a build id (`NT_GNU_BUILD_ID`).
const BUILD_ID: u32 = 3;

/// A note, and what comes after it.
#[derive(Clone, Copy)]
pub(crate) struct Note<'a> {
    /// What the descriptor is, as the owner of the name defines it (`type`).
    pub(crate) kind: u32,
    /// Who defines the type.
    pub(crate) name: &'a [u8],
    /// What the note says.
    pub(crate) descriptor: &'a [u8],
    /// The bytes after the note.
    pub(crate) rest: &'a [u8],
}

/// A number of bytes with the padding up to a multiple of 4.
pub(crate) fn padded(size: usize) -> usize
    requires { size < 2 ^ 63 }
    ensures { result ≡ padded size }
{
    (size + 3) / 4 * 4
}

impl<'a> Note<'a> {
    /// The note that bytes begin with; None where they end before it does.
    fn parse(layout: Layout, bytes: &'a [u8]) -> Option<Note<'a>>
        ensures note { option_map note_of result ≡ note_at layout bytes.now }
        ensures rest { IfSome result (λ note.
            note.rest.now ≡ drop (note_size layout bytes.now) bytes.now) }
    {
        if bytes.len() < 12 {
            return None;
        }
        let name_size = layout.word(bytes, 0) as usize;
        let descriptor_size = layout.word(bytes, 4) as usize;
        let offset = 12 + padded(name_size);
        let end = offset + padded(descriptor_size);
        if bytes.len() < end {
            return None;
        }
        Some(Note {
            kind: layout.word(bytes, 8),
            name: &bytes[12..12 + name_size],
            descriptor: &bytes[offset..offset + descriptor_size],
            rest: &bytes[end..],
        })
    }

    /// Whether the descriptor is a build id.
    fn is_build_id(&self) -> bool
        ensures { result ≡ is_build_id (note_of self.now) }
    {
        self.kind == BUILD_ID && self.name == b"GNU\0".as_slice()
    }
}

/// The build id among the notes of a section.
pub(crate) fn build_id_in<'a>(layout: Layout, section: &'a [u8]) -> Option<&'a [u8]>
    ensures { option_copied result ≡ build_id_in layout section.now }
{
    let mut rest = section;
    while let Some(note) = Note::parse(layout, rest) {
        if note.is_build_id() {
            return Some(note.descriptor);
        }
        rest = note.rest;
    }
    None
}
