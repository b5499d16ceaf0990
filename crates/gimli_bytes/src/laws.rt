//! Laws of what is written, of equality and of clones.

ghost use Rattle.std.specs.Prelude.{◌≡◌, ◌≢◌, ℕ, ◌+◌, ◌<◌, ◌≤◌, ◌^◌, ℤ, Bool, List, ◌∷◌, ◌++◌};
ghost use Rattle.std.specs.Prelude.{length};
ghost use Rattle.std.specs.Prelude.{IsTrue, drop, Some, Ok, All, slice_get, FitsSigned};
ghost use Rattle.std.specs.Bool.{Decides};
ghost use Rattle.std.specs.Int.{w64};
ghost use Rattle.gimli_core.specs.Equality.{ClonesGiveSame, IsExact, IsSameClone};
ghost use Rattle.gimli_core.specs.Numbers.{SpellsUleb128, SpellsSleb128, IsShortest};
ghost use Rattle.gimli_bytes.specs.HashAlike.{HashAlike};
ghost use Rattle.gimli_bytes.specs.Number.{uleb, sleb, address_bytes};
ghost use Rattle.gimli_bytes.specs.declared.address.Address.{Address};
ghost use Rattle.gimli_bytes.specs.declared.str.StringId.{StringId};
ghost use Rattle.gimli_bytes.specs.declared.str.LineStringId.{LineStringId};
ghost use Rattle.gimli_bytes.specs.Relocatable.{Relocatable};
ghost use Rattle.gimli_bytes.specs.Hand.{Placement, section_word};
ghost use Rattle.gimli_bytes.specs.Relocations.{Call, are_inside, CallsFit, applied};
ghost use Rattle.gimli_bytes.specs.Relocations.{after_calls, plainly_after_calls};
ghost use Rattle.gimli_bytes.specs.Relocations.{AddressOf, CallFits, address_placed};
ghost use Rattle.gimli_bytes.specs.Relocations.{placed_address, lowest_bytes};
ghost use Rattle.gimli_bytes.specs.Texts.{AreTexts, with_text, table_bytes, byte_count, offset_of};

use crate::address::Address;
use crate::endian_vec::EndianVec;
use crate::error::Error;
use crate::str::{LineStringId, StringId};
use crate::writer::InitialLengthOffset;
use gimli_core::Endianity;
use std::hash::Hash;

/// `==` of two addresses, and of two ids, holds exactly where all their parts agree.
pub fn equal_addresses_and_ids()
    ensures address { (a b : Address) → Decides (⟦<Address as PartialEq>⟧.eq a b) (a ≡ b) }
    ensures string { (a b : StringId) → Decides (⟦<StringId as PartialEq>⟧.eq a b) (a ≡ b) }
    ensures line_string { (a b : LineStringId) →
        Decides (⟦<LineStringId as PartialEq>⟧.eq a b) (a ≡ b) }
{}

/// Equal addresses hash alike, and so do equal ids.
pub fn equal_addresses_and_ids_hash_alike()
    ensures address { HashAlike ⟦<Address as PartialEq>⟧.eq ⟦<Address as Hash>⟧.hash_input }
    ensures string { HashAlike ⟦<StringId as PartialEq>⟧.eq ⟦<StringId as Hash>⟧.hash_input }
    ensures line_string { HashAlike ⟦<LineStringId as PartialEq>⟧.eq
        ⟦<LineStringId as Hash>⟧.hash_input }
{}

/// `==` of errors holds exactly where they are of one kind and agree in what they hold.
pub fn equal_errors_are_same()
    ensures { IsExact ⟦<Error as PartialEq>⟧.eq }
{}

/// A clone of a section is equal to it.
pub fn clones_are_same<E: Endianity>()
    ensures { IsSameClone ⟦<EndianVec<E> as Clone>⟧.is_clone }
{}

/// `clone` of addresses, of ids and of the places of lengths is never refused, and gives the same.
pub fn clones_of_addresses_and_ids()
    ensures address { ClonesGiveSame ⟦<Address as Clone>⟧ }
    ensures string { ClonesGiveSame ⟦<StringId as Clone>⟧ }
    ensures line_string { ClonesGiveSame ⟦<LineStringId as Clone>⟧ }
    ensures length { ClonesGiveSame ⟦<InitialLengthOffset as Clone>⟧ }
{}

/// The same of errors.
pub fn clones_of_errors_are_same()
    ensures { ClonesGiveSame ⟦<Error as Clone>⟧ }
{}

/// What `write_uleb128` appends is a spelling of the number, and no other is shorter.
pub fn uleb_is_shortest()
    ensures { (n : ℕ) → n < 2 ^ 64 → IsShortest (SpellsUleb128 64) (uleb n) n }
{}

/// What `write_sleb128` appends is a spelling of the number, and no other is shorter.
pub fn sleb_is_shortest()
    ensures { (z : ℤ) → FitsSigned w64 z → IsShortest SpellsSleb128 (sleb z) z }
{}

/// Texts to which one is added are still distinct, and still without zero bytes.
pub fn with_text_are_texts()
    ensures { (texts : List (List ℕ)) (t : List ℕ) → AreTexts texts → All (λ b. b ≢ 0) t
        → AreTexts (with_text texts t) }
{}

/// The bytes of a table hold each text at its offset, and a zero byte after it.
pub fn text_at_offset()
    ensures { (texts : List (List ℕ)) (i : ℕ) (t : List ℕ) → slice_get texts i ≡ Some t →
        drop (offset_of texts i) (table_bytes texts) ≡ t ++ 0 ∷ table_bytes (drop (i + 1) texts) }
{}

/// A table is written as so many bytes.
pub fn table_bytes_length()
    ensures { (texts : List (List ℕ)) → length (table_bytes texts) ≡ byte_count texts }
{}

/// Where each sum fits its size, what calls wrote has, once its relocations are applied, the bytes
/// that a plain vector holds after the same calls with the symbols replaced.
pub fn relocations_give_the_same()
    ensures { (placement : Placement) (v w : Relocatable) (calls : List Call) →
        IsTrue (are_inside v) → CallsFit placement calls → after_calls v calls ≡ Ok w →
        plainly_after_calls placement v.is_big (applied placement v) calls
        ≡ Ok (applied placement w) }
{}

/// What a linker puts at a place is the sum itself, where it fits the size.
pub fn placed_sums_are_numbers()
    ensures address { (at : Placement) (is_big : Bool) (address : Address) (size : ℕ) →
        CallFits at (AddressOf address size) → placed_address at is_big address size
        ≡ address_bytes is_big (address_placed at address) size }
    ensures other { (is_big : Bool) (n size : ℕ) → n < 256 ^ size →
        lowest_bytes is_big n size ≡ section_word is_big n size }
{}
