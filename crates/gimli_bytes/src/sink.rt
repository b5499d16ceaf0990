//! What a writer means, apart from its calls.

ghost use Rattle.std.specs.Prelude.{ℕ, Bool, List, Result};
ghost use Rattle.gimli_bytes.specs.Hand.{Hand, Placement};
ghost use Rattle.gimli_bytes.specs.declared.error.Error.{Error};

/// What a [`Writer`](crate::Writer) means: its bytes, their order, and three facts of its type.
///
/// It has no call, and nothing of it is left in a program. It is separate from `Writer`, so that
/// the clauses of `Writer`'s calls can name it as a whole.
pub trait Sink {
    /// The bytes of the section.
    ghost contents: { Self → List ℕ };

    /// Whether the most significant byte of a number comes first.
    ghost is_big: { Self → Bool };

    /// Whether a writer of this type keeps exactly the bytes given to it.
    ghost keeps_bytes: { Bool };

    /// Whether `completed` and `hand` say what a linker makes of what the writer holds.
    ghost completes: { Self → Bool };

    /// The bytes once a linker has placed each symbol and each section so.
    ghost completed: { Placement → Self → List ℕ };

    /// How addresses and offsets into sections stand in those bytes.
    ghost hand: { Placement → Hand };

    /// Whether a writer of this type refuses a `write` only with `OutOfMemory`, a `write_at` for
    /// its two bounds alone, and any other call for what is said there, or as the `write` or
    /// `write_at` under it.
    ghost fails_for_memory_alone: { Bool };

    /// Which errors a call may return at a state where these bytes are wanted, or the refusal of
    /// the value or the size: those in addition to that refusal and to the bounds of a `write_at`.
    /// A call with a body in `Writer` passes such an error on as it is.
    ghost refuses: { Self → Result (List ℕ) Error → Error → Type 0 };

    /// Whether no call was refused on the way to a state. A call that returns `Ok` keeps this, and
    /// nothing is known of it after one that is refused. A type that doesn't distinguish its states
    /// says `true`.
    ghost unrefused: { Self → Bool };

    /// Whether a writer of this type appends either all bytes of a `write` or none. Then each call
    /// that makes at most one `write` does so too: all that append but `write_initial_length`.
    ghost all_or_none: { Bool };
}
