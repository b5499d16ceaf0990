//! Outputs, compared to the last byte.

ghost use Rattle.std.specs.Prelude.{◌≡◌, ◌↔◌, IsTrue};
ghost use Rattle.std.specs.List.{list_all};
ghost use Rattle.rows.specs.Output.{is_blank, EndsLine, IsExpected};

/// Whether an output is the expected one, to the last byte. Blank lines at the end of what is
/// expected don't count.
pub fn is_expected(expected: &[u8], got: &[u8]) -> bool
    ensures { IsTrue result ↔ IsExpected expected.now got.now }
{
    match expected.strip_prefix(got) {
        Some(gap) => is_all_blank(gap) && ends_line(got),
        None => false,
    }
}

/// Whether bytes are blanks and ends of lines alone.
fn is_all_blank(bytes: &[u8]) -> bool
    ensures { result ≡ list_all is_blank bytes.now }
{
    bytes.iter().all(|byte| *byte == b' ' || *byte == b'\n')
}

/// Whether there are no bytes, or their last one ends a line.
fn ends_line(bytes: &[u8]) -> bool
    ensures { IsTrue result ↔ EndsLine bytes.now }
{
    match bytes {
        [] | [.., b'\n'] => true,
        _ => false,
    }
}
