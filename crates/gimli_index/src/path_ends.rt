//! Which paths end with the components of another, found without taking memory.

ghost use Rattle.std.specs.Prelude.{◌≡◌, ◌≤◌, ◌<◌, ◌+◌, ◌-◌, ◌^◌, ◌∷◌, ℕ, List, [], length};
ghost use Rattle.std.specs.Prelude.{take, drop, MatchOption, false};
ghost use Rattle.std.specs.Option.{option_map_or};
ghost use Rattle.std.specs.List.{slice_split, starts_with};
ghost use Rattle.std.specs.Str.{bytes_eq};
ghost use Rattle.gimli_lookup.specs.Paths.{is_separator, begins_with_separator};
ghost use Rattle.gimli_lookup.specs.Components.{components, resolved, with_component};
ghost use Rattle.gimli_lookup.specs.inside.Paths.{up_by};
ghost use Rattle.gimli_index.specs.inside.Components.{components_left};

use crate::components::Components;

/// Whether a byte separates components.
pub(crate) fn is_separator(byte: u8) -> bool
    ensures { result ≡ is_separator byte }
{
    byte == b'/' || byte == b'\\'
}

/// Whether a path begins at the root.
fn begins_with_separator(path: &[u8]) -> bool
    ensures { result ≡ begins_with_separator path.now }
{
    match path {
        [byte, ..] => is_separator(*byte),
        [] => false,
    }
}

/// Where the last component of a text begins, as it is written.
fn last_component(text: &[u8]) -> usize
    ensures within { result ≤ length text.now }
    ensures last { (before : List (List ℕ)) →
        resolved before (slice_split is_separator text.now) ≡ with_component
        (resolved before (slice_split is_separator (take (result - 1) text.now)))
        (drop result text.now) }
{
    let mut first = text.len();
    while first > 0 {
        if is_separator(text[first - 1]) {
            return first;
        }
        first -= 1;
    }
    0
}

impl<'p> Components<'p> {
    /// All components of a path.
    pub(crate) fn new(path: &'p [u8]) -> Components<'p>
        ensures { components_left result ≡ components path.now }
    {
        Components {
            text: path,
            ups: 0,
            root: begins_with_separator(path),
        }
    }

    /// The last component of a text that isn't empty, as it is written.
    fn next_written(&mut self) -> &'p [u8]
        requires { 0 < length self.old.text.now }
        ensures last { (before : List (List ℕ)) →
            resolved before (slice_split is_separator self.old.text.now) ≡ with_component
            (resolved before (slice_split is_separator self.new.text.now)) result.now }
        ensures shorter { length self.new.text.now < length self.old.text.now }
        ensures room { length self.new.text.now + length result.now ≤ length self.old.text.now }
        ensures ups { self.new.ups ≡ self.old.ups }
        ensures root { self.new.root ≡ self.old.root }
    {
        let text = self.text;
        let first = last_component(text);
        self.text = &text[..first.saturating_sub(1)];
        &text[first..]
    }

    /// A component that is written, unless it is dropped.
    fn resolve(&mut self, component: &'p [u8]) -> Option<&'p [u8]>
        requires { self.old.ups + length self.old.text.now + length component.now < 2 ^ 64 }
        ensures left { (before : List (List ℕ)) → MatchOption result
            (up_by self.old.ups (with_component before component.now)
            ≡ up_by self.new.ups before)
            (λ own. up_by self.old.ups (with_component before component.now)
            ≡ own.now ∷ up_by self.new.ups before) }
        ensures text { self.new.text ≡ self.old.text }
        ensures root { self.new.root ≡ self.old.root }
    {
        match component {
            [] => return None,
            [b'.'] => return None,
            [b'.', b'.'] => {
                self.ups += 1;
                return None;
            }
            _ => {}
        }
        if self.ups > 0 {
            self.ups -= 1;
            return None;
        }
        Some(component)
    }

    /// Where the path begins: the root, or each `..` that is left.
    fn next_at_start(&mut self) -> Option<&'p [u8]>
        requires { self.old.text.now ≡ [] }
        ensures { MatchOption result
            ((components_left self.old ≡ []) × (components_left self.new ≡ []))
            (λ own. components_left self.old ≡ own.now ∷ components_left self.new) }
    {
        if self.root {
            self.root = false;
            self.ups = 0;
            return Some(b"");
        }
        if self.ups == 0 {
            return None;
        }
        self.ups -= 1;
        Some(b"..")
    }

    /// The next component.
    pub(crate) fn next_component(&mut self) -> Option<&'p [u8]>
        ensures { MatchOption result
            ((components_left self.old ≡ []) × (components_left self.new ≡ []))
            (λ own. components_left self.old ≡ own.now ∷ components_left self.new) }
    {
        'written: while !self.text.is_empty() {
            let component = self.next_written();
            if let Some(own) = self.resolve(component) {
                return Some(own);
            }
        }
        self.next_at_start()
    }
}

/// Whether there is a component that has these bytes.
fn is_component(own: Option<&[u8]>, component: &[u8]) -> bool
    ensures { result ≡ option_map_or (λ c. bytes_eq component.now c.now) own.entry false }
{
    match own {
        Some(own) => component == own,
        None => false,
    }
}

/// Whether the last components of a path are all those of another.
pub(crate) fn ends_with(path: &[u8], end: &[u8]) -> bool
    ensures { result ≡ starts_with bytes_eq (components path.now) (components end.now) }
{
    let mut own = Components::new(path);
    let mut asked = Components::new(end);
    'components: while let Some(component) = asked.next_component() {
        if !is_component(own.next_component(), component) {
            return false;
        }
    }
    true
}
