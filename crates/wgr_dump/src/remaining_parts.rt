//! The parts of a text between two bytes of a kind.
ghost use Rattle.std.specs.Prelude.{◌≡◌, ◌==◌, ℕ, [], ◌∷◌, position, List, MatchOption};
ghost use Rattle.wgr_dump.specs.Fields.{parts_between};
ghost use Rattle.wgr_dump.specs.PartsLeft.{left};

/// The remaining parts.
#[derive(Clone, Copy, Drop)]
pub(crate) struct RemainingParts<'a> {
    rest: Option<&'a [u8]>,
    separator: u8,
}

impl<'a> RemainingParts<'a> {
    /// All parts of `text`: one more than it has separators.
    pub(crate) fn new(text: &'a [u8], separator: u8) -> RemainingParts<'a>
        ensures { left result ≡ parts_between separator text.entry.now }
    {
        RemainingParts {
            rest: Some(text),
            separator,
        }
    }

    /// No part.
    pub(crate) fn none() -> RemainingParts<'a>
        ensures { left result ≡ [] }
    {
        RemainingParts {
            rest: None,
            separator: 0,
        }
    }

    /// The next part.
    pub(crate) fn next(&mut self) -> Option<&'a [u8]>
        ensures { MatchOption result ((left self.old ≡ []) × (left self.new ≡ [])) (λ part. left self.old ≡ part.now ∷ left self.new) }
    {
        let rest = self.rest?;
        match separator(rest, self.separator) {
            Some(end) => {
                self.rest = Some(&rest[end + 1..]);
                Some(&rest[..end])
            }
            None => {
                self.rest = None;
                Some(rest)
            }
        }
    }
}

// The place of the first such byte.
fn separator(text: &[u8], separator: u8) -> Option<usize>
    ensures { result ≡ position (λ byte. byte == separator) text.now }
{
    text.iter().position(|byte| *byte == separator)
}
