//! Spans of a slice, as a source of held addresses.
ghost use Rattle.std.specs.Prelude.{◌≡◌, ℕ, ◌+◌, ◌-◌, ◌<◌, ◌≤◌, List, length, ◌↔◌};
ghost use Rattle.wgr_text.specs.Prefix.{rank};
ghost use Rattle.wgr_text.specs.declared.prefix.Span.{Span, Span as SpanValue};
ghost use Rattle.wgr_pool.specs.Spans.{RisesFrom, reached_after};
ghost use Rattle.wgr_pool.specs.Rising.{RisesFrom-prop};

use crate::allot::{Holds, Stop};
use wgr_text::{Addr, Span};

/// The spans of a slice, in the order in which they begin.
#[derive(Drop)]
pub struct SortedSpans<'a> {
    spans: &'a [Span],
    // Where the span that was returned last begins: later ones begin no lower.
    last: Option<Addr>,
    ghost in_order: { RisesFrom (reached_after last) spans.now } by { RisesFrom-prop (reached_after last) spans.now },
}

impl<'a> SortedSpans<'a> {
    /// A source of these spans.
    pub fn new(spans: &'a [Span]) -> SortedSpans<'a>
        requires { RisesFrom 0 spans.now }
        ensures { result.spans.now ≡ spans.now }
    {
        SortedSpans { spans, last: None }
    }
}

impl Holds for SortedSpans<'_> {
    ghost rest = { λ s. s.spans.now };

    ghost honest = { λ s. Unit {0} };

    ghost reached = { λ s. reached_after s.last };

    ghost left = { λ s. length s.spans.now };

    ghost stopped = { λ s why. ⊥ };

    ghost keeps = { λ a b. Unit {0} };

    fn next_hold(&mut self) -> Result<Option<Span>, Stop> {
        match self.spans.split_first() {
            Some((&span, later)) => {
                self.spans = later;
                self.last = Some(span.lo);
                Ok(Some(span))
            }
            None => Ok(None),
        }
    }

    ghost in_order = { λ s h. s.in_order };

    ghost keeps_itself = { λ s. tt };

    ghost keeps_on = { λ a b c one other. tt };
}
