//! A server's file with the moments at which it is the network's.
ghost use Rattle.std.specs.Prelude.{◌≡◌, ℕ, ◌<◌, ◌≤◌, ◌↔◌, IsTrue, IfSome};
ghost use Rattle.wgr_peers.specs.Limits.{is_expired};
ghost use Rattle.wgr_register.specs.Moments.{IsInSpan};

/// The moments from one on, and before another, if there is one. Seconds since 1970-01-01.
#[derive(Clone, Copy)]
pub(crate) struct Moments {
    pub(crate) from: u64,
    pub(crate) until: Option<u64>,
}

impl Moments {
    /// All moments.
    pub(crate) fn all() -> Moments
        ensures { (m : ℕ) → IsInSpan result m }
    {
        Moments {
            from: 0,
            until: None,
        }
    }

    /// Whether this moment is one of these.
    pub(crate) fn has(&self, now: u64) -> bool
        ensures { IsTrue result ↔ IsInSpan self.now now }
    {
        let Moments { from, until } = *self;
        from <= now && comes_before(now, until)
    }

    /// The moments of this span at which a lease with this end is over exactly if it is over at `now`. The
    /// end bounds them from below if it is past, and from above if it is to come.
    pub(crate) fn around(self, end: u64, now: u64) -> Moments
        ensures within { IsInSpan self now → IsInSpan result now }
        ensures narrower { (m : ℕ) → IsInSpan result m → IsInSpan self m }
        ensures steady { (m : ℕ) → IsInSpan result m → is_expired m end ≡ is_expired now end }
    {
        if end <= now {
            Moments {
                from: self.from.max(end),
                until: self.until,
            }
        } else {
            Moments {
                from: self.from,
                until: Some(sooner(end, self.until)),
            }
        }
    }
}

// Whether the moment comes before this one, if there is one.
fn comes_before(now: u64, until: Option<u64>) -> bool
    ensures { IsTrue result ↔ IfSome until (λ end. now < end) }
{
    match until {
        Some(end) => now < end,
        None => true,
    }
}

// The earlier of the two.
fn sooner(end: u64, until: Option<u64>) -> u64
    ensures first { result ≤ end }
    ensures other { IfSome until (λ other. result ≤ other) }
    ensures one { (now : ℕ) → now < end → IfSome until (λ other. now < other) → now < result }
{
    match until {
        Some(other) => end.min(other),
        None => end,
    }
}

/// A server's file, and the moments at which it is the network's.
#[derive(Drop)]
pub(crate) struct KeptFile {
    pub(crate) text: Vec<u8>,
    pub(crate) moments: Moments,
}
