//! How long a library has waited.
ghost use Rattle.std.specs.Prelude.{◌≡◌};
ghost use Rattle.library_api.specs.Waits.{same_kind, waits_after};

use std::marker::Model;

/// What the last call of a library waited for.
#[derive(Clone, Copy, Debug, PartialEq, Eq)]
pub enum WaitKind {
    /// Nothing.
    Free,
    /// A poll for a notice, or for the publication of its position.
    Event,
    /// A send for room in the lane.
    Lane,
    /// A request for room in the ring of commands.
    Asks,
    /// The word that all is done for room in that ring.
    Done,
}

/// How many of a library's last calls in a row waited for the same.
#[derive(Debug, Drop)]
pub struct Waited {
    kind: WaitKind,
    count: u64,
}

impl Model for Waited {
    ghost use Rattle.library_api.specs.Waits.{Waits};

    ghost Value = { Waits };

    ghost view = { λ w. record { kind = w.kind; count = w.count } };
}

impl Waited {
    pub(crate) fn new() -> Waited
        ensures { result ≡ record { kind = WaitKind.Free; count = 0 } }
    {
        Waited {
            kind: WaitKind::Free,
            count: 0,
        }
    }

    pub(crate) fn copy(&self) -> Waited
        ensures { result ≡ self.now }
    {
        Waited {
            kind: self.kind,
            count: self.count,
        }
    }

    /// A call waited for this.
    pub(crate) fn note(&mut self, kind: WaitKind)
        ensures { self.new ≡ waits_after kind self.old }
    {
        if matches!(kind, WaitKind::Free) {
            self.count = 0;
        } else if is_same(kind, self.kind) {
            self.count = self.count.saturating_add(1);
        } else {
            self.count = 1;
        }
        self.kind = kind;
    }

    pub fn kind(&self) -> WaitKind
        ensures { result ≡ self.now.kind }
    {
        self.kind
    }

    /// How many calls in a row had this kind. It is 0 where that is `Free`, and stays at 2^64 - 1.
    pub fn count(&self) -> u64
        ensures { result ≡ self.now.count }
    {
        self.count
    }
}

fn is_same(a: WaitKind, b: WaitKind) -> bool
    ensures { result ≡ same_kind a b }
{
    matches!(
        (a, b),
        (WaitKind::Free, WaitKind::Free)
            | (WaitKind::Event, WaitKind::Event)
            | (WaitKind::Lane, WaitKind::Lane)
            | (WaitKind::Asks, WaitKind::Asks)
            | (WaitKind::Done, WaitKind::Done)
    )
}
