//! How a library gives a session back.
ghost use Rattle.std.specs.Prelude.{◌≡◌, ◌↔◌, ◌<◌, IfOk, IfErr, OnOk, IsErrAnd};
ghost use Rattle.library_api.specs.Known.{held, sends_made};
ghost use Rattle.library_api.specs.Ends.{belongings};
ghost use Rattle.library_api.specs.Releases.{after_giving_back, after_release_refused, after_hand_refused, IsReleaseNotHeld, IsHandNotHeld, IsBadHeir, IsNoHeir, CarriesRelease, CarriesHand};

use crate::ends::Links;
use crate::library::Library;
use crate::reading::Reading;
use crate::refusal::{HandRefusal, ReleaseRefusal, Released};
use crate::waited::WaitKind;
use lease_words::Lost;

impl Library {
    /// Gives a session back, and answers by which lease and how many sends that made. From then
    /// on, and after `Lost`, the library holds no lease of the session.
    pub fn release(&mut self, links: &Links, s: u16) -> Result<Released, ReleaseRefusal>
        requires links { self.old.ends.seat.table ≡ links.now.leases.now }
        ensures released { OnOk result (self.new ≡ after_giving_back self.old s 0 self.old.ends.seat.knows.number) }
        ensures refused { IfErr result (λ e. self.new ≡ after_release_refused self.old s e) }
        ensures belongings { belongings self.new.ends ≡ belongings self.old.ends }
        ensures answer { IfOk result (λ r. (r.lease ≡ held self.old s) × (r.count ≡ sends_made self.old s)) }
        ensures not_held { IsErrAnd result IsReleaseNotHeld ↔ (held self.old s ≡ 0) }
        ensures carries { IfErr result (λ e. CarriesRelease self.old s e) }
    {
        self.wait(WaitKind::Free);
        let lease = self.held(links, s);
        if lease == 0 {
            return Err(ReleaseRefusal::NotHeld);
        }
        let answer = links.leases.release(&mut self.ends.seat, s, lease);
        self.set_reading(s, Reading::NONE);
        match answer {
            Ok(count) => Ok(Released { lease, count }),
            Err(Lost { seen }) => Err(ReleaseRefusal::Lost { seen }),
        }
    }

    /// Gives a session back for another library to take, its heir: until a moment that the engine
    /// sets, or until it is granted, only that library gets it. Once it is given back, and after
    /// `Lost`, this library holds no lease of the session.
    pub fn release_to(&mut self, links: &Links, s: u16, heir: u8) -> Result<Released, HandRefusal>
        requires links { self.old.ends.seat.table ≡ links.now.leases.now }
        ensures handed { OnOk result (self.new ≡ after_giving_back self.old s heir heir) }
        ensures refused { IfErr result (λ e. self.new ≡ after_hand_refused self.old s e) }
        ensures belongings { belongings self.new.ends ≡ belongings self.old.ends }
        ensures answer { IfOk result (λ r. (r.lease ≡ held self.old s) × (r.count ≡ sends_made self.old s)) }
        ensures not_held { IsErrAnd result IsHandNotHeld ↔ (held self.old s ≡ 0) }
        ensures bad_heir { IsErrAnd result IsBadHeir ↔ ((0 < held self.old s) × IsNoHeir self.old heir) }
        ensures carries { IfErr result (λ e. CarriesHand self.old s heir e) }
    {
        self.wait(WaitKind::Free);
        let lease = self.held(links, s);
        if lease == 0 {
            return Err(HandRefusal::NotHeld);
        }
        if heir == 0 || heir > links.leases.libraries() || heir == self.ends.number {
            return Err(HandRefusal::BadHeir { heir });
        }
        let answer = links.leases.release_to(&mut self.ends.seat, s, lease, heir);
        self.set_reading(s, Reading::NONE);
        match answer {
            Ok(count) => Ok(Released { lease, count }),
            Err(Lost { seen }) => Err(HandRefusal::Lost { seen }),
        }
    }
}
