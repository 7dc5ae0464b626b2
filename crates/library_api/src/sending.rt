//! How a library sends.
ghost use Rattle.std.specs.Prelude.{◌≡◌, ◌↔◌, ◌+◌, ◌<◌, ◌≤◌, length, IfOk, IfErr, OnOk, IsErrAnd, IsSome};
ghost use Rattle.fix_fields.specs.Fit.{unfit_at};
ghost use Rattle.lease_words.specs.Answers.{HasLoaded};
ghost use Rattle.library_api.specs.Known.{held, sends_made, session_at};
ghost use Rattle.library_api.specs.Ends.{belongings};
ghost use Rattle.library_api.specs.Sends.{most_bytes, after_sent, after_send_refused, taken_seen, items_since, IsOneItem, IsSendable, LaneIsFull, LeaseIsSpent, IsNotHeld, IsTooLong, IsBadBody, IsLaneFull, IsSendsSpent, SendCause, HasSent, after_sending, after_refusing, refusal_of, forgotten_on};

use crate::ends::Links;
use crate::library::Library;
use crate::reading::Reading;
use crate::refusal::SendRefusal;
use crate::waited::WaitKind;
use fix_fields::{LONGEST_APPLICATION_BODY, check_body};
use gate_io::Bytes;
use lease_words::{Item, SendError, Sent};

// The most bytes of a body that a library sends.
const MOST_BYTES: usize = LONGEST_APPLICATION_BODY;

impl Library {
    /// Sends a message on a session. Where it isn't sent its body comes back, with the first cause
    /// that applies. After `Lost` the library holds no lease of the session.
    pub fn send(
        &mut self,
        links: &Links,
        s: u16,
        body: Vec<u8>,
    ) -> Result<Sent, (SendRefusal, Vec<u8>)>
        requires links { self.old.ends.seat.table ≡ links.now.leases.now }
        ensures sent { OnOk result (self.new ≡ after_sent self.old s (taken_seen self.new s) (items_since self.old self.new s)) }
        ensures refused { IfErr result (λ e. self.new ≡ after_send_refused self.old s (taken_seen self.new s) e.0) }
        ensures belongings { belongings self.new.ends ≡ belongings self.old.ends }

        ensures answer { IfOk result (λ r. (r.lease ≡ held self.old s) × (r.ordinal ≡ sends_made self.old s + 1)) }
        ensures item { OnOk result (IsOneItem (held self.old s) body.items (items_since self.old self.new s)) }
        ensures back { IfErr result (λ e. e.1.items ≡ body.items) }

        ensures not_held { IsErrAnd result (λ e. IsNotHeld e.0) ↔ (held self.old s ≡ 0) }
        ensures too_long { IsErrAnd result (λ e. IsTooLong e.0) ↔ ((0 < held self.old s) × (most_bytes < length body.items)) }
        ensures bad_body { IsErrAnd result (λ e. IsBadBody e.0) ↔ ((0 < held self.old s) × (length body.items ≤ most_bytes) × IsSome (unfit_at body.items)) }
        ensures lane_full { IsErrAnd result (λ e. IsLaneFull e.0) ↔ (IsSendable self.old s body.items × LaneIsFull self.old s (taken_seen self.new s)) }
        ensures sends_spent { IsErrAnd result (λ e. IsSendsSpent e.0) ↔ (IsSendable self.old s body.items × (LaneIsFull self.old s (taken_seen self.new s) → ⊥) × LeaseIsSpent self.old s) }
        ensures cause { IfErr result (λ e. SendCause self.old s body.items (taken_seen self.new s) e.0) }
        ensures lawful { OnOk result (HasSent self.old s body.items (taken_seen self.new s)) }
        ensures loaded { IsSendable self.old s body.items → HasLoaded links.now.leases.now.shape.depth (session_at self.old s) (taken_seen self.new s) }
    {
        let answer = self.try_send(links, s, body);
        self.wait(match &answer {
            Err((SendRefusal::LaneFull { .. }, _)) => WaitKind::Lane,
            _ => WaitKind::Free,
        });
        answer
    }

    // Sends, whatever that waits for.
    fn try_send(
        &mut self,
        links: &Links,
        s: u16,
        body: Vec<u8>,
    ) -> Result<Sent, (SendRefusal, Vec<u8>)>
        requires links { self.old.ends.seat.table ≡ links.now.leases.now }
        ensures sent { OnOk result (self.new ≡ after_sending self.old s (taken_seen self.new s) (items_since self.old self.new s)) }
        ensures refused { IfErr result (λ e. self.new ≡ after_refusing self.old s (taken_seen self.new s) e.0) }
        ensures belongings { belongings self.new.ends ≡ belongings self.old.ends }
        ensures answer { IfOk result (λ r. (r.lease ≡ held self.old s) × (r.ordinal ≡ sends_made self.old s + 1)) }
        ensures item { OnOk result (IsOneItem (held self.old s) body.items (items_since self.old self.new s)) }
        ensures back { IfErr result (λ e. e.1.items ≡ body.items) }
        ensures cause { IfErr result (λ e. SendCause self.old s body.items (taken_seen self.new s) e.0) }
        ensures lawful { OnOk result (HasSent self.old s body.items (taken_seen self.new s)) }
        ensures loaded { IsSendable self.old s body.items → HasLoaded links.now.leases.now.shape.depth (session_at self.old s) (taken_seen self.new s) }
    {
        let lease = self.held(links, s);
        if lease == 0 {
            return Err((SendRefusal::NotHeld, body));
        }
        let length = body.len();
        if length > MOST_BYTES {
            return Err((SendRefusal::TooLong { length }, body));
        }
        if let Err(at) = check_body(body.as_slice()) {
            return Err((SendRefusal::BadBody { at }, body));
        }
        let body = Bytes::of(body);
        match links
            .leases
            .send(&mut self.ends.seat, s, Item { lease, body })
        {
            Ok(sent) => Ok(sent),
            Err((why, item)) => {
                let refusal = self.refused(s, why);
                Err((refusal, item.body.into_inner()))
            }
        }
    }

    // Why the lease table refused a send. After a loss the library holds no lease of the session.
    fn refused(&mut self, s: u16, why: SendError) -> SendRefusal
        ensures refusal { result ≡ refusal_of why }
        ensures library { self.new ≡ forgotten_on self.old s result }
    {
        match why {
            SendError::LaneFull { committed, taken } => SendRefusal::LaneFull { committed, taken },
            SendError::SendsSpent { count } => SendRefusal::SendsSpent { count },
            SendError::Lost { seen } => {
                self.set_reading(s, Reading::NONE);
                SendRefusal::Lost { seen }
            }
        }
    }
}
