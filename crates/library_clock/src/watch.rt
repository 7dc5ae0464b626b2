//! Which library fell silent: the last beat of each, and since when it stands.

ghost use Rattle.std.specs.Prelude.{◌≡◌, ◌≢◌, ℕ, ◌+◌, ◌-◌, ◌≤◌, ◌↔◌, ◌^◌, IfOk, IfSome, IsSome, length, min, replicate, slice_set};
ghost use Rattle.library_clock.specs.Watched.{kept_of, kept_after};

use super::kept::Kept;
use gate_io::NoMemory;
use std::alloc::Global;
use std::marker::Model;

/// A beat that stood still for the timeout, and since when it stands.
#[derive(Clone, Copy, Debug, PartialEq, Eq)]
pub struct Expired {
    pub beat: u64,
    pub since: u64,
}

/// Which libraries fell silent. Each counts its beats; one has expired at a moment at which its
/// beat is the kept one, and has stood for at least the timeout. Times are in milliseconds.
#[derive(Debug, Drop)]
pub struct Watch {
    timeout: u64,
    // of library 1, 2 and so on
    kept: Vec<Kept>,
}

impl Model for Watch {
    ghost use Rattle.library_clock.specs.Watched.{Watched};

    ghost Value = { Watched };

    ghost view = { λ a. record { timeout = a.timeout; kept = a.kept.items } };
}

impl Watch {
    /// Beat 0 is kept of each library, seen first at this moment.
    pub fn new(alloc: Global, libraries: u8, timeout: u64, moment: u64) -> Result<Watch, NoMemory>
        ensures watch { IfOk result (λ watch. watch ≡ record { timeout = timeout; kept = replicate libraries (record { beat = 0; since = moment }) }) }
        ensures libraries { IfOk result (λ watch. length watch.kept ≡ libraries) }
        ensures kept { IfOk result (λ watch. (library : ℕ) → 1 ≤ library → library ≤ libraries → kept_of watch library ≡ record { beat = 0; since = moment }) }
    {
        let kept = Kept {
            beat: 0,
            since: moment,
        };
        Ok(Watch {
            timeout,
            kept: vec![in alloc; kept; usize::from(libraries)]?,
        })
    }

    /// Notes the beat that a library shows at this moment.
    pub fn note(&mut self, library: u8, beat: u64, moment: u64) -> Option<Expired>
        requires library { 1 ≤ library }
        requires watched { library ≤ length self.old.kept }

        // It expired exactly where the kept beat stood still for the timeout.
        ensures expired { IsSome result
            ↔ ((beat ≡ (kept_of self.old library).beat) × ((kept_of self.old library).since + self.old.timeout ≤ moment)) }
        ensures told { IfSome result (λ e. e ≡ record { beat = beat; since = (kept_of self.old library).since }) }

        // A beat that moved is kept with the moment. One that stands changes nothing, also where it expired.
        ensures moved { beat ≢ (kept_of self.old library).beat
            → self.new ≡ record self.old { kept = slice_set self.old.kept (library - 1) (record { beat = beat; since = moment }) } }
        ensures libraries { length self.new.kept ≡ length self.old.kept }
        ensures timeout { self.new.timeout ≡ self.old.timeout }
        ensures kept { kept_of self.new library ≡ kept_after (kept_of self.old library) beat moment }
        ensures others { (other : ℕ) → 1 ≤ other → other ≢ library → kept_of self.new other ≡ kept_of self.old other }
        ensures stands { beat ≡ (kept_of self.old library).beat → self.new ≡ self.old }
    {
        let place = usize::from(library - 1);
        let Kept { beat: last, since } = self.kept[place];
        if beat != last {
            self.kept[place] = Kept {
                beat,
                since: moment,
            };
            return None;
        }
        if moment >= since && moment - since >= self.timeout {
            Some(Expired { beat, since })
        } else {
            None
        }
    }

    /// The least moment at which a library has expired, as long as its beat stands: at most 2^64 - 1.
    pub fn silent_at(&self, library: u8) -> u64
        requires library { 1 ≤ library }
        requires watched { library ≤ length self.now.kept }
        ensures { result ≡ min ((kept_of self.now library).since + self.now.timeout) (2 ^ 64 - 1) }
    {
        let place = usize::from(library - 1);
        self.kept[place].since.saturating_add(self.timeout)
    }
}
