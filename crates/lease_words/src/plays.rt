//! What each step tells, and how views are cut and joined. These types are for proofs alone.
ghost use Rattle.lease_words.specs.Tells.{LookTells, RevokeTells, GrantTells, FetchTells, VacateTells, PublishTells, ListenTells, SeeTells, ArriveTells, BeatTells, ClaimTells, CommitTells, HandBackTells, ReleaseTells, MeetTells};
ghost use Rattle.lease_words.specs.Views.{without_first, first_alone, with_first, nobody};

use crate::item::Item;
use crate::view::View;
use atomic_table::{Join, Play, Split};

/// The load of a look.
pub struct Look;

impl Play<Option<Item>, View> for Look {
    ghost then = { LookTells };
}

/// The fetch and or of a revoke.
pub struct Revoke;

impl Play<Option<Item>, View> for Revoke {
    ghost then = { RevokeTells };
}

/// The swap of a grant.
pub struct Grant;

impl Play<Option<Item>, View> for Grant {
    ghost then = { GrantTells };
}

/// The load of a take.
pub struct Fetch;

impl Play<Option<Item>, View> for Fetch {
    ghost then = { FetchTells };
}

/// The store of a take.
pub struct Vacate;

impl Play<Option<Item>, View> for Vacate {
    ghost then = { VacateTells };
}

/// The store of a publishing.
pub struct Publish;

impl Play<Option<Item>, View> for Publish {
    ghost then = { PublishTells };
}

/// The load of a library's beats.
pub struct Listen;

impl Play<Option<Item>, View> for Listen {
    ghost then = { ListenTells };
}

/// A library's load of a lease word.
pub struct See;

impl Play<Option<Item>, View> for See {
    ghost then = { SeeTells };
}

/// The load of a published count.
pub struct Arrive;

impl Play<Option<Item>, View> for Arrive {
    ghost then = { ArriveTells };
}

/// The store of a beat.
pub struct Beat;

impl Play<Option<Item>, View> for Beat {
    ghost then = { BeatTells };
}

/// The load of a send.
pub struct Claim;

impl Play<Option<Item>, View> for Claim {
    ghost then = { ClaimTells };
}

/// The exchange of a send.
pub struct Commit;

impl Play<Option<Item>, View> for Commit {
    ghost then = { CommitTells };
}

/// The load by which a refused send gives its slot back.
pub struct HandBack;

impl Play<Option<Item>, View> for HandBack {
    ghost then = { HandBackTells };
}

/// The exchange of a release.
pub struct GiveUp;

impl Play<Option<Item>, View> for GiveUp {
    ghost then = { ReleaseTells };
}

/// The load of a meeting.
pub struct Meet;

impl Play<Option<Item>, View> for Meet {
    ghost then = { MeetTells };
}

/// A library leaves a seat, or comes into the engine's.
pub struct LibraryMoves;

impl Split<View> for LibraryMoves {
    ghost left = { without_first };

    ghost right = { first_alone };
}

impl Join<View> for LibraryMoves {
    ghost both = { with_first };

    ghost spent = { nobody };
}
