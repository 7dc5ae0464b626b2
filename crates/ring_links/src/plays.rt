//! What each step tells, and how views are cut and joined. These types are for proofs alone.
ghost use Rattle.ring_links.specs.Order.{LookTells, ClaimTells, PushTells, FetchTells, ReleaseTells, MeetingTells, tail_part, head_part, both_parts, nobody};

use crate::view::View;
use atomic_table::{Join, Play, Split};

/// The load of `room`.
pub struct Looks;

impl<T> Play<Option<T>, View<T>> for Looks {
    ghost then = { LookTells };
}

/// The load of a push.
pub struct Claims;

impl<T> Play<Option<T>, View<T>> for Claims {
    ghost then = { ClaimTells };
}

/// The store of a push.
pub struct Pushes;

impl<T> Play<Option<T>, View<T>> for Pushes {
    ghost then = { PushTells };
}

/// The load of a pop.
pub struct Fetches;

impl<T> Play<Option<T>, View<T>> for Fetches {
    ghost then = { FetchTells };
}

/// The store of a pop.
pub struct Releases;

impl<T> Play<Option<T>, View<T>> for Releases {
    ghost then = { ReleaseTells };
}

/// The load of a meeting.
pub struct Compares;

impl<T> Play<Option<T>, View<T>> for Compares {
    ghost then = { MeetingTells };
}

/// The head leaves a seat, or comes into the tail's.
pub struct HeadMoves;

impl<T> Split<View<T>> for HeadMoves {
    ghost left = { tail_part };

    ghost right = { head_part };
}

impl<T> Join<View<T>> for HeadMoves {
    ghost both = { both_parts };

    ghost spent = { nobody };
}
