//! An entry as the numbers of its record.

ghost use Rattle.std.specs.Prelude.{◌≡◌, ◌%◌, ◌^◌, Some, IfSome};
ghost use Rattle.lease_core.specs.declared.entry.Entry.{Entry};
ghost use Rattle.durable_journal.specs.Numbers.{numbers_of, refusal_numbers, HasTypes, WhyHasTypes, HasMoment, low_8, low_16, low_32, why_like, entry_like};

use lease_core::{Entry, Why};

/// The kind of an entry, and its five numbers. Those that the kind doesn't have are 0.
#[derive(Clone, Copy, Debug, PartialEq, Eq)]
pub(crate) struct Numbers {
    pub(crate) kind: u8,
    pub(crate) a: u64,
    pub(crate) b: u64,
    pub(crate) c: u64,
    pub(crate) d: u64,
    pub(crate) e: u64,
}

impl Numbers {
    /// Those of a kind that has no number.
    const NONE: Numbers = Numbers {
        kind: 0,
        a: 0,
        b: 0,
        c: 0,
        d: 0,
        e: 0,
    };
}

/// The numbers that an entry's record has.
pub(crate) fn numbers_of(entry: Entry) -> Numbers
    ensures numbers { result ≡ numbers_of entry }
    ensures types { HasTypes entry }
{
    match entry {
        Entry::Arrive { pos } => one(1, pos),
        Entry::Admin { number } => one(2, number),
        Entry::Bind { c } => one(3, u64::from(c)),
        Entry::Plan { begin, last, .. } => Numbers {
            b: last,
            ..one(4, begin)
        },
        Entry::Leave { c } => one(5, u64::from(c)),
        Entry::Granted {
            library,
            nr,
            lease,
            from,
            start,
        } => Numbers {
            kind: 6,
            a: u64::from(library),
            b: u64::from(nr),
            c: u64::from(lease),
            d: from,
            e: start,
        },
        Entry::Refused { library, nr, why } => refusal_numbers(library, nr, why),
        Entry::Send {
            lease,
            library,
            ordinal,
            number,
        } => Numbers {
            d: number,
            ..by_lease(8, lease, library, ordinal)
        },
        Entry::Release {
            lease,
            library,
            count,
            heir,
        } => Numbers {
            d: u64::from(heir),
            ..by_lease(9, lease, library, count)
        },
        Entry::Timeout {
            lease,
            library,
            count,
        } => by_lease(10, lease, library, count),
        Entry::Hold { lease, until } => Numbers {
            b: until,
            ..one(11, u64::from(lease))
        },
        Entry::Lapse { lease } => one(12, u64::from(lease)),
        Entry::Reset { series } => one(13, u64::from(series)),
    }
}

fn one(kind: u8, a: u64) -> Numbers
    ensures { result ≡ record { kind = kind; a = a; b = 0; c = 0; d = 0; e = 0 } }
{
    Numbers {
        kind,
        a,
        ..Numbers::NONE
    }
}

fn by_lease(kind: u8, lease: u32, library: u8, count: u32) -> Numbers
    ensures { result ≡ record { kind = kind; a = lease; b = library; c = count; d = 0; e = 0 } }
{
    Numbers {
        kind,
        a: u64::from(lease),
        b: u64::from(library),
        c: u64::from(count),
        ..Numbers::NONE
    }
}

fn refusal_numbers(library: u8, nr: u32, why: Why) -> Numbers
    ensures numbers { result ≡ refusal_numbers library nr why }
    ensures types { WhyHasTypes why }
{
    let (c, d, e) = match why {
        Why::UnknownSession { s } => (0, u64::from(s), 0),
        Why::OtherOwner { owner, lease } => (1, u64::from(owner), u64::from(lease)),
        Why::Reserved { for_library, until } => (2, u64::from(for_library), until),
        Why::LeasesSpent { lease } => (3, u64::from(lease), 0),
        Why::MissingMessages { asked, logged } => (4, asked, logged),
    };
    Numbers {
        kind: 7,
        a: u64::from(library),
        b: u64::from(nr),
        c,
        d,
        e,
    }
}

/// The entry that has these numbers, in a record with this moment.
#[tactic(auto, using(crate::proofs::Likes::like_by))]
pub(crate) fn entry_of(numbers: Numbers, at: u64) -> Option<Entry>
    ensures found { IfSome result (λ entry. numbers_of entry ≡ numbers) }
    ensures moment { IfSome result (λ entry. HasMoment at entry) }
    ensures types { IfSome result (λ entry. HasTypes entry) }
    ensures only { (entry : Entry) → HasTypes entry → HasMoment at entry → numbers_of entry ≡ numbers → result ≡ Some entry }
{
    let entry = entry_like(numbers, at)?;
    if numbers_of(entry) == numbers {
        Some(entry)
    } else {
        None
    }
}

/// The one entry that may have these numbers: each is cut to the size that the kind's has.
#[tactic(auto, unfolding(crate::specs::Numbers::entry_like))]
fn entry_like(n: Numbers, at: u64) -> Option<Entry>
    ensures like { result ≡ entry_like n at }
    ensures moment { IfSome result (λ entry. HasMoment at entry) }
{
    Some(match n.kind {
        1 => Entry::Arrive { pos: n.a },
        2 => Entry::Admin { number: n.a },
        3 => Entry::Bind { c: low_32(n.a) },
        4 => Entry::Plan {
            begin: n.a,
            last: n.b,
            at,
        },
        5 => Entry::Leave { c: low_32(n.a) },
        6 => Entry::Granted {
            library: low_8(n.a),
            nr: low_32(n.b),
            lease: low_32(n.c),
            from: n.d,
            start: n.e,
        },
        7 => Entry::Refused {
            library: low_8(n.a),
            nr: low_32(n.b),
            why: why_like(n)?,
        },
        8 => Entry::Send {
            lease: low_32(n.a),
            library: low_8(n.b),
            ordinal: low_32(n.c),
            number: n.d,
        },
        9 => Entry::Release {
            lease: low_32(n.a),
            library: low_8(n.b),
            count: low_32(n.c),
            heir: low_8(n.d),
        },
        10 => Entry::Timeout {
            lease: low_32(n.a),
            library: low_8(n.b),
            count: low_32(n.c),
        },
        11 => Entry::Hold {
            lease: low_32(n.a),
            until: n.b,
        },
        12 => Entry::Lapse { lease: low_32(n.a) },
        13 => Entry::Reset {
            series: low_32(n.a),
        },
        _ => return None,
    })
}

fn why_like(n: Numbers) -> Option<Why>
    ensures { result ≡ why_like n }
{
    match n.c {
        0 => Some(Why::UnknownSession { s: low_16(n.d) }),
        1 => Some(Why::OtherOwner {
            owner: low_8(n.d),
            lease: low_32(n.e),
        }),
        2 => Some(Why::Reserved {
            for_library: low_8(n.d),
            until: n.e,
        }),
        3 => Some(Why::LeasesSpent { lease: low_32(n.d) }),
        4 => Some(Why::MissingMessages {
            asked: n.d,
            logged: n.e,
        }),
        _ => None,
    }
}

fn low_8(n: u64) -> u8
    ensures { result ≡ low_8 n }
{
    (n % 256) as u8
}

fn low_16(n: u64) -> u16
    ensures { result ≡ low_16 n }
{
    (n % 65_536) as u16
}

fn low_32(n: u64) -> u32
    ensures { result ≡ low_32 n }
{
    (n % 4_294_967_296) as u32
}
