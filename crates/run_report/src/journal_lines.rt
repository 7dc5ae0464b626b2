//! The lines of a session's journal.

ghost use Rattle.std.specs.Prelude.{◌≡◌, ◌++◌, [], ◌∷◌, OnOk, codes, decimal};
ghost use Rattle.std.specs.List.{flat_map};
ghost use Rattle.run_report.specs.Journals.{entry_words, granted_words, holding_words, refused_words, release_words, why_words};
ghost use Rattle.run_report.specs.Lines.{indented_line};
ghost use Rattle.run_report.specs.Sessions.{entry_line, holding_line};

use crate::words::ReportWord::{Number, Stamp, Word};
use crate::words::{put_indented, put_named, put_spaced};
use gate_io::NoMemory;
use lease_core::{Entry, Holding, Why};

/// The entries of a journal.
pub fn put_entries(out: &mut Vec<u8>, entries: &[Entry]) -> Result<(), NoMemory>
    ensures { OnOk result (out.new.items ≡ out.old.items ++ flat_map entry_line entries.now) }
{
    for entry in entries {
        put_entry(out, entry)?;
    }
    Ok(())
}

/// The holdings that follow from a journal.
pub fn put_holdings(out: &mut Vec<u8>, holdings: &[Holding]) -> Result<(), NoMemory>
    ensures { OnOk result (out.new.items ≡ out.old.items ++ flat_map holding_line holdings.now) }
{
    for holding in holdings {
        put_holding(out, holding)?;
    }
    Ok(())
}

#[tactic(auto, unfolding(crate::specs::Journals::entry_words))]
fn put_entry(out: &mut Vec<u8>, entry: &Entry) -> Result<(), NoMemory>
    ensures { OnOk result (out.new.items ≡ out.old.items ++ entry_line entry.now) }
{
    match *entry {
        Entry::Arrive { pos } => put_named(out, "arrive", &[Number(pos)]),
        Entry::Admin { number } => put_named(out, "admin", &[Number(number)]),
        Entry::Bind { c } => put_named(out, "bind", &[Number(u64::from(c))]),
        Entry::Plan { begin, last, at } => {
            put_named(out, "plan", &[Number(begin), Number(last), Stamp(at)])
        }
        Entry::Leave { c } => put_named(out, "leave", &[Number(u64::from(c))]),
        Entry::Reset { series } => put_named(out, "reset", &[Number(u64::from(series))]),
        Entry::Granted {
            library,
            nr,
            lease,
            from,
            start,
        } => put_granted(out, u64::from(library), u64::from(nr), lease, from, start),
        Entry::Refused { library, nr, why } => {
            put_refused(out, u64::from(library), u64::from(nr), &why)
        }
        Entry::Send {
            lease,
            library,
            ordinal,
            number,
        } => put_send(out, lease, library, ordinal, number),
        Entry::Release {
            lease,
            library,
            count,
            heir,
        } => put_release(out, lease, library, count, heir),
        Entry::Timeout {
            lease,
            library,
            count,
        } => put_ended(out, "timeout", lease, library, count),
        Entry::Hold { lease, until } => {
            put_named(out, "hold", &[Number(u64::from(lease)), Stamp(until)])
        }
        Entry::Lapse { lease } => put_named(out, "lapse", &[Number(u64::from(lease))]),
    }
}

/// A lease that was given: to a library by its request, or to a request by its session.
#[tactic(auto, unfolding(crate::specs::Journals::granted_words))]
pub fn put_granted(
    out: &mut Vec<u8>,
    first: u64,
    second: u64,
    lease: u32,
    from: u64,
    start: u64,
) -> Result<(), NoMemory>
    ensures { OnOk result (out.new.items ≡ out.old.items ++ indented_line (granted_words first second lease from start)) }
{
    put_indented(
        out,
        &[
            Word("granted"),
            Number(first),
            Number(second),
            Word("lease"),
            Number(u64::from(lease)),
            Word("from"),
            Number(from),
            Word("start"),
            Number(start),
        ],
    )
}

/// A lease that was refused, with the cause.
#[tactic(auto, unfolding(crate::specs::Journals::refused_words))]
pub fn put_refused(out: &mut Vec<u8>, first: u64, second: u64, why: &Why) -> Result<(), NoMemory>
    ensures { OnOk result (out.new.items ≡ out.old.items ++ indented_line (refused_words first second why.now)) }
{
    put_spaced(out, &[Word("refused"), Number(first), Number(second)])?;
    put_why(out, why)
}

#[tactic(auto, unfolding(crate::specs::Journals::why_words))]
fn put_why(out: &mut Vec<u8>, why: &Why) -> Result<(), NoMemory>
    ensures { OnOk result (out.new.items ≡ out.old.items ++ indented_line (why_words why.now)) }
{
    match *why {
        Why::UnknownSession { s } => { put_named(out, "unknown-session", &[Number(u64::from(s))]) }
        Why::OtherOwner { owner, lease } => put_named(
            out,
            "other-owner",
            &[Number(u64::from(owner)), Number(u64::from(lease))],
        ),
        Why::Reserved { for_library, until } => put_named(
            out,
            "reserved",
            &[Number(u64::from(for_library)), Stamp(until)],
        ),
        Why::LeasesSpent { lease } => {
            put_named(out, "leases-spent", &[Number(u64::from(lease))])
        }
        Why::MissingMessages { asked, logged } => {
            put_named(out, "missing-messages", &[Number(asked), Number(logged)])
        }
    }
}

fn put_send(
    out: &mut Vec<u8>,
    lease: u32,
    library: u8,
    ordinal: u32,
    number: u64,
) -> Result<(), NoMemory>
    ensures { OnOk result (out.new.items ≡ out.old.items ++ indented_line (codes "send" ∷ decimal lease ∷ decimal library ∷ decimal ordinal ∷ decimal number ∷ [])) }
{
    put_named(
        out,
        "send",
        &[
            Number(u64::from(lease)),
            Number(u64::from(library)),
            Number(u64::from(ordinal)),
            Number(number),
        ],
    )
}

/// A lease that was given back, with its heir where it has one.
#[tactic(auto, unfolding(crate::specs::Journals::release_words))]
fn put_release(
    out: &mut Vec<u8>,
    lease: u32,
    library: u8,
    count: u32,
    heir: u8,
) -> Result<(), NoMemory>
    ensures { OnOk result (out.new.items ≡ out.old.items ++ indented_line (release_words lease library count heir)) }
{
    if heir == 0 {
        put_ended(out, "release", lease, library, count)
    } else {
        put_named(
            out,
            "hand",
            &[
                Number(u64::from(lease)),
                Number(u64::from(library)),
                Number(u64::from(count)),
                Number(u64::from(heir)),
            ],
        )
    }
}

/// How a lease ended, with the count of its sends.
fn put_ended(
    out: &mut Vec<u8>,
    how: &str,
    lease: u32,
    library: u8,
    count: u32,
) -> Result<(), NoMemory>
    ensures { OnOk result (out.new.items ≡ out.old.items ++ indented_line (how.now ∷ decimal lease ∷ decimal library ∷ decimal count ∷ [])) }
{
    put_named(
        out,
        how,
        &[
            Number(u64::from(lease)),
            Number(u64::from(library)),
            Number(u64::from(count)),
        ],
    )
}

#[tactic(auto, unfolding(crate::specs::Journals::holding_words))]
fn put_holding(out: &mut Vec<u8>, holding: &Holding) -> Result<(), NoMemory>
    ensures { OnOk result (out.new.items ≡ out.old.items ++ holding_line holding.now) }
{
    put_indented(
        out,
        &[
            Word("holding"),
            Number(u64::from(holding.library)),
            Number(u64::from(holding.lease)),
            Word("from"),
            Number(holding.from),
            Word("start"),
            Number(holding.start),
            Word("end"),
            Number(holding.end),
            Word("sends"),
            Number(u64::from(holding.sends)),
        ],
    )
}
