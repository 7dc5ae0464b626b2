//! Which bodies an application may send.

ghost use Rattle.std.specs.Prelude.{◌≡◌, ◌==◌, OnOk, IfErr};
ghost use Rattle.std.specs.List.{list_any};
ghost use Rattle.fix_frame.specs.Frame.{IsBody};
ghost use Rattle.fix_fields.specs.Fit.{unfit_at, unfit_with, is_fit_at, is_session_type, gateway_tags};

use crate::entry::Entry;
use crate::reading::next_field;

/// Whether a body may be sent for an application: its fields can be read, the first is MsgType (35)
/// of no session message (0 to 5 and A), and no later field is one that the gateway writes itself
/// (8, 9, 10, 34, 35, 43, 49, 52, 56 and 122). `Err` has the place of the first fault of reading,
/// or else the place where the first field begins that isn't fit; for an empty body 0.
pub fn check_body(body: &[u8]) -> Result<(), usize>
    ensures ok { OnOk result (unfit_at body.now ≡ None) }
    // What is fit can be put into a frame.
    ensures body { OnOk result (IsBody body.now) }
    ensures err { IfErr result (λ at. unfit_at body.now ≡ Some at) }
{
    if body.is_empty() {
        return Err(0);
    }
    let mut unfit = None;
    let mut before = Entry::none();
    let mut rest = body;
    while !rest.is_empty() {
        let place = body.len() - rest.len();
        let Ok((entry, after)) = next_field(rest, &before) else {
            return Err(place);
        };
        unfit = first_unfit(unfit, &entry, place);
        before = entry;
        rest = after;
    }
    match unfit {
        Some(place) => Err(place),
        None => Ok(()),
    }
}

/// Where the first field begins that isn't fit, of those before the place and of the one there.
fn first_unfit(so_far: Option<usize>, entry: &Entry<'_>, place: usize) -> Option<usize>
    ensures { result ≡ unfit_with so_far place entry.now }
{
    match so_far {
        Some(at) => Some(at),
        None if is_fit(entry, place) => None,
        None => Some(place),
    }
}

/// Whether the field that begins at this place may stand there.
fn is_fit(entry: &Entry<'_>, place: usize) -> bool
    ensures { result ≡ is_fit_at place entry.now }
{
    if place == 0 {
        entry.tag() == 35 && !is_session_type(entry.value())
    } else {
        !is_gateway_tag(entry.tag())
    }
}

/// Whether a MsgType (35) is that of one of the seven session messages: 0 to 5 and A.
pub fn is_session_type(value: &[u8]) -> bool
    ensures { result ≡ is_session_type value.now }
{
    matches!(value, [b'0'..=b'5' | b'A'])
}

/// Whether the gateway itself writes the fields of this tag.
fn is_gateway_tag(tag: u32) -> bool
    ensures { result ≡ list_any (λ other. tag == other) gateway_tags }
{
    matches!(tag, 8 | 9 | 10 | 34 | 35 | 43 | 49 | 52 | 56 | 122)
}
