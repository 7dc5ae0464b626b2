//! Whether a body is that of a session message: the one message that it may be of is read out of
//! it, and then its own body is compared.

ghost use Rattle.std.specs.Prelude.{◌≡◌, ◌<◌, ◌^◌, ◌↔◌, ◌++◌, ◌∷◌, ℕ, Bool, List, [], false, Some, None, codes, decimal, IsTrue, IfOk, IfSome, IfNone};
ghost use Rattle.session_core.specs.declared.acts.Admin.{Admin};
ghost use Rattle.fix_fields.specs.Field.{has_soh};
ghost use Rattle.durable_journal.specs.Records.{IsAdminBody, IsPlain, IsPlainAdmin, IsShortText};
ghost use Rattle.durable_journal.specs.Admins.{HoldsOfSome, IsTextOf, NamesReject, logon_rest, text_rest, resend_rest, reject_rest, kind_rest, reason_rest, IsNamedAs};

use crate::limits::LONGEST_TEXT;
use fix_fields::laws::{numbers_read_again, texts_are_plain};
use fix_fields::read_number;
use gate_io::{Bytes, NoMemory};
use session_core::{Admin, admin_body};
use std::alloc::Global;

/// The byte that ends a field.
const SOH: u8 = 1;

/// A message type that a Reject doesn't name.
const LONG_KIND: &[u8] = b"a type with more than thirty-two bytes";

/// Whether a body is that of a session message that was sent under this number.
pub(crate) fn is_admin_body(alloc: Global, number: u64, body: &[u8]) -> Result<bool, NoMemory>
    ensures { IfOk result (λ is. IsTrue is ↔ IsAdminBody number body.now) }
{
    let Some(admin) = admin_like(alloc, body)? else {
        return Ok(false);
    };
    let text = admin_body(alloc, &admin, number)?;
    Ok(text.as_slice() == body)
}

/// The one session message of which the body may be.
fn admin_like(alloc: Global, body: &[u8]) -> Result<Option<Admin>, NoMemory>
    ensures plain { IfOk result (λ found. IfSome found IsPlainAdmin) }
    ensures only { IfOk result (IsTextOf body.now) }
{
    let Some((kind, rest)) = split_type(body) else {
        return Ok(None);
    };
    match kind {
        b'A' => Ok(logon_like(rest)),
        b'0' => heartbeat_like(alloc, rest),
        b'1' => Ok(Some(Admin::TestRequest)),
        b'2' => Ok(resend_like(rest)),
        b'3' => reject_like(alloc, rest),
        b'5' => logout_like(alloc, rest),
        _ => Ok(None),
    }
}

/// A message type (35) of one byte at the front, and what stands behind it.
fn split_type(body: &[u8]) -> Option<(u8, &[u8])>
    ensures found { IfSome result (λ f. body.now ≡ 51 ∷ 53 ∷ 61 ∷ f.0 ∷ 1 ∷ f.1.now) }
    ensures none { IfNone result ((kind : ℕ) (rest : List ℕ) → body.now ≡ 51 ∷ 53 ∷ 61 ∷ kind ∷ 1 ∷ rest → ⊥) }
{
    match body {
        [b'3', b'5', b'=', kind, SOH, rest @ ..] => Some((*kind, rest)),
        _ => None,
    }
}

fn logon_like(rest: &[u8]) -> Option<Admin>
    ensures plain { IfSome result IsPlainAdmin }
    ensures only { (heart : ℕ) (reset : Bool) → heart < 2 ^ 32 → rest.now ≡ logon_rest heart reset → result ≡ Some (Admin.Logon heart reset) }
{
    let rest = strip(rest, b"98=0\x01108=")?;
    let (heart, rest) = number(rest)?;
    Some(Admin::Logon {
        heart,
        reset: !rest.is_empty(),
    })
}

fn heartbeat_like(alloc: Global, rest: &[u8]) -> Result<Option<Admin>, NoMemory>
    ensures plain { IfOk result (λ found. IfSome found IsPlainAdmin) }
    ensures none { IfOk result (λ found. rest.now ≡ [] → found ≡ Some (Admin.Heartbeat None)) }
    ensures some { IfOk result (λ found. (test : List ℕ) → IsShortText test → rest.now ≡ text_rest (codes "112=") (Some test) → found ≡ Some (Admin.Heartbeat (Some test))) }
{
    if rest.is_empty() {
        return Ok(Some(Admin::Heartbeat { test: None }));
    }
    let Some(test) = text(alloc, rest, b"112=")? else {
        return Ok(None);
    };
    Ok(Some(Admin::Heartbeat { test: Some(test) }))
}

fn logout_like(alloc: Global, rest: &[u8]) -> Result<Option<Admin>, NoMemory>
    ensures plain { IfOk result (λ found. IfSome found IsPlainAdmin) }
    ensures none { IfOk result (λ found. rest.now ≡ [] → found ≡ Some (Admin.Logout None)) }
    ensures some { IfOk result (λ found. (said : List ℕ) → IsShortText said → rest.now ≡ text_rest (codes "58=") (Some said) → found ≡ Some (Admin.Logout (Some said))) }
{
    if rest.is_empty() {
        return Ok(Some(Admin::Logout { text: None }));
    }
    let Some(said) = text(alloc, rest, b"58=")? else {
        return Ok(None);
    };
    Ok(Some(Admin::Logout { text: Some(said) }))
}

fn resend_like(rest: &[u8]) -> Option<Admin>
    ensures plain { IfSome result IsPlainAdmin }
    ensures only { (begin last : ℕ) → begin < 2 ^ 32 → last < 2 ^ 32 → rest.now ≡ resend_rest begin last → result ≡ Some (Admin.ResendRequest begin last) }
{
    let rest = strip(rest, b"7=")?;
    let (begin, rest) = number(rest)?;
    let rest = strip(rest, b"16=")?;
    let (last, _) = number(rest)?;
    Some(Admin::ResendRequest { begin, last })
}

fn reject_like(alloc: Global, rest: &[u8]) -> Result<Option<Admin>, NoMemory>
    ensures plain { IfOk result (λ found. IfSome found IsPlainAdmin) }
    ensures only { IfOk result (λ found. (seq tag : ℕ) (kind : List ℕ) (reason : ℕ) → seq < 2 ^ 32 → tag < 2 ^ 32 → IsPlain kind → reason < 2 ^ 8 → rest.now ≡ reject_rest seq tag kind reason → HoldsOfSome found (NamesReject seq tag kind reason)) }
{
    let Some((seq, tag, rest)) = reject_numbers(rest) else {
        return Ok(None);
    };
    let Some((kind, reason)) = reject_kind(rest) else {
        return Ok(None);
    };
    Ok(Some(Admin::Reject {
        seq,
        tag,
        kind: Bytes::of(kind.to_vec(alloc)?),
        reason,
    }))
}

/// The number of a rejected message, the tag, and what stands behind them.
fn reject_numbers(rest: &[u8]) -> Option<(u32, u32, &[u8])>
    ensures { (seq tag : ℕ) (more : List ℕ) → seq < 2 ^ 32 → tag < 2 ^ 32 → rest.now ≡ codes "45=" ++ (decimal seq ++ 1 ∷ (codes "371=" ++ (decimal tag ++ 1 ∷ more))) → HoldsOfSome result (λ f. (f.0 ≡ seq) × (f.1 ≡ tag) × (f.2.now ≡ more)) }
{
    let rest = strip(rest, b"45=")?;
    let (seq, rest) = number(rest)?;
    let rest = strip(rest, b"371=")?;
    let (tag, rest) = number(rest)?;
    Some((seq, tag, rest))
}

/// The type of a rejected message, or a long one where it isn't named, and the reason.
fn reject_kind(rest: &[u8]) -> Option<(&[u8], u8)>
    ensures plain { IfSome result (λ f. IsPlain f.0.now) }
    ensures only { (kind : List ℕ) (reason : ℕ) → IsPlain kind → reason < 2 ^ 8 → rest.now ≡ kind_rest kind reason → HoldsOfSome result (λ f. (kind_rest f.0.now f.1 ≡ kind_rest kind reason)) }
{
    let (kind, behind) = split_kind(rest)?;
    let behind = strip(behind, b"373=")?;
    let (reason, _) = number(behind)?;
    if reason > 255 {
        return None;
    }
    Some((kind, reason as u8))
}

/// The type of a rejected message, or a long one where it isn't named, and what stands behind it.
fn split_kind(rest: &[u8]) -> Option<(&[u8], &[u8])>
    ensures plain { IfSome result (λ f. IsPlain f.0.now) }
    ensures only { (kind : List ℕ) (reason : ℕ) → IsPlain kind → rest.now ≡ kind_rest kind reason → HoldsOfSome result (λ f. (f.1.now ≡ reason_rest reason) × IsNamedAs kind f.0.now) }
{
    let Some(named) = strip(rest, b"372=") else {
        return Some((LONG_KIND, rest));
    };
    let (kind, behind) = value(named)?;
    if kind.is_empty() {
        return None;
    }
    Some((kind, behind))
}

/// The text of the one field with this tag, whose `=` is handed in with it.
fn text(alloc: Global, rest: &[u8], tag: &[u8]) -> Result<Option<Bytes>, NoMemory>
    ensures plain { IfOk result (λ found. IfSome found IsShortText) }
    ensures only { IfOk result (λ found. (said : List ℕ) → IsShortText said → rest.now ≡ tag.now ++ (said ++ 1 ∷ []) → found ≡ Some said) }
{
    let Some(rest) = strip(rest, tag) else {
        return Ok(None);
    };
    match value(rest) {
        Some((said, _)) if !said.is_empty() && said.len() <= LONGEST_TEXT => {
            Ok(Some(Bytes::of(said.to_vec(alloc)?)))
        }
        _ => Ok(None),
    }
}

/// What stands behind a prefix, where it is one.
#[tactic(auto, using(crate::proofs::Sessions::prefix_long, crate::proofs::Sessions::prefix_taken, crate::proofs::Sessions::prefix_dropped))]
fn strip<'a>(bytes: &'a [u8], prefix: &[u8]) -> Option<&'a [u8]>
    ensures found { IfSome result (λ rest. bytes.now ≡ prefix.now ++ rest.now) }
    ensures only { (more : List ℕ) → bytes.now ≡ prefix.now ++ more → HoldsOfSome result (λ rest. rest.now ≡ more) }
{
    let len = prefix.len();
    if bytes.len() < len {
        return None;
    }
    if bytes[..len] != prefix[..] {
        return None;
    }
    Some(&bytes[len..])
}

/// The number that stands before the next SOH, and what stands behind that.
fn number(bytes: &[u8]) -> Option<(u32, &[u8])>
    ensures range { IfSome result (λ f. f.0 < 2 ^ 32) }
    ensures only { (n : ℕ) (more : List ℕ) → n < 2 ^ 32 → bytes.now ≡ decimal n ++ 1 ∷ more → HoldsOfSome result (λ f. (f.0 ≡ n) × (f.1.now ≡ more)) }
{
    numbers_read_again();
    texts_are_plain();
    let (text, rest) = value(bytes)?;
    Some((read_number(text)?, rest))
}

/// What stands before the next SOH, and what behind it.
fn value(bytes: &[u8]) -> Option<(&[u8], &[u8])>
    ensures plain { IfSome result (λ f. has_soh f.0.now ≡ false) }
    ensures only { (text more : List ℕ) → has_soh text ≡ false → bytes.now ≡ text ++ 1 ∷ more → HoldsOfSome result (λ f. (f.0.now ≡ text) × (f.1.now ≡ more)) }
{
    for i in 0..bytes.len() {
        if bytes[i] == SOH {
            return Some((&bytes[..i], &bytes[i + 1..]));
        }
    }
    None
}
