//! Where a text is cut into lines, and the line of a call into the call and its answer.

ghost use Rattle.std.specs.Prelude.{◌≡◌, ◌<◌, length, [], IfSome, IfNone};
ghost use Rattle.journal_audit.specs.Cut.{cut_of, with_line, lent_parts, at_last_colon};

/// The first line, and what stands behind its LF. A line is what an LF ends.
pub(crate) fn split_line(text: &[u8]) -> Option<(&[u8], &[u8])>
    ensures line { IfSome result (λ p. cut_of text.now ≡ with_line p.0.now (cut_of p.1.now)) }
    ensures shorter { IfSome result (λ p. length p.1.now < length text.now) }
    ensures none { IfNone result ((cut_of text.now).lines ≡ []) }
{
    match memchr::memchr(b'\n', text) {
        Some(i) => Some((&text[..i], &text[i + 1..])),
        None => None,
    }
}

/// What stands before the last colon, and what stands behind it.
pub(crate) fn split_last_colon(text: &[u8]) -> Option<(&[u8], &[u8])>
    ensures { lent_parts result ≡ at_last_colon text.now }
{
    match memchr::memrchr(b':', text) {
        Some(i) => Some((&text[..i], &text[i + 1..])),
        None => None,
    }
}
