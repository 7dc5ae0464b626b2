//! Texts in which `|` stands for SOH, and the moment at which a session's day begins.

/// 2026-01-05 09:30:00.000
pub const MORNING: u64 = 1_767_605_400_000;

/// Whether the bytes are those of the text.
pub fn is_text(bytes: &[u8], text: &str) -> bool {
    let wanted = text.as_bytes();
    if bytes.len() != wanted.len() {
        return false;
    }
    for i in 0..bytes.len() {
        let shown = if bytes[i] == 1 { b'|' } else { bytes[i] };
        if shown != wanted[i] {
            return false;
        }
    }
    true
}
