//! What a reading of a script answers.

use script_text::{ScriptError, ScriptKind, read_script};

/// The error of a text, as a script for `serve` or else for `replay`.
pub(crate) fn error_of(rt: &HostRuntime, text: &[u8], serving: bool) -> Option<ScriptError> {
    read_script(rt.alloc(), text, serving).err()
}

pub(crate) fn fault(line: u32, kind: ScriptKind) -> Option<ScriptError> {
    Some(ScriptError::Fault { line, kind })
}
