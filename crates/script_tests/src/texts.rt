//! Bytes as they are printed, and faults in words.

use crate::checks::same;
use gate_io::Bytes;
use script_text::{ScriptError, ScriptKind, push_printed, read_text};
use std::test::Fail;

#[test]
fn texts_are_read_and_printed(rt: HostRuntime) -> Result<(), Fail> {
    let cases: [(&[u8], &[u8]); 5] = [
        (b"35=D|11=a|", b"35=D\x0111=a\x01"),
        (b"\\7c\\5c", b"|\\"),
        (b"\\00\\0a\\1f~\\7f\\80\\ff", b"\x00\n\x1f~\x7f\x80\xff"),
        (b" a  b ", b" a  b "),
        (b"", b""),
    ];
    for (text, bytes) in cases {
        let meant = read_text(rt.alloc(), text)?.map(Bytes::into_inner);
        same(&rt, &meant.ok_or("no text")?.as_slice(), &bytes);
        let mut out = Vec::new(rt.alloc());
        push_printed(&mut out, bytes)?;
        same(&rt, &out.as_slice(), &text);
    }
    for text in [b"\\".as_slice(), b"\\7", b"\\7C", b"\\g0", b"a\\|"] {
        assert!(rt; read_text(rt.alloc(), text)?.is_none());
    }
    // An escape may stand for a byte that needs none.
    let meant = read_text(rt.alloc(), b"\\41\\01")?.map(Bytes::into_inner);
    same(
        &rt,
        &meant.ok_or("no text")?.as_slice(),
        &b"A\x01".as_slice(),
    );
    Ok(())
}

#[test]
fn kinds_are_printed_in_words(rt: HostRuntime) -> Result<(), Fail> {
    let error = ScriptError::Fault {
        line: 3,
        kind: ScriptKind::UnknownWord,
    };
    same(
        &rt,
        &format!(in rt.alloc(); "{error}")?.as_str(),
        &"script line 3: unknown word",
    );
    Ok(())
}
