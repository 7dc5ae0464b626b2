//! Lines of the report: words with one space before each.

ghost use Rattle.std.specs.Prelude.{◌≡◌, ◌∷◌, ◌++◌, OnOk, map};
ghost use Rattle.run_report.specs.Lines.{word_text, spaced_words, indented_line, line};

use fix_fields::stamp_text;
use gate_io::{LAST_MOMENT, NoMemory};
use itoa::Buffer;
use script_text::push_printed;

/// A word of a line.
#[derive(Clone, Copy, Debug)]
pub enum ReportWord<'a> {
    Word(&'a str),
    Number(u64),
    /// A moment, in milliseconds since 1970-01-01.
    Stamp(u64),
    /// Bytes as they are printed.
    Printed(&'a [u8]),
}

/// A line that begins with a word.
pub fn put_line(out: &mut Vec<u8>, head: &str, words: &[ReportWord<'_>]) -> Result<(), NoMemory>
    ensures { OnOk result (out.new.items ≡ out.old.items ++ line head.now (map word_text words.now)) }
{
    out.extend_from_slice(head.as_bytes())?;
    put_indented(out, words)
}

/// A line that begins with a space, or the rest of one.
pub fn put_indented(out: &mut Vec<u8>, words: &[ReportWord<'_>]) -> Result<(), NoMemory>
    ensures { OnOk result (out.new.items ≡ out.old.items ++ indented_line (map word_text words.now)) }
{
    put_spaced(out, words)?;
    out.push(b'\n')?;
    Ok(())
}

/// A line that begins with a space and a word, or the rest of one.
pub fn put_named(out: &mut Vec<u8>, name: &str, words: &[ReportWord<'_>]) -> Result<(), NoMemory>
    ensures { OnOk result (out.new.items ≡ out.old.items ++ indented_line (name.now ∷ map word_text words.now)) }
{
    put_spaced(out, &[ReportWord::Word(name)])?;
    put_indented(out, words)
}

/// Words with a space before each.
pub fn put_spaced(out: &mut Vec<u8>, words: &[ReportWord<'_>]) -> Result<(), NoMemory>
    ensures { OnOk result (out.new.items ≡ out.old.items ++ spaced_words (map word_text words.now)) }
{
    for word in words {
        out.push(b' ')?;
        put_word(out, word)?;
    }
    Ok(())
}

fn put_word(out: &mut Vec<u8>, word: &ReportWord<'_>) -> Result<(), NoMemory>
    ensures { OnOk result (out.new.items ≡ out.old.items ++ word_text word.now) }
{
    match word {
        ReportWord::Word(text) => out.extend_from_slice(text.as_bytes())?,
        ReportWord::Number(n) => out.extend_from_slice(Buffer::new().format(*n).as_bytes())?,
        ReportWord::Stamp(ms) => out.extend_from_slice(&stamp_text((*ms).min(LAST_MOMENT)))?,
        ReportWord::Printed(bytes) => push_printed(out, bytes)?,
    }
    Ok(())
}
