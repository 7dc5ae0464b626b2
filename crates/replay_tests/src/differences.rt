//! Where two texts differ.

use std::fmt;

/// The first line at which a report isn't as expected. A text that ends before has no line there.
#[derive(Clone, Copy, Debug, Drop)]
pub(crate) struct Difference<'a> {
    /// Lines are counted from 1.
    line: usize,
    expected: Option<&'a str>,
    found: Option<&'a str>,
}

impl fmt::Display for Difference<'_> {
    fn fmt<W: fmt::Write>(&self, f: &mut fmt::Formatter<W>) -> fmt::Result {
        let Difference {
            line,
            expected,
            found,
        } = *self;
        let expected = expected.unwrap_or("no line");
        let found = found.unwrap_or("no line");
        write!(
            f,
            "differs at line {line}\n expected {expected}\n found    {found}"
        )
    }
}

/// Compares two texts, which aren't the same, line by line.
pub(crate) fn first_difference<'a>(expected: &'a str, found: &'a str) -> Difference<'a> {
    let pairs = expected.split('\n').zip(found.split('\n'));
    let same = pairs.take_while(|(one, other)| one == other).count();
    Difference {
        line: same.saturating_add(1),
        expected: expected.split('\n').nth(same),
        found: found.split('\n').nth(same),
    }
}
