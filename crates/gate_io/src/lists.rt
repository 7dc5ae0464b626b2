//! Lists in the fields of public types: a contract sees a list where the code has a vector or a string.

ghost use Rattle.std.specs.Prelude.{◌≡◌, List, ℕ, string_bytes};

use std::marker::Model;

/// Bytes in a field of a public type. Contracts see the list of the bytes.
#[derive(Debug, Drop)]
pub struct Bytes {
    bytes: Vec<u8>,
}

impl Model for Bytes {
    ghost Value = { List ℕ };

    ghost view = { λ b. b.bytes.items };
}

impl Bytes {
    /// The vector's bytes, which are moved and not copied.
    pub fn of(bytes: Vec<u8>) -> Bytes
        ensures { result ≡ bytes.items }
    {
        Bytes { bytes }
    }

    pub fn as_slice(&self) -> &[u8]
        ensures { result.now ≡ self.now }
    {
        self.bytes.as_slice()
    }

    pub fn into_inner(self) -> Vec<u8>
        ensures { result.items ≡ self }
    {
        self.bytes
    }
}

/// A text in a field of a public type. Contracts see the list of its bytes.
#[derive(Debug, Drop)]
pub struct Label {
    text: String,
}

impl Model for Label {
    ghost Value = { List ℕ };

    ghost view = { λ l. string_bytes l.text };
}

impl Label {
    /// The string's text, which is moved and not copied.
    pub fn of(text: String) -> Label
        ensures { result ≡ string_bytes text }
    {
        Label { text }
    }

    pub fn as_str(&self) -> &str
        ensures { result.now ≡ self.now }
    {
        self.text.as_str()
    }

    pub fn into_inner(self) -> String
        ensures { string_bytes result ≡ self }
    {
        self.text
    }
}

/// Values in a field of a public type. Contracts see the list of the values.
#[derive(Debug, Drop)]
pub struct Rows<T> {
    rows: Vec<T>,
}

impl<T> Model for Rows<T> {
    ghost Value = { List T };

    ghost view = { λ r. r.rows.items };
}

impl<T> Rows<T> {
    /// The vector's values, which are moved and not copied.
    pub fn of(rows: Vec<T>) -> Rows<T>
        ensures { result ≡ rows.items }
    {
        Rows { rows }
    }

    pub fn as_slice(&self) -> &[T]
        ensures { result.now ≡ self.now }
    {
        self.rows.as_slice()
    }

    pub fn into_inner(self) -> Vec<T>
        ensures { result.items ≡ self }
    {
        self.rows
    }
}
