//! Texts that contracts see as their bytes.

ghost use Rattle.std.specs.Prelude.{◌≡◌, ◌↔◌, IsTrue, map, string_bytes};
ghost use Rattle.std.specs.Cmp.Rules.{comparing};
ghost use Rattle.std.specs.Cmp.Lexicographic.{pointwise};
ghost use Rattle.std.specs.Str.{bytes_eq};
ghost use Rattle.std.proofs.Common.{rules};

use std::marker::Model;

/// A line, without its newline. Contracts see its bytes.
#[derive(Drop)]
pub struct Line {
    text: String,
}

impl Model for Line {
    ghost use Rattle.std.specs.Prelude.{ℕ, List, string_bytes};

    ghost Value = { List ℕ };

    ghost view = { λ l. string_bytes l.text };
}

impl Line {
    /// A line with that text. `write` requires that a line is not empty and contains no newline.
    pub fn new(text: String) -> Self
        ensures { result ≡ string_bytes text }
    {
        Self { text }
    }

    /// The text of the line.
    pub fn as_str(&self) -> &str
        ensures { result.now ≡ self.now }
    {
        self.text.as_str()
    }

    /// The text of the line, without a copy.
    ///
    /// ```text
    /// read(alloc, text)?.origin.into_string()   // "ex", if the first line of the text is `ex`
    /// ```
    pub fn into_string(self) -> String
        ensures { string_bytes result ≡ self }
    {
        let Line { text } = self;
        text
    }
}

impl PartialEq for Line {
    ghost eq = { bytes_eq };

    ghost laws = { Prim.search (comparing, rules) };

    fn eq(&self, other: &Line) -> bool
        ensures bytes { result ≡ bytes_eq self.now other.now }
        ensures same { IsTrue result ↔ (self.now ≡ other.now) }
    {
        self.text == other.text
    }
}

impl Eq for Line {
    ghost laws = { Prim.search (comparing, rules) };
}

/// Lines in order, each without its newline. Contracts see the list of their bytes.
#[derive(Drop)]
pub struct Lines {
    lines: Vec<String>,
}

impl Model for Lines {
    ghost use Rattle.std.specs.Prelude.{ℕ, List, map, string_bytes};

    ghost Value = { List (List ℕ) };

    ghost view = { λ l. map string_bytes l.lines.items };
}

impl Lines {
    /// A list of these lines.
    pub fn new(lines: Vec<String>) -> Self
        ensures { result ≡ map string_bytes lines.items }
    {
        Self { lines }
    }

    /// The lines, in order.
    pub fn as_slice(&self) -> &[String]
        ensures { map string_bytes result.now ≡ self.now }
    {
        self.lines.as_slice()
    }

    /// The lines, in order and without a copy.
    ///
    /// ```text
    /// for line in read(alloc, text)?.extensions.into_vec() { .. }   // each line as a `String`
    /// ```
    pub fn into_vec(self) -> Vec<String>
        ensures { map string_bytes result.items ≡ self }
    {
        let Lines { lines } = self;
        lines
    }
}

impl PartialEq for Lines {
    ghost eq = { pointwise bytes_eq };

    ghost laws = { Prim.search (comparing, rules) };

    fn eq(&self, other: &Lines) -> bool
        ensures bytes { result ≡ pointwise bytes_eq self.now other.now }
        ensures same { IsTrue result ↔ (self.now ≡ other.now) }
    {
        self.lines == other.lines
    }
}

impl Eq for Lines {
    ghost laws = { Prim.search (comparing, rules) };
}
