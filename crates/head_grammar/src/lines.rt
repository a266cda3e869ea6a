//! The lines of a head.
ghost use Rattle.std.specs.Prelude.{◌≡◌, ◌∷◌, [], IfSome, IfNone, true, false};
ghost use Rattle.std.specs.Iterator.{YieldsFirstRef, item_count};
ghost use Rattle.head_grammar.specs.Lines.{line_mark, lines, skip_empty};
ghost use Rattle.head_grammar.specs.FieldLines.{continues, first_continues};

use byte_tables::is_white_space;
use memchr::memmem::Finder;
use std::marker::Model;

// The first line, and what stands behind the CR LF that ends it.
fn cut_line<'a>(mark: &Finder<'static>, text: &'a [u8]) -> Option<(&'a [u8], &'a [u8])>
    requires { mark.now ≡ line_mark }
    ensures lines { IfSome result (λ cut. lines text.now ≡ cut.0.now ∷ lines cut.1.now) }
    ensures none { IfNone result (lines text.now ≡ []) }
{
    if text.is_empty() {
        return None;
    }
    match mark.find(text) {
        Some(at) => Some((&text[..at], &text[at + 2..])),
        None => Some((text, &[])),
    }
}

// Whether the first line begins with white space.
fn first_continues(text: &[u8]) -> bool
    ensures { result ≡ first_continues (lines text.now) }
{
    !text.is_empty() && is_white_space(text[0])
}

/// The lines of a text: CR LF ends each of them (RFC 9112, section 2.1), and the last one may
/// stand without.
#[derive(Drop)]
pub(crate) struct Lines<'a> {
    rest: &'a [u8],
    // the search for CR LF, which is prepared once
    mark: Finder<'static>,
}

impl<'a> Model for Lines<'a> {
    ghost use Rattle.std.specs.Prelude.{◌≡◌, List, ℕ};
    ghost use Rattle.head_grammar.specs.Lines.{line_mark, lines};

    ghost Value = { List (List ℕ) };

    ghost view = { λ s. lines s.rest.now };

    ghost invariant = { λ s. s.mark ≡ line_mark };
}

impl<'a> Lines<'a> {
    pub(crate) fn new(text: &'a [u8]) -> Lines<'a>
        ensures { result ≡ lines text.now }
    {
        Lines {
            rest: text,
            mark: Finder::new(b"\r\n"),
        }
    }

    /// How many bytes are left.
    pub(crate) fn size(&self) -> usize {
        self.rest.len()
    }

    /// Takes off the empty lines in front and the line behind them, and gives that line.
    pub(crate) fn skip_empty(&mut self) -> Option<&'a [u8]>
        ensures some { IfSome result (λ line. skip_empty self.old ≡ line.now ∷ self.new) }
        ensures none { IfNone result (skip_empty self.old ≡ []) }
    {
        while let Some(line) = self.next() {
            if !line.is_empty() {
                return Some(line);
            }
        }
        None
    }

    /// Whether the next line continues the line before it (RFC 9112, section 5.2).
    pub(crate) fn next_continues(&self) -> bool
        ensures { result ≡ first_continues self.now }
    {
        first_continues(self.rest)
    }

    /// Takes the next line off where it continues the line before it.
    pub(crate) fn next_continued(&mut self) -> Option<&'a [u8]>
        ensures some { IfSome result (λ line. self.old ≡ line.now ∷ self.new) }
        ensures continued { IfSome result (λ line. continues line.now ≡ true) }
        ensures none { IfNone result (self.new ≡ self.old) }
        ensures no_more { IfNone result (first_continues self.old ≡ false) }
    {
        if self.next_continues() {
            return self.next();
        }
        None
    }
}

impl<'a> Iterator for Lines<'a> {
    type Item = &'a [u8];

    ghost next_gives = { YieldsFirstRef (λ s. s) };

    ghost remaining = { item_count (λ s. s) };

    fn next(&mut self) -> Option<&'a [u8]> {
        let (line, rest) = cut_line(&self.mark, self.rest)?;
        self.rest = rest;
        Some(line)
    }
}
