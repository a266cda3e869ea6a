//! The pairs that a text is cut into.
ghost use Rattle.std.specs.Prelude.{◌≡◌, ◌==◌, length, option_copied};
ghost use Rattle.std.specs.Iterator.{YieldsFirstBy, item_count};
ghost use Rattle.pair_list.specs.Cuts.{cut, total};
ghost use Rattle.pair_list.specs.Firsts.{first_value};

use std::marker::Model;

/// Pairs that are lent, in order. As an iterator it gives the name and the value of each that is
/// left.
#[derive(Debug, Drop)]
pub struct Pairs<'a> {
    text: &'a [u8],
    sizes: &'a [(usize, usize)],
}

impl<'a> Model for Pairs<'a> {
    ghost use Rattle.std.specs.Prelude.{◌≡◌, List, ℕ, length};
    ghost use Rattle.pair_list.specs.Cuts.{cut, total};

    ghost Value = { List (List ℕ × List ℕ) };

    ghost view = { λ pairs. cut pairs.text.now pairs.sizes.now };

    ghost invariant = { λ pairs. total pairs.sizes.now ≡ length pairs.text.now };
}

impl<'a> Pairs<'a> {
    pub(crate) fn new(text: &'a [u8], sizes: &'a [(usize, usize)]) -> Pairs<'a>
        requires { total sizes.now ≡ length text.now }
        ensures { result ≡ cut text.now sizes.now }
    {
        Pairs { text, sizes }
    }

    /// The same pairs, to walk them.
    pub fn iter(&self) -> Pairs<'a>
        ensures { result ≡ self.now }
    {
        Pairs {
            text: self.text,
            sizes: self.sizes,
        }
    }

    /// How many pairs there are.
    pub fn len(&self) -> usize
        ensures { result ≡ length self.now }
    {
        self.sizes.len()
    }

    /// Whether there is none.
    pub fn is_empty(&self) -> bool
        ensures { result ≡ (length self.now == 0) }
    {
        self.sizes.is_empty()
    }

    /// The value of the first pair with this name.
    pub fn first(&self, name: &[u8]) -> Option<&'a [u8]>
        ensures { option_copied result ≡ first_value name.now self.now }
    {
        for (other, value) in self.iter() {
            if other == name {
                return Some(value);
            }
        }
        None
    }
}

impl<'a> Iterator for Pairs<'a> {
    type Item = (&'a [u8], &'a [u8]);

    ghost next_gives = { YieldsFirstBy (λ pair. (pair.0.now, pair.1.now)) (λ pairs. pairs) };

    ghost remaining = { item_count (λ pairs. pairs) };

    fn next(&mut self) -> Option<(&'a [u8], &'a [u8])> {
        let (size, sizes) = self.sizes.split_first()?;
        let (name, rest) = self.text.split_at(size.0);
        let (value, rest) = rest.split_at(size.1);
        self.text = rest;
        self.sizes = sizes;
        Some((name, value))
    }
}
