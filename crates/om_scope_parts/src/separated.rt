//! Lists whose items commas part.

ghost use Rattle.std.specs.Prelude.{◌≡◌, ◌∷◌, List, map, option_copied};
ghost use Rattle.std.specs.Iterator.{YieldsFirstRef, item_count};
ghost use Rattle.std.specs.List.{cons_option};

use om_lexer::Span;
use std::marker::Model;

/// The items of a list that is kept as its first item and those behind commas, in their order.
#[derive(Drop)]
pub struct Separated<'a, T> {
    // None once it is taken.
    first: Option<&'a T>,
    rest: &'a [(Span, T)],
}

impl<'a, T> Model for Separated<'a, T> {
    ghost Value = { List T };

    ghost view = { λ s. cons_option (option_copied s.first) (map (λ further. further.1) s.rest.now) };
}

impl<'a, T> Separated<'a, T> {
    /// All the items.
    pub fn new(first: &'a T, rest: &'a [(Span, T)]) -> Separated<'a, T>
        ensures { result ≡ first.now ∷ map (λ further. further.1) rest.now }
    {
        Separated {
            first: Some(first),
            rest,
        }
    }
}

impl<'a, T> Iterator for Separated<'a, T> {
    type Item = &'a T;

    ghost next_gives = { YieldsFirstRef (λ s. s) };

    ghost remaining = { item_count (λ s. s) };

    fn next(&mut self) -> Option<&'a T> {
        if let Some(first) = self.first.take() {
            return Some(first);
        }
        let (further, behind) = self.rest.split_first()?;
        self.rest = behind;
        Some(&further.1)
    }
}
