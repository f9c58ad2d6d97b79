//! Lists, which contracts see as their items.
ghost use Rattle.std.specs.Prelude.{◌≡◌};

use std::marker::Model;

/// A list of items in order, as contracts see it; where it is nested, a list of lists.
#[derive(Drop, Debug)]
pub struct List<T> {
    items: Vec<T>,
}

impl<T> Model for List<T> {
    ghost use Rattle.std.specs.Prelude.{List as Items};

    ghost Value = { Items T };

    ghost view = { λ l. l.items.items };
}

impl<T> List<T> {
    ghost use Rattle.std.specs.Prelude.{List as Items, length};
    ghost use Rattle.std.specs.Borrow.{sem, Lends, Array};
    ghost use Rattle.case_model.specs.Lending.{rewritten};
    ghost use Rattle.case_model.specs.contracts.lists.List.{the_row};

    /// The list of these items. Takes no memory.
    pub fn over(items: Vec<T>) -> List<T>
        ensures { result ≡ items.items }
    {
        List { items }
    }

    /// The items, lent.
    pub fn as_slice(&self) -> &[T]
        ensures { result.now ≡ self.now }
    {
        self.items.as_slice()
    }

    /// The items, lent for writing.
    pub fn as_mut_slice(&mut self) -> &mut [T]
        ensures* writes_back { sem 𝓛
            (Lends (the_row T.row) (Array T.row 0) self.entry result (rewritten self.old)) }
        ensures value { result.now ≡ self.old }
        ensures same_length { (items : Items T) → length items ≡ length self.old →
            rewritten self.old items ≡ items }
    {
        self.items.as_mut_slice()
    }

    /// The items, given back. Takes no memory.
    pub fn into_vec(self) -> Vec<T>
        ensures { result.items ≡ self }
    {
        let List { items } = self;
        items
    }
}
