ghost use Rattle.std.specs.Prelude.{◌≡◌};

use std::marker::Model;

/// Items in order, which contracts see as a list of numbers, records or whatever the items are.
///
/// It is the form in which a list stands in a field of a value that a definition gives or reads. None of its calls takes
/// memory.
#[derive(Drop)]
pub struct List<T> {
    items: Vec<T>,
}

impl<T> Model for List<T> {
    ghost use Rattle.std.specs.Prelude.{List as ListOf};

    ghost Value = { ListOf T };

    ghost view = { λ list. list.items.items };
}

impl<T> List<T> {
    /// The list of these items, in their order.
    pub fn of(items: Vec<T>) -> List<T>
        ensures { result ≡ items.items }
    {
        List { items }
    }

    /// Lends all items.
    pub fn as_slice(&self) -> &[T]
        ensures { result.now ≡ self.now }
    {
        self.items.as_slice()
    }

    /// Gives the items back.
    pub fn into_vec(self) -> Vec<T>
        ensures { result.items ≡ self }
    {
        let List { items } = self;
        items
    }
}
