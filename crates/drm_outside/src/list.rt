// A vector that contracts see as the list of its elements.
ghost use Rattle.std.specs.Prelude.{◌≡◌};

use std::marker::Model;

/// A list that never grows. Contracts see it as the list of its elements.
#[derive(Debug, Drop)]
pub struct List<T> {
    items: Vec<T>,
}

impl<T> Model for List<T> {
    ghost use Rattle.std.specs.Prelude.{List as Row};

    ghost Value = { Row T };

    ghost view = { λ list. list.items.items };
}

impl<T> List<T> {
    /// The elements of `v`, in their order. It takes no memory.
    pub fn from_vec(v: Vec<T>) -> List<T>
        ensures { result ≡ v.items }
    {
        List { items: v }
    }

    /// The elements in their order.
    pub fn as_slice(&self) -> &[T]
        ensures { result.now ≡ self.now }
    {
        &self.items
    }

    /// The elements in their order. It takes no memory.
    pub fn into_vec(self) -> Vec<T>
        ensures { result.items ≡ self }
    {
        let List { items } = self;
        items
    }
}
