//! A list as contracts see it.

ghost use Rattle.std.specs.Prelude.{◌≡◌, List};

use std::marker::Model;

/// A list of the elements of a vector, made whole: nothing grows it, and it lends no vector and no allocator.
/// In a clause it is the list alone, without the room that it takes.
#[derive(Debug, Drop)]
pub struct Sequence<T> {
    items: Vec<T>,
}

impl<T> Model for Sequence<T> {
    ghost Value = { List T };

    ghost view = { λ sequence. sequence.items.items };
}

impl<T> Sequence<T> {
    /// Makes a list of the elements of a vector.
    pub fn new(items: Vec<T>) -> Self
        ensures { result ≡ items.items }
    {
        Sequence { items }
    }

    /// Lends the elements.
    pub fn as_slice(&self) -> &[T]
        ensures { result.now ≡ self.now }
    {
        self.items.as_slice()
    }
}
