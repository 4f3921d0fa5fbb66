//! A list of a fixed length.

ghost use Rattle.std.specs.Borrow.{sem};
ghost use Rattle.std.specs.Prelude.{◌≡◌, ◌<◌, length, slice_index_or, vec_len};
ghost use Rattle.pcm_sequence.specs.Fixed.{fixed_items, fixed_len, LendsItem, LendsItems};

use std::boxed::BoxedSlice;
use std::ops::{DerefSlice, DerefSliceMut, Index, IndexMut};

/// A list whose length is that of the vector that it was made of. Nothing of it lends the vector or
/// its allocator, and it has no copy: so no function without an allocator can take memory by one.
#[derive(Debug, Drop)]
pub struct Fixed<T> {
    items: BoxedSlice<T>,
}

impl<T> Fixed<T> {
    /// Makes a list of the elements of a vector.
    pub fn new(items: Vec<T>) -> Fixed<T>
        ensures items { fixed_items result ≡ items.items }
        ensures len { fixed_len result ≡ vec_len items }
    {
        Fixed {
            items: items.into_boxed_slice(),
        }
    }
}

impl<T> DerefSlice for Fixed<T> {
    type Elem = T;

    ghost deref_gives = { λ list xs. (xs ≡ fixed_items list) × (length xs ≡ fixed_len list) };

    fn deref(&self) -> &[T]
        ensures value { result.now ≡ fixed_items self.now }
        ensures len { length result.now ≡ fixed_len self.now }
    {
        self.items.as_slice()
    }
}

impl<T> DerefSliceMut for Fixed<T> {
    fn deref_mut(&mut self) -> &mut [T]
        ensures* writes_back { sem 𝓛 (LendsItems T.row self.entry result) }
        ensures value { result.now ≡ fixed_items self.old }
        ensures len { length result.now ≡ fixed_len self.old }
    {
        self.items.as_mut_slice()
    }
}

impl<T> Index<usize> for Fixed<T> {
    type Output = T;

    ghost can_index = { λ list at. at < fixed_len list };

    ghost index_gives = { λ list at item. item ≡ slice_index_or (fixed_items list) at item };

    fn index(&self, index: usize) -> &T
        requires { index < fixed_len self.now }
        ensures { result.now ≡ slice_index_or (fixed_items self.now) index result.now }
    {
        &self.items[index]
    }
}

impl<T> IndexMut<usize> for Fixed<T> {
    fn index_mut(&mut self, index: usize) -> &mut T
        requires { index < fixed_len self.old }
        ensures* writes_back { sem 𝓛 (LendsItem T.row self.entry index result) }
        ensures value { result.now ≡ slice_index_or (fixed_items self.old) index result.now }
    {
        &mut self.items[index]
    }
}
