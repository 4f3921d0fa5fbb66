//! A box as its pointer alone.

ghost use Rattle.std.specs.Prelude.{◌≡◌};
ghost use Rattle.raw_box.specs.Heap.{heap_owns};

use std::alloc::Global;
use std::marker::Model;

/// The pointer of a box of the heap, with the right to what stands there and to free it.
pub struct RawBox<T> {
    pub at: *mut T,
    pub ghost value: { T },
}

impl<T> Model for RawBox<T> {
    ghost also_owns = { λ raw. heap_owns T.row raw.at raw.value };
}

impl<T: Drop> RawBox<T> {
    /// Makes a box a raw pointer.
    pub fn of(value: Box<T>) -> RawBox<T>
        ensures value { result.value ≡ value.value }
    {
        RawBox {
            at: Box::into_raw(value),
        }
    }

    /// Makes the pointer a box again. There is one heap, so any `Global` will do.
    pub fn into_box(self, alloc: Global) -> Box<T>
        ensures value { result.value ≡ self.value }
    {
        let RawBox { at } = self;
        unsafe { Box::from_raw(alloc, at) }
    }
}
