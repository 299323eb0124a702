//! Lists that exist in proofs alone.
ghost use Rattle.std.specs.Prelude.{◌≡◌, List, [], ◌++◌};
ghost use Rattle.std.specs.Borrow.{ftrue};

use std::marker::{Model, PhantomData};

/// A list that no code reads: what happened, for contracts to speak of. It takes no memory.
#[derive(Drop)]
pub struct GhostLog<T> {
    of: PhantomData<T>,
    pub ghost items: { List T },
}

impl<T> Model for GhostLog<T> {
    ghost also_owns = { λ _. ftrue };
}

// It owns nothing.
unsafe impl<T: Send> Send for GhostLog<T> {}

impl<T> GhostLog<T> {
    /// The empty list.
    pub(crate) fn new() -> GhostLog<T>
        ensures { result.items ≡ [] }
    {
        GhostLog { of: PhantomData }
    }

    /// The list with these items before its own.
    pub(crate) fn and(&self, _items: &[T]) -> GhostLog<T>
        ensures { result.items ≡ _items.now ++ self.now.items }
    {
        GhostLog { of: PhantomData }
    }
}
