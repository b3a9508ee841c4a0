//! A list that proofs alone read: it has no bytes, and what it does, it does not at run time.
ghost use Rattle.std.specs.Prelude.{◌≡◌, List, [], ◌∷◌, ◌++◌};
ghost use Rattle.std.specs.Borrow.{ftrue};

use std::marker::{Model, PhantomData};

/// Values in their order, each as it was when it was noted. A clause reads them as `items`.
#[derive(Drop)]
pub struct Noted<A> {
    of: PhantomData<A>,
    pub ghost items: { List A },
}

impl<A> Model for Noted<A> {
    ghost also_owns = { λ _. ftrue };
}

impl<A> Noted<A> {
    /// No value.
    pub fn new() -> Noted<A>
        ensures { result.items ≡ [] }
    {
        Noted { of: PhantomData }
    }

    /// The same with one more value behind the others.
    pub fn and(&self, value: &A) -> Noted<A>
        ensures { result.items ≡ self.now.items ++ value.now ∷ [] }
    {
        Noted { of: PhantomData }
    }
}
