//! A value for contracts alone: only clauses read it, and it need not be any value of the program.
//!
//! A history that grows, as the list of all bytes that ever came, is kept in this way without
//! memory. Its type is written as the Rust type that clauses see alike: `LinkedList<T>` for a list.
ghost use Rattle.std.specs.Prelude.{◌≡◌};

use std::marker::{Model, PhantomData};

/// How a `T` for contracts is made of an `X` of the program. An empty struct stands for each such
/// function, and its impl has the function's body.
pub trait Notes<X, T> {
    /// The value, of what the reference shows.
    ghost noted: { X → T };
}

/// A `T` as clauses see it. It has no bytes and owns nothing, as std's `Snapshot`, but no `T` need
/// ever have been made.
pub struct Noted<T> {
    marker: PhantomData<T>,
    pub ghost value: { T },
}

impl<T> Model for Noted<T> {
    ghost use base.Fml.{ftrue};

    ghost also_owns = { λ _. ftrue };
}

impl<T> Drop for Noted<T> {
    fn drop(self) {
        let Self { marker: _ } = self;
    }
}

unsafe impl<T> Send for Noted<T> {}

unsafe impl<T> Sync for Noted<T> {}

/// The value that `M` tells of `x`. To add to a value that is told already, let `x` be a pair of
/// its `Snapshot` and of what is added.
pub fn note<X, T, M: Notes<X, T>>(x: &X) -> Noted<T>
    ensures { result.value ≡ M.noted x.now }
{
    let _ = x;
    Noted {
        marker: PhantomData,
    }
}
