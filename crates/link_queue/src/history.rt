//! Which frames came by, which only clauses read.

ghost use Rattle.std.specs.Prelude.{◌≡◌, List, ℕ, [], ◌∷◌, ◌++◌};
ghost use Rattle.std.specs.Borrow.{ftrue};

use std::marker::{Model, PhantomData};

/// A list of frames, in order. It takes no memory.
#[derive(Drop)]
pub(crate) struct Frames {
    marker: PhantomData<u8>,
    pub ghost frames: { List (List ℕ) },
}

impl Model for Frames {
    ghost also_owns = { λ _. ftrue };
}

impl Frames {
    pub(crate) fn none() -> Frames
        ensures { result.frames ≡ [] }
    {
        Frames {
            marker: PhantomData,
        }
    }

    /// Notes one frame more.
    pub(crate) fn add(&mut self, _frame: &[u8])
        ensures { self.new.frames ≡ self.old.frames ++ _frame.now ∷ [] }
    {}
}

unsafe impl Send for Frames {}
