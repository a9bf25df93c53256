//! Lists that contracts see as plain lists, and the copies of values.

ghost use Rattle.std.specs.Prelude.{◌≡◌, ◌++◌, ◌∷◌, [], length, OnOk, OnErr, IfOk, IfErr};
ghost use Rattle.std.specs.Cmp.Lexicographic.{pointwise, lists_per, lists_equiv};

use std::alloc::{AllocError, AllocFailed, Global};
use std::marker::Model;
use std::sync::Arc;

/// A value of which an equal one can be made.
///
/// It stands in place of `Clone`, whose contract does not say that the copy is equal.
pub trait Duplicate: Drop {
    /// An equal value, or want of memory.
    fn copy(&self, alloc: Global) -> Result<Self, AllocError>
        ensures { IfOk result (λ copy. copy ≡ self.now) };
}

impl Duplicate for u8 {
    fn copy(&self, _alloc: Global) -> Result<u8, AllocError> {
        Ok(*self)
    }
}

impl Duplicate for [u8; 32] {
    fn copy(&self, _alloc: Global) -> Result<[u8; 32], AllocError> {
        Ok(*self)
    }
}

/// A list of values: a `Vec` whose capacity and place in memory no contract sees.
#[derive(Debug, Drop)]
pub struct Seq<T> {
    entries: Vec<T>,
}

impl<T> Model for Seq<T> {
    ghost use Rattle.std.specs.Prelude.{List};

    ghost Value = { List T };

    ghost view = { λ a. a.entries.items };
}

impl<T> Seq<T> {
    /// The empty list.
    pub fn new(alloc: Global) -> Seq<T>
        ensures { result ≡ [] }
    {
        Seq {
            entries: Vec::new(alloc),
        }
    }

    /// The list of a vector's elements. It takes no memory.
    pub fn from_vec(entries: Vec<T>) -> Seq<T>
        ensures { result ≡ entries.items }
    {
        Seq { entries }
    }

    /// The elements as a vector. It takes no memory.
    pub fn into_vec(self) -> Vec<T>
        ensures { result.items ≡ self }
    {
        let Seq { entries } = self;
        entries
    }

    /// The elements.
    pub fn as_slice(&self) -> &[T]
        ensures { result.now ≡ self.now }
    {
        self.entries.as_slice()
    }

    /// How many elements there are.
    pub fn len(&self) -> usize
        ensures { result ≡ length self.now }
    {
        self.entries.len()
    }

    /// Adds an element at the end; refused, the list is as before and the element is handed back.
    pub fn push(&mut self, x: T) -> Result<(), AllocFailed<T>>
        ensures ok { OnOk result (self.new ≡ self.old ++ x ∷ []) }
        ensures err { OnErr result (self.new ≡ self.old) }
        ensures back { IfErr result (λ e. e.value ≡ x) }
    {
        self.entries.push(x)
    }
}

/// Equal copies of all elements, in one vector.
pub fn copy_all<T: Duplicate>(alloc: Global, entries: &[T]) -> Result<Vec<T>, AllocError>
    ensures { IfOk result (λ copy. copy.items ≡ entries.now) }
{
    let mut all = Vec::with_capacity(alloc, entries.len())?;
    for entry in entries {
        all.push(entry.copy(alloc)?)?;
    }
    Ok(all)
}

impl<T: Duplicate> Duplicate for Seq<T> {
    fn copy(&self, alloc: Global) -> Result<Seq<T>, AllocError> {
        Ok(Seq::from_vec(copy_all(alloc, self.entries.as_slice())?))
    }
}

impl<T: PartialEq> PartialEq for Seq<T> {
    ghost eq = { λ a b. pointwise T.eq a b };

    ghost laws = { lists_per T.laws };

    fn eq(&self, other: &Self) -> bool {
        self.entries == other.entries
    }
}

impl<T: Eq> Eq for Seq<T> {
    ghost laws = { lists_equiv T.Eq.laws };
}

/// A list that is never changed, and whose copies share one place in memory.
///
/// A value's transactions are held once so, however many messages carry the value.
#[derive(Debug, Drop)]
pub struct Shared<T> {
    entries: Arc<Vec<T>>,
}

impl<T> Model for Shared<T> {
    ghost use Rattle.std.specs.Prelude.{List};
    ghost use Rattle.std.specs.Arc.{arc_value};

    ghost Value = { List T };

    ghost view = { λ a. (arc_value a.entries).items };
}

impl<T> Shared<T> {
    /// The list of a vector's elements, at the price of one allocation.
    pub fn from_vec(alloc: Global, entries: Vec<T>) -> Result<Shared<T>, AllocFailed<Vec<T>>>
        ensures ok { IfOk result (λ list. list ≡ entries.items) }
        ensures back { IfErr result (λ e. e.value ≡ entries) }
    {
        let entries = Arc::new(alloc, entries)?;
        Ok(Shared { entries })
    }

    /// The elements.
    pub fn as_slice(&self) -> &[T]
        ensures { result.now ≡ self.now }
    {
        self.entries.as_slice()
    }

    /// How many elements there are.
    pub fn len(&self) -> usize
        ensures { result ≡ length self.now }
    {
        self.as_slice().len()
    }
}

impl<T: Drop> Duplicate for Shared<T> {
    /// It takes no memory, and is refused only where 2^63 copies are alive.
    fn copy(&self, _alloc: Global) -> Result<Shared<T>, AllocError> {
        let entries = Arc::try_clone(&self.entries)?;
        Ok(Shared { entries })
    }
}

impl<T: PartialEq> PartialEq for Shared<T> {
    ghost eq = { λ a b. pointwise T.eq a b };

    ghost laws = { lists_per T.laws };

    fn eq(&self, other: &Self) -> bool {
        self.as_slice() == other.as_slice()
    }
}

impl<T: Eq> Eq for Shared<T> {
    ghost laws = { lists_equiv T.Eq.laws };
}
