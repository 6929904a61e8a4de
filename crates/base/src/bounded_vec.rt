ghost use Rattle.std.specs.Prelude.{◌≡◌, ⊤};
ghost use Rattle.std.specs.Cmp.Lexicographic.{pointwise, lists_per, lists_equiv};

use std::alloc::AllocError;
use std::fmt;
use std::marker::Model;

/// A type with a value for the places of a bounded vector that no value of it takes.
pub trait Filler: Copy {
    ghost filler: { Self };

    /// The value.
    fn filler() -> Self
        ensures { result ≡ filler };
}

impl Filler for u8 {
    ghost filler = { 0 };

    fn filler() -> u8 {
        0
    }
}

impl Filler for usize {
    ghost filler = { 0 };

    fn filler() -> usize {
        0
    }
}

/// At most N values, one after another. Contracts see it as the list of them. They stand in the
/// first `len` places of an array, and fillers in the others, so that the list gives back the whole
/// array: a copy is the bytes of it. A vector of the library `arrayvec` is not Copy, and its clone
/// can fail, which no call here can.
pub struct BoundedVec<T: Filler, const N: usize> {
    items: [T; N],
    len: usize,
}

impl<T: Filler, const N: usize> Model for BoundedVec<T, N> {
    ghost use Rattle.std.specs.Prelude.{◌-◌, List, ◌++◌, length, take, replicate};
    ghost use Rattle.std.proofs.Common.{arith, ap, sym, ◌∙◌, length-take-le, take-append-drop};
    ghost use Rattle.base.specs.BoundedVec.{IsFilled};

    ghost Value = { List T };

    ghost view = { λ a. take a.len a.items };

    ghost invariant = { λ a. IsFilled N T.filler a.items a.len };

    ghost inverse = { λ v. record {
      items = v ++ replicate (N - length v) T.filler;
      len = length v;
    } };

    ghost inverse_ok = { λ a h.
        rw (length-take-le a.len a.items (omega (arith, h.exactly, h.within)))
        (ap (λ xs. record { items = xs; len = a.len })
        (ap (λ r. take a.len a.items ++ r) (sym h.rest) ∙ take-append-drop a.len a.items)) };
}

// By hand, since none of these is derived for a generic struct whose model needs a bound.
impl<T: Filler, const N: usize> Clone for BoundedVec<T, N> {
    ghost is_clone = { λ x y. y ≡ x };

    ghost is_infallible = { λ _. ⊤ };

    fn clone(&self) -> Result<BoundedVec<T, N>, AllocError> {
        Ok(*self)
    }
}

impl<T: Filler, const N: usize> Copy for BoundedVec<T, N> {}

impl<T: Filler + PartialEq, const N: usize> PartialEq for BoundedVec<T, N> {
    ghost eq = { λ v w. pointwise T.eq v w };

    ghost laws = { lists_per T.PartialEq.laws };

    fn eq(&self, other: &Self) -> bool {
        self.as_slice() == other.as_slice()
    }
}

impl<T: Filler + Eq, const N: usize> Eq for BoundedVec<T, N> {
    ghost laws = { lists_equiv T.Eq.laws };
}

// Shown as the list of its values.
impl<T: Filler + fmt::Debug, const N: usize> fmt::Debug for BoundedVec<T, N> {
    ghost use Rattle.std.specs.Fmt.{debug_list};

    ghost debug_output = { debug_list T.debug_output };

    fn fmt<W: fmt::Write>(&self, f: &mut fmt::Formatter<W>) -> fmt::Result {
        fmt::Debug::fmt(&self.as_slice(), f)
    }
}

impl<T: Filler, const N: usize> BoundedVec<T, N> {
    ghost use Rattle.std.specs.Prelude.{◌≤◌, ◌==◌, [], ◌∷◌, ◌++◌, Some, None, length, take};
    ghost use Rattle.std.specs.Prelude.{if◌then◌else◌, nat_lt};

    /// No value yet.
    pub fn new() -> BoundedVec<T, N>
        ensures { result ≡ [] }
    {
        BoundedVec {
            items: [T::filler(); N],
            len: 0,
        }
    }

    /// The first of some values, N at most.
    pub fn from_slice(values: &[T]) -> BoundedVec<T, N>
        ensures { result ≡ take N values.now }
    {
        let len = values.len().min(N);
        let mut items = [T::filler(); N];
        items[..len].copy_from_slice(&values[..len]);
        BoundedVec { items, len }
    }

    /// One value more, if there are fewer than N. Where there are N, nothing is altered.
    #[inline]
    pub fn push(&mut self, item: T) -> Option<()>
        ensures answer { result ≡ (if nat_lt (length self.old) N then Some tt else None) }
        ensures after { self.new ≡ (if nat_lt (length self.old) N then self.old ++ item ∷ []
            else self.old) }
    {
        if self.len >= N {
            return None;
        }
        self.items[self.len] = item;
        self.len += 1;
        Some(())
    }

    /// The values.
    #[inline]
    pub fn as_slice(&self) -> &[T]
        ensures values { result.now ≡ self.now }
        ensures few { length self.now ≤ N }
    {
        &self.items[..self.len]
    }

    /// How many values there are: N at most.
    #[inline]
    pub fn len(&self) -> usize
        ensures { result ≡ length self.now }
    {
        self.as_slice().len()
    }

    /// Whether there is no value.
    #[inline]
    pub fn is_empty(&self) -> bool
        ensures { result ≡ (length self.now == 0) }
    {
        self.as_slice().is_empty()
    }
}
