// A vector of at most `N` values, kept without a heap. Clauses speak of the list of its values.
ghost use Rattle.std.specs.Prelude.{◌≡◌, ◌-◌, ◌≤◌, length, take, drop, replicate, codes, Some, ⊤};
ghost use Rattle.std.specs.Slice.Iter.{iter_rest};
ghost use Rattle.std.specs.Iterator.Adapters.{IterYieldsInOrder};
ghost use Rattle.fixed.specs.Pushing.{inserted, pushed, push_answer};

use crate::blank::Blank;
use std::alloc::AllocError;
use std::error::Error;
use std::fmt;
use std::slice::Iter;

// No place is free.
#[derive(Clone, Copy, Debug, PartialEq, Eq)]
pub struct Full;

impl fmt::Display for Full {
    ghost output = { λ _. Some (codes "no place is free") };

    fn fmt<W: fmt::Write>(&self, f: &mut fmt::Formatter<W>) -> fmt::Result {
        f.write_str("no place is free")
    }
}

impl Error for Full {}

// The places behind the last value hold blanks, so that two vectors of the same values are the same. It is not the
// kit's `ArrayVec`: that one is not `Copy`, as the tables are that are made of these. Nor does it implement `Model`,
// by which a clause would see the list in its place: then a layer over any source that holds such a type by value gets
// no proof over the log reader, and how many values there are at most is known only from what is called.
#[derive(Copy)]
pub struct FixedVec<T: Blank, const N: usize> {
    items: [T; N],
    count: usize,
    ghost few: { count ≤ N },
    ghost long: { length items ≡ N },
    ghost behind: { drop count items ≡ replicate (N - count) T.blank },
}

// By hand: none is derived for a struct with ghost fields over a type parameter, since a derived one clones each place.
impl<T: Blank, const N: usize> Clone for FixedVec<T, N> {
    ghost is_clone = { λ v w. w ≡ v };

    ghost is_infallible = { λ _. ⊤ };

    fn clone(&self) -> Result<FixedVec<T, N>, AllocError> {
        Ok(*self)
    }
}

impl<T: Blank, const N: usize> Blank for FixedVec<T, N> {
    ghost use Rattle.fixed.specs.Values.{empty};

    ghost blank = { empty };

    fn blank() -> FixedVec<T, N> {
        FixedVec::new()
    }
}

impl<T: Blank, const N: usize> FixedVec<T, N> {
    ghost use Rattle.fixed.specs.Values as vector;
    ghost use Rattle.fixed.specs.Values.{empty, values};

    // A vector of no value.
    pub fn new() -> FixedVec<T, N>
        ensures { result ≡ empty }
    {
        FixedVec {
            items: [T::blank(); N],
            count: 0,
        }
    }

    // The first values of a slice, as many as there are places.
    #[tactic(auto, using(crate::proofs::Held::start_behind, crate::proofs::Held::start_long))]
    pub fn starting(values: &[T]) -> FixedVec<T, N>
        ensures { vector.values result ≡ take N values.now }
    {
        let count = values.len().min(N);
        let mut items = [T::blank(); N];
        items[..count].copy_from_slice(&values[..count]);
        FixedVec { items, count }
    }

    pub fn as_slice(&self) -> &[T]
        ensures values { result.now ≡ values self.now }
        ensures few { length (values self.now) ≤ N }
    {
        &self.items[..self.count]
    }

    pub fn len(&self) -> usize
        ensures count { result ≡ length (values self.now) }
        ensures few { length (values self.now) ≤ N }
    {
        self.as_slice().len()
    }

    // Puts a value behind the others; refused where no place is free.
    pub fn push(&mut self, value: T) -> Result<(), Full>
        ensures answers { result ≡ push_answer N (values self.old) }
        ensures pushes { values self.new ≡ pushed N value (values self.old) }
    {
        if self.count == N {
            return Err(Full);
        }
        self.items[self.count] = value;
        self.count += 1;
        Ok(())
    }

    // Puts a value at a place, before those that stand from there on; refused where no place is free. Past the last
    // value it goes behind the others.
    pub fn insert(&mut self, at: usize, value: T) -> Result<(), Full>
        ensures answers { result ≡ push_answer N (values self.old) }
        ensures inserts { values self.new ≡ inserted N at value (values self.old) }
    {
        let at = at.min(self.count);
        self.push(value)?;
        let places = &mut self.items[..];
        places[at..self.count].rotate_right(1);
        Ok(())
    }
}

impl<'a, T: Blank, const N: usize> IntoIterator for &'a FixedVec<T, N> {
    type Item = &'a T;

    type IntoIter = Iter<'a, T>;

    ghost use Rattle.fixed.specs.Values.{values};

    ghost into_iter_gives = { λ v r. (iter_rest r ≡ values v.now) × (length (iter_rest r) ≤ N) × IterYieldsInOrder T };

    fn into_iter(self) -> Iter<'a, T> {
        self.as_slice().iter()
    }
}
