ghost use Rattle.std.specs.Prelude.{◌≡◌, ◌==◌, [], length};

use std::alloc::Global;
use std::marker::Model;

/// A list of values that owns its memory. Contracts see it as a list.
#[derive(Debug, Drop)]
pub struct Sequence<T> {
    vec: Vec<T>,
}

impl<T> Model for Sequence<T> {
    ghost use Rattle.std.specs.Prelude.{List};

    ghost Value = { List T };

    ghost view = { λ s. s.vec.items };
}

impl<T> Sequence<T> {
    /// No values. No memory is taken.
    pub fn new(alloc: Global) -> Sequence<T>
        ensures { result ≡ [] }
    {
        Sequence {
            vec: Vec::new(alloc),
        }
    }

    /// The values, lent.
    pub fn as_slice(&self) -> &[T]
        ensures { result.now ≡ self.now }
    {
        &self.vec
    }

    /// The number of values.
    pub fn len(&self) -> usize
        ensures { result ≡ length self.now }
    {
        self.vec.len()
    }

    /// Whether there are no values.
    pub fn is_empty(&self) -> bool
        ensures { result ≡ (length self.now == 0) }
    {
        self.vec.is_empty()
    }

    /// The vector that holds the values. No memory is taken.
    pub fn into_vec(self) -> Vec<T>
        ensures { result.items ≡ self }
    {
        let Sequence { vec } = self;
        vec
    }
}

/// The values of a vector. No memory is taken.
impl<T> From<Vec<T>> for Sequence<T> {
    ghost from_gives = { λ vec sequence. sequence ≡ vec.items };

    fn from(vec: Vec<T>) -> Sequence<T> {
        Sequence { vec }
    }
}
