ghost use Rattle.std.specs.Prelude.{◌≡◌};

use std::marker::Model;

/// A list of values that owns its memory and is compared by its values. Contracts see it as a list.
#[derive(Debug, Drop)]
pub struct Series<T> {
    vec: Vec<T>,
}

impl<T> Model for Series<T> {
    ghost use Rattle.std.specs.Prelude.{List};

    ghost Value = { List T };

    ghost view = { λ series. series.vec.items };
}

impl<T> Series<T> {
    /// The values, lent.
    pub fn as_slice(&self) -> &[T]
        ensures { result.now ≡ self.now }
    {
        &self.vec
    }

    /// The vector that holds the values. No memory is taken.
    pub fn into_vec(self) -> Vec<T>
        ensures { result.items ≡ self }
    {
        let Series { vec } = self;
        vec
    }
}

/// The values of a vector. No memory is taken.
impl<T> From<Vec<T>> for Series<T> {
    ghost from_gives = { λ vec series. series ≡ vec.items };

    fn from(vec: Vec<T>) -> Series<T> {
        Series { vec }
    }
}

impl<T: PartialEq> PartialEq for Series<T> {
    ghost use Rattle.std.specs.Cmp.Lexicographic.{pointwise, lists_per};

    ghost eq = { pointwise T.eq };

    ghost laws = { lists_per T.laws };

    fn eq(&self, other: &Series<T>) -> bool {
        self.vec == other.vec
    }
}

impl<T: Eq> Eq for Series<T> {
    ghost use Rattle.std.specs.Cmp.Lexicographic.{lists_equiv};

    ghost laws = { lists_equiv T.Eq.laws };
}
