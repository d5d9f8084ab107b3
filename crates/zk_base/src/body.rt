ghost use Rattle.std.specs.Prelude.{◌≡◌, ℕ, List, ◌++◌};

/// What takes the bytes of a message's body, piece by piece and in their order.
///
/// A value stands for lists of bytes: those that it may have been given. What else it holds isn't
/// changed by a piece.
pub trait Body {
    /// What the value holds beside what the bytes change.
    ghost Rest: { Type 0 } = { Unit {0} };

    ghost rest: { Self → Self.Rest };

    /// The value was given these bytes.
    ghost stands_for: { Self → List ℕ → Type 0 };

    /// Takes the next bytes.
    fn add(&mut self, bytes: &[u8])
        ensures added { (body : List ℕ) → Self.stands_for self.old body → Self.stands_for self.new (body ++ bytes.now) }
        ensures rest { Self.rest self.new ≡ Self.rest self.old };
}

/// A body that goes nowhere.
#[derive(Clone, Copy, Debug)]
pub struct Nowhere;

impl Body for Nowhere {
    ghost rest = { λ _. record {} };

    ghost stands_for = { λ _ _. Unit {0} };

    fn add(&mut self, _: &[u8]) {}
}
