ghost use Rattle.std.specs.Prelude.{◌≡◌, ℕ, ◌+◌, ◌%◌, ◌^◌, ◌<◌, ◌≤◌, true, false, List, [], ◌∷◌, ◌++◌, length, Some};
ghost use Rattle.zk_reasm.specs.Direction.{above};
ghost use Rattle.zk_reasm.specs.Histories.{over_of, ended_of, front_of, byte_of_stream};
ghost use Rattle.zk_reasm.specs.Told.{Told, Segment};
ghost use Rattle.zk_reasm.specs.Views.{SameView, ends_in_fin};

/// What a direction put together is, in the subject's own words. There is nothing to run.
pub fn stream_laws()
    // The front never falls.
    ensures front { (base limit : ℕ) (told more : List Told) → front_of base limit told ≤ front_of base limit (told ++ more) }

    // Of two copies of a byte the first stands: what has a place is never changed by anything that is told later.
    ensures first { (base limit at byte : ℕ) (told more : List Told) → byte_of_stream base limit told at ≡ Some byte
        → byte_of_stream base limit (told ++ more) at ≡ Some byte }

    // What is over stays so.
    ensures over { (base limit : ℕ) (told more : List Told) → over_of base limit told ≡ true → over_of base limit (told ++ more) ≡ true }

    // What lies below the front never changes, be it a byte or a gap.
    ensures below { (base limit at : ℕ) (told more : List Told) → at < front_of base limit told
        → byte_of_stream base limit (told ++ more) at ≡ byte_of_stream base limit told at }

    // Behind the end nothing comes: the front stays, and the end.
    ensures ended { (base limit : ℕ) (told more : List Told) → ended_of base limit told ≡ true
        → (front_of base limit (told ++ more) ≡ front_of base limit told) × (ended_of base limit (told ++ more) ≡ true) }

    // How a run of bytes is cut into segments changes nothing, where nothing gives up in between, and where what was told before
    // doesn't end in a FIN, which is told ahead of its own segment alone.
    ensures cut { (base limit seq : ℕ) (first rest : List ℕ) (told : List Told) → base < 2 ^ 32 → seq < 2 ^ 32 → length first + length rest ≤ 65535
        → ends_in_fin told ≡ false → above base (told ++ Segment seq first ∷ []) ≤ limit
        → SameView base limit (told ++ Segment seq (first ++ rest) ∷ [])
        (told ++ Segment seq first ∷ [] ++ Segment ((seq + length first) % 2 ^ 32) rest ∷ []) }
{}
