ghost use Rattle.std.specs.Prelude.{◌≡◌, ◌↔◌, ◌+◌, ◌-◌, ◌≤◌, ℕ, List, [], ◌∷◌, ◌++◌, length, map, take, drop, Some, None, Ok};
ghost use Rattle.zk_dns.specs.declared.bound.Bound.{Bound};
ghost use Rattle.zk_dns.specs.declared.tcp.DnsStep.TheVariants.{More, One};
ghost use Rattle.zk_dns.specs.Name.{IsName, name_at};
ghost use Rattle.zk_base.specs.Places.{Place};
ghost use Rattle.zk_dns.specs.Stream.{Gap, Message as MessageUnit, TcpUnit, step_of, units, units_from};

/// What names are, in the subject's own words. There is nothing to run.
pub fn names()
    // What is read at a place is the name that stands there, and there is no other.
    ensures read { (bytes : List ℕ) (bound : Bound) (place : ℕ) (labels : List (List ℕ)) (next : ℕ) → bound.end ≤ length bytes
        → (IsName bytes bound.end place labels next) ↔ (name_at bytes bound place ≡ Ok (record { labels = labels; next = next })) }

    // A name that stands in the front of a message is the same whatever stands behind that front.
    ensures front { (front more : List ℕ) (end place : ℕ) (labels : List (List ℕ)) (next : ℕ) → end ≤ length front
        → IsName front end place labels next → IsName (front ++ more) end place labels next }
{}

/// What a side of DNS over TCP gives, in the subject's own words. There is nothing to run.
pub fn tcp_units()
    // What the front of a side gives is given again, in the same places, when more of it is there.
    ensures given_again { (places more : List Place) → (rest : List TcpUnit) × (units (places ++ more) ≡ units places ++ rest) }

    // A step tells the next unit, from the bytes behind the last one.
    ensures message { (place : ℕ) (bytes : List ℕ) (more : List Place) (used from to : ℕ) → step_of bytes ≡ One used from to
        → units_from place (map (λ byte. Some byte) bytes ++ more)
        ≡ MessageUnit (place + used) (take (to - from) (drop from bytes))
        ∷ units_from (place + used) (map (λ byte. Some byte) (drop used bytes) ++ more) }
    ensures waits { (place : ℕ) (bytes : List ℕ) → step_of bytes ≡ More → units_from place (map (λ byte. Some byte) bytes) ≡ [] }
    ensures gap { (place : ℕ) (bytes : List ℕ) (more : List Place) → step_of bytes ≡ More
        → units_from place (map (λ byte. Some byte) bytes ++ None ∷ more) ≡ Gap (place + length bytes) ∷ [] }
{}
