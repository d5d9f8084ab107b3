// What is the same, and what is due first, in the subject's own words.
ghost use Rattle.std.specs.Prelude.{◌≡◌, ◌↔◌, ℕ, true, false, List, Option, Some, None, All, Any};
ghost use Rattle.zk_base.specs.declared.time.Moment.{Moment};
ghost use Rattle.zk_tree.specs.Table.{Entry, first_due, is_before, turn_of};
ghost use Rattle.zk_tree.specs.Value.{Value, same, same_key};

/// Values are the same where they are equal, and so are keys. There is nothing to run.
pub fn equal_values()
    ensures values { (a b : Value) → (same a b ≡ true) ↔ (a ≡ b) }
    ensures keys { (a b : List Value) → (same_key a b ≡ true) ↔ (a ≡ b) }
{}

/// The first due of a table's entries. There is nothing to run.
pub fn first_dues()
    // It is the turn of one of the entries.
    ensures among { (entries : List Entry) (turn : Moment × ℕ) → first_due entries ≡ Some turn → Any (λ entry. turn_of entry ≡ Some turn) entries }

    // No entry's turn comes before it.
    ensures least { (entries : List Entry) (turn : Moment × ℕ) → first_due entries ≡ Some turn
        → All (λ entry. (other : Moment × ℕ) → turn_of entry ≡ Some other → is_before other turn ≡ false) entries }

    // Where there is none, no entry has a due.
    ensures none { (entries : List Entry) → first_due entries ≡ None → All (λ entry. entry.due ≡ None) entries }
{}
