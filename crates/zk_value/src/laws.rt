// What is equal, and where tables stand, in the subject's own words.
ghost use Rattle.std.specs.Prelude.{◌≡◌, ◌<◌, ◌↔◌, ℕ, true, [], ◌∷◌, ◌++◌, List, None, Some, length, slice_get, slice_set};
ghost use Rattle.zk_tree.specs.Store as object;
ghost use Rattle.zk_tree.specs.Store.{Object};
ghost use Rattle.zk_tree.specs.Table.{Table};
ghost use Rattle.zk_value.specs.Objects.{Objects, change_object, table_place, tables_in, with_tables};
ghost use Rattle.zk_value.specs.Plain.{key_of};
ghost use Rattle.zk_value.specs.contracts.key.KeyPartialEq.TheImpl as key_eq;
ghost use Rattle.zk_value.specs.declared.value.Value.{Value};

/// Keys are equal exactly where their values are. There is nothing to run.
pub fn equal_keys()
    ensures { (a b : List Value) → ((key_eq.ghosts).eq a b ≡ true) ↔ (key_of a ≡ key_of b) }
{}

/// Sets and tables that stand elsewhere, in the order of their numbers, and the other objects of a
/// store make one list of objects. There is nothing to run.
pub fn tables_in_their_places()
    // No number is lost.
    ensures lengths { (objects : Objects) (tables : List Table) → length (with_tables objects tables) ≡ length objects }
    // A record or a vector is found, changed and added in the store.
    ensures object { (objects : Objects) (tables : List Table) (number : ℕ) (one : Object) → slice_get objects number ≡ Some (Some one)
        → slice_get (with_tables objects tables) number ≡ Some one }
    ensures changed { (objects : Objects) (tables : List Table) (number : ℕ) (one : Object) (change : Object → Object) → slice_get objects number ≡ Some (Some one)
        → with_tables (change_object change number objects) tables ≡ slice_set (with_tables objects tables) number (change one) }
    ensures added { (objects : Objects) (tables : List Table) (one : Object)
        → with_tables (objects ++ Some one ∷ []) tables ≡ with_tables objects tables ++ one ∷ [] }
    // A set or a table is found, changed and added at its place among the tables.
    ensures placed { (objects : Objects) (number place : ℕ) → table_place objects number ≡ Some place → place < tables_in objects }
    ensures table { (objects : Objects) (tables : List Table) (number place : ℕ) (one : Table) → table_place objects number ≡ Some place
        → slice_get tables place ≡ Some one → slice_get (with_tables objects tables) number ≡ Some (object.Table one) }
    ensures table_changed { (objects : Objects) (tables : List Table) (number place : ℕ) (one : Table) → table_place objects number ≡ Some place
        → place < length tables → with_tables objects (slice_set tables place one) ≡ slice_set (with_tables objects tables) number (object.Table one) }
    ensures table_added { (objects : Objects) (tables : List Table) (one : Table) → tables_in objects ≡ length tables
        → with_tables (objects ++ None ∷ []) (tables ++ one ∷ []) ≡ with_tables objects tables ++ object.Table one ∷ [] }
    ensures tables_of_object { (objects : Objects) (one : Object) → tables_in (objects ++ Some one ∷ []) ≡ tables_in objects }
    ensures tables_of_change { (objects : Objects) (number : ℕ) (change : Object → Object) → tables_in (change_object change number objects) ≡ tables_in objects }
{}
