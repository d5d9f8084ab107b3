ghost use Rattle.std.specs.Prelude.{◌≡◌, [], ◌∷◌, ◌++◌, ℕ, List, None, map, IfOk, OnOk};
ghost use Rattle.std.specs.Str.{bytes_eq};
ghost use Rattle.zk_typed.specs.Names.{count_before};

use crate::first_places::FirstPlaces;
use crate::predefined::KnownField;
use crate::whole::Whole;
use std::alloc::Global;
use zk_base::Mem;
use zk_tree::Field;

/// Where a field stands: in its record type's own text, or in that of the declaration of `redef record` at a
/// place among the declarations; and at which place there, from 0.
#[derive(Clone, Copy, PartialEq, Eq)]
pub struct FieldPlace {
    pub added: Option<usize>,
    pub at: usize,
}

/// The fields of a record type: where they stand, and which is the first of a name.
#[derive(Drop)]
pub struct RecordFields {
    pub places: Vec<FieldPlace>,
    pub names: FirstPlaces<Whole>,
}

impl RecordFields {
    ghost use Rattle.zk_scope.specs.declared.field_places.FieldPlace.{FieldPlace as Place};
    ghost use Rattle.zk_scope.specs.FieldPlaces.{HasPlaces, field_name, known_name, places_from};

    /// No fields.
    pub fn new(alloc: Global) -> RecordFields
        ensures { HasPlaces result [] [] }
    {
        RecordFields {
            places: Vec::new(alloc),
            names: FirstPlaces::new(alloc),
        }
    }

    /// Adds a field at the end.
    pub fn add(&mut self, alloc: Global, place: FieldPlace, name: &[u8]) -> Result<(), Mem>
        ensures { OnOk result ((places : List Place) (names : List (List ℕ)) → HasPlaces self.old places names → HasPlaces self.new (places ++ place ∷ []) (names ++ name.now ∷ [])) }
    {
        let name = Whole::copy_of(alloc, name)?;
        self.places.reserve(1)?;
        self.names.add(name)?;
        let Ok(()) = self.places.push(place) else {
            unreachable!()
        };
        Ok(())
    }

    /// Adds the fields of a text.
    pub fn add_written(
        &mut self,
        alloc: Global,
        added: Option<usize>,
        fields: &[Field],
    ) -> Result<(), Mem>
        ensures { OnOk result ((places : List Place) (names : List (List ℕ)) → HasPlaces self.old places names → HasPlaces self.new (places ++ places_from added 0 fields.now) (names ++ map field_name fields.now)) }
    {
        for (at, field) in fields.iter().enumerate() {
            self.add(alloc, FieldPlace { added, at }, field.name.text.as_slice())?;
        }
        Ok(())
    }

    /// Adds predefined fields.
    pub fn add_known(&mut self, alloc: Global, fields: &[KnownField]) -> Result<(), Mem>
        ensures { OnOk result ((places : List Place) (names : List (List ℕ)) → HasPlaces self.old places names → HasPlaces self.new (places ++ places_from None 0 fields.now) (names ++ map known_name fields.now)) }
    {
        for (at, field) in fields.iter().enumerate() {
            self.add(alloc, FieldPlace { added: None, at }, field.name)?;
        }
        Ok(())
    }

    /// The number of the first field of a name, or how many fields there are.
    pub fn number(&self, alloc: Global, name: &[u8]) -> Result<u32, Mem>
        ensures { IfOk result (λ number. (places : List Place) (names : List (List ℕ)) → HasPlaces self.now places names → number ≡ count_before (λ other. bytes_eq other name.now) names) }
    {
        let name = Whole::copy_of(alloc, name)?;
        Ok(self.names.number(&name))
    }
}
