ghost use Rattle.std.specs.Prelude.{◌≡◌, ◌||◌, ◌&&◌, ◌==◌, ℕ, List, false, Ok, OnOk, IfOk};
ghost use Rattle.std.specs.Str.{bytes_eq};
ghost use Rattle.zk_tree.specs.declared.types.Field.{out-Field};
ghost use Rattle.zk_typed.specs.Checked.{Checked, broken};
ghost use Rattle.zk_typed.specs.declared.rule.Rule.TheVariants as rule;
ghost use Rattle.zk_typed.specs.Declarations.{fields_rules, is_one_of};
ghost use Rattle.zk_typed.specs.Errors as spec;
ghost use Rattle.zk_typed.specs.Making.{is_container};
ghost use Rattle.zk_typed.specs.Resolving as resolving;
ghost use Rattle.zk_typed.specs.Tells.{Tells};
ghost use Rattle.zk_typed.specs.Types as typed;
ghost use Rattle.zk_typed.specs.View.{type_of};
ghost use Rattle.zk_scope.specs.Fields.{fields_lent};
ghost use Rattle.zk_scope.specs.Lent.{home_of};
ghost use Rattle.zk_scope.specs.Scripted.{scripts_in};
ghost use Rattle.zk_check_operators.specs.Gather.{Told};
ghost use Rattle.zk_check_declarations.specs.Adding.{HasFields, KnowsAll, added_field, field_texts, has_field, is_free};
ghost use Rattle.zk_check_declarations.specs.Grounds.{IsGround};

use crate::edges::all_records;
use crate::fields::field_rules;
use crate::ground::Ground;
use crate::groups::Groups;
use crate::heights::Limit;
use crate::told::require;
use std::alloc::Global;
use zk_base::{Mem, RecordNo};
use zk_check_operators::also;
use zk_scope::{FieldInfo, Home, Names, has_attr, place_in};
use zk_tree::{Field, Name};
use zk_typed::script::{SimpleType, ValueType};
use zk_typed::{Refusal, Rule, one_broken};

/// How many record types are predefined.
const PREDEFINED: u32 = 8;

/// The names of the fields of record types.
#[derive(Drop)]
pub struct FieldNames {
    /// By the names of fields, the numbers of the record types that have them.
    records: Groups<u32>,
}

impl FieldNames {
    /// No fields.
    fn new(alloc: Global) -> FieldNames
        ensures { (owner : ℕ) (name : List ℕ) → has_field result owner name ≡ false }
    {
        FieldNames {
            records: Groups::new(alloc),
        }
    }

    /// Whether a record type has a field.
    fn has(&self, alloc: Global, owner: u32, name: &[u8]) -> Result<bool, Mem>
        ensures { IfOk result (λ has. has ≡ has_field self.now owner name.now) }
    {
        let records = self.records.of(alloc, name)?;
        Ok(records.iter().any(|other| *other == owner))
    }

    /// Adds a field to a record type.
    fn add(&mut self, alloc: Global, owner: u32, name: &[u8]) -> Result<(), Mem>
        ensures { OnOk result ((number : ℕ) (other : List ℕ) → has_field self.new number other ≡ has_field self.old number other || (owner == number && bytes_eq name.now other)) }
    {
        self.records.add(alloc, name, owner)?;
        Ok(())
    }
}

/// Adds fields to a record type.
fn add_all(
    alloc: Global,
    owner: u32,
    fields: &[FieldInfo<'_>],
    known: &mut FieldNames,
) -> Result<(), Mem>
    ensures { OnOk result ((number : ℕ) (name : List ℕ) → has_field known.new number name ≡ has_field known.old number name || (owner == number && is_one_of (spec.field_names (fields_lent fields.now)) name)) }
{
    for field in fields {
        known.add(alloc, owner, field.name)?;
    }
    Ok(())
}

/// Adds the fields of a record type's own text.
fn add_own(alloc: Global, names: &Names<'_>, owner: u32, known: &mut FieldNames) -> Result<(), Mem>
    ensures { OnOk result ((number : ℕ) (name : List ℕ) → has_field known.new number name ≡ has_field known.old number name || (owner == number && is_one_of (spec.field_names (resolving.own_fields (scripts_in names.now) owner)) name)) }
{
    let fields = names.own_fields(alloc, RecordNo(owner))?;
    add_all(alloc, owner, &fields, known)?;
    Ok(())
}

/// The fields of the record types' own texts.
pub fn own_names(alloc: Global, names: &Names<'_>) -> Result<FieldNames, Mem>
    ensures { IfOk result (λ known. (number : ℕ) (name : List ℕ) → has_field known number name ≡ is_one_of (spec.field_names (resolving.own_fields (scripts_in names.now) number)) name) }
{
    let count = all_records(names)?;
    let mut known = FieldNames::new(alloc);
    for owner in 0..count {
        add_own(alloc, names, owner, &mut known)?;
    }
    Ok(known)
}

/// Whether a value of a type is a container; that of a type that is broken may be one.
fn is_container(one: &Result<ValueType, Refusal>) -> Result<bool, Mem>
    ensures { IfOk result (λ made. (checked : Checked typed.ValueType) → Tells type_of one.now checked → made ≡ is_container checked) }
{
    match one {
        Ok(ValueType::Simple(_)) | Ok(ValueType::Record(_)) => Ok(false),
        Ok(ValueType::Table { .. }) | Ok(ValueType::Set { .. }) | Ok(ValueType::Vector { .. }) => {
            Ok(true)
        }
        Err(Refusal::Broken(_)) => Ok(true),
        Err(Refusal::NoMemory) => Err(Mem),
    }
}

impl Ground<'_> {
    /// Whether a field that is added needn't be given.
    fn is_free(&self, home: Home<'_>, field: &Field) -> Result<bool, Mem>
        ensures { IfOk result (λ free. free ≡ is_free (scripts_in self.now.names.now) (home_of home.entry) field.now) }
    {
        let attrs = field.attrs.as_slice();
        let one = self.names.type_of(self.alloc, home, &field.field_type);
        let made = is_container(&one)?;
        Ok(has_attr(attrs, b"optional") || has_attr(attrs, b"default") || made)
    }

    /// The rule of a field that is added to a predefined record type: it needn't be given.
    fn added_rules(&self, home: Home<'_>, owner: u32, field: &Field) -> Result<(), Refusal>
        ensures { Tells (λ done. done) result (spec.added_rules (scripts_in self.now.names.now) (home_of home.entry) owner field.now) }
    {
        let free = self.is_free(home, field)?;
        let place = place_in(home, field.name.place);
        require(self.alloc, owner >= PREDEFINED || free, Rule::Field, place)
    }

    /// The rules of a field that is added to a record type; `twice` says whether the record type has one of
    /// its name.
    fn added_field(
        &self,
        home: Home<'_>,
        owner: u32,
        twice: bool,
        field: &Field,
    ) -> Result<(), Refusal>
        requires { IsGround self.now }
        ensures { (before : List (List ℕ)) → twice ≡ is_one_of before (out-Field field.now).name.text → Tells (λ done. done) result (added_field (scripts_in self.now.names.now) owner (home_of home.entry) before field.now) }
    {
        let own = field_rules(self, home, twice, field);
        let parts = self.parts_rules(Limit::Added, home, &field.field_type);
        let added = self.added_rules(home, owner, field);
        also(also(own, parts), added)
    }

    /// The rules of fields that are added to a record type. They are known besides.
    fn added_fields(
        &self,
        home: Home<'_>,
        owner: u32,
        fields: &[Field],
        known: &mut FieldNames,
    ) -> Result<(), Refusal>
        requires { IsGround self.now }
        ensures rules { (before : List (List ℕ)) → HasFields owner known.old before → Tells (λ done. done) result (fields_rules (added_field (scripts_in self.now.names.now) owner) (home_of home.entry) before fields.now) }
        ensures known { Told result → (number : ℕ) (name : List ℕ) → has_field known.new number name ≡ has_field known.old number name || (owner == number && is_one_of (field_texts fields.now) name) }
    {
        let mut rules = Ok(());
        for field in fields {
            let name = field.name.text.as_slice();
            let twice = known.has(self.alloc, owner, name)?;
            known.add(self.alloc, owner, name)?;
            let one = self.added_field(home, owner, twice, field);
            rules = also(rules, one);
        }
        rules
    }
}

impl Ground<'_> {
    /// The rule that the name behind `redef record` or `redef enum` names another type.
    fn wrong_named(&self, home: Home<'_>, name: &Name) -> Result<(), Refusal>
        ensures { Tells (λ done. done) result (broken rule.WrongType (resolving.place_in (home_of home.entry) name.now.place)) }
    {
        let place = place_in(home, name.place);
        Err(Refusal::Broken(one_broken(self.alloc, Rule::WrongType, place)?))
    }

    /// The rules of `redef record` of a type. The fields are known besides.
    fn redef_type(
        &self,
        home: Home<'_>,
        name: &Name,
        fields: &[Field],
        one: &ValueType,
        known: &mut FieldNames,
    ) -> Result<(), Refusal>
        requires { IsGround self.now }
        ensures rules { (before : resolving.Scripts) → KnowsAll known.old before → Tells (λ done. done) result (spec.redef_record_rules (scripts_in self.now.names.now) before (home_of home.entry) name.now fields.now (Ok (type_of one.now))) }
        ensures known { Told result → (number : ℕ) (text : List ℕ) → has_field known.new number text ≡ has_field known.old number text || (resolving.is_that number (Ok (type_of one.now)) && is_one_of (field_texts fields.now) text) }
    {
        match one {
            ValueType::Record(owner) => self.added_fields(home, owner.0, fields, known),
            ValueType::Simple(_)
            | ValueType::Table { .. }
            | ValueType::Set { .. }
            | ValueType::Vector { .. } => self.wrong_named(home, name),
        }
    }

    /// The rules of `redef record`. The fields are known besides.
    pub fn redef_record(
        &self,
        home: Home<'_>,
        name: &Name,
        fields: &[Field],
        known: &mut FieldNames,
    ) -> Result<(), Refusal>
        requires { IsGround self.now }
        ensures rules { (before : resolving.Scripts) → KnowsAll known.old before → Tells (λ done. done) result (spec.redef_record_rules (scripts_in self.now.names.now) before (home_of home.entry) name.now fields.now (resolving.type_named (scripts_in self.now.names.now) (home_of home.entry) name.now)) }
        ensures known { Told result → (number : ℕ) (text : List ℕ) → has_field known.new number text ≡ has_field known.old number text || (resolving.is_that number (resolving.type_named (scripts_in self.now.names.now) (home_of home.entry) name.now) && is_one_of (field_texts fields.now) text) }
    {
        match self.names.type_named(self.alloc, home, name) {
            Ok(one) => self.redef_type(home, name, fields, &one, known),
            Err(refusal) => Err(refusal),
        }
    }

    /// The rules of `redef enum`.
    #[tactic(auto, using(crate::proofs::RuleLaws::type_passed))]
    pub fn redef_enum(&self, home: Home<'_>, name: &Name) -> Result<(), Refusal>
        ensures { Tells (λ done. done) result (spec.redef_enum_rules (scripts_in self.now.names.now) (home_of home.entry) name.now) }
    {
        match self.names.type_named(self.alloc, home, name) {
            Ok(ValueType::Simple(SimpleType::Enum(_))) => Ok(()),
            Ok(ValueType::Simple(_))
            | Ok(ValueType::Record(_))
            | Ok(ValueType::Table { .. })
            | Ok(ValueType::Set { .. })
            | Ok(ValueType::Vector { .. }) => self.wrong_named(home, name),
            Err(refusal) => Err(refusal),
        }
    }
}
