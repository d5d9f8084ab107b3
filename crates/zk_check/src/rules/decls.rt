ghost use Rattle.std.specs.Prelude.{◌≡◌, ◌||◌, ℕ, List, [], map, IfOk, OnOk};
ghost use Rattle.std.specs.HashSet.{contains};
ghost use Rattle.std.specs.Str.{bytes_eq};
ghost use Rattle.zk_tree.specs.declared.decl.Decl.{out-Decl};
ghost use Rattle.zk_typed.specs.Errors as spec;
ghost use Rattle.zk_typed.specs.LoadOrder.{Stated as AtStated};
ghost use Rattle.zk_typed.specs.Tells.{Tells};
ghost use Rattle.zk_scope.specs.Lent.{declared_lent, home_of, stated_of};
ghost use Rattle.zk_scope.specs.Scripted.{scripts_in};
ghost use Rattle.zk_scope.specs.Fields.{stated_fields};
ghost use Rattle.zk_check_operators.specs.Gather.{Told};
ghost use Rattle.zk_typed.specs.Declarations.{is_one_of};
ghost use Rattle.zk_typed.specs.Names.{whole_name};
ghost use Rattle.zk_check_declarations.specs.Adding.{has_field};
ghost use Rattle.zk_check.specs.Bodied.{IsBodied};
ghost use Rattle.zk_check.specs.Earlier.{HasBodies, IsEarlier, type_decl, variable_decl};
ghost use Rattle.zk_check_declarations.specs.Seeing.{Sees};

use crate::rules::bodies::{Bodied, Body};
use std::alloc::Global;
use zk_base::Mem;
use zk_check_declarations::{Declaration, FieldNames, Paths, Seen, own_names};
use zk_check_operators::also;
use zk_names::{names, outright_name};
use zk_scope::{Declared, Home, Names, Stated, place_in, whole_name};
use zk_tree::{Decl, Name, Type};
use zk_typed::Refusal;

/// What the declarations before one have declared.
#[derive(Drop)]
pub struct Earlier {
    /// All names.
    pub declared: Seen,
    /// The whole names of functions that have a body.
    pub bodies: Seen,
    /// The fields of the record types.
    pub fields: FieldNames,
    /// The paths of logs.
    pub paths: Paths,
}

/// Meets names.
fn meet_all(alloc: Global, declared: &[Declared<'_>], seen: &mut Seen) -> Result<(), Mem>
    ensures { OnOk result ((name : List ℕ) → contains bytes_eq seen.new.names name ≡ contains bytes_eq seen.old.names name || is_one_of (map (λ one. one.name) (declared_lent declared.now)) name) }
{
    for one in declared {
        seen.add(alloc, &one.name)?;
    }
    Ok(())
}

/// The predefined names, which are declared where there are no scripts.
fn predefined(alloc: Global) -> Result<Seen, Mem>
    ensures { IfOk result (λ seen. Sees seen (spec.declared_before [])) }
{
    let none = names(alloc, &[])?;
    let mut seen = Seen::new(alloc);
    meet_all(alloc, none.declared(), &mut seen)?;
    Ok(seen)
}

impl Earlier {
    /// Before any declaration the predefined names are declared.
    pub fn new(alloc: Global, names: &Names<'_>) -> Result<Earlier, Mem>
        ensures { IfOk result (λ earlier. IsEarlier earlier (scripts_in names.now) []) }
    {
        let declared = predefined(alloc)?;
        let fields = own_names(alloc, names)?;
        let bodies = Seen::new(alloc);
        let paths = Paths::new(alloc);
        Ok(Earlier {
            declared,
            bodies,
            fields,
            paths,
        })
    }
}

impl<'a> Bodied<'a> {
    /// The rules of a declared type.
    fn type_decl(&self, home: Home<'a>, name: &Name, tree: &Type) -> Result<(), Refusal>
        requires { IsBodied self.now }
        ensures { Tells (λ done. done) result (type_decl (scripts_in self.now.valued.ground.names.now) (home_of home.entry) name.now tree.now) }
    {
        let ground = &self.valued.ground;
        let whole = whole_name(ground.alloc, home.module_name, name.text.as_slice())?;
        let rules = ground.type_rules(home, tree);
        let circle = ground.recursive_rules(home, whole.as_slice(), tree);
        also(rules, circle)
    }

    /// The rules of a declaration of a value, or of an event, a hook or a function, which is made of these.
    fn variable_decl(&self, one: Stated<'a>, declaration: &Declaration<'a>) -> Result<(), Refusal>
        requires bodied { IsBodied self.now }
        requires home { declaration.now.home ≡ one.home }
        ensures { Tells (λ done. done) result (variable_decl (scripts_in self.now.valued.ground.names.now) (stated_of one.entry) declaration.now.place declaration.now.tree.now declaration.now.init.now declaration.now.attrs.now) }
    {
        match outright_name(self.valued.ground.alloc, one)? {
            Some(declared) => self.valued.variable_rules(declaration, &declared),
            None => Ok(()),
        }
    }
}

impl<'a> Bodied<'a> {
    /// The rules of a function body. Its whole name is known besides.
    fn function_decl(
        &self,
        body: &Body<'a>,
        result_type: &'a Option<Type>,
        bodies: &mut Seen,
    ) -> Result<(), Refusal>
        requires { IsBodied self.now }
        ensures known { Told result → (whole : List ℕ) → contains bytes_eq bodies.new.names whole ≡ contains bytes_eq bodies.old.names whole || bytes_eq (whole_name body.now.home.module_name.now body.now.name.now.text) whole }
        ensures rules { (before : List AtStated) → HasBodies bodies.old before → Tells (λ done. done) result (spec.function_rules (scripts_in self.now.valued.ground.names.now) before (home_of body.now.home) body.now.place body.now.name.now body.now.params.now result_type.now body.now.block.now) }
    {
        let alloc = self.valued.ground.alloc;
        let text = body.name.text.as_slice();
        let whole = whole_name(alloc, body.home.module_name, text)?;
        let twice = bodies.add(alloc, whole.as_slice())?;
        self.function_rules(body, result_type, whole.as_slice(), twice)
    }

    /// The rules of a declaration, by what the ones before it have declared. What it adds is known besides.
    pub fn decl_rules(&self, one: Stated<'a>, earlier: &mut Earlier) -> Result<(), Refusal>
        requires { IsBodied self.now }
        ensures declared { earlier.new.declared ≡ earlier.old.declared }
        ensures paths { earlier.new.paths ≡ earlier.old.paths }
        ensures bodies { Told result → (whole : List ℕ) → contains bytes_eq earlier.new.bodies.names whole ≡ contains bytes_eq earlier.old.bodies.names whole || spec.is_body_of whole (stated_of one.entry) }
        ensures fields { Told result → (number : ℕ) (text : List ℕ) → has_field earlier.new.fields number text ≡ has_field earlier.old.fields number text || is_one_of (spec.field_names (stated_fields (scripts_in self.now.valued.ground.names.now) number (stated_of one.entry))) text }
        ensures rules { (before : List AtStated) → IsEarlier earlier.old (scripts_in self.now.valued.ground.names.now) before
            → Tells (λ done. done) result (spec.decl_rules (scripts_in self.now.valued.ground.names.now) before (home_of one.entry.home) (out-Decl one.entry.decl.now)) }
    {
        let home = one.home;
        let ground = &self.valued.ground;
        match one.decl {
            Decl::Variable {
                place,
                lasting: _,
                name: _,
                variable_type,
                init,
                attrs,
            } => {
                let declaration = Declaration {
                    home,
                    place: place_in(home, *place),
                    tree: variable_type,
                    init,
                    attrs: attrs.as_slice(),
                };
                self.variable_decl(one, &declaration)
            }
            Decl::Redef {
                place,
                name,
                operator,
                init,
            } => {
                let place = place_in(home, *place);
                self.valued.redef_rules(home, place, name, *operator, init)
            }
            Decl::Type {
                place: _,
                name,
                meant,
            } => self.type_decl(home, name, meant),
            Decl::RedefEnum {
                place: _,
                name,
                words: _,
                comma: _,
            } => ground.redef_enum(home, name),
            Decl::RedefRecord {
                place: _,
                name,
                fields,
            } => ground.redef_record(home, name, fields.as_slice(), &mut earlier.fields),
            Decl::Body {
                place,
                kind,
                name,
                params,
                attrs,
                body,
            } => {
                let body = Body {
                    home,
                    place: place_in(home, *place),
                    name,
                    params: params.as_slice(),
                    block: body,
                };
                self.event_rules(*kind, &body, attrs.as_slice())
            }
            Decl::Function {
                place,
                name,
                params,
                result_type,
                body,
            } => {
                let body = Body {
                    home,
                    place: place_in(home, *place),
                    name,
                    params: params.as_slice(),
                    block: body,
                };
                self.function_decl(&body, result_type, &mut earlier.bodies)
            }
            Decl::Module { .. } | Decl::Export { .. } | Decl::Load { .. } => Ok(()),
        }
    }
}
