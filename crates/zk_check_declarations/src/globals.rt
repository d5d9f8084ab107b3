ghost use Rattle.std.specs.Prelude.{◌≡◌, ◌∷◌, map, IfOk};
ghost use Rattle.std.specs.List.{list_all};
ghost use Rattle.std.specs.Option.{option_map};
ghost use Rattle.std.specs.Str.{bytes_eq};
ghost use Rattle.zk_typed.specs.Declarations as spec;
ghost use Rattle.zk_typed.specs.Resolving.{Scripts};
ghost use Rattle.zk_typed.specs.Tells.{Tells};
ghost use Rattle.zk_typed.specs.Types as typed;
ghost use Rattle.zk_typed.specs.View.{type_of};
ghost use Rattle.zk_scope.specs.Lent.{declared_of, home_of, signature_of};
ghost use Rattle.zk_scope.specs.Scripted.{scripts_in};
ghost use Rattle.zk_check_declarations.specs.Attributing.{attr_value, expire_call, expire_named, expire_params, gives_interval, item_type, made_by};
ghost use Rattle.zk_check_declarations.specs.Grounds.{IsGround};
ghost use Rattle.zk_check_declarations.specs.Valuing.{IsValues, given_lent, given_of};

use crate::ground::Ground;
use crate::told::{dropped, require};
use crate::values::{Given, Values};
use std::alloc::Global;
use zk_base::Mem;
use zk_check_operators::{
    Attributes, attr_rules, global_attribute, is_made, same_type, same_types,
};
use zk_scope::{Declared, Home, Meant, Signature, place_in};
use zk_tree::{Attr, Expr, Lasting, Place, Redefining};
use zk_typed::script::{SimpleType, ValueType};
use zk_typed::{Refusal, Rule, copied_type, one_broken};

/// The type of intervals.
const INTERVAL: ValueType = ValueType::Simple(SimpleType::Interval);

/// The attributes of a global or a constant.
#[derive(Drop)]
struct GlobalAttributes<'a> {
    ground: Ground<'a>,
    home: Home<'a>,
    lasting: Lasting,
    /// Whether each value that it is given makes a table or a set.
    made: bool,
    value_type: &'a ValueType,
}

/// Whether two names are the same.
pub fn is_name(one: &[u8], other: &[u8]) -> bool
    ensures { result ≡ bytes_eq one.now other.now }
{
    one == other
}

/// Whether a value makes a table or a set, unless it is added to another.
fn well_made(one: &Given<'_>) -> bool
    ensures { result ≡ made_by (given_of one.now) }
{
    match one.operator {
        Redefining::Set => is_made(one.init),
        Redefining::Add => true,
    }
}

/// Whether each value makes a table or a set, unless it is added to another.
fn all_made(given: &[Given<'_>]) -> bool
    ensures { result ≡ list_all (λ one. made_by (given_of one)) given.now }
{
    for one in given {
        if !well_made(one) {
            return false;
        }
    }
    true
}

/// Whether each `=` of a name makes a table or a set.
fn only_made(alloc: Global, values: &Values<'_>, whole: &[u8]) -> Result<bool, Mem>
    ensures { IfOk result (λ made. (scripts : Scripts) → IsValues values.now scripts → made ≡ spec.only_made scripts whole.now) }
{
    let given = values.of(alloc, whole)?;
    Ok(all_made(given))
}

/// A type, and those of the values of a key.
fn with_keys(alloc: Global, one: &ValueType, keys: &[SimpleType]) -> Result<Vec<ValueType>, Mem>
    ensures { IfOk result (λ types. map type_of types.items ≡ type_of one.now ∷ map typed.Simple keys.now) }
{
    let mut types = Vec::new(alloc);
    types.push(copied_type(alloc, one)?)?;
    for key in keys {
        types.push(ValueType::Simple(*key))?;
    }
    Ok(types)
}

/// The parameters of the function of `&expire_func`: the table or set, and the values of a key.
fn expire_params(alloc: Global, one: &ValueType) -> Result<Vec<ValueType>, Mem>
    ensures { IfOk result (λ params. map type_of params.items ≡ expire_params (type_of one.now)) }
{
    match one {
        ValueType::Table { keys, value: _ } => with_keys(alloc, one, keys.as_slice()),
        ValueType::Set { keys } => with_keys(alloc, one, keys.as_slice()),
        ValueType::Simple(_) | ValueType::Record(_) | ValueType::Vector { .. } => {
            Ok(Vec::new(alloc))
        }
    }
}

/// Whether a result is an interval.
fn gives_interval(given: &Option<ValueType>) -> bool
    ensures { result ≡ gives_interval (option_map type_of given.now) }
{
    match given {
        Some(one) => same_type(one, &INTERVAL),
        None => false,
    }
}

/// The type of the values in a table.
fn item_type(one: &ValueType) -> &ValueType
    ensures { type_of result.now ≡ item_type (type_of one.now) }
{
    match one {
        ValueType::Table { keys: _, value } => value.get(),
        ValueType::Simple(_)
        | ValueType::Record(_)
        | ValueType::Set { .. }
        | ValueType::Vector { .. } => one,
    }
}

impl Ground<'_> {
    /// The rule of the function of `&expire_func` of a table or a set, by its signature.
    #[tactic(auto, using(crate::proofs::RuleLaws::signed_passed))]
    fn expire_call(
        &self,
        place: Place,
        one: &ValueType,
        signature: &Signature<'_>,
    ) -> Result<(), Refusal>
        ensures { Tells (λ done. done) result (expire_call (scripts_in self.now.names.now) place (type_of one.now) (signature_of signature.now)) }
    {
        match self.signed(signature) {
            Ok(parts) => {
                let (params, given) = parts;
                let wanted = expire_params(self.alloc, one)?;
                let fits = same_types(params.as_slice(), &wanted) && gives_interval(&given);
                require(self.alloc, fits, Rule::WrongType, place)
            }
            Err(refusal) => Err(refusal),
        }
    }

    /// The rule of the function of `&expire_func`, by what its name means.
    fn expire_named(
        &self,
        place: Place,
        one: &ValueType,
        found: Option<&Declared<'_>>,
    ) -> Result<(), Refusal>
        ensures { Tells (λ done. done) result (expire_named (scripts_in self.now.names.now) place (type_of one.now) (option_map (λ one. declared_of one.now) found.entry)) }
    {
        let Some(found) = found else {
            return Err(Refusal::Broken(one_broken(self.alloc, Rule::Unknown, place)?));
        };
        match &found.meant {
            Meant::Function { signature } => self.expire_call(place, one, signature),
            Meant::KnownType { .. }
            | Meant::WrittenType { .. }
            | Meant::Word { .. }
            | Meant::Variable { .. }
            | Meant::Event { .. }
            | Meant::Hook { .. }
            | Meant::BuiltInFunction { .. }
            | Meant::Log { .. } => Err(Refusal::Broken(one_broken(
                self.alloc,
                Rule::WrongType,
                place,
            )?)),
        }
    }

    /// The rule of the value of `&expire_func`.
    fn expire_func(&self, home: Home<'_>, one: &ValueType, value: &Expr) -> Result<(), Refusal>
        ensures { Tells (λ done. done) result (spec.expire_func_value (spec.env_at (scripts_in self.now.names.now) (home_of home.entry)) (type_of one.now) value.now) }
    {
        let place = place_in(home, value.place());
        match value {
            Expr::Name { name } => {
                let text = name.text.as_slice();
                let found = self.names.look_up(self.alloc, home.module_name, text)?;
                self.expire_named(place, one, found)
            }
            Expr::Assign { .. }
            | Expr::Choice { .. }
            | Expr::Chain { .. }
            | Expr::Compare { .. }
            | Expr::Unary { .. }
            | Expr::Post { .. }
            | Expr::Number { .. }
            | Expr::Interval { .. }
            | Expr::Literal { .. }
            | Expr::Truth { .. }
            | Expr::Parenthesis { .. }
            | Expr::Size { .. }
            | Expr::List { .. }
            | Expr::Make { .. }
            | Expr::Hook { .. } => Err(Refusal::Broken(one_broken(
                self.alloc,
                Rule::WrongType,
                place,
            )?)),
        }
    }

    /// The rules of the value of an expiry: a literal interval.
    fn expiry_rules(&self, home: Home<'_>, value: &Expr) -> Result<(), Refusal>
        requires { IsGround self.now }
        ensures { Tells (λ done. done) result (spec.nothing (spec.expiry_value (spec.env_at (scripts_in self.now.names.now) (home_of home.entry)) value.now)) }
    {
        dropped(self.default_typed(home, &INTERVAL, value))
    }

    /// The rules of the value of an attribute of a global.
    fn attr_value(
        &self,
        home: Home<'_>,
        one: &ValueType,
        name: &[u8],
        value: &Expr,
    ) -> Result<(), Refusal>
        requires { IsGround self.now }
        ensures { Tells (λ done. done) result (attr_value (spec.env_at (scripts_in self.now.names.now) (home_of home.entry)) (type_of one.now) name.now value.now) }
    {
        if is_name(name, b"default") {
            dropped(self.default_typed(home, item_type(one), value))
        } else if is_name(name, b"expire_func") {
            self.expire_func(home, one, value)
        } else {
            self.expiry_rules(home, value)
        }
    }
}

impl Attributes for GlobalAttributes<'_> {
    ghost stands = { λ kind. IsGround kind.ground };

    ghost allowed = { λ kind. spec.allowed_in kind.lasting kind.made (type_of kind.value_type.now) };

    ghost value_rules = { λ kind attr. spec.attr_checked (spec.env_at (scripts_in kind.ground.names.now) (home_of kind.home)) (type_of kind.value_type.now) attr };

    fn allows(&self, name: &[u8]) -> bool {
        match self.lasting {
            Lasting::Global => global_attribute(self.made, self.value_type, name),
            Lasting::Const => is_name(name, b"redef"),
        }
    }

    fn value(&self, alloc: Global, attr: &Attr) -> Result<(), Refusal> {
        let _ = alloc;
        match &attr.value {
            Some(value) => {
                let name = attr.name.as_slice();
                self.ground
                    .attr_value(self.home, self.value_type, name, value)
            }
            None => Ok(()),
        }
    }
}

impl Ground<'_> {
    /// The rules of the attributes of a global or a constant.
    pub fn global_attrs(
        &self,
        home: Home<'_>,
        lasting: Lasting,
        whole: &[u8],
        value_type: &ValueType,
        attrs: &[Attr],
    ) -> Result<(), Refusal>
        requires { IsGround self.now }
        ensures { Tells (λ done. done) result (spec.global_attrs (scripts_in self.now.names.now) (home_of home.entry) lasting whole.now (type_of value_type.now) attrs.now) }
    {
        let made = only_made(self.alloc, self.values, whole)?;
        let kind = GlobalAttributes {
            ground: *self,
            home,
            lasting,
            made,
            value_type,
        };
        attr_rules(self.alloc, home.file, &kind, attrs)
    }
}
