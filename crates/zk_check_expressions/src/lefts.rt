ghost use Rattle.std.specs.Prelude.{◌≡◌, Ok};
ghost use Rattle.std.specs.Option.{option_map};
ghost use Rattle.zk_scope.specs.Lent.{declared_of};
ghost use Rattle.zk_check_operators.specs.Views.{typed_of};
ghost use Rattle.zk_typed.specs.declared.script.action.Left.TheVariants as left;
ghost use Rattle.zk_typed.specs.Expressions as rules;
ghost use Rattle.zk_typed.specs.Forms as form;
ghost use Rattle.zk_typed.specs.Tells.{Tells};
ghost use Rattle.zk_typed.specs.Typing as spec;
ghost use Rattle.zk_typed.specs.View.{type_of, all_of};
ghost use Rattle.zk_scope.specs.Fields.{known_or};
ghost use Rattle.zk_check_expressions.specs.Envs.{env_of, side_of};
ghost use Rattle.zk_check_expressions.specs.Judging.{Judges};
ghost use Rattle.zk_check_expressions.specs.Parts.{and_then, stepped_side};

use crate::env::Env;
use crate::fields::known_type;
use crate::judge::Judge;
use crate::names::{global_type, local_meant};
use crate::refuse::{broken, wrong};
use crate::side::{Side, assignable};
use sqlite_items::Items;
use std::alloc::Global;
use zk_check_operators::{Typed, Wanted, applied, same_type};
use zk_scope::{Declared, Kind, Meant, has_attr};
use zk_tree::{Attr, Expr, Lasting, Name, Part, Place, Prefix};
use zk_typed::script::{Direction, Expr as TypedExpr, Left, Primitive, SimpleType, ValueType};
use zk_typed::{Refusal, Rule, one_broken};

/// A left side that may be given a value.
fn side(left: Left, operands: Items<TypedExpr>, value_type: ValueType) -> Side
    ensures { side_of result ≡ rules.side left (all_of operands) (type_of value_type) }
{
    Side {
        left,
        operands,
        value_type,
        fixed: false,
        expires: false,
    }
}

/// Whether attributes have the entries of a global expire.
fn has_expiry(attrs: &[Attr]) -> bool
    ensures { result ≡ rules.has_expiry attrs.now }
{
    has_attr(attrs, b"create_expire")
        || has_attr(attrs, b"read_expire")
        || has_attr(attrs, b"write_expire")
}

/// A local as a left side.
#[tactic(auto, using(crate::proofs::Steps::type_passed))]
fn local_side(alloc: Global, number: u32, value_type: &Option<ValueType>) -> Result<Side, Refusal>
    ensures { Tells side_of result (and_then (known_or (option_map type_of value_type.now)) (λ type. Ok (rules.side (left.Local number) form.NoExpr type))) }
{
    match known_type(alloc, value_type) {
        Ok(value_type) => Ok(side(Left::Local(number), Items::new(alloc), value_type)),
        Err(refusal) => Err(refusal),
    }
}

/// What a declared name is as a left side.
#[tactic(auto, using(crate::proofs::Steps::type_passed))]
fn declared_side(
    alloc: Global,
    env: &Env<'_>,
    place: Place,
    found: Option<&Declared<'_>>,
) -> Result<Side, Refusal>
    ensures { Tells side_of result (rules.declared_side (env_of env.now) place (option_map (λ one. declared_of one.now) found.entry)) }
{
    let Some(one) = found else {
        return Err(Refusal::Broken(one_broken(alloc, Rule::Unknown, place)?));
    };
    match &one.meant {
        Meant::Variable { lasting, attrs, .. } => {
            let number = env.scripts.names.number_among(Kind::Variable, one)?;
            match global_type(alloc, env.globals, number) {
                Ok(value_type) => Ok(Side {
                    left: Left::Global(number),
                    operands: Items::new(alloc),
                    value_type,
                    fixed: is_fixed(*lasting),
                    expires: has_expiry(attrs),
                }),
                Err(refusal) => Err(refusal),
            }
        }
        Meant::KnownType { .. }
        | Meant::WrittenType { .. }
        | Meant::Word { .. }
        | Meant::Event { .. }
        | Meant::Hook { .. }
        | Meant::Function { .. }
        | Meant::BuiltInFunction { .. }
        | Meant::Log { .. } => Err(Refusal::Broken(one_broken(alloc, Rule::WrongType, place)?)),
    }
}

/// Whether only its own declaration may give a global a value.
fn is_fixed(lasting: Lasting) -> bool
    ensures { result ≡ rules.is_fixed lasting }
{
    match lasting {
        Lasting::Const => true,
        Lasting::Global => false,
    }
}

/// What a name is as a left side.
fn name_side(alloc: Global, env: &Env<'_>, name: &Name) -> Result<Side, Refusal>
    ensures { Tells side_of result (rules.name_side (env_of env.now) name.now (spec.local_meant name.now.text (env_of env.now).locals)) }
{
    match local_meant(alloc, env.locals, name.text.as_slice())? {
        Some((number, local)) => local_side(alloc, number, &local.value_type),
        None => {
            let found = env
                .scripts
                .names
                .look_up(alloc, env.home.module_name, name.text.as_slice())?;
            declared_side(alloc, env, env.at(name.place), found)
        }
    }
}

/// A field of what stands before it, an element of a table or an item of a vector as a left side.
#[tactic(auto, using(crate::proofs::Refusals::broken_is))]
fn element_side(alloc: Global, place: Place, one: Typed) -> Result<Side, Refusal>
    ensures { Tells side_of result (rules.element_side place (typed_of one)) }
{
    let Typed { value_type, expr } = one;
    match expr {
        TypedExpr::Apply {
            primitive,
            operands,
        } => match primitive {
            Primitive::Field(field) => Ok(side(Left::Field(field), operands, value_type)),
            Primitive::Element => Ok(side(Left::Element, operands, value_type)),
            Primitive::Item => Ok(side(Left::Item, operands, value_type)),
            _ => Err(broken(alloc, Rule::WrongType, place)),
        },
        _ => {
            drop(expr);
            Err(broken(alloc, Rule::WrongType, place))
        }
    }
}

/// Whether an expression ends in a part that can be assigned.
#[tactic(auto, using(crate::proofs::Ends::ends_last))]
fn ends_in_element(parts: &[Part]) -> bool
    ensures { result ≡ rules.ends_in_element parts.now }
{
    match parts.last() {
        Some(Part::Field { .. } | Part::Index { .. }) => true,
        Some(Part::HasField { .. } | Part::Call { .. }) | None => false,
    }
}

/// `++` or `--` of a left side.
fn stepped_by(
    alloc: Global,
    place: Place,
    operand_place: Place,
    by: Direction,
    one: Side,
) -> Result<Typed, Refusal>
    ensures { Tells typed_of result (stepped_side place operand_place by (side_of one)) }
{
    let is_number = same_type(&one.value_type, &ValueType::Simple(SimpleType::Count))
        || same_type(&one.value_type, &ValueType::Simple(SimpleType::Int));
    if !is_number {
        return Err(Refusal::Broken(one_broken(alloc, Rule::WrongType, operand_place)?));
    }
    assignable(alloc, place, &one)?;
    let Side {
        left,
        operands,
        value_type,
        ..
    } = one;
    Ok(applied(value_type, Primitive::Step { left, by }, operands))
}

impl<F: Fn(Global, &Env<'_>, u64, Wanted<'_>, &Expr) -> Result<Typed, Refusal>> Judge<'_, F> {
    /// What can be assigned.
    #[tactic(auto, using(crate::proofs::Steps::passed, crate::proofs::Refusals::refused))]
    pub fn left_side(&self, one: &Expr) -> Result<Side, Refusal>
        requires { Judges self.now.depth (F.pre self.now.part) (F.post self.now.part) }
        ensures { Tells side_of result (rules.left_side (rules.expr_to self.now.depth (env_of self.now.env.now)) (env_of self.now.env.now) one.now) }
    {
        match one {
            Expr::Name { name } => name_side(self.alloc, self.env, name),
            Expr::Post { parts, .. } if ends_in_element(parts.as_slice()) => {
                match self.check(Wanted::Nothing, one) {
                    Ok(made) => element_side(self.alloc, self.env.expr_place(one), made),
                    Err(refusal) => Err(refusal),
                }
            }
            _ => {
                let judged = self.check(Wanted::Nothing, one);
                Err(wrong(self.alloc, judged, self.env.expr_place(one)))
            }
        }
    }

    /// `++a` and `--a`
    #[tactic(auto, using(crate::proofs::Steps::side_passed))]
    fn stepped(&self, place: Place, by: Direction, operand: &Expr) -> Result<Typed, Refusal>
        requires { Judges self.now.depth (F.pre self.now.part) (F.post self.now.part) }
        ensures { Tells typed_of result (rules.stepped (rules.expr_to self.now.depth (env_of self.now.env.now)) (env_of self.now.env.now) place by operand.now) }
    {
        match self.left_side(operand) {
            Ok(one) => stepped_by(self.alloc, place, self.env.expr_place(operand), by, one),
            Err(refusal) => Err(refusal),
        }
    }

    /// An operator before its operand.
    pub fn unary_typed(
        &self,
        place: Place,
        operator: Prefix,
        operand: &Expr,
    ) -> Result<Typed, Refusal>
        requires { Judges self.now.depth (F.pre self.now.part) (F.post self.now.part) }
        ensures { Tells typed_of result (rules.unary_typed (rules.expr_to self.now.depth (env_of self.now.env.now)) (env_of self.now.env.now) place operator operand.now) }
    {
        match operator {
            Prefix::Not => self.inverse(place, operand),
            Prefix::Negate => self.negative(place, operand),
            Prefix::Increment => self.stepped(place, Direction::Up, operand),
            Prefix::Decrement => self.stepped(place, Direction::Down, operand),
        }
    }
}
