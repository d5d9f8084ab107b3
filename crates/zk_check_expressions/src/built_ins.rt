ghost use Rattle.std.specs.Prelude.{◌≡◌, ◌∷◌, [], IfOk};
ghost use Rattle.zk_check_operators.specs.Views.{typed_of, typed_all, all_typed};
ghost use Rattle.zk_typed.specs.Checked as checked;
ghost use Rattle.zk_typed.specs.Checked.{each};
ghost use Rattle.zk_typed.specs.declared.script.primitive.BuiltIn.TheVariants as built_in;
ghost use Rattle.zk_typed.specs.Expressions as rules;
ghost use Rattle.zk_typed.specs.Making as making;
ghost use Rattle.zk_typed.specs.Operations as operations;
ghost use Rattle.zk_typed.specs.Tells.{Tells};
ghost use Rattle.zk_typed.specs.Typing as spec;
ghost use Rattle.zk_typed.specs.View.{type_of};
ghost use Rattle.zk_check_expressions.specs.Envs.{env_of, called_of};
ghost use Rattle.zk_check_expressions.specs.Judging.{Judges};
ghost use Rattle.zk_check_expressions.specs.Calls.{text_view, format_view, format_of};

use crate::called::Called;
use crate::elements::operands_behind;
use crate::env::Env;
use crate::judge::Judge;
use crate::refuse::{broken, with_rule, wrong};
use crate::rows::built_in_row;
use std::alloc::{AllocError, Global};
use zk_base::Bytes;
use zk_check_operators::{
    Typed, Wanted, along, applied, both, one_operand, operands_of, verbs, verbs_take, with_part,
};
use zk_tree::{Expr, Item, Literal, Place};
use zk_typed::script::{BuiltIn, Primitive, SimpleType, ValueType};
use zk_typed::{Refusal, Rule, one_broken};

/// A call of a built-in function.
fn gives(
    alloc: Global,
    value_type: ValueType,
    function: BuiltIn,
    args: Vec<Typed>,
) -> Result<Called, AllocError>
    ensures { IfOk result (λ made. called_of made ≡ making.Gives (spec.typed (type_of value_type) (making.built_in_call function (typed_all args.items)))) }
{
    let operands = operands_of(alloc, args)?;
    Ok(Called::Gives(applied(value_type, Primitive::BuiltIn(function), operands)))
}

/// The verbs of a text of `fmt`, which is a literal.
fn literal_verbs(alloc: Global, one: &Expr) -> Result<Option<Bytes>, AllocError>
    ensures { IfOk result (λ found. found ≡ making.option_verbs (making.text_literal one.now)) }
{
    match one {
        Expr::Literal {
            literal: Literal::String(text),
            ..
        } => verbs(alloc, text.as_slice()),
        _ => Ok(None),
    }
}

impl<F: Fn(Global, &Env<'_>, u64, Wanted<'_>, &Expr) -> Result<Typed, Refusal>> Judge<'_, F> {
    /// The text of `fmt`, with its verbs.
    #[tactic(auto, using(crate::proofs::Steps::passed))]
    fn format_text(&self, one: &Expr) -> Result<(Typed, Bytes), Refusal>
        requires { Judges self.now.depth (F.pre self.now.part) (F.post self.now.part) }
        ensures { Tells text_view result (making.format_text (rules.expr_to self.now.depth (env_of self.now.env.now)) (env_of self.now.env.now) one.now) }
    {
        let verbs = literal_verbs(self.alloc, one)?;
        match self.string(one) {
            Ok(text) => match verbs {
                Some(verbs) => Ok((text, verbs)),
                None => {
                    drop(text);
                    Err(Refusal::Broken(one_broken(
                        self.alloc,
                        Rule::Format,
                        self.env.expr_place(one),
                    )?))
                }
            },
            Err(refusal) => Err(refusal),
        }
    }

    /// The item that is the text of `fmt`.
    #[tactic(auto, using(crate::proofs::Refusals::refused))]
    fn format_item(&self, item: &Item) -> Result<(Typed, Bytes), Refusal>
        requires { Judges self.now.depth (F.pre self.now.part) (F.post self.now.part) }
        ensures { Tells text_view result (spec.on_item (rules.expr_to self.now.depth (env_of self.now.env.now)) (env_of self.now.env.now) (making.format_text (rules.expr_to self.now.depth (env_of self.now.env.now)) (env_of self.now.env.now)) item.now) }
    {
        match item {
            Item::Value { value } => self.format_text(value),
            Item::Field { place, value, .. } => {
                let judged = self.check(Wanted::Nothing, value);
                Err(wrong(self.alloc, judged, self.env.at(*place)))
            }
        }
    }

    /// An item whose text is written.
    fn printed_item(&self, item: &Item) -> Result<Typed, Refusal>
        requires { Judges self.now.depth (F.pre self.now.part) (F.post self.now.part) }
        ensures { Tells typed_of result (spec.on_item (rules.expr_to self.now.depth (env_of self.now.env.now)) (env_of self.now.env.now) (making.printed (rules.expr_to self.now.depth (env_of self.now.env.now)) (env_of self.now.env.now)) item.now) }
    {
        match item {
            Item::Value { value } => self.printed(value),
            Item::Field { place, value, .. } => self.named_item(*place, value),
        }
    }

    /// Items whose texts are written.
    fn printed_items(&self, items: &[Item]) -> Result<Vec<Typed>, Refusal>
        requires { Judges self.now.depth (F.pre self.now.part) (F.post self.now.part) }
        ensures { Tells all_typed result (each (spec.on_item (rules.expr_to self.now.depth (env_of self.now.env.now)) (env_of self.now.env.now) (making.printed (rules.expr_to self.now.depth (env_of self.now.env.now)) (env_of self.now.env.now))) items.now) }
    {
        let mut all = Ok(Vec::new(self.alloc));
        for item in items {
            all = with_part(all, self.printed_item(item));
        }
        all
    }

    /// The text of `fmt`, and the values behind it.
    fn text_and_values(
        &self,
        text: &Item,
        others: &[Item],
    ) -> Result<((Typed, Bytes), Vec<Typed>), Refusal>
        requires { Judges self.now.depth (F.pre self.now.part) (F.post self.now.part) }
        ensures { Tells format_view result (checked.both (spec.on_item (rules.expr_to self.now.depth (env_of self.now.env.now)) (env_of self.now.env.now) (making.format_text (rules.expr_to self.now.depth (env_of self.now.env.now)) (env_of self.now.env.now)) text.now) (each (spec.on_item (rules.expr_to self.now.depth (env_of self.now.env.now)) (env_of self.now.env.now) (making.printed (rules.expr_to self.now.depth (env_of self.now.env.now)) (env_of self.now.env.now))) others.now)) }
    {
        let text = self.format_item(text);
        let values = self.printed_items(others);
        both(text, values)
    }

    /// `fmt(TEXT, ..)`
    #[tactic(auto, using(crate::proofs::Steps::format_passed))]
    fn fmt_typed(&self, place: Place, items: &[Item]) -> Result<Called, Refusal>
        requires { Judges self.now.depth (F.pre self.now.part) (F.post self.now.part) }
        ensures { Tells called_of result (making.fmt_typed (rules.expr_to self.now.depth (env_of self.now.env.now)) (env_of self.now.env.now) place items.now) }
    {
        let Some((text, others)) = items.split_first() else {
            return Err(Refusal::Broken(one_broken(self.alloc, Rule::Arguments, place)?));
        };
        match self.text_and_values(text, others) {
            Ok((text, values)) => formatted(self.alloc, place, text, values),
            Err(refusal) => Err(refusal),
        }
    }

    /// `cat(..)`
    #[tactic(auto, using(crate::proofs::Steps::all_passed))]
    fn cat_typed(&self, items: &[Item]) -> Result<Called, Refusal>
        requires { Judges self.now.depth (F.pre self.now.part) (F.post self.now.part) }
        ensures { Tells called_of result (making.cat_typed (rules.expr_to self.now.depth (env_of self.now.env.now)) (env_of self.now.env.now) items.now) }
    {
        match self.printed_items(items) {
            Ok(args) => Ok(gives(
                self.alloc,
                ValueType::Simple(SimpleType::String),
                BuiltIn::Cat,
                args,
            )?),
            Err(refusal) => Err(refusal),
        }
    }
}

/// A call of `copy` with its argument.
fn copied(alloc: Global, one: Typed) -> Result<Called, AllocError>
    ensures { IfOk result (λ made. called_of made ≡ making.Gives (spec.typed (typed_of one).type (making.built_in_call built_in.Copy (typed_of one ∷ [])))) }
{
    let Typed { value_type, expr } = one;
    let operands = one_operand(alloc, expr)?;
    Ok(Called::Gives(applied(value_type, Primitive::BuiltIn(BuiltIn::Copy), operands)))
}

/// A call of `fmt` with its text, the verbs of it, and the other arguments.
#[tactic(auto, using(crate::proofs::Refusals::broken_is))]
fn formatted(
    alloc: Global,
    place: Place,
    text: (Typed, Bytes),
    others: Vec<Typed>,
) -> Result<Called, Refusal>
    ensures { Tells called_of result (format_of place (text_view text, typed_all others.items)) }
{
    let (text, verbs) = text;
    if !verbs_take(verbs.as_slice(), &others) {
        drop(text);
        return Err(broken(alloc, Rule::Format, place));
    }
    let operands = operands_behind(alloc, text.expr, others)?;
    Ok(Called::Gives(applied(
        ValueType::Simple(SimpleType::String),
        Primitive::BuiltIn(BuiltIn::Fmt),
        operands,
    )))
}

impl<F: Fn(Global, &Env<'_>, u64, Wanted<'_>, &Expr) -> Result<Typed, Refusal>> Judge<'_, F> {
    /// One argument, and no other.
    fn lone_argument(&self, place: Place, first: &Item, others: &[Item]) -> Result<Typed, Refusal>
        requires { Judges self.now.depth (F.pre self.now.part) (F.post self.now.part) }
        ensures { Tells typed_of result (making.lone_argument (rules.expr_to self.now.depth (env_of self.now.env.now)) (env_of self.now.env.now) place first.now others.now) }
    {
        let one = self.argument(Wanted::Nothing, first);
        let alone = with_rule(self.alloc, one, others.len() == 0, Rule::Arguments, place);
        let others = self.each_argument(Wanted::Unclear, others);
        along(alone, others)
    }

    /// `copy(a)`
    #[tactic(auto, using(crate::proofs::Steps::passed))]
    fn copy_typed(&self, place: Place, items: &[Item]) -> Result<Called, Refusal>
        requires { Judges self.now.depth (F.pre self.now.part) (F.post self.now.part) }
        ensures { Tells called_of result (making.copy_typed (rules.expr_to self.now.depth (env_of self.now.env.now)) (env_of self.now.env.now) place items.now) }
    {
        let Some((first, others)) = items.split_first() else {
            return Err(Refusal::Broken(one_broken(self.alloc, Rule::Arguments, place)?));
        };
        match self.lone_argument(place, first, others) {
            Ok(one) => Ok(copied(self.alloc, one)?),
            Err(refusal) => Err(refusal),
        }
    }

    /// A call of a built-in function that has its types in a row.
    #[tactic(auto, using(crate::proofs::Steps::all_passed))]
    fn by_row(&self, place: Place, function: BuiltIn, items: &[Item]) -> Result<Called, Refusal>
        requires { Judges self.now.depth (F.pre self.now.part) (F.post self.now.part) }
        ensures { Tells called_of result (making.by_row (rules.expr_to self.now.depth (env_of self.now.env.now)) (env_of self.now.env.now) place function items.now (operations.built_in_type function)) }
    {
        match built_in_row(self.alloc, function)? {
            None => Err(Refusal::Broken(one_broken(self.alloc, Rule::WrongType, place)?)),
            Some((params, value_type)) => match self.arguments(place, &params, items) {
                Ok(args) => Ok(gives(self.alloc, value_type, function, args)?),
                Err(refusal) => Err(refusal),
            },
        }
    }

    /// A call of a built-in function.
    pub fn built_in_typed(
        &self,
        place: Place,
        function: BuiltIn,
        items: &[Item],
    ) -> Result<Called, Refusal>
        requires { Judges self.now.depth (F.pre self.now.part) (F.post self.now.part) }
        ensures { Tells called_of result (making.built_in_typed (rules.expr_to self.now.depth (env_of self.now.env.now)) (env_of self.now.env.now) place function items.now) }
    {
        match function {
            BuiltIn::Fmt => self.fmt_typed(place, items),
            BuiltIn::Cat => self.cat_typed(items),
            BuiltIn::Copy => self.copy_typed(place, items),
            _ => self.by_row(place, function, items),
        }
    }
}
