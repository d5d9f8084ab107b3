ghost use Rattle.std.specs.Prelude.{◌≡◌, length, Some};
ghost use Rattle.zk_tree.specs.declared.types.«Type».{«Type» as SyntaxType};
ghost use Rattle.zk_tree.specs.Grammar as grammar;
ghost use Rattle.zk_tree.specs.Rules.{AType, After, Nested};
ghost use Rattle.zk_tree.specs.declared.keyword.Keyword.TheVariants as keyword;
ghost use Rattle.zk_tree.specs.declared.keyword.Mark.TheVariants as mark;
ghost use Rattle.zk_tree.specs.declared.token.Sign.TheVariants as sign;
ghost use Rattle.zk_parse_core.specs.Reading.{Gives, NestsOf, ◌>>=◌ as and_then, mark_at, repeated, read, unread, within, opens};

use crate::expr::Counted;
use crate::operands::nested_expr;
use sqlite_items::{Boxed, Items};
use std::alloc::Global;
use zk_parse_core::{
    Element, FormFault, Tokens, Turns, enclosed, listed, repeat, trailing, up_to_brace,
};
use zk_tree::{Attr, Field, Keyword, Name, Param, Sign, Type};

/// What reads attributes.
#[derive(Drop)]
pub struct AttrTurns {
    pub alloc: Global,
    /// How deep the nodes in them may nest.
    pub depth: u64,
}

impl Turns<Attr> for AttrTurns {
    ghost ready = { λ a. Unit {0} };

    ghost goes = { λ a. opens grammar.attr };

    ghost at = { λ a. read (within a.depth) grammar.attr };

    #[tactic(auto, unfolding(zk_tree::specs::Grammar::attr))]
    fn goes_on(&self, tokens: &Tokens<'_>) -> bool {
        tokens.begins_attribute()
    }

    #[tactic(auto, unfolding(zk_tree::specs::Grammar::attr))]
    fn turn(&self, tokens: &mut Tokens<'_>) -> Result<Attr, FormFault> {
        let place = tokens.place();
        let name = tokens.attribute(self.alloc)?;
        if !tokens.begins(Sign::Equal) {
            let value = None;
            return Ok(Attr { place, name, value });
        }
        tokens.sign(Sign::Equal)?;
        let value = nested_expr(self.alloc, tokens, self.depth, Counted::Unary)?;
        let value = Some(value);
        Ok(Attr { place, name, value })
    }
}

/// Attributes, as many as there are.
pub fn attrs(alloc: Global, tokens: &mut Tokens<'_>, depth: u64) -> Result<Items<Attr>, FormFault>
    ensures { Gives (repeated (opens grammar.attr) (read (within depth) grammar.attr) (length tokens.old) tokens.old) result tokens.new }
{
    repeat(&AttrTurns { alloc, depth }, tokens, Items::new(alloc))
}

/// `ATTRIBUTES;`
fn ended_attrs(alloc: Global, tokens: &mut Tokens<'_>, depth: u64) -> Result<Items<Attr>, FormFault>
    ensures { Gives (and_then (repeated (opens grammar.attr) (read (within depth) grammar.attr) (length tokens.old) tokens.old) (λ x. and_then (mark_at (mark.Sign sign.Semicolon) x.1) (λ last. Some (x.0, last.1)))) result tokens.new }
{
    let attrs = attrs(alloc, tokens, depth)?;
    tokens.sign(Sign::Semicolon)?;
    Ok(attrs)
}

/// Words between braces.
pub fn words(alloc: Global, tokens: &mut Tokens<'_>) -> Result<(Items<Name>, bool), FormFault>
    ensures { Gives (read unread grammar.words tokens.old) result tokens.new }
{
    tokens.sign(Sign::OpenBrace)?;
    trailing(alloc, &alloc, tokens)
}

/// What reads the parts of a type.
#[derive(Clone, Copy)]
pub struct Types<F> {
    pub alloc: Global,
    /// How deep the nodes in it may still nest.
    pub depth: u64,
    pub nested: F,
}

impl<F: Fn(Global, &mut Tokens<'_>, u64) -> Result<Type, FormFault>> Types<F> {
    fn nested(&self, tokens: &mut Tokens<'_>) -> Result<Type, FormFault>
        requires { NestsOf AType self.now.depth (F.pre self.now.nested) (F.post self.now.nested) }
        ensures { Gives (within self.now.depth SyntaxType AType tokens.old) result tokens.new }
    {
        (self.nested)(self.alloc, tokens, self.depth)
    }

    /// `NAME: TYPE`
    #[tactic(auto, unfolding(zk_tree::specs::Grammar::typed))]
    pub fn typed(&self, tokens: &mut Tokens<'_>) -> Result<(Name, Type), FormFault>
        requires { NestsOf AType self.now.depth (F.pre self.now.nested) (F.post self.now.nested) }
        ensures { Gives (read (within self.now.depth) grammar.typed tokens.old) result tokens.new }
    {
        let name = tokens.name(self.alloc)?;
        tokens.sign(Sign::Colon)?;
        let typed = self.nested(tokens)?;
        Ok((name, typed))
    }

    /// Parameters between parentheses.
    #[tactic(auto, unfolding(zk_tree::specs::Grammar::params))]
    pub fn params(&self, tokens: &mut Tokens<'_>) -> Result<Items<Param>, FormFault>
        requires { NestsOf AType self.now.depth (F.pre self.now.nested) (F.post self.now.nested) }
        ensures { Gives (read (within self.now.depth) grammar.params tokens.old) result tokens.new }
    {
        enclosed(
            self.alloc,
            self,
            tokens,
            Sign::OpenParenthesis,
            Sign::CloseParenthesis,
        )
    }

    /// `(..)`, `(..): RESULT`
    #[tactic(auto, unfolding(zk_tree::specs::Grammar::signature))]
    pub fn signature(
        &self,
        tokens: &mut Tokens<'_>,
    ) -> Result<(Items<Param>, Option<Type>), FormFault>
        requires { NestsOf AType self.now.depth (F.pre self.now.nested) (F.post self.now.nested) }
        ensures { Gives (read (within self.now.depth) grammar.signature tokens.old) result tokens.new }
    {
        let params = self.params(tokens)?;
        if !tokens.begins(Sign::Colon) {
            return Ok((params, None));
        }
        tokens.sign(Sign::Colon)?;
        let result = self.nested(tokens)?;
        Ok((params, Some(result)))
    }

    /// `of TYPE`
    fn of_type(&self, tokens: &mut Tokens<'_>) -> Result<Boxed<Type>, FormFault>
        requires { NestsOf AType self.now.depth (F.pre self.now.nested) (F.post self.now.nested) }
        ensures { Gives (read (within self.now.depth) (After (mark.Word keyword.Of) (Nested AType)) tokens.old) result tokens.new }
    {
        tokens.word(Keyword::Of)?;
        let of = self.nested(tokens)?;
        Ok(Boxed::new(self.alloc, of)?)
    }

    /// Fields between braces.
    #[tactic(auto, unfolding(zk_tree::specs::Grammar::fields))]
    pub fn fields(&self, tokens: &mut Tokens<'_>) -> Result<Items<Field>, FormFault>
        requires { NestsOf AType self.now.depth (F.pre self.now.nested) (F.post self.now.nested) }
        ensures { Gives (read (within self.now.depth) grammar.fields tokens.old) result tokens.new }
    {
        tokens.sign(Sign::OpenBrace)?;
        up_to_brace(self.alloc, self, tokens)
    }

    /// The types of keys.
    #[tactic(auto, unfolding(zk_tree::specs::Grammar::key_types))]
    fn key_types(&self, tokens: &mut Tokens<'_>) -> Result<Items<Type>, FormFault>
        requires { NestsOf AType self.now.depth (F.pre self.now.nested) (F.post self.now.nested) }
        ensures { Gives (read (within self.now.depth) grammar.key_types tokens.old) result tokens.new }
    {
        tokens.sign(Sign::OpenBracket)?;
        let keys = listed(self.alloc, self, tokens)?;
        tokens.sign(Sign::CloseBracket)?;
        Ok(keys)
    }

    /// `table[KEY, ..] of VALUE`
    #[tactic(auto, unfolding(zk_tree::specs::Grammar::table_type))]
    fn table_type(&self, tokens: &mut Tokens<'_>) -> Result<Type, FormFault>
        requires { NestsOf AType self.now.depth (F.pre self.now.nested) (F.post self.now.nested) }
        ensures { Gives (read (within self.now.depth) grammar.table_type tokens.old) result tokens.new }
    {
        let place = tokens.place();
        tokens.word(Keyword::Table)?;
        let keys = self.key_types(tokens)?;
        let value = self.of_type(tokens)?;
        Ok(Type::Table { place, keys, value })
    }

    /// `set[KEY, ..]`
    #[tactic(auto, unfolding(zk_tree::specs::Grammar::set_type))]
    fn set_type(&self, tokens: &mut Tokens<'_>) -> Result<Type, FormFault>
        requires { NestsOf AType self.now.depth (F.pre self.now.nested) (F.post self.now.nested) }
        ensures { Gives (read (within self.now.depth) grammar.set_type tokens.old) result tokens.new }
    {
        let place = tokens.place();
        tokens.word(Keyword::Set)?;
        let keys = self.key_types(tokens)?;
        Ok(Type::Set { place, keys })
    }

    /// `vector of ITEM`
    #[tactic(auto, unfolding(zk_tree::specs::Grammar::vector_type))]
    fn vector_type(&self, tokens: &mut Tokens<'_>) -> Result<Type, FormFault>
        requires { NestsOf AType self.now.depth (F.pre self.now.nested) (F.post self.now.nested) }
        ensures { Gives (read (within self.now.depth) grammar.vector_type tokens.old) result tokens.new }
    {
        let place = tokens.place();
        tokens.word(Keyword::Vector)?;
        let item = self.of_type(tokens)?;
        Ok(Type::Vector { place, item })
    }

    /// `record { .. }`
    #[tactic(auto, unfolding(zk_tree::specs::Grammar::record_type))]
    fn record_type(&self, tokens: &mut Tokens<'_>) -> Result<Type, FormFault>
        requires { NestsOf AType self.now.depth (F.pre self.now.nested) (F.post self.now.nested) }
        ensures { Gives (read (within self.now.depth) grammar.record_type tokens.old) result tokens.new }
    {
        let place = tokens.place();
        tokens.word(Keyword::Record)?;
        let fields = self.fields(tokens)?;
        Ok(Type::Record { place, fields })
    }

    /// `enum { .. }`
    #[tactic(auto, unfolding(zk_tree::specs::Grammar::enum_type))]
    fn enum_type(&self, tokens: &mut Tokens<'_>) -> Result<Type, FormFault>
        requires { NestsOf AType self.now.depth (F.pre self.now.nested) (F.post self.now.nested) }
        ensures { Gives (read (within self.now.depth) grammar.enum_type tokens.old) result tokens.new }
    {
        let place = tokens.place();
        tokens.word(Keyword::Enum)?;
        let (words, comma) = words(self.alloc, tokens)?;
        Ok(Type::Enum {
            place,
            words,
            comma,
        })
    }

    /// `event (..)`
    #[tactic(auto, unfolding(zk_tree::specs::Grammar::event_type))]
    fn event_type(&self, tokens: &mut Tokens<'_>) -> Result<Type, FormFault>
        requires { NestsOf AType self.now.depth (F.pre self.now.nested) (F.post self.now.nested) }
        ensures { Gives (read (within self.now.depth) grammar.event_type tokens.old) result tokens.new }
    {
        let place = tokens.place();
        tokens.word(Keyword::Event)?;
        let params = self.params(tokens)?;
        Ok(Type::Event { place, params })
    }

    /// `hook (..)`
    #[tactic(auto, unfolding(zk_tree::specs::Grammar::hook_type))]
    fn hook_type(&self, tokens: &mut Tokens<'_>) -> Result<Type, FormFault>
        requires { NestsOf AType self.now.depth (F.pre self.now.nested) (F.post self.now.nested) }
        ensures { Gives (read (within self.now.depth) grammar.hook_type tokens.old) result tokens.new }
    {
        let place = tokens.place();
        tokens.word(Keyword::Hook)?;
        let params = self.params(tokens)?;
        Ok(Type::Hook { place, params })
    }

    /// `function (..)`, `function (..): RESULT`
    #[tactic(auto, unfolding(zk_tree::specs::Grammar::function_type))]
    fn function_type(&self, tokens: &mut Tokens<'_>) -> Result<Type, FormFault>
        requires { NestsOf AType self.now.depth (F.pre self.now.nested) (F.post self.now.nested) }
        ensures { Gives (read (within self.now.depth) grammar.function_type tokens.old) result tokens.new }
    {
        let place = tokens.place();
        tokens.word(Keyword::Function)?;
        let (params, result) = self.signature(tokens)?;
        Ok(match result {
            None => Type::Procedure { place, params },
            Some(result) => Type::Function {
                place,
                params,
                result: Boxed::new(self.alloc, result)?,
            },
        })
    }

    /// A type.
    #[tactic(auto, unfolding(zk_tree::specs::Grammar::type_node, zk_tree::specs::Grammar::table_type, zk_tree::specs::Grammar::set_type, zk_tree::specs::Grammar::vector_type))]
    fn type_node(&self, tokens: &mut Tokens<'_>) -> Result<Type, FormFault>
        requires { NestsOf AType self.now.depth (F.pre self.now.nested) (F.post self.now.nested) }
        ensures { Gives (read (within self.now.depth) grammar.type_node tokens.old) result tokens.new }
    {
        if tokens.atomic().is_some() {
            tokens.atomic_type()
        } else if tokens.begins_name() {
            tokens.named_type(self.alloc)
        } else if tokens.begins_word(Keyword::Table) {
            self.table_type(tokens)
        } else if tokens.begins_word(Keyword::Set) {
            self.set_type(tokens)
        } else if tokens.begins_word(Keyword::Vector) {
            self.vector_type(tokens)
        } else {
            self.other_type(tokens)
        }
    }

    /// A type of the less common forms.
    #[tactic(auto, unfolding(zk_tree::specs::Grammar::other_type, zk_tree::specs::Grammar::record_type, zk_tree::specs::Grammar::enum_type, zk_tree::specs::Grammar::event_type, zk_tree::specs::Grammar::hook_type))]
    fn other_type(&self, tokens: &mut Tokens<'_>) -> Result<Type, FormFault>
        requires { NestsOf AType self.now.depth (F.pre self.now.nested) (F.post self.now.nested) }
        ensures { Gives (read (within self.now.depth) grammar.other_type tokens.old) result tokens.new }
    {
        if tokens.begins_word(Keyword::Record) {
            self.record_type(tokens)
        } else if tokens.begins_word(Keyword::Enum) {
            self.enum_type(tokens)
        } else if tokens.begins_word(Keyword::Event) {
            self.event_type(tokens)
        } else if tokens.begins_word(Keyword::Hook) {
            self.hook_type(tokens)
        } else {
            self.function_type(tokens)
        }
    }
}

impl<F: Fn(Global, &mut Tokens<'_>, u64) -> Result<Type, FormFault>> Element<Types<F>> for Type {
    ghost ready = { λ c. NestsOf AType c.depth (F.pre c.nested) (F.post c.nested) };

    ghost at = { λ c. read (within c.depth) grammar.a_type };

    #[tactic(auto, unfolding(zk_tree::specs::Grammar::a_type))]
    fn read(types: &Types<F>, tokens: &mut Tokens<'_>) -> Result<Type, FormFault> {
        types.nested(tokens)
    }
}

impl<F: Fn(Global, &mut Tokens<'_>, u64) -> Result<Type, FormFault>> Element<Types<F>> for Param {
    ghost ready = { λ c. NestsOf AType c.depth (F.pre c.nested) (F.post c.nested) };

    ghost at = { λ c. read (within c.depth) grammar.param };

    #[tactic(auto, unfolding(zk_tree::specs::Grammar::param))]
    fn read(types: &Types<F>, tokens: &mut Tokens<'_>) -> Result<Param, FormFault> {
        let (name, param_type) = types.typed(tokens)?;
        Ok(Param { name, param_type })
    }
}

impl<F: Fn(Global, &mut Tokens<'_>, u64) -> Result<Type, FormFault>> Element<Types<F>> for Field {
    ghost ready = { λ c. NestsOf AType c.depth (F.pre c.nested) (F.post c.nested) };

    ghost at = { λ c. read (within c.depth) grammar.field };

    #[tactic(auto, unfolding(zk_tree::specs::Grammar::field))]
    fn read(types: &Types<F>, tokens: &mut Tokens<'_>) -> Result<Field, FormFault> {
        let (name, field_type) = types.typed(tokens)?;
        ended_attrs(types.alloc, tokens, types.depth).map(|attrs| Field {
            name,
            field_type,
            attrs,
        })
    }
}

/// A type that is nested at most so deep, itself counted.
pub fn nested_type(alloc: Global, tokens: &mut Tokens<'_>, depth: u64) -> Result<Type, FormFault>
    ensures { Gives (within depth SyntaxType AType tokens.old) result tokens.new }
{
    if depth == 0 {
        return Err(FormFault::NoForm);
    }
    let types = Types {
        alloc,
        depth: depth - 1,
        nested: nested_type,
    };
    types.type_node(tokens)
}
