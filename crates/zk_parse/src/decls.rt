ghost use Rattle.std.specs.Prelude.{◌≡◌};
ghost use Rattle.zk_tree.specs.declared.decl.Decl.{Decl as SyntaxDecl};
ghost use Rattle.zk_tree.specs.Grammar as grammar;
ghost use Rattle.zk_tree.specs.Rules.{ADecl};
ghost use Rattle.zk_parse_core.specs.Reading.{Gives, NestsOf, read, unread, within};

use crate::stmts::{Stmts, nested_stmt};
use sqlite_items::Items;
use std::alloc::Global;
use zk_parse_core::{Element, FormFault, Tokens, up_to_brace};
use zk_parse_expressions::{attrs, fields, initial, params, signature, typed, variable, words};
use zk_tree::{Attr, Block, Decl, Field, Init, Keyword, Name, Param, Redefinition, Sign, Type};

/// Statements between braces.
#[tactic(auto, unfolding(zk_tree::specs::Grammar::block))]
fn block(alloc: Global, tokens: &mut Tokens<'_>, depth: u64) -> Result<Block, FormFault>
    ensures { Gives (read (within depth) grammar.block tokens.old) result tokens.new }
{
    let stmts = Stmts {
        alloc,
        depth,
        nested: nested_stmt,
    };
    stmts.block(tokens)
}

/// `module NAME;`
fn module_decl(alloc: Global, tokens: &mut Tokens<'_>) -> Result<Decl, FormFault>
    ensures { Gives (read unread grammar.module_decl tokens.old) result tokens.new }
{
    let place = tokens.place();
    tokens.word(Keyword::Module)?;
    let name = tokens.name(alloc)?;
    tokens.sign(Sign::Semicolon)?;
    Ok(Decl::Module { place, name })
}

/// A variable and its attributes.
#[tactic(auto, unfolding(zk_tree::specs::Grammar::declared))]
fn declared(
    alloc: Global,
    tokens: &mut Tokens<'_>,
    depth: u64,
) -> Result<(((Name, Option<Type>), Option<Init>), Items<Attr>), FormFault>
    ensures { Gives (read (within depth) grammar.declared tokens.old) result tokens.new }
{
    let variable = variable(alloc, tokens, depth)?;
    attrs(alloc, tokens, depth).map(|attrs| (variable, attrs))
}

/// `global NAME: TYPE = INIT ATTRIBUTES;`, or with `const`.
#[tactic(auto, unfolding(zk_tree::specs::Grammar::variable_decl))]
fn variable_decl(alloc: Global, tokens: &mut Tokens<'_>, depth: u64) -> Result<Decl, FormFault>
    ensures { Gives (read (within depth) grammar.variable_decl tokens.old) result tokens.new }
{
    let place = tokens.place();
    let lasting = tokens.take_lasting()?;
    let (((name, variable_type), init), attrs) = declared(alloc, tokens, depth)?;
    tokens.sign(Sign::Semicolon).map(|()| Decl::Variable {
        place,
        lasting,
        name,
        variable_type,
        init,
        attrs,
    })
}

/// `type NAME: TYPE;`
#[tactic(auto, unfolding(zk_tree::specs::Grammar::type_decl))]
fn type_decl(alloc: Global, tokens: &mut Tokens<'_>, depth: u64) -> Result<Decl, FormFault>
    ensures { Gives (read (within depth) grammar.type_decl tokens.old) result tokens.new }
{
    let place = tokens.place();
    tokens.word(Keyword::Type)?;
    let (name, meant) = typed(alloc, tokens, depth)?;
    tokens.sign(Sign::Semicolon)?;
    Ok(Decl::Type { place, name, meant })
}

/// `enum NAME += { .. }`
#[tactic(auto, unfolding(zk_tree::specs::Grammar::redef_enum))]
fn redef_enum(alloc: Global, tokens: &mut Tokens<'_>) -> Result<Redefinition, FormFault>
    ensures { Gives (read unread grammar.redef_enum tokens.old) result tokens.new }
{
    tokens.word(Keyword::Enum)?;
    let name = tokens.name(alloc)?;
    tokens.sign(Sign::PlusEqual)?;
    let (words, comma) = words(alloc, tokens)?;
    Ok(Redefinition::Enum { name, words, comma })
}

/// `record NAME += { .. }`
#[tactic(auto, unfolding(zk_tree::specs::Grammar::redef_record))]
fn redef_record(
    alloc: Global,
    tokens: &mut Tokens<'_>,
    depth: u64,
) -> Result<Redefinition, FormFault>
    ensures { Gives (read (within depth) grammar.redef_record tokens.old) result tokens.new }
{
    tokens.word(Keyword::Record)?;
    let name = tokens.name(alloc)?;
    tokens.sign(Sign::PlusEqual)?;
    let fields = fields(alloc, tokens, depth)?;
    Ok(Redefinition::Record { name, fields })
}

/// `NAME = INIT`, `NAME += INIT`
#[tactic(auto, unfolding(zk_tree::specs::Grammar::redef_value))]
fn redef_value(
    alloc: Global,
    tokens: &mut Tokens<'_>,
    depth: u64,
) -> Result<Redefinition, FormFault>
    ensures { Gives (read (within depth) grammar.redef_value tokens.old) result tokens.new }
{
    let name = tokens.name(alloc)?;
    let operator = tokens.take_redefining()?;
    let init = initial(alloc, tokens, depth)?;
    Ok(Redefinition::Value {
        name,
        operator,
        init,
    })
}

/// What stands behind `redef`.
#[tactic(auto, unfolding(zk_tree::specs::Grammar::redefined, zk_tree::specs::Grammar::redef_enum, zk_tree::specs::Grammar::redef_record))]
fn redefined(alloc: Global, tokens: &mut Tokens<'_>, depth: u64) -> Result<Redefinition, FormFault>
    ensures { Gives (read (within depth) grammar.redefined tokens.old) result tokens.new }
{
    if tokens.begins_word(Keyword::Enum) {
        redef_enum(alloc, tokens)
    } else if tokens.begins_word(Keyword::Record) {
        redef_record(alloc, tokens, depth)
    } else {
        redef_value(alloc, tokens, depth)
    }
}

/// The declaration of what stands behind `redef`.
fn redefine(place: u64, redefinition: Redefinition) -> Decl
    ensures { result ≡ grammar.redefine place redefinition }
{
    match redefinition {
        Redefinition::Value {
            name,
            operator,
            init,
        } => Decl::Redef {
            place,
            name,
            operator,
            init,
        },
        Redefinition::Enum { name, words, comma } => Decl::RedefEnum {
            place,
            name,
            words,
            comma,
        },
        Redefinition::Record { name, fields } => Decl::RedefRecord {
            place,
            name,
            fields,
        },
    }
}

/// `redef ..;`
#[tactic(auto, unfolding(zk_tree::specs::Grammar::redef_decl))]
fn redef_decl(alloc: Global, tokens: &mut Tokens<'_>, depth: u64) -> Result<Decl, FormFault>
    ensures { Gives (read (within depth) grammar.redef_decl tokens.old) result tokens.new }
{
    let place = tokens.place();
    tokens.word(Keyword::Redef)?;
    let redefinition = redefined(alloc, tokens, depth)?;
    tokens
        .sign(Sign::Semicolon)
        .map(|()| redefine(place, redefinition))
}

/// Parameters and attributes.
#[tactic(auto, unfolding(zk_tree::specs::Grammar::handled))]
fn handled(
    alloc: Global,
    tokens: &mut Tokens<'_>,
    depth: u64,
) -> Result<(Items<Param>, Items<Attr>), FormFault>
    ensures { Gives (read (within depth) grammar.handled tokens.old) result tokens.new }
{
    let params = params(alloc, tokens, depth)?;
    let attrs = attrs(alloc, tokens, depth)?;
    Ok((params, attrs))
}

/// `event NAME(..) ATTRIBUTES { .. }`, or with `hook`.
#[tactic(auto, unfolding(zk_tree::specs::Grammar::body_decl))]
fn body_decl(alloc: Global, tokens: &mut Tokens<'_>, depth: u64) -> Result<Decl, FormFault>
    ensures { Gives (read (within depth) grammar.body_decl tokens.old) result tokens.new }
{
    let place = tokens.place();
    let kind = tokens.take_body_kind()?;
    let name = tokens.name(alloc)?;
    let (params, attrs) = handled(alloc, tokens, depth)?;
    let body = block(alloc, tokens, depth)?;
    Ok(Decl::Body {
        place,
        kind,
        name,
        params,
        attrs,
        body,
    })
}

/// `function NAME(..): RESULT { .. }`
#[tactic(auto, unfolding(zk_tree::specs::Grammar::function_decl))]
fn function_decl(alloc: Global, tokens: &mut Tokens<'_>, depth: u64) -> Result<Decl, FormFault>
    ensures { Gives (read (within depth) grammar.function_decl tokens.old) result tokens.new }
{
    let place = tokens.place();
    tokens.word(Keyword::Function)?;
    let name = tokens.name(alloc)?;
    let (params, result_type) = signature(alloc, tokens, depth)?;
    block(alloc, tokens, depth).map(|body| Decl::Function {
        place,
        name,
        params,
        result_type,
        body,
    })
}

/// A type, a redefinition or a body.
#[tactic(auto, unfolding(zk_tree::specs::Grammar::common_decl, zk_tree::specs::Grammar::type_decl, zk_tree::specs::Grammar::redef_decl, zk_tree::specs::Grammar::body_decl))]
fn common_decl(alloc: Global, tokens: &mut Tokens<'_>, depth: u64) -> Result<Decl, FormFault>
    ensures { Gives (read (within depth) grammar.common_decl tokens.old) result tokens.new }
{
    if tokens.begins_word(Keyword::Type) {
        type_decl(alloc, tokens, depth)
    } else if tokens.begins_word(Keyword::Redef) {
        redef_decl(alloc, tokens, depth)
    } else if tokens.body_kind().is_some() {
        body_decl(alloc, tokens, depth)
    } else {
        function_decl(alloc, tokens, depth)
    }
}

/// What reads the declarations in a declaration.
#[derive(Clone, Copy)]
pub struct Decls<F> {
    pub alloc: Global,
    /// How deep they may still nest.
    pub depth: u64,
    pub nested: F,
}

impl<F: Fn(Global, &mut Tokens<'_>, u64) -> Result<Decl, FormFault>> Decls<F> {
    /// `export { .. }`
    #[tactic(auto, unfolding(zk_tree::specs::Grammar::export_decl))]
    fn export_decl(&self, tokens: &mut Tokens<'_>) -> Result<Decl, FormFault>
        requires { NestsOf ADecl self.now.depth (F.pre self.now.nested) (F.post self.now.nested) }
        ensures { Gives (read (within self.now.depth) grammar.export_decl tokens.old) result tokens.new }
    {
        let place = tokens.place();
        tokens.word(Keyword::Export)?;
        tokens.sign(Sign::OpenBrace)?;
        let decls = up_to_brace(self.alloc, self, tokens)?;
        Ok(Decl::Export { place, decls })
    }

    /// A declaration.
    #[tactic(auto, unfolding(zk_tree::specs::Grammar::declaration, zk_tree::specs::Grammar::export_decl, zk_tree::specs::Grammar::variable_decl))]
    pub fn declaration(&self, tokens: &mut Tokens<'_>) -> Result<Decl, FormFault>
        requires { NestsOf ADecl self.now.depth (F.pre self.now.nested) (F.post self.now.nested) }
        ensures { Gives (read (within self.now.depth) grammar.declaration tokens.old) result tokens.new }
    {
        if tokens.begins_word(Keyword::Module) {
            module_decl(self.alloc, tokens)
        } else if tokens.begins_word(Keyword::Export) {
            self.export_decl(tokens)
        } else if tokens.begins_load() {
            tokens.load(self.alloc)
        } else if tokens.lasting().is_some() {
            variable_decl(self.alloc, tokens, self.depth)
        } else {
            common_decl(self.alloc, tokens, self.depth)
        }
    }
}

impl<F: Fn(Global, &mut Tokens<'_>, u64) -> Result<Decl, FormFault>> Element<Decls<F>> for Decl {
    ghost ready = { λ c. NestsOf ADecl c.depth (F.pre c.nested) (F.post c.nested) };

    ghost at = { λ c. read (within c.depth) grammar.a_decl };

    #[tactic(auto, unfolding(zk_tree::specs::Grammar::a_decl))]
    fn read(decls: &Decls<F>, tokens: &mut Tokens<'_>) -> Result<Decl, FormFault> {
        (decls.nested)(decls.alloc, tokens, decls.depth)
    }
}

/// A declaration that is nested at most so deep, itself counted.
pub fn nested_decl(alloc: Global, tokens: &mut Tokens<'_>, depth: u64) -> Result<Decl, FormFault>
    ensures { Gives (within depth SyntaxDecl ADecl tokens.old) result tokens.new }
{
    if depth == 0 {
        return Err(FormFault::NoForm);
    }
    let decls = Decls {
        alloc,
        depth: depth - 1,
        nested: nested_decl,
    };
    decls.declaration(tokens)
}
