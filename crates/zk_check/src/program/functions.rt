ghost use Rattle.std.specs.Prelude.{◌≡◌, ◌++◌, [], filter, flat_map, map, None, IfOk, OnOk};
ghost use Rattle.std.specs.Option.{option_map};
ghost use Rattle.zk_scope.specs.Lent.{declared_of, signature_of, stated_of};
ghost use Rattle.zk_typed.specs.Names.{Declared as DeclaredName};
ghost use Rattle.zk_typed.specs.Programs as spec;
ghost use Rattle.zk_typed.specs.Resolving as resolving;
ghost use Rattle.zk_typed.specs.Resolving.{Scripts};
ghost use Rattle.zk_typed.specs.Typing.{is_function};
ghost use Rattle.zk_typed.specs.View as view;
ghost use Rattle.zk_typed.specs.View.{type_of};
ghost use Rattle.zk_check_declarations.specs.Choosing.{chosen};
ghost use Rattle.zk_check.specs.Functions.{function_among, function_typed, functions_at, signature_in, stated_function};
ghost use Rattle.zk_check_declarations.specs.Sources.{IsSource, scripts_from};

use crate::program::bodies::function_body_in;
use crate::program::signatures::{params_of, result_of};
use std::alloc::Global;
use zk_base::{Mem, Sequence};
use zk_check_declarations::{Groups, Source};
use zk_check_statements::no_stmt;
use zk_scope::{Declared, Home, Kind, Signature, Stated, whole_name};
use zk_tree::{Block, Decl, Param, Type};
use zk_typed::script::{Function, ValueType};

/// A function's body, where it stands.
#[derive(Clone, Copy)]
pub struct FunctionDecl<'a> {
    pub home: Home<'a>,
    pub params: &'a [Param],
    pub result_type: &'a Option<Type>,
    pub block: &'a Block,
}

impl<'a> FunctionDecl<'a> {
    /// Its parameters and its result.
    fn signature(&self) -> Signature<'a>
        ensures { signature_of result ≡ signature_in self.now }
    {
        let result = match self.result_type {
            Some(one) => Some(one),
            None => None,
        };
        Signature::Written {
            home: self.home,
            params: self.params,
            result,
        }
    }
}

/// The parameters and the result of a function, by its body.
fn signed<'a>(
    source: &Source<'a>,
    one: &FunctionDecl<'a>,
) -> Result<(Sequence<ValueType>, Option<ValueType>), Mem>
    ensures params { IfOk result (λ made. map type_of made.0 ≡ spec.checked_or [] (resolving.params_of (scripts_from source.now) (signature_in one.now))) }
    ensures given { IfOk result (λ made. option_map type_of made.1 ≡ spec.checked_or None (resolving.result_of (scripts_from source.now) (signature_in one.now))) }
{
    let signature = one.signature();
    let params = params_of(source, &signature)?;
    let result = result_of(source, &signature)?;
    Ok((params, result))
}

/// A function by its body.
fn function_made<'a>(source: &Source<'a>, one: &FunctionDecl<'a>) -> Result<Function, Mem>
    requires { IsSource source.now }
    ensures { IfOk result (λ made. view.function_of made ≡ function_typed (scripts_from source.now) one.now) }
{
    let (params, result) = signed(source, one)?;
    let made = function_body_in(source, one.home, one.params, one.result_type, one.block)?;
    Ok(Function {
        params,
        result,
        locals: made.locals,
        body: made.body,
    })
}

/// A function without a body.
fn no_function(alloc: Global) -> Function
    ensures { view.function_of result ≡ spec.no_function }
{
    Function {
        params: Sequence::from(Vec::new(alloc)),
        result: None,
        locals: 0,
        body: no_stmt(alloc),
    }
}

/// The function of a name, among bodies by the whole names of functions.
fn function_of<'a>(
    source: &Source<'a>,
    bodies: &Groups<FunctionDecl<'a>>,
    one: &Declared<'_>,
) -> Result<Function, Mem>
    requires { IsSource source.now }
    ensures { IfOk result (λ made. view.function_of made ≡ function_among (scripts_from source.now) bodies.now (declared_of one.now)) }
{
    let ones = bodies.of(source.alloc, one.name.as_slice())?;
    match ones.split_first() {
        Some((first, _)) => function_made(source, first),
        None => Ok(no_function(source.alloc)),
    }
}

/// Adds the function that a name stands for.
fn add_function<'a>(
    source: &Source<'a>,
    bodies: &Groups<FunctionDecl<'a>>,
    one: &Declared<'_>,
    all: &mut Vec<Function>,
) -> Result<(), Mem>
    requires { IsSource source.now }
    ensures { OnOk result (map view.function_of all.new.items ≡ map view.function_of all.old.items ++ chosen is_function (function_among (scripts_from source.now) bodies.now) (declared_of one.now)) }
{
    if Kind::Function.is_of(one) {
        all.push(function_of(source, bodies, one)?)?;
    }
    Ok(())
}

/// The functions of all names of functions.
fn functions_of<'a>(
    source: &Source<'a>,
    bodies: &Groups<FunctionDecl<'a>>,
) -> Result<Vec<Function>, Mem>
    requires { IsSource source.now }
    ensures { IfOk result (λ made. map view.function_of made.items ≡ map (function_among (scripts_from source.now) bodies.now) (filter is_function (scripts_from source.now).names)) }
{
    let mut all = Vec::new(source.alloc);
    for one in source.scripts.names.declared() {
        add_function(source, bodies, one, &mut all)?;
    }
    Ok(all)
}

/// Adds the function that a declaration is a body of.
fn add_stated<'a>(
    alloc: Global,
    one: Stated<'a>,
    bodies: &mut Groups<FunctionDecl<'a>>,
) -> Result<(), Mem>
    ensures { OnOk result ((scripts : Scripts) (name : DeclaredName) → functions_at scripts bodies.new name ≡ functions_at scripts bodies.old name ++ stated_function scripts name (stated_of one.entry)) }
{
    let home = one.home;
    match one.decl {
        Decl::Function {
            place: _,
            name,
            params,
            result_type,
            body,
        } => {
            let whole = whole_name(alloc, home.module_name, name.text.as_slice())?;
            let decl = FunctionDecl {
                home,
                params: params.as_slice(),
                result_type,
                block: body,
            };
            bodies.add(alloc, whole.as_slice(), decl)?;
            Ok(())
        }
        Decl::Module { .. }
        | Decl::Export { .. }
        | Decl::Load { .. }
        | Decl::Variable { .. }
        | Decl::Redef { .. }
        | Decl::RedefEnum { .. }
        | Decl::RedefRecord { .. }
        | Decl::Type { .. }
        | Decl::Body { .. } => Ok(()),
    }
}

/// The bodies of functions by their whole names, in load order.
fn bodies_by_name<'a>(source: &Source<'a>) -> Result<Groups<FunctionDecl<'a>>, Mem>
    ensures { IfOk result (λ bodies. (name : DeclaredName) → functions_at (scripts_from source.now) bodies name ≡ flat_map (stated_function (scripts_from source.now) name) (scripts_from source.now).stated) }
{
    let mut bodies = Groups::new(source.alloc);
    for one in source.scripts.names.stated() {
        add_stated(source.alloc, *one, &mut bodies)?;
    }
    Ok(bodies)
}

/// The functions of a program.
pub fn all_functions(source: &Source<'_>) -> Result<Vec<Function>, Mem>
    requires { IsSource source.now }
    ensures { IfOk result (λ made. map view.function_of made.items ≡ map (spec.function_of (scripts_from source.now)) (filter is_function (scripts_from source.now).names)) }
{
    let bodies = bodies_by_name(source)?;
    let all = functions_of(source, &bodies)?;
    Ok(all)
}
