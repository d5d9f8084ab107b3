ghost use Rattle.std.specs.Prelude.{◌≡◌, ◌++◌, flat_map, OnOk};
ghost use Rattle.zk_tree.specs.declared.decl.Decl.{out-Decl};
ghost use Rattle.zk_typed.specs.Within.{local_types, maybe_one, stmt_locals};
ghost use Rattle.zk_typed.specs.Names.{decl_types, field_types, param_types};
ghost use Rattle.zk_scope.specs.Lent.{types_lent};

use zk_base::Mem;
use zk_tree::{Block, Decl, Field, Param, Stmt, Type};

/// Adds the types of the locals in a statement.
#[cycle(locals)]
fn stmt_locals<'a>(stmt: &'a Stmt, types: &mut Vec<&'a Type>) -> Result<(), Mem>
    ensures { OnOk result (types_lent types.new.items ≡ types_lent types.old.items ++ stmt_locals stmt.now) }
{
    match stmt {
        Stmt::Block { block } => {
            stmts_locals(block.stmts.as_slice(), types)?;
            Ok(())
        }
        Stmt::If {
            place: _,
            test: _,
            yes,
        } => {
            stmt_locals(yes.get(), types)?;
            Ok(())
        }
        Stmt::IfElse {
            place: _,
            test: _,
            yes,
            no,
        } => {
            stmt_locals(yes.get(), types)?;
            stmt_locals(no.get(), types)?;
            Ok(())
        }
        Stmt::While {
            place: _,
            test: _,
            body,
        } => {
            stmt_locals(body.get(), types)?;
            Ok(())
        }
        Stmt::For {
            place: _,
            keys: _,
            value: _,
            over: _,
            body,
        } => {
            stmt_locals(body.get(), types)?;
            Ok(())
        }
        Stmt::Local {
            place: _,
            name: _,
            local_type,
            init: _,
        } => {
            maybe_type(local_type, types)?;
            Ok(())
        }
        Stmt::Empty { .. }
        | Stmt::Print { .. }
        | Stmt::Event { .. }
        | Stmt::Schedule { .. }
        | Stmt::Add { .. }
        | Stmt::Delete { .. }
        | Stmt::Return { .. }
        | Stmt::Next { .. }
        | Stmt::Break { .. }
        | Stmt::Expr { .. } => Ok(()),
    }
}

/// Adds the types of the locals in statements.
#[cycle(locals)]
fn stmts_locals<'a>(stmts: &'a [Stmt], types: &mut Vec<&'a Type>) -> Result<(), Mem>
    ensures { OnOk result (types_lent types.new.items ≡ types_lent types.old.items ++ flat_map stmt_locals stmts.now) }
{
    for stmt in stmts {
        stmt_locals(stmt, types)?;
    }
    Ok(())
}

/// Adds a type, where there is one.
fn maybe_type<'a>(tree: &'a Option<Type>, types: &mut Vec<&'a Type>) -> Result<(), Mem>
    ensures { OnOk result (types_lent types.new.items ≡ types_lent types.old.items ++ maybe_one tree.now) }
{
    match tree {
        Some(tree) => {
            types.push(tree)?;
            Ok(())
        }
        None => Ok(()),
    }
}

/// Adds the types of fields.
fn add_field_types<'a>(fields: &'a [Field], types: &mut Vec<&'a Type>) -> Result<(), Mem>
    ensures { OnOk result (types_lent types.new.items ≡ types_lent types.old.items ++ field_types fields.now) }
{
    for field in fields {
        types.push(&field.field_type)?;
    }
    Ok(())
}

/// Adds the types of parameters.
fn add_param_types<'a>(params: &'a [Param], types: &mut Vec<&'a Type>) -> Result<(), Mem>
    ensures { OnOk result (types_lent types.new.items ≡ types_lent types.old.items ++ param_types params.now) }
{
    for param in params {
        types.push(&param.param_type)?;
    }
    Ok(())
}

/// Adds the types of the locals of a body.
pub fn add_local_types<'a>(body: &'a Block, types: &mut Vec<&'a Type>) -> Result<(), Mem>
    ensures { OnOk result (types_lent types.new.items ≡ types_lent types.old.items ++ local_types body.now) }
{
    stmts_locals(body.stmts.as_slice(), types)?;
    Ok(())
}

/// Adds the types that stand in a declaration.
pub fn add_decl_types<'a>(decl: &'a Decl, types: &mut Vec<&'a Type>) -> Result<(), Mem>
    ensures { OnOk result (types_lent types.new.items ≡ types_lent types.old.items ++ decl_types (out-Decl decl.now)) }
{
    match decl {
        Decl::Variable {
            place: _,
            lasting: _,
            name: _,
            variable_type,
            init: _,
            attrs: _,
        } => {
            maybe_type(variable_type, types)?;
            Ok(())
        }
        Decl::Type {
            place: _,
            name: _,
            meant,
        } => {
            types.push(meant)?;
            Ok(())
        }
        Decl::RedefRecord {
            place: _,
            name: _,
            fields,
        } => {
            add_field_types(fields.as_slice(), types)?;
            Ok(())
        }
        Decl::Body {
            place: _,
            kind: _,
            name: _,
            params,
            attrs: _,
            body,
        } => {
            add_param_types(params.as_slice(), types)?;
            add_local_types(body, types)?;
            Ok(())
        }
        Decl::Function {
            place: _,
            name: _,
            params,
            result_type,
            body,
        } => {
            add_param_types(params.as_slice(), types)?;
            maybe_type(result_type, types)?;
            add_local_types(body, types)?;
            Ok(())
        }
        Decl::Module { .. }
        | Decl::Export { .. }
        | Decl::Load { .. }
        | Decl::Redef { .. }
        | Decl::RedefEnum { .. } => Ok(()),
    }
}
