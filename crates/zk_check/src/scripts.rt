ghost use Rattle.std.specs.Prelude.{◌≡◌, ◌↔◌, [], List, IfErr, IfOk};
ghost use Rattle.zk_typed.specs.Declarations.{global_type, told_type};
ghost use Rattle.zk_typed.specs.Declaring.{scripts_of};
ghost use Rattle.zk_typed.specs.Errors.{errors, errors_from};
ghost use Rattle.zk_typed.specs.LoadOrder.{File};
ghost use Rattle.zk_typed.specs.Program as spec;
ghost use Rattle.zk_typed.specs.Programs.{Typed};
ghost use Rattle.zk_typed.specs.View.{program_of};
ghost use Rattle.zk_scope.specs.Lent.{files_of};
ghost use Rattle.zk_scope.specs.Scripted.{scripts_in};
ghost use Rattle.zk_check_expressions.specs.Envs.{globals_at};
ghost use Rattle.zk_check_declarations.specs.Sources.{IsSource, scripts_from};
ghost use Rattle.zk_check_declarations.specs.Valuing.{IsValues};
ghost use Rattle.zk_check.specs.Checking.{IsAccepted};
ghost use Rattle.zk_check.specs.Faults.{IsFirst, head_of};
ghost use Rattle.zk_check_declarations.specs.Rounds.{IsGlobals};

use crate::fault::{CheckFault, fault_of};
use crate::logs::all_logs;
use crate::program::typed_program;
use crate::rules::bodies::Bodied;
use crate::rules::decls::Earlier;
use std::alloc::Global;
use zk_base::{Bytes, Mem};
use zk_check_declarations::{
    Ground, Source, Valued, Values, all_streams, depths, given_values, known_types, told_types,
};
use zk_check_expressions::{GlobalType, Globals};
use zk_scope::{Names, Scripts};
use zk_tree::Tree;
use zk_typed::Broken;
use zk_typed::script::Program;

/// The rule that scripts break and that is told first.
fn first_rule<'a>(
    source: &Source<'a>,
    values: &Values<'a>,
    told: Globals<'a>,
) -> Result<Option<Broken>, Mem>
    requires source { IsSource source.now }
    requires values { IsValues values.now (scripts_from source.now) }
    requires told { globals_at told ≡ told_type (scripts_from source.now) }
    ensures { IfOk result (λ first. first ≡ head_of (errors_from (scripts_from source.now) [] (scripts_from source.now).stated)) }
{
    let alloc = source.alloc;
    let names = &source.scripts.names;
    let depths = depths(alloc, names)?;
    let logs = all_logs(alloc, source.scripts)?;
    let streams = all_streams(source)?;
    let ground = Ground {
        alloc,
        names,
        source,
        depths: &depths,
        values,
    };
    let valued = Valued {
        ground,
        scripts: source.scripts,
        told,
        known: source.globals,
    };
    let bodied = Bodied {
        valued,
        source,
        logs: &logs,
        streams: &streams,
    };
    let mut earlier = Earlier::new(alloc, names)?;
    bodied.first_broken(names.stated(), &mut earlier)
}

/// Checks scripts by the types of their globals. Their files are for the names that the program has of them.
fn check_typed<'a>(
    alloc: Global,
    files: &[(Bytes, Tree)],
    scripts: &'a Scripts<'a>,
    told: &'a [GlobalType],
    known: &'a [GlobalType],
) -> Result<Program, CheckFault>
    requires told { IsGlobals told.now (told_type (scripts_in scripts.now.names)) }
    requires known { IsGlobals known.now (global_type (scripts_in scripts.now.names)) }
    ensures accepted { IfOk result (λ program. IsAccepted (files_of files.now) (scripts_in scripts.entry.now.names) (program_of program)) }
    ensures refused { IfErr result (λ fault. IsFirst fault (errors_from (scripts_in scripts.entry.now.names) [] (scripts_in scripts.entry.now.names).stated)) }
{
    let values = given_values(alloc, &scripts.names)?;
    let globals = Globals {
        types: known,
        circular: false,
    };
    let source = Source {
        alloc,
        scripts,
        globals,
    };
    let told = Globals {
        types: told,
        circular: false,
    };
    let first = first_rule(&source, &values, told)?;
    match first {
        Some(first) => Err(fault_of(first)),
        None => Ok(typed_program(&source, &values, files)?),
    }
}

/// Checks scripts by what they declare.
fn check_scripts(
    alloc: Global,
    files: &[(Bytes, Tree)],
    scripts: &Scripts<'_>,
) -> Result<Program, CheckFault>
    ensures accepted { IfOk result (λ program. IsAccepted (files_of files.now) (scripts_in scripts.now.names) (program_of program)) }
    ensures refused { IfErr result (λ fault. IsFirst fault (errors_from (scripts_in scripts.now.names) [] (scripts_in scripts.now.names).stated)) }
{
    let told = told_types(alloc, scripts)?;
    let known = known_types(alloc, &told)?;
    check_typed(alloc, files, scripts, &told, &known)
}

/// Checks the names and types of scripts by what they declare, and gives their typed program (Zeek manual,
/// Script Reference). Scripts that break a rule are refused with the one that is told first: by load
/// order, place and kind.
pub fn check(
    alloc: Global,
    files: &[(Bytes, Tree)],
    names: Names<'_>,
) -> Result<Program, CheckFault>
    requires { scripts_in names ≡ scripts_of (files_of files.now) }
    ensures accepted { IfOk result (λ program. Typed (files_of files.now) (program_of program)) }
    ensures refused { IfErr result (λ fault. IsFirst fault (errors (files_of files.now))) }
{
    let scripts = Scripts::new(alloc, names)?;
    check_scripts(alloc, files, &scripts)
}

/// Scripts have a program exactly where they break no rule, and no other one.
pub fn one_program()
    ensures some { (files : List File) → (errors files ≡ []) ↔ ((program : spec.Program) × Typed files program) }
    ensures only { (files : List File) (a b : spec.Program) → Typed files a → Typed files b → a ≡ b }
{}
