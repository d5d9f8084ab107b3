ghost use Rattle.std.specs.Prelude.{◌≡◌, IfOk};
ghost use Rattle.zk_typed.specs.Typing as spec;
ghost use Rattle.zk_check_expressions.specs.Envs.{env_of, found_of};

use crate::env::Env;
use crate::names::local_meant;
use std::alloc::Global;
use zk_base::Mem;
use zk_scope::Declared;
use zk_tree::Name;

/// What a name means where an expression stands.
#[derive(Clone, Copy)]
pub enum Found<'a> {
    /// A parameter or a local, which hides what else has its name.
    Local,
    Declared(&'a Declared<'a>),
    Nothing,
}

/// What a name means where an expression stands.
pub fn look_up<'a>(alloc: Global, env: &Env<'a>, name: &Name) -> Result<Found<'a>, Mem>
    ensures { IfOk result (λ found. found_of (env_of env.now) name.now found ≡ spec.found (env_of env.now) name.now) }
{
    if local_meant(alloc, env.locals, name.text.as_slice())?.is_some() {
        return Ok(Found::Local);
    }
    let declared = env
        .scripts
        .names
        .look_up(alloc, env.home.module_name, name.text.as_slice())?;
    match declared {
        Some(one) => Ok(Found::Declared(one)),
        None => Ok(Found::Nothing),
    }
}
