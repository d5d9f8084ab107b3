use std::alloc::Global;
use zk_check_expressions::Globals;
use zk_scope::Scripts;

/// Scripts, and the types of their globals and constants.
#[derive(Clone, Copy)]
pub struct Source<'a> {
    pub alloc: Global,
    pub scripts: &'a Scripts<'a>,
    pub globals: Globals<'a>,
}
