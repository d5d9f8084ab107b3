ghost use Rattle.std.specs.Prelude.{◌≡◌};

use crate::locals::Locals;
use zk_scope::{Home, Scripts};
use zk_tree::{Expr, Place};
use zk_typed::script::ValueType;

/// A parameter or a local.
#[derive(Debug, Drop)]
pub struct LocalName<'a> {
    pub name: &'a [u8],
    /// None where its declaration is broken.
    pub value_type: Option<ValueType>,
}

/// What is known of the type of a global or a constant.
#[derive(Debug, Drop)]
pub enum GlobalType {
    Known(ValueType),
    /// Its declaration is broken.
    Unknown,
    /// It rests on its own initial value.
    Circular,
}

/// The types of globals and constants, by their numbers.
#[derive(Clone, Copy)]
pub struct Globals<'a> {
    pub types: &'a [GlobalType],
    /// Whether one with a number past these rests on its own initial value. Else its type isn't known.
    pub circular: bool,
}

/// Where an expression stands.
#[derive(Clone, Copy)]
pub struct Env<'a> {
    pub scripts: &'a Scripts<'a>,
    pub home: Home<'a>,
    /// The parameters and locals that are visible, in a body.
    pub locals: Option<&'a Locals<'a>>,
    pub globals: Globals<'a>,
}

impl Env<'_> {
    ghost use Rattle.zk_typed.specs.Typing as spec;
    ghost use Rattle.zk_check_expressions.specs.Envs.{env_of};

    /// A place in the file.
    pub fn at(&self, byte: u64) -> Place
        ensures { result ≡ spec.at (env_of self.now) byte }
    {
        Place {
            file: self.home.file,
            byte,
        }
    }

    /// The place of an expression.
    pub fn expr_place(&self, one: &Expr) -> Place
        ensures { result ≡ spec.expr_place (env_of self.now) one.now }
    {
        self.at(one.place())
    }
}
