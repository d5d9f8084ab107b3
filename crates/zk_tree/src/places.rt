// The place of each node: that of its first byte.
ghost use Rattle.std.specs.Prelude.{◌≡◌};
ghost use Rattle.zk_tree.specs.Places.{IsPlace, expr_place, init_place, type_place, stmt_place, decl_place};

use crate::decl::Decl;
use crate::expr::Expr;
use crate::stmt::{Init, Stmt};
use crate::types::Type;

impl Expr {
    /// The place of its first byte. One that doesn't begin with a token of its own begins where its
    /// first part does.
    pub fn place(&self) -> u64
        ensures { result ≡ expr_place self.now }
    {
        self.first_byte()
    }

    /// The place of its first byte, which is that of its first part's at each depth of nesting.
    #[tactic(auto, using(crate::proofs::PlaceLaws::begins))]
    fn first_byte(&self) -> u64
        ensures { IsPlace result self.now }
    {
        match self {
            Expr::Assign { left, .. } => left.get().first_byte(),
            Expr::Compare { left, .. } => left.get().first_byte(),
            Expr::Choice { test, .. } => test.get().first_byte(),
            Expr::Chain { first, .. } => first.get().first_byte(),
            Expr::Post { first, .. } => first.get().first_byte(),
            Expr::Name { name } => name.place,
            Expr::Unary { place, .. }
            | Expr::Number { place, .. }
            | Expr::Interval { place, .. }
            | Expr::Literal { place, .. }
            | Expr::Truth { place, .. }
            | Expr::Parenthesis { place, .. }
            | Expr::Size { place, .. }
            | Expr::List { place, .. }
            | Expr::Make { place, .. }
            | Expr::Hook { place, .. } => *place,
        }
    }
}

impl Init {
    /// The place of its first byte.
    pub fn place(&self) -> u64
        ensures { result ≡ init_place self.now }
    {
        match self {
            Init::Value { value } => value.place(),
            Init::Braces { place, .. } => *place,
        }
    }
}

impl Type {
    /// The place of its first byte.
    pub fn place(&self) -> u64
        ensures { result ≡ type_place self.now }
    {
        match self {
            Type::Named { name } => name.place,
            Type::Atomic { place, .. }
            | Type::Table { place, .. }
            | Type::Set { place, .. }
            | Type::Vector { place, .. }
            | Type::Record { place, .. }
            | Type::Enum { place, .. }
            | Type::Event { place, .. }
            | Type::Hook { place, .. }
            | Type::Procedure { place, .. }
            | Type::Function { place, .. } => *place,
        }
    }
}

impl Stmt {
    /// The place of its first byte.
    pub fn place(&self) -> u64
        ensures { result ≡ stmt_place self.now }
    {
        match self {
            Stmt::Block { block } => block.place,
            Stmt::Expr { value } => value.place(),
            Stmt::Empty { place }
            | Stmt::If { place, .. }
            | Stmt::IfElse { place, .. }
            | Stmt::While { place, .. }
            | Stmt::For { place, .. }
            | Stmt::Local { place, .. }
            | Stmt::Print { place, .. }
            | Stmt::Event { place, .. }
            | Stmt::Schedule { place, .. }
            | Stmt::Add { place, .. }
            | Stmt::Delete { place, .. }
            | Stmt::Return { place, .. }
            | Stmt::Next { place }
            | Stmt::Break { place } => *place,
        }
    }
}

impl Decl {
    /// The place of its first byte.
    pub fn place(&self) -> u64
        ensures { result ≡ decl_place self.now }
    {
        match self {
            Decl::Module { place, .. }
            | Decl::Export { place, .. }
            | Decl::Load { place, .. }
            | Decl::Variable { place, .. }
            | Decl::Redef { place, .. }
            | Decl::RedefEnum { place, .. }
            | Decl::RedefRecord { place, .. }
            | Decl::Type { place, .. }
            | Decl::Body { place, .. }
            | Decl::Function { place, .. } => *place,
        }
    }
}
