ghost use Rattle.std.specs.Prelude.{◌≡◌, List, ℕ, [], flat_map};
ghost use Rattle.std.specs.Option.{option_copied};
ghost use Rattle.zk_tree.specs.declared.types.Param.{out-Param};
ghost use Rattle.zk_typed.specs.Checked.{Checked};
ghost use Rattle.zk_typed.specs.Declarations as spec;
ghost use Rattle.zk_typed.specs.Resolving as resolving;
ghost use Rattle.zk_typed.specs.Tells.{Tells};
ghost use Rattle.zk_typed.specs.View.{type_of};
ghost use Rattle.zk_typed.specs.Types as typed;
ghost use Rattle.zk_typed.specs.Within.{mention, mentions};
ghost use Rattle.zk_scope.specs.Lent.{home_of, types_lent};
ghost use Rattle.zk_scope.specs.Scripted.{scripts_in};
ghost use Rattle.zk_check_declarations.specs.Grounds.{IsGround};
ghost use Rattle.zk_check_declarations.specs.Heights.{too_deep};
ghost use Rattle.zk_check_declarations.specs.Nesting.{all_parts, depth_rules, one_param};

use crate::fields::nested;
use crate::ground::Ground;
use crate::heights::Limit;
use crate::seen::Seen;
use crate::told::{dropped, require};
use zk_check_operators::also;
use zk_scope::{Home, add_local_types, place_in, within};
use zk_tree::{Block, Param, Place, Type};
use zk_typed::script::ValueType;
use zk_typed::{Refusal, Rule};

impl Ground<'_> {
    /// The rule of a type that nests too deep; what is broken in it is told where it is asked for.
    fn depth_rules(
        &self,
        limit: Limit,
        place: Place,
        one: &Result<ValueType, Refusal>,
    ) -> Result<(), Refusal>
        requires { IsGround self.now }
        ensures { (checked : Checked typed.ValueType) → Tells type_of one.now checked → Tells (λ done. done) result (depth_rules (too_deep limit (scripts_in self.now.names.now)) place checked) }
    {
        match one {
            Ok(one) => {
                let deep = self.depths.is_too_deep(limit, one);
                require(self.alloc, !deep, Rule::Recursive, place)
            }
            Err(Refusal::Broken(_)) => Ok(()),
            Err(Refusal::NoMemory) => Err(Refusal::NoMemory),
        }
    }

    /// What there is within a type: it isn't too deep, and its record types keep their rules.
    pub fn parts_rules(&self, limit: Limit, home: Home<'_>, tree: &Type) -> Result<(), Refusal>
        requires { IsGround self.now }
        ensures { Tells (λ done. done) result (spec.parts_rules (too_deep limit (scripts_in self.now.names.now)) (scripts_in self.now.names.now) (home_of home.entry) tree.now) }
    {
        let one = self.names.type_of(self.alloc, home, tree);
        let deep = self.depth_rules(limit, place_in(home, tree.place()), &one);
        let inner = nested(self, u64::MAX, home, tree);
        also(deep, inner)
    }

    /// The rules of a type.
    pub fn type_rules(&self, home: Home<'_>, tree: &Type) -> Result<(), Refusal>
        requires { IsGround self.now }
        ensures { Tells (λ done. done) result (spec.type_rules (scripts_in self.now.names.now) (home_of home.entry) tree.now) }
    {
        let one = self.names.type_of(self.alloc, home, tree);
        let parts = self.parts_rules(Limit::Written, home, tree);
        also(dropped(one), parts)
    }

    /// The rules of a type, where there is one.
    pub fn maybe_rules(&self, home: Home<'_>, tree: Option<&Type>) -> Result<(), Refusal>
        requires { IsGround self.now }
        ensures { Tells (λ done. done) result (spec.maybe_rules (scripts_in self.now.names.now) (home_of home.entry) (option_copied tree.entry)) }
    {
        match tree {
            Some(tree) => self.type_rules(home, tree),
            None => Ok(()),
        }
    }

    /// The rules of the types of locals.
    fn all_parts(&self, home: Home<'_>, trees: &[&Type]) -> Result<(), Refusal>
        requires { IsGround self.now }
        ensures { Tells (λ done. done) result (all_parts (scripts_in self.now.names.now) (home_of home.entry) (types_lent trees.now)) }
    {
        let mut rules = Ok(());
        for tree in trees {
            let one = self.parts_rules(Limit::Written, home, tree);
            rules = also(rules, one);
        }
        rules
    }

    /// The rules of the types of a body's locals.
    pub fn local_rules(&self, home: Home<'_>, block: &Block) -> Result<(), Refusal>
        requires { IsGround self.now }
        ensures { Tells (λ done. done) result (spec.local_rules (scripts_in self.now.names.now) (home_of home.entry) block.now) }
    {
        let mut trees = Vec::new(self.alloc);
        add_local_types(block, &mut trees)?;
        self.all_parts(home, &trees)
    }

    /// The rules of a parameter; `twice` says whether a parameter before it has its name.
    fn param_rule(&self, home: Home<'_>, twice: bool, param: &Param) -> Result<(), Refusal>
        requires { IsGround self.now }
        ensures { (before : List (List ℕ)) → twice ≡ spec.is_one_of before (out-Param param.now).name.text → Tells (λ done. done) result (one_param (scripts_in self.now.names.now) (home_of home.entry) before param.now) }
    {
        let place = place_in(home, param.name.place);
        let once = require(self.alloc, !twice, Rule::Twice, place);
        let typed = self.type_rules(home, &param.param_type);
        also(once, typed)
    }

    /// The rules of the parameters of a body or of a signature: their types, and no name twice.
    pub fn param_rules(&self, home: Home<'_>, params: &[Param]) -> Result<(), Refusal>
        requires { IsGround self.now }
        ensures { Tells (λ done. done) result (spec.param_rules (scripts_in self.now.names.now) (home_of home.entry) [] params.now) }
    {
        let mut seen = Seen::new(self.alloc);
        let mut rules = Ok(());
        for param in params {
            let twice = seen.add(self.alloc, param.name.text.as_slice())?;
            let one = self.param_rule(home, twice, param);
            rules = also(rules, one);
        }
        rules
    }

    /// The rule of a type that is a name: it doesn't lead to the declared type in which it stands.
    fn mention_rules(&self, home: Home<'_>, whole: &[u8], tree: &Type) -> Result<(), Refusal>
        ensures { Tells (λ done. done) result (spec.recursive_rules (scripts_in self.now.names.now) (home_of home.entry) whole.now (mention tree.now)) }
    {
        match tree {
            Type::Named { name } => {
                let leads = self.names.leads(self.alloc, whole, home, name)?;
                let place = place_in(home, name.place);
                require(self.alloc, !leads, Rule::Recursive, place)
            }
            Type::Atomic { .. }
            | Type::Table { .. }
            | Type::Set { .. }
            | Type::Vector { .. }
            | Type::Record { .. }
            | Type::Enum { .. }
            | Type::Event { .. }
            | Type::Hook { .. }
            | Type::Procedure { .. }
            | Type::Function { .. } => Ok(()),
        }
    }

    /// The rules of types that are names.
    fn all_mentions(&self, home: Home<'_>, whole: &[u8], trees: &[&Type]) -> Result<(), Refusal>
        ensures { Tells (λ done. done) result (spec.recursive_rules (scripts_in self.now.names.now) (home_of home.entry) whole.now (flat_map mention (types_lent trees.now))) }
    {
        let mut rules = Ok(());
        for tree in trees {
            let one = self.mention_rules(home, whole, tree);
            rules = also(rules, one);
        }
        rules
    }

    /// The rules of a declared type that leads back to its whole name, told where its text does.
    pub fn recursive_rules(&self, home: Home<'_>, whole: &[u8], tree: &Type) -> Result<(), Refusal>
        ensures { Tells (λ done. done) result (spec.recursive_rules (scripts_in self.now.names.now) (home_of home.entry) whole.now (mentions tree.now)) }
    {
        let mut trees = Vec::new(self.alloc);
        within(tree, &mut trees)?;
        self.all_mentions(home, whole, &trees)
    }
}
