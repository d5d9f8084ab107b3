ghost use Rattle.std.specs.Prelude.{◌≡◌, ◌++◌, ◌∷◌, [], List, IfOk};
ghost use Rattle.zk_typed.specs.Errors as spec;
ghost use Rattle.zk_typed.specs.LoadOrder.{Stated as AtStated};
ghost use Rattle.zk_typed.specs.Tells.{Tells};
ghost use Rattle.zk_scope.specs.Lent.{stated_lent, stated_of};
ghost use Rattle.zk_scope.specs.Scripted.{scripts_in};
ghost use Rattle.zk_check_operators.specs.Gather.{Told};
ghost use Rattle.zk_check.specs.Bodied.{IsBodied};
ghost use Rattle.zk_check.specs.Earlier.{IsEarlier};
ghost use Rattle.zk_check.specs.Faults.{head_of};
ghost use Rattle.zk_check.specs.Listing.{all_rules};

use crate::rules::bodies::Bodied;
use crate::rules::decls::Earlier;
use crate::rules::least::first_told;
use zk_base::Mem;
use zk_check_declarations::{declares, twice_rules};
use zk_check_operators::also;
use zk_scope::Stated;
use zk_typed::{Broken, Refusal};

impl<'a> Bodied<'a> {
    /// All rules that a declaration breaks, by what the ones before it have declared. What it declares is known
    /// besides.
    fn all_rules(&self, one: Stated<'a>, earlier: &mut Earlier) -> Result<(), Refusal>
        requires { IsBodied self.now }
        ensures rules { (before : List AtStated) → IsEarlier earlier.old (scripts_in self.now.valued.ground.names.now) before → Tells (λ done. done) result (all_rules (scripts_in self.now.valued.ground.names.now) before (stated_of one.entry)) }
        ensures later { Told result → (before : List AtStated) → IsEarlier earlier.old (scripts_in self.now.valued.ground.names.now) before → IsEarlier earlier.new (scripts_in self.now.valued.ground.names.now) (before ++ stated_of one.entry ∷ []) }
    {
        let alloc = self.valued.ground.alloc;
        let names = declares(alloc, one)?;
        let decl = self.decl_rules(one, earlier);
        let twice = twice_rules(alloc, one.home, &names, &mut earlier.declared);
        let paths = self.path_rules(one, &mut earlier.paths);
        also(also(decl, twice), paths)
    }

    /// The broken rule of a declaration that is told first. What it declares is known besides.
    fn judge(&self, one: Stated<'a>, earlier: &mut Earlier) -> Result<Option<Broken>, Mem>
        requires { IsBodied self.now }
        ensures first { IfOk result (λ first. (before : List AtStated) → IsEarlier earlier.old (scripts_in self.now.valued.ground.names.now) before → first ≡ head_of (spec.errors_of (scripts_in self.now.valued.ground.names.now) before (stated_of one.entry))) }
        ensures later { IfOk result (λ first. (before : List AtStated) → IsEarlier earlier.old (scripts_in self.now.valued.ground.names.now) before → IsEarlier earlier.new (scripts_in self.now.valued.ground.names.now) (before ++ stated_of one.entry ∷ [])) }
    {
        match self.all_rules(one, earlier) {
            Ok(()) => Ok(None),
            Err(Refusal::Broken(rules)) => Ok(first_told(rules.as_slice())),
            Err(Refusal::NoMemory) => Err(Mem),
        }
    }

    /// The first rule that declarations break, in load order.
    pub fn first_broken(
        &self,
        stated: &[Stated<'a>],
        earlier: &mut Earlier,
    ) -> Result<Option<Broken>, Mem>
        requires { IsBodied self.now }
        ensures { IfOk result (λ first. IsEarlier earlier.old (scripts_in self.now.valued.ground.names.now) [] → first ≡ head_of (spec.errors_from (scripts_in self.now.valued.ground.names.now) [] (stated_lent stated.now))) }
    {
        for one in stated {
            match self.judge(*one, earlier)? {
                Some(first) => return Ok(Some(first)),
                None => {}
            }
        }
        Ok(None)
    }
}
