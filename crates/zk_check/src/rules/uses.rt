ghost use Rattle.std.specs.Prelude.{◌≡◌, ◌++◌, List, IfOk};
ghost use Rattle.zk_tree.specs.declared.decl.Decl.{out-Decl};
ghost use Rattle.zk_typed.specs.Errors as spec;
ghost use Rattle.zk_typed.specs.LogCalls.{decl_calls, leaves, logged};
ghost use Rattle.zk_typed.specs.Tells.{Tells};
ghost use Rattle.zk_scope.specs.Calls.{call_of};
ghost use Rattle.zk_scope.specs.Leaves.{leaves_lent};
ghost use Rattle.zk_scope.specs.Lent.{home_of, stated_of};
ghost use Rattle.zk_scope.specs.Scripted.{scripts_in};
ghost use Rattle.zk_check_operators.specs.Gather.{Told};
ghost use Rattle.zk_check.specs.Bodied.{IsBodied};
ghost use Rattle.zk_check_declarations.specs.Paths.{HasPaths, call_rules, stated_uses, uses_lent};
ghost use Rattle.zk_check_declarations.specs.Uses.{filter_use};

use crate::rules::bodies::Bodied;
use sqlite_items::at;
use zk_base::{Bytes, LogId, Mem, RecordNo};
use zk_check_declarations::{PathUse, Paths, log_call, logged, one_use, require, stream_uses};
use zk_check_operators::also;
use zk_scope::{Call, Leaf, Stated, decl_calls, place_in};
use zk_typed::script::LogCall;
use zk_typed::{Refusal, Rule};

impl<'a> Bodied<'a> {
    /// What the columns of a record type can be.
    fn leaves_of_type(&self, number: RecordNo) -> Result<Vec<Leaf>, Mem>
        requires { IsBodied self.now }
        ensures { IfOk result (λ all. leaves_lent all.items ≡ leaves (scripts_in self.now.valued.ground.names.now) number) }
    {
        self.source.scripts.leaves(self.valued.ground.alloc, number)
    }

    /// What the columns of a log can be.
    fn leaves_of_log(&self, number: LogId) -> Result<Vec<Leaf>, Mem>
        requires { IsBodied self.now }
        ensures { IfOk result (λ leaves. leaves_lent leaves.items ≡ spec.leaves_of_log (scripts_in self.now.valued.ground.names.now) number) }
    {
        let ground = &self.valued.ground;
        match at(self.logs, number.0 as usize) {
            Some(log) => match log.columns {
                Some(columns) => self.leaves_of_type(columns),
                None => Ok(Vec::new(ground.alloc)),
            },
            None => Ok(Vec::new(ground.alloc)),
        }
    }

    /// What the columns of a filter can be: those of its stream.
    fn filter_leaves(&self, number: LogId) -> Result<Vec<Leaf>, Mem>
        requires { IsBodied self.now }
        ensures { IfOk result (λ leaves. leaves_lent leaves.items ≡ logged (spec.leaves_of_log (scripts_in self.now.valued.ground.names.now) number)) }
    {
        let leaves = self.leaves_of_log(number)?;
        logged(self.valued.ground.alloc, &leaves)
    }

    /// What a filter writes to paths: to its own, or to those that are given to the streams of its log.
    fn filter_use(
        &self,
        number: LogId,
        path: &Option<Bytes>,
        columns: &[u32],
    ) -> Result<Vec<PathUse>, Mem>
        requires { IsBodied self.now }
        ensures { IfOk result (λ uses. uses_lent uses.items ≡ filter_use (scripts_in self.now.valued.ground.names.now) number path.now columns.now) }
    {
        let alloc = self.valued.ground.alloc;
        let leaves = self.filter_leaves(number)?;
        match path {
            Some(path) => one_use(alloc, &leaves, columns, path.as_slice()),
            None => stream_uses(alloc, self.streams, number, &leaves, columns),
        }
    }

    /// What a call of the log framework writes to paths.
    fn path_use(&self, one: &LogCall) -> Result<Vec<PathUse>, Mem>
        requires { IsBodied self.now }
        ensures { IfOk result (λ uses. uses_lent uses.items ≡ spec.path_use (scripts_in self.now.valued.ground.names.now) one.now) }
    {
        let alloc = self.valued.ground.alloc;
        match one {
            LogCall::Create {
                log,
                event: _,
                path,
                policy: _,
                columns,
            } => {
                let leaves = self.leaves_of_log(*log)?;
                one_use(alloc, &leaves, columns.as_slice(), path.as_slice())
            }
            LogCall::AddFilter {
                log,
                name: _,
                path,
                policy: _,
                columns,
            } => self.filter_use(*log, path, columns.as_slice()),
            LogCall::RemoveFilter { log: _, name: _ } => Ok(Vec::new(alloc)),
        }
    }

    /// What a call in the text writes to paths.
    fn call_uses(&self, call: &Call<'_>) -> Result<Vec<PathUse>, Mem>
        requires { IsBodied self.now }
        ensures { IfOk result (λ uses. uses_lent uses.items ≡ spec.call_uses (scripts_in self.now.valued.ground.names.now) (call_of call.now)) }
    {
        let found = log_call(self.source, call)?;
        match found {
            Some(one) => self.path_use(&one),
            None => Ok(Vec::new(self.valued.ground.alloc)),
        }
    }

    /// The rule of the paths of one call. They are known besides.
    fn call_rules(&self, call: &Call<'_>, paths: &mut Paths) -> Result<(), Refusal>
        requires { IsBodied self.now }
        ensures rules { (before : List spec.PathUse) → HasPaths paths.old before → Tells (λ done. done) result (call_rules (scripts_in self.now.valued.ground.names.now) before (call_of call.now)) }
        ensures met { Told result → (before : List spec.PathUse) → HasPaths paths.old before → HasPaths paths.new (before ++ spec.call_uses (scripts_in self.now.valued.ground.names.now) (call_of call.now)) }
    {
        let alloc = self.valued.ground.alloc;
        let uses = self.call_uses(call)?;
        let agreed = paths.meet(alloc, &uses)?;
        require(
            alloc,
            agreed,
            Rule::Twice,
            place_in(call.home, call.name.place),
        )
    }

    /// The rules of the paths of logs in a declaration. They are known besides.
    pub fn path_rules(&self, one: Stated<'a>, paths: &mut Paths) -> Result<(), Refusal>
        requires { IsBodied self.now }
        ensures rules { (before : List spec.PathUse) → HasPaths paths.old before → Tells (λ done. done) result (spec.path_rules (scripts_in self.now.valued.ground.names.now) before (decl_calls (home_of one.entry.home) (out-Decl one.entry.decl.now))) }
        ensures met { Told result → (before : List spec.PathUse) → HasPaths paths.old before → HasPaths paths.new (before ++ stated_uses (scripts_in self.now.valued.ground.names.now) (stated_of one.entry)) }
    {
        let calls = decl_calls(self.valued.ground.alloc, one)?;
        let mut rules = Ok(());
        for call in &calls {
            let one = self.call_rules(call, paths);
            rules = also(rules, one);
        }
        rules
    }
}
