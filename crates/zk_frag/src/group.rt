ghost use Rattle.std.specs.Prelude.{◌≡◌, ◌≤◌, List, [], ◌∷◌, ◌++◌, Some, None, is_some, if◌then◌else◌, IfOk, OnOk, OnErr};
ghost use Rattle.std.specs.Option.{option_or};
ghost use Rattle.zk_frag.specs.Fragment.{Fragment, byte_of, end, shown};
ghost use Rattle.zk_frag.specs.Group.{is_later};
ghost use Rattle.zk_frag.specs.Table.{IsGroup};

use crate::assembly::Assembly;
use crate::fragment::FragmentView;
use std::alloc::Global;
use zk_base::{Mem, Moment, Span};

/// How long after its first fragment a group takes others.
const GROUP_SPAN: Span = Span(30_000_000);

/// The tag of a group with one more fragment: that of the first one that has byte 0.
fn tag_after<K, T: Copy>(kept: Option<T>, fragment: &FragmentView<'_, K, T>) -> Option<T>
    ensures { result ≡ option_or kept (if is_some (byte_of fragment.now.place fragment.now.payload.now 0) then Some fragment.now.tag else None) }
{
    if fragment.place == 0 && !fragment.payload.is_empty() {
        kept.or(Some(fragment.tag))
    } else {
        kept
    }
}

/// The fragments of a datagram that is not yet whole.
#[derive(Debug, Drop)]
pub struct Group<T> {
    /// When the first of them came.
    pub since: Moment,
    /// The tag of the one whose byte 0 stands.
    pub tag: Option<T>,
    pub assembly: Assembly,
}

impl<T: Copy + Drop> Group<T> {
    /// The group of a fragment.
    pub fn begin<K>(alloc: Global, fragment: &FragmentView<'_, K, T>) -> Result<Group<T>, Mem>
        requires { end (shown fragment.now) ≤ 65535 }
        ensures { IfOk result (λ group. IsGroup group (shown fragment.now ∷ [])) }
    {
        let mut assembly = Assembly::new(alloc);
        assembly.add(fragment.place as usize, fragment.more, fragment.payload)?;
        Ok(Group {
            since: fragment.moment,
            tag: tag_after(None, fragment),
            assembly,
        })
    }

    /// Adds a fragment. At `Mem` the group is as it was.
    pub fn add<K>(&mut self, fragment: &FragmentView<'_, K, T>) -> Result<(), Mem>
        requires { end (shown fragment.now) ≤ 65535 }
        ensures ok { OnOk result ((group : List (Fragment K T)) → IsGroup self.old group
            → IsGroup self.new (group ++ shown fragment.now ∷ [])) }
        ensures err { OnErr result ((group : List (Fragment K T)) → IsGroup self.old group → IsGroup self.new group) }
    {
        self.assembly
            .add(fragment.place as usize, fragment.more, fragment.payload)?;
        self.tag = tag_after(self.tag, fragment);
        Ok(())
    }

    /// Whether a fragment that comes now is too late for the group.
    pub fn is_over(&self, now: Moment) -> bool
        ensures { result ≡ is_later self.now.since now }
    {
        Span(now.0.saturating_sub(self.since.0)) > GROUP_SPAN
    }
}
