ghost use Rattle.std.specs.Prelude.{◌≡◌, ◌≢◌, ◌↔◌, ◌≤◌, true, false, not, List, [], ◌∷◌, ◌++◌, length, IsSome, IfOk, OnErr};
ghost use Rattle.std.specs.Option.{option_map_or};
ghost use Rattle.std.specs.Ordering.{eq_by_cmp};
ghost use Rattle.zk_frag.specs.Fragment.{Fragment, end, is_ignored, shown};
ghost use Rattle.zk_frag.specs.Group.{is_later};
ghost use Rattle.zk_frag.specs.Groups.{AreCutInto};
ghost use Rattle.zk_frag.specs.Histories.{added_of, datagram_of, joined_of, open_of, without_tag};

use crate::assembly::Datagram;
use crate::fragment::FragmentView;
use crate::group::Group;
use crate::joined::{Added, Joined};
use std::alloc::Global;
use std::collections::BTreeMap;
use zk_base::{Mem, Moment};

/// What the groups of fragments are, in the subject's own words. There is nothing to run.
pub fn fragment_groups<K, T>()
    // Fragments can be cut into closed groups and an open one behind them, and each such cutting leaves the same open group.
    ensures cut { (fragments current : List (Fragment K T)) → (open_of fragments ≡ current)
        ↔ ((groups : List (List (Fragment K T))) × AreCutInto fragments groups current) }

    // There is no other such cutting.
    ensures one { (fragments current : List (Fragment K T)) (groups others : List (List (Fragment K T)))
        → AreCutInto fragments groups current → AreCutInto fragments others current → groups ≡ others }
{}

/// The fragments of the datagrams of a capture that are not yet whole, by any key that the fragments of
/// a datagram have in common.
#[derive(Debug, Drop)]
pub struct Groups<K: Ord, T> {
    alloc: Global,
    groups: BTreeMap<K, Group<T>>,
    whole: Datagram,
}

impl<K: Ord + Drop, T: Copy + Drop> Groups<K, T> {
    ghost use Rattle.zk_frag.specs.Standing.{StandsFor, whole_of};
    ghost use Rattle.zk_frag.specs.Table.{group_at, Keeps, Stays, Takes};

    /// No fragments. No memory is taken.
    #[tactic(auto, unfolding(crate::specs::Table::group_at, crate::specs::Standing::whole_of))]
    pub fn new(alloc: Global) -> Groups<K, T>
        ensures empty { StandsFor K.eq result [] }
        ensures none { whole_of result ≡ [] }
    {
        Groups {
            alloc,
            groups: BTreeMap::new(alloc),
            whole: Datagram {
                bytes: Vec::new(alloc),
            },
        }
    }

    /// Adds a fragment that comes at a time not before those of earlier ones. This isn't required: the
    /// contract also says what earlier times do. What it did depends on all fragments so far.
    ///
    /// Fragments of one key form a group. Their bytes go to their places, and of two copies the first
    /// stands. The first fragment without MF names the datagram's end. Once every place before it has
    /// its byte, the datagram is whole and the group is gone. A fragment that comes more than 30 seconds
    /// after its group's first drops that group and begins a new one (RFC 791, section 3.2; that the
    /// first copy stands and how long a group lasts are this project's own rules).
    ///
    /// `Mem` leaves the value as it was.
    pub fn add(&mut self, fragment: FragmentView<'_, K, T>) -> Result<Added<T>, Mem>
        ensures answer { IfOk result (λ added. (given : List (Fragment K T)) → StandsFor K.eq self.old given
            → added ≡ added_of K.eq given (shown fragment.entry)) }
        ensures taken { IfOk result (λ added. (given : List (Fragment K T)) → StandsFor K.eq self.old given
            → StandsFor K.eq self.new (given ++ shown fragment.entry ∷ [])) }
        ensures ignored { is_ignored (shown fragment.entry) ≡ true → (result ≡ Ok Added.Ignored) × (self.new ≡ self.old) }
        ensures stays { IfOk result (λ added. (given : List (Fragment K T)) → StandsFor K.eq self.old given
            → without_tag added ≢ Joined.Whole → whole_of self.new ≡ whole_of self.old) }
        ensures unchanged { OnErr result (whole_of self.new ≡ whole_of self.old) }
        ensures memory { OnErr result ((given : List (Fragment K T)) → StandsFor K.eq self.old given → StandsFor K.eq self.new given) }
    {
        if fragment.is_ignored() {
            return Ok(Added::Ignored);
        }
        if self.is_open(&fragment.key, fragment.moment) {
            self.go_on(fragment)
        } else {
            self.begin(fragment)
        }
    }

    /// The bytes of the datagram that was last made whole, up to the next one that is; none before the
    /// first.
    #[tactic(auto, unfolding(crate::specs::Standing::whole_of))]
    pub fn whole(&self) -> &[u8]
        ensures last { result.now ≡ whole_of self.now }
        ensures value { (given : List (Fragment K T)) (last : Fragment K T) → StandsFor K.eq self.now (given ++ last ∷ [])
            → joined_of K.eq given last ≡ Joined.Whole → result.now ≡ datagram_of K.eq given last }
        ensures bound { length result.now ≤ 65535 }
    {
        &self.whole.bytes
    }

    /// Whether a group of the key is open that is not over by now.
    #[tactic(auto, unfolding(crate::specs::Table::group_at))]
    fn is_open(&self, key: &K, now: Moment) -> bool
        ensures { result ≡ option_map_or (λ group. not (is_later group.since now)) (group_at (eq_by_cmp K.cmp) self.now key.now) false }
    {
        match self.groups.get(key) {
            Some(group) => !group.is_over(now),
            None => false,
        }
    }

    /// Adds a fragment to the open group of its key. At `Mem` the group is the same.
    fn go_on(&mut self, fragment: FragmentView<'_, K, T>) -> Result<Added<T>, Mem>
        requires open { IsSome (group_at (eq_by_cmp K.cmp) self.old fragment.key) }
        requires bound { end (shown fragment) ≤ 65535 }
        ensures ok { IfOk result (λ added. (group : List (Fragment K T)) → Keeps (group_at (eq_by_cmp K.cmp) self.old fragment.entry.key) group
            → Takes (eq_by_cmp K.cmp) self.old self.new fragment.entry.key added (group ++ shown fragment.entry ∷ [])) }
        ensures err { OnErr result (Stays (eq_by_cmp K.cmp) self.old self.new fragment.entry.key) }
    {
        let Some(group) = self.groups.get_mut(&fragment.key) else {
            unreachable!()
        };
        group.add(&fragment)?;
        if !group.assembly.is_whole() {
            return Ok(Added::Held);
        }
        let tag = group.tag;
        if let Some(group) = self.groups.remove(&fragment.key) {
            self.whole = group.assembly.into_datagram();
        }
        Ok(Added::Whole(tag))
    }

    /// Begins a group with a fragment, in place of the open group of its key if there is one. At
    /// `Mem` nothing is changed.
    fn begin(&mut self, fragment: FragmentView<'_, K, T>) -> Result<Added<T>, Mem>
        requires bound { end (shown fragment) ≤ 65535 }
        ensures ok { IfOk result (λ added. Takes (eq_by_cmp K.cmp) self.old self.new fragment.entry.key added (shown fragment.entry ∷ [])) }
        ensures err { OnErr result (Stays (eq_by_cmp K.cmp) self.old self.new fragment.entry.key) }
    {
        let group = Group::begin(self.alloc, &fragment)?;
        if group.assembly.is_whole() {
            let tag = group.tag;
            self.groups.remove(&fragment.key);
            self.whole = group.assembly.into_datagram();
            return Ok(Added::Whole(tag));
        }
        self.groups.insert(fragment.key, group)?;
        Ok(Added::Held)
    }
}
