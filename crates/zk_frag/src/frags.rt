ghost use Rattle.std.specs.Prelude.{◌≡◌, ◌≢◌, ◌≤◌, true, List, [], ◌∷◌, ◌++◌, length, IfOk, OnErr};
ghost use Rattle.zk_link_ip.specs.Views.{packet};
ghost use Rattle.zk_frag.specs.Fragment.{is_ignored, shown};
ghost use Rattle.zk_frag.specs.Ip4Fragments.{Ip4Fragment, StandsFor, datagram_of, fragment_of, joined_of, whole_of};

use crate::fragment::FragmentView;
use crate::groups::Groups;
use crate::joined::Joined;
use crate::key::Key;
use std::alloc::Global;
use zk_base::{Mem, Moment};
use zk_link_ip::Ip4;

/// The fragment that an IPv4 packet is.
fn fragment_of<'a>(t: Moment, ip: &Ip4<'a>) -> FragmentView<'a, Key, ()>
    ensures { shown result ≡ fragment_of t (packet ip.now).now }
{
    FragmentView {
        moment: t,
        key: Key::of(ip),
        tag: (),
        place: 8 * u32::from(ip.offset()),
        more: ip.more(),
        was_cut: ip.was_cut(),
        payload: ip.payload(),
    }
}

/// The fragments of the IPv4 datagrams of a capture that are not yet whole.
#[derive(Debug, Drop)]
pub struct Frags {
    groups: Groups<Key, ()>,
}

impl Frags {
    /// No fragments. No memory is taken.
    pub fn new(alloc: Global) -> Frags
        ensures empty { StandsFor result [] }
        ensures none { whole_of result ≡ [] }
    {
        Frags {
            groups: Groups::new(alloc),
        }
    }

    /// Takes a fragment, a packet with MF or with an offset other than 0, that comes at a time not
    /// before those of earlier ones. Neither is required: the contract also says what other packets
    /// and earlier times do. What it did depends on all fragments so far.
    ///
    /// Fragments of one source, destination, protocol and identification form a group (RFC 791, section
    /// 3.2), as `Groups::add` says.
    ///
    /// `Mem` leaves the value as it was.
    pub fn take(&mut self, t: Moment, ip: &Ip4<'_>) -> Result<Joined, Mem>
        ensures answer { IfOk result (λ joined. (given : List Ip4Fragment) → StandsFor self.old given
            → joined ≡ joined_of given (fragment_of t (packet ip.now).now)) }
        ensures taken { IfOk result (λ joined. (given : List Ip4Fragment) → StandsFor self.old given
            → StandsFor self.new (given ++ fragment_of t (packet ip.now).now ∷ [])) }
        ensures ignored { is_ignored (fragment_of t (packet ip.now).now) ≡ true → (result ≡ Ok Joined.Ignored) × (self.new ≡ self.old) }
        ensures stays { IfOk result (λ joined. (given : List Ip4Fragment) → StandsFor self.old given → joined ≢ Joined.Whole
            → whole_of self.new ≡ whole_of self.old) }
        ensures unchanged { OnErr result (whole_of self.new ≡ whole_of self.old) }
        ensures memory { OnErr result ((given : List Ip4Fragment) → StandsFor self.old given → StandsFor self.new given) }
    {
        Ok(self.groups.add(fragment_of(t, ip))?.without_tag())
    }

    /// The bytes of the datagram that was last made whole, up to the next one that is; none before the
    /// first.
    pub fn whole(&self) -> &[u8]
        ensures last { result.now ≡ whole_of self.now }
        ensures value { (given : List Ip4Fragment) (last : Ip4Fragment) → StandsFor self.now (given ++ last ∷ [])
            → joined_of given last ≡ Joined.Whole → result.now ≡ datagram_of given last }
        ensures bound { length result.now ≤ 65535 }
    {
        self.groups.whole()
    }
}
