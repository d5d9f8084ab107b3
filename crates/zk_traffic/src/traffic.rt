ghost use Rattle.std.specs.Prelude.{◌≡◌, ◌≤ℤ◌, ◌≤◌, ◌<◌, ◌*◌, ◌+◌, ◌-◌, ◌^◌, ℕ, Bool, true, false, pos, length, slice_get, Option, Some, None, Err, List, [], ◌∷◌, ◌++◌, IfOk, IsOk, OnOk, OnErr, IfSome, IfNone};
ghost use Rattle.std.specs.Option.{option_map};
ghost use Rattle.zk_base.specs.Captured.{Captured, captured};
ghost use Rattle.zk_base.specs.NetworkTime.{later};
ghost use Rattle.zk_link_ip.specs.Views.{packet};
ghost use Rattle.zk_traffic.specs.Datagram.{is_fragment, packet_at, time_at};
ghost use Rattle.zk_traffic.specs.Fresh.{fresh_lent};
ghost use Rattle.zk_conn.specs.Segment.{key_of};
ghost use Rattle.zk_conn.specs.declared.key.Key.{Key};
ghost use Rattle.zk_traffic.specs.Conversation.{Conversation};
ghost use Rattle.zk_traffic.specs.History.{History, all_items, at_start};
ghost use Rattle.zk_traffic.specs.Instances.{is_over_by, latest as latest_of, segments_of};
ghost use Rattle.zk_traffic.specs.Items.{fresh_at, items_of, own_items, segment_items};
ghost use Rattle.zk_traffic.specs.Kept.{bytes_held, live_streams};
ghost use Rattle.zk_traffic.specs.Own.{with_number};
ghost use Rattle.zk_traffic.specs.Segments.{Segment as SegmentData};
ghost use Rattle.zk_traffic.specs.Steps.{Step, so_far};
ghost use Rattle.zk_traffic.specs.declared.item.Item.{Item as ItemData};
ghost use Rattle.zk_traffic.specs.declared.options.Options.{Options as OptionsData};

use crate::connections::Connections;
use crate::frame::{carrying, is_fragment, packet_in};
use crate::item::Item;
use crate::news::Fresh;
use crate::options::Options;
use std::alloc::Global;
use zk_base::{Mem, Moment, PacketView};
use zk_frag::{Frags, Joined};
use zk_link_ip::Ip4;

/// What the items of a capture are while its records come. There is nothing to run.
pub fn items_stay()
    // The items of the records so far are a prefix of those of the capture, however much of it is still to come.
    ensures { (options : OptionsData) (records more : List Captured) (ended : Bool)
        → (rest : List ItemData) × (items_of options (records ++ more) ended ≡ items_of options records false ++ rest) }
{}

/// What a connection's items rest on, in the subject's own words. There is nothing to run.
pub fn items_are_own()
    // A segment's items, the number of its connection aside, are those that the segments of its key give alone, however
    // the segments of others stand between them.
    ensures alone { (limit number : ℕ) (before alone : List SegmentData) (s : SegmentData) → segments_of (key_of s.view) before ≡ segments_of (key_of s.view) alone
        → with_number number (segment_items limit before s) ≡ with_number number (segment_items limit alone s) }

    // So is the latest conversation of a key, by which it is removed: when, and what is known of it then.
    ensures latest { (limit : ℕ) (key : Key) (before alone : List SegmentData) → segments_of key before ≡ segments_of key alone
        → latest_of limit key before ≡ latest_of limit key alone }

    // A connection that begins where its key's latest one is over owes that one nothing.
    ensures anew { (limit number : ℕ) (c : Conversation) (s : SegmentData) → is_over_by s.moment c ≡ true
        → own_items limit number (Some c) s ≡ own_items limit number None s }
{}

/// The items of a capture, as its records come.
///
/// At each record stand, in order: the removals that are due by its network time, each at its own
/// moment, by moment and then by number; the packet, where that is asked for; that a connection
/// began, and that it is established; the gaps of the sender's stream by place, and those of the
/// receiver's; the units that the streams free, or that a datagram is; that the sender's end is closed
/// by a FIN, and the receiver's; that the sender's stream gave up; that the connection was reset. At
/// the end what is still live is removed in order of number, at the last network time.
///
/// A packet is ignored, but still seen, where it has no IPv4 header or no TCP or UDP header that is
/// well-formed, or where checksums are judged and one of it is wrong; that of TCP isn't judged where
/// bytes of the segment were not captured, nor that of UDP where bytes of the datagram weren't.
#[derive(Debug, Drop)]
pub struct Traffic {
    options: Options,
    /// The link type of the next packet's frame.
    link: u16,
    /// Network time: the greatest moment of the packets so far.
    time: Moment,
    has_failed: bool,
    frags: Frags,
    connections: Connections,
    ghost early: { pos 0 ≤ℤ time.0 },
    ghost late: { time.0 ≤ℤ pos (2 ^ 62) },
}

/// The later of two moments.
fn latest(a: Moment, b: Moment) -> Moment
    ensures { result ≡ later a b }
{
    if a < b { b } else { a }
}

impl Traffic {
    ghost use Rattle.zk_traffic.specs.Standing.{HasFailed, StandsFor, waiting};
    ghost use Rattle.zk_traffic.specs.Taking.{HasTaken, IsReady};

    /// A capture before its first packet, whose frame has this link type unless `set_link` names
    /// another. No memory is taken.
    pub fn new(alloc: Global, options: Options, link: u16) -> Result<Traffic, Mem>
        ensures succeeds { IsOk result }
        ensures stands { IfOk result (λ traffic. StandsFor traffic (at_start options link)) }
    {
        Ok(Traffic {
            options,
            link,
            time: Moment(0),
            has_failed: false,
            frags: Frags::new(alloc),
            connections: Connections::new(alloc, options.buffer),
        })
    }

    /// The packets that come have frames of this link type, until another is set. Those that came keep
    /// theirs, and so do their items. No memory is taken.
    pub fn set_link(&mut self, link: u16)
        ensures stands { (h : History) → StandsFor self.old h → StandsFor self.new (record h { link = link }) }
        ensures failed { HasFailed self.old → HasFailed self.new }
    {
        self.link = link;
    }

    /// Takes the next packet, whose frame has the link type that was set last, and makes all items that
    /// it brings. After `Mem` the value has failed:
    /// from then on `packet` and `end` answer `Mem`, and `next` gives nothing.
    pub fn packet(&mut self, p: PacketView<'_>) -> Result<(), Mem>
        requires early { pos 0 ≤ℤ p.moment.0 }
        requires late { p.moment.0 ≤ℤ pos (2 ^ 62) }
        requires captured { length p.bytes.now ≤ 262144 }
        ensures taken { OnOk result ((h : History) → StandsFor self.old h → h.ended ≡ false
            → StandsFor self.new (record h { records = h.records ++ captured h.link p.entry ∷ [] })) }
        ensures fails { OnErr result (HasFailed self.new) }
        ensures failed { HasFailed self.old → OnOk result ⊥ }
    {
        if self.has_failed {
            return Err(Mem);
        }
        let taken = self.take(&p);
        self.has_failed = taken.is_err();
        taken
    }

    /// The next item that was not given yet: none where all were given, or the value has failed.
    pub fn next(&mut self) -> Option<Item>
        ensures item { (h : History) → StandsFor self.old h → result ≡ slice_get (all_items h) (length h.given) }
        ensures given { IfSome result (λ item. (h : History) → StandsFor self.old h → StandsFor self.new (record h { given = h.given ++ item ∷ [] })) }
        ensures none { IfNone result ((h : History) → StandsFor self.old h → (h.given ≡ all_items h) × StandsFor self.new h) }
        ensures fewer { IfSome result (λ item. waiting self.new < waiting self.old) }
        ensures failed { HasFailed self.old → (result ≡ None) × HasFailed self.new }
    {
        if self.has_failed {
            return None;
        }
        self.connections.next()
    }

    /// The capture has come to its end: what is live is removed. After `Mem` the value has failed.
    pub fn end(&mut self) -> Result<(), Mem>
        ensures ended { OnOk result ((h : History) → StandsFor self.old h → h.ended ≡ false → StandsFor self.new (record h { ended = true })) }
        ensures fails { OnErr result (HasFailed self.new) }
        ensures failed { HasFailed self.old → OnOk result ⊥ }
    {
        if self.has_failed {
            return Err(Mem);
        }
        let ended = self.connections.end(self.time);
        self.has_failed = ended.is_err();
        ended
    }

    /// How many bytes are held: those that came ahead of a hole in a live stream, and those below its
    /// front that are not read yet, as a message that isn't whole, of which a stream has at most 65,536.
    pub fn kept(&self) -> u64
        ensures exact { (h : History) → StandsFor self.now h → result ≡ bytes_held h.options h.records h.ended }
        ensures bound { (h : History) → StandsFor self.now h → result ≤ (h.options.buffer + 65537) * live_streams h.options h.records h.ended }
    {
        self.connections.kept()
    }

    /// The k-th run of bytes by which the last packet moved a front: those of its sender's stream
    /// first, by place. It stays until the next packet, also behind the end.
    pub fn fresh(&self, k: usize) -> Option<Fresh<'_>>
        ensures run { (h : History) (step : Step Captured) → StandsFor self.now h → h.records ≡ so_far step
            → option_map fresh_lent result ≡ slice_get (fresh_at h.options step) k }
        ensures none { (h : History) → StandsFor self.now h → h.records ≡ [] → result ≡ None }
    {
        self.connections.news().run(k)
    }

    /// Takes a packet.
    fn take(&mut self, p: &PacketView<'_>) -> Result<(), Mem>
        requires early { pos 0 ≤ℤ p.now.moment.0 }
        requires late { p.now.moment.0 ≤ℤ pos (2 ^ 62) }
        requires captured { length p.now.bytes.now ≤ 262144 }
        ensures taken { OnOk result ((h : History) → StandsFor self.old h → h.ended ≡ false
            → StandsFor self.new (record h { records = h.records ++ captured h.link p.now ∷ [] })) }
    {
        self.time = latest(self.time, p.moment);
        self.connections.begin();
        self.connections.remove_due(self.time)?;
        self.connections
            .give_seen(self.options.packets, self.time, p)?;
        self.take_frame(p.bytes)
    }

    /// Takes what stands in a frame.
    fn take_frame(&mut self, frame: &[u8]) -> Result<(), Mem>
        ensures taken { OnOk result ((options : OptionsData) (step : Step Captured) → step.last.bytes ≡ frame.now → IsReady self.old options step
            → HasTaken self.old self.new options step) }
        ensures works { self.new.has_failed ≡ self.old.has_failed }
    {
        match packet_in(&self.options, self.link, frame) {
            Some(ip) => self.take_ip(&ip),
            None => Ok(()),
        }
    }

    /// Takes an IPv4 packet.
    fn take_ip(&mut self, ip: &Ip4<'_>) -> Result<(), Mem>
        ensures taken { OnOk result ((options : OptionsData) (step : Step Captured) → packet_at options step ≡ Some (packet ip.now).now
            → IsReady self.old options step → HasTaken self.old self.new options step) }
        ensures works { self.new.has_failed ≡ self.old.has_failed }
    {
        if is_fragment(ip) {
            return self.take_fragment(ip);
        }
        let datagram = carrying(&self.options, ip, ip.payload(), ip.full_len());
        let segment = datagram.segment();
        self.connections.take_some(self.time, &segment)
    }

    /// Takes a fragment, and the datagram that it makes whole.
    fn take_fragment(&mut self, ip: &Ip4<'_>) -> Result<(), Mem>
        ensures taken { OnOk result ((options : OptionsData) (step : Step Captured) → packet_at options step ≡ Some (packet ip.now).now
            → is_fragment (packet ip.now).now ≡ true → IsReady self.old options step → HasTaken self.old self.new options step) }
        ensures works { self.new.has_failed ≡ self.old.has_failed }
    {
        match self.frags.take(self.time, ip)? {
            Joined::Held | Joined::Ignored => Ok(()),
            Joined::Whole => {
                let whole = self.frags.whole();
                let datagram = carrying(&self.options, ip, whole, whole.len());
                let segment = datagram.segment();
                self.connections.take_some(self.time, &segment)
            }
        }
    }
}
