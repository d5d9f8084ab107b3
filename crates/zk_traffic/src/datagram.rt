ghost use Rattle.std.specs.Prelude.{◌≡◌, ◌≤◌, length, MatchOption, Some, None};
ghost use Rattle.zk_base.specs.declared.time.Moment.{Moment};
ghost use Rattle.zk_l4.specs.PseudoHeader.{IsOneFamily};
ghost use Rattle.zk_traffic.specs.Families.{one_family-prop};

use crate::segment::Segment;
use zk_base::{Addr, Proto};
use zk_conn::L4View;
use zk_l4::{Tcp, Udp};

/// The numbers of the protocols in an IP header (IANA's list of protocol numbers).
const TCP: u8 = 6;

const UDP: u8 = 17;

/// A datagram of a capture, whatever packet or fragments it came from.
#[derive(Clone, Copy, Debug)]
pub struct Datagram<'a> {
    pub src: Addr,
    pub dst: Addr,
    /// The number of the protocol that its payload speaks.
    pub protocol: u8,
    /// What was captured of the payload.
    pub payload: &'a [u8],
    /// The length of the payload that was sent.
    pub full_len: usize,
    /// The length of the datagram, header and all.
    pub ip_len: u32,
    /// Whether the checksum of the segment in it is judged.
    pub judged: bool,
    ghost family: { IsOneFamily src dst } by { one_family-prop src dst },
    ghost captured: { length payload.now ≤ full_len },
    ghost limit: { full_len ≤ 65535 },
}

impl<'a> Datagram<'a> {
    ghost use Rattle.zk_traffic.specs.Segments.{segment_in, tcp_judged, udp_judged};
    ghost use Rattle.zk_traffic.specs.Taken.{datagram_from, segment_of};

    /// The segment in it, where its header is well-formed and its checksum, where that is judged,
    /// right. It stands in line, so that the segment is made where it is used, and not copied there.
    #[inline(always)]
    pub fn segment(&self) -> Option<Segment<'a>>
        ensures { (t : Moment) → MatchOption result (segment_in t (datagram_from self.now) ≡ None)
            (λ s. segment_in t (datagram_from self.now) ≡ Some (segment_of t s)) }
    {
        match self.protocol {
            TCP => self.tcp_segment(),
            UDP => self.udp_segment(),
            _ => None,
        }
    }

    fn tcp_segment(&self) -> Option<Segment<'a>>
        ensures { (t : Moment) → MatchOption result (tcp_judged t (datagram_from self.now) ≡ None)
            (λ s. tcp_judged t (datagram_from self.now) ≡ Some (segment_of t s)) }
    {
        let Ok(tcp) = Tcp::read(self.src, self.dst, self.payload, self.full_len, self.judged) else {
            return None;
        };
        Some(Segment {
            view: L4View {
                src: self.src,
                dst: self.dst,
                sport: tcp.src_port(),
                dport: tcp.dst_port(),
                proto: Proto::Tcp,
                flags: tcp.flags(),
                seq: tcp.seq(),
                payload_len: tcp.full_payload() as u32,
                ip_len: self.ip_len,
            },
            ack: tcp.ack(),
            payload: tcp.payload(),
        })
    }

    fn udp_segment(&self) -> Option<Segment<'a>>
        ensures { (t : Moment) → MatchOption result (udp_judged t (datagram_from self.now) ≡ None)
            (λ s. udp_judged t (datagram_from self.now) ≡ Some (segment_of t s)) }
    {
        let Ok(udp) = Udp::read(self.src, self.dst, self.payload, self.full_len, self.judged) else {
            return None;
        };
        Some(Segment {
            view: L4View {
                src: self.src,
                dst: self.dst,
                sport: udp.src_port(),
                dport: udp.dst_port(),
                proto: Proto::Udp,
                flags: 0,
                seq: 0,
                payload_len: udp.full_payload() as u32,
                ip_len: self.ip_len,
            },
            ack: 0,
            payload: udp.payload(),
        })
    }
}
