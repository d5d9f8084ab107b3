ghost use Rattle.std.specs.Prelude.{◌≡◌, ◌+◌, ◌<◌, ◌++◌, length, sum, OnOk};
ghost use Rattle.zk_base.specs.Checksum.{words};
ghost use Rattle.zk_gen.specs.Frames.{path_of, record_of};
ghost use Rattle.zk_gen.specs.Frames as frames;

use crate::headers::{
    ETHERNET, checksum_of, ip_header, pseudo_header, record_header, tcp_header, udp_checksum_of,
    udp_header,
};
use zk_base::{Bytes, Mem, Side, word_sum};

/// The hosts of a conversation, and when it begins.
#[derive(Clone, Copy)]
pub struct Talk {
    /// Seconds since 1970.
    pub seconds: u32,
    pub client: u32,
    pub client_port: u16,
    pub server: u32,
    pub server_port: u16,
}

/// Who sends a packet to whom.
#[derive(Clone, Copy)]
pub struct Path {
    pub source: u32,
    pub source_port: u16,
    pub target: u32,
    pub target_port: u16,
}

/// How a payload is sent.
#[derive(Clone, Copy)]
pub enum Transport {
    /// UDP.
    Datagram,
    /// TCP, with its control bits, its number and the next number that is awaited.
    Segment {
        flags: u8,
        number: u32,
        awaited: u32,
    },
}

impl Talk {
    /// The path of what a side sends.
    fn path(&self, side: Side) -> Path
        ensures { result ≡ path_of self.now side }
    {
        match side {
            Side::Orig => Path {
                source: self.client,
                source_port: self.client_port,
                target: self.server,
                target_port: self.server_port,
            },
            Side::Resp => Path {
                source: self.server,
                source_port: self.server_port,
                target: self.client,
                target_port: self.client_port,
            },
        }
    }
}

/// The sum of what the checksum of a transport protocol covers.
fn covered_sum(protocol: u8, path: Path, header: &[u8], payload: &[u8]) -> u64
    requires { length header.now + length payload.now < 2000 }
    ensures { result ≡ sum (words (frames.pseudo_header (length header.now + length payload.now) protocol path)) + (sum (words header.now) + sum (words payload.now)) }
{
    let len = (header.len() + payload.len()) as u16;
    word_sum(&pseudo_header(len, protocol, path)) + (word_sum(header) + word_sum(payload))
}

/// Adds a record of an Ethernet frame with an IPv4 packet.
#[tactic(auto, using(crate::proofs::ListLaws::parts_of))]
fn append_frame(
    out: &mut Bytes,
    seconds: u32,
    micros: u32,
    protocol: u8,
    path: Path,
    header: &[u8],
    payload: &[u8],
) -> Result<(), Mem>
    requires { length header.now + length payload.now < 2000 }
    ensures { OnOk result (out.new ≡ out.old ++ frames.framed seconds micros protocol path header.now payload.now) }
{
    let len = 20 + (header.len() + payload.len()) as u16;
    let blank = ip_header(0, len, protocol, path);
    let checksum = checksum_of(word_sum(&blank));
    out.append(&record_header(seconds, micros, 14 + u32::from(len)))?;
    out.append(&ETHERNET)?;
    out.append(&ip_header(checksum, len, protocol, path))?;
    out.append(header)?;
    out.append(payload)?;
    Ok(())
}

/// Adds the record of a packet that a side sends, so many microseconds after its conversation begins.
#[tactic(auto, unfolding(crate::specs::Frames::record_of))]
pub fn send(
    out: &mut Bytes,
    talk: &Talk,
    micros: u32,
    side: Side,
    transport: Transport,
    payload: &[u8],
) -> Result<(), Mem>
    requires { length payload.now < 1000 }
    ensures { OnOk result (out.new ≡ out.old ++ record_of talk.now micros side transport payload.now) }
{
    let path = talk.path(side);
    match transport {
        Transport::Datagram => {
            let len = 8 + payload.len() as u16;
            let blank = udp_header(0, len, path);
            let checksum = udp_checksum_of(covered_sum(17, path, &blank, payload));
            let header = udp_header(checksum, len, path);
            append_frame(out, talk.seconds, micros, 17, path, &header, payload)
        }
        Transport::Segment {
            flags,
            number,
            awaited,
        } => {
            let blank = tcp_header(0, flags, number, awaited, path);
            let checksum = checksum_of(covered_sum(6, path, &blank, payload));
            let header = tcp_header(checksum, flags, number, awaited, path);
            append_frame(out, talk.seconds, micros, 6, path, &header, payload)
        }
    }
}
