ghost use Rattle.std.specs.Prelude.{◌≡◌, ◌+◌, ◌<◌, ◌≤◌, ◌^◌, length, drop, IfSome, MatchOption, Some, None};
ghost use Rattle.zk_base.specs.Slices.{BeginsAt};
ghost use Rattle.zk_link_ip.specs.Frame.{content_of, content_place, ethernet_content, ip_part_of, is_tag, raw_content, type_at, type_place};

use byteorder::{BigEndian, ByteOrder};
use zk_base::{LINKTYPE_ETHERNET, LINKTYPE_RAW};

// Types of contents and of tags, by the list of IEEE 802 numbers.

const IPV4: u16 = 0x0800;

const IPV6: u16 = 0x86dd;

const CUSTOMER_TAG: u16 = 0x8100;

const SERVICE_TAG: u16 = 0x88a8;

/// Where the type may stand: behind the two addresses, or behind one or two tags of four bytes.
const TYPE_PLACES: [usize; 3] = [12, 16, 20];

/// The length of a type.
const TYPE_LEN: usize = 2;

/// The type of what a frame holds (IEEE 802 numbers), and the content itself, a slice of the
/// frame. Up to two tags (IEEE 802.1Q) are passed. A raw frame holds the version of IP that its
/// first four bits say.
///
/// `None` exactly where the frame ends before its type, a third tag follows, a raw frame is empty
/// or has other first bits, or the link type is neither `LINKTYPE_ETHERNET` nor `LINKTYPE_RAW`.
pub fn content(link: u16, frame: &[u8]) -> Option<(u16, &[u8])>
    ensures exact { MatchOption result (content_of link frame.now ≡ None)
        (λ found. content_of link frame.now ≡ Some (found.0, found.1.now)) }
    ensures place { IfSome result
        (λ found. BeginsAt (content_place link frame.now) frame.entry found.1) }
{
    match link {
        LINKTYPE_ETHERNET => ethernet_content(frame),
        LINKTYPE_RAW => raw_content(frame),
        _ => None,
    }
}

/// The IPv4 packet that a frame holds with what follows it there: the content of type 0x0800.
pub fn ip_part(link: u16, frame: &[u8]) -> Option<&[u8]>
    ensures exact { MatchOption result (ip_part_of link frame.now ≡ None)
        (λ part. ip_part_of link frame.now ≡ Some part.now) }
    ensures place { IfSome result
        (λ part. BeginsAt (content_place link frame.now) frame.entry part) }
{
    match content(link, frame) {
        Some((IPV4, part)) => Some(part),
        _ => None,
    }
}

/// What an Ethernet frame holds: the first type that is no tag's, and what stands behind it.
fn ethernet_content(frame: &[u8]) -> Option<(u16, &[u8])>
    ensures exact { MatchOption result (ethernet_content frame.now ≡ None)
        (λ found. ethernet_content frame.now ≡ Some (found.0, found.1.now)) }
    ensures place { IfSome result
        (λ found. BeginsAt (type_place frame.now + 2) frame.entry found.1) }
{
    for place in TYPE_PLACES {
        let (ether_type, content) = type_and_rest(frame, place)?;
        if !is_tag_type(ether_type) {
            return Some((ether_type, content));
        }
    }
    None
}

/// The type at a place and what stands behind it, `None` where the frame ends before that.
fn type_and_rest(frame: &[u8], place: usize) -> Option<(u16, &[u8])>
    requires { place < 2 ^ 32 }
    ensures exact { MatchOption result (length frame.now < place + 2)
        (λ found. (place + 2 ≤ length frame.now) × (found.0 ≡ type_at frame.now place)
        × (found.1.now ≡ drop (place + 2) frame.now)) }
    ensures place { IfSome result (λ found. BeginsAt (place + 2) frame.entry found.1) }
{
    let end = place + TYPE_LEN;
    if frame.len() < end {
        return None;
    }
    Some((BigEndian::read_u16(&frame[place..]), &frame[end..]))
}

fn is_tag_type(ether_type: u16) -> bool
    ensures { result ≡ is_tag ether_type }
{
    ether_type == CUSTOMER_TAG || ether_type == SERVICE_TAG
}

/// What a raw frame holds: itself, of the type that its first four bits say.
fn raw_content(frame: &[u8]) -> Option<(u16, &[u8])>
    ensures exact { MatchOption result (raw_content frame.now ≡ None)
        (λ found. raw_content frame.now ≡ Some (found.0, found.1.now)) }
    ensures place { IfSome result (λ found. BeginsAt 0 frame.entry found.1) }
{
    let first = frame.first()?;
    match first >> 4 {
        4 => Some((IPV4, frame)),
        6 => Some((IPV6, frame)),
        _ => None,
    }
}
