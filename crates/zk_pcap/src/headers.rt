ghost use Rattle.std.specs.Prelude.{◌≡◌, ◌≢◌, ◌<◌, ◌≤◌, ℕ, length, Ok, Err, IfOk};
ghost use Rattle.zk_pcap.specs.Header.{counted, form_of, header_by, header_of, is_link, is_version_2_4, nano_of, HasHeader};
ghost use Rattle.zk_pcap.specs.declared.faults.CaptureFault.TheVariants.{NoMemory, Short};

use crate::CaptureFault;
use byteorder::{BigEndian, ByteOrder, LittleEndian};
use zk_base::{LINKTYPE_ETHERNET, LINKTYPE_RAW};

/// What the header of a capture says.
#[derive(Clone, Copy, Debug, PartialEq, Eq)]
pub struct Header {
    /// The numbers of the file have their highest byte first.
    pub big: bool,
    /// The fractions of a second are nanoseconds, and else microseconds.
    pub nano: bool,
    /// The most bytes that were to be captured of a packet.
    pub snaplen: u32,
    /// The link type of the frames: 1 is Ethernet, 101 raw IP.
    pub link: u16,
}

/// How a file writes its numbers and the fractions of a second, which its magic number tells.
#[derive(Clone, Copy, Debug)]
struct Form {
    big: bool,
    nano: bool,
}

/// The length of a header.
pub const HEADER_LEN: usize = 24;

// Places of a header's fields.

/// The place of the magic number.
pub const MAGIC: usize = 0;

/// The place of the first number of the version.
pub const MAJOR: usize = 4;

const MINOR: usize = 6;

const SNAPLEN: usize = 16;

/// The place of the link type.
pub const LINK: usize = 20;

// The lengths of the magic number and of the version.
const MAGIC_LEN: usize = 4;

const VERSION_LEN: usize = 4;

// The magic numbers, by the fractions of a second.
const MICROSECONDS: u32 = 0xa1b2_c3d4;

const NANOSECONDS: u32 = 0xa1b2_3c4d;

// The version that is read.
const MAJOR_VERSION: u16 = 2;

const MINOR_VERSION: u16 = 4;

impl Header {
    /// Reads the header at the front of a capture, 24 bytes. A fault is the first that holds of:
    /// fewer than 4 bytes, an unknown magic number, fewer than 8 bytes, another version than 2.4,
    /// fewer than 24 bytes, a link type that isn't read (draft-ietf-opsawg-pcap, section 4).
    #[tactic(auto, using(crate::proofs::HeaderLemmas::header_of_counted, crate::proofs::HeaderFaults::short_header_length, crate::proofs::HeaderFaults::header_takes_none))]
    pub fn read(bytes: &[u8]) -> Result<Header, CaptureFault>
        ensures exact { result ≡ header_of bytes.now }
        // What is read is the header, and no header is refused.
        ensures found { IfOk result (λ header. HasHeader bytes.now header) }
        ensures only { (header : Header) → HasHeader bytes.now header → result ≡ Ok header }
        // Bytes are missing only where fewer than 24 are there. No memory is taken.
        ensures short { (place : ℕ) → result ≡ Err (Short place) → length bytes.now < HEADER_LEN }
        ensures no_memory { result ≢ Err NoMemory }
        // Only the first 2 ^ 40 bytes of a file count.
        ensures counted { header_of bytes.now ≡ header_of (counted bytes.now) }
    {
        judged(bytes)
    }
}

/// The header at the front, or the first fault from the left.
fn judged(bytes: &[u8]) -> Result<Header, CaptureFault>
    ensures { result ≡ header_of bytes.now }
{
    if bytes.len() < MAGIC_LEN {
        return Err(short(bytes));
    }
    match Form::read(bytes) {
        None => Err(CaptureFault::Magic),
        Some(form) if form.big => form.header::<BigEndian>(bytes),
        Some(form) => form.header::<LittleEndian>(bytes),
    }
}

impl Form {
    /// The form that the magic number at the front tells, if it is one.
    fn read(bytes: &[u8]) -> Option<Form>
        requires { MAGIC_LEN ≤ length bytes.now }
        ensures { result ≡ form_of bytes.now }
    {
        if let Some(nano) = nano_of(LittleEndian::read_u32(bytes)) {
            return Some(Form { big: false, nano });
        }
        let nano = nano_of(BigEndian::read_u32(bytes))?;
        Some(Form { big: true, nano })
    }

    /// Reads the header of a file of this form, whose numbers stand in the order `T`.
    fn header<T: ByteOrder>(self, bytes: &[u8]) -> Result<Header, CaptureFault>
        ensures { result ≡ header_by T.number_of self bytes.now }
    {
        if bytes.len() < MAGIC_LEN + VERSION_LEN {
            return Err(short(bytes));
        }
        if !is_version_2_4::<T>(bytes) {
            return Err(CaptureFault::Version);
        }
        if bytes.len() < HEADER_LEN {
            return Err(short(bytes));
        }
        let link = (T::read_u32(&bytes[LINK..]) & 0xffff) as u16;
        if !is_link(link) {
            return Err(CaptureFault::Link);
        }
        Ok(Header {
            big: self.big,
            nano: self.nano,
            snaplen: T::read_u32(&bytes[SNAPLEN..]),
            link,
        })
    }
}

/// Whether the version is the one that is read.
fn is_version_2_4<T: ByteOrder>(bytes: &[u8]) -> bool
    requires { 8 ≤ length bytes.now }
    ensures { result ≡ is_version_2_4 T.number_of bytes.now }
{
    T::read_u16(&bytes[MAJOR..]) == MAJOR_VERSION && T::read_u16(&bytes[MINOR..]) == MINOR_VERSION
}

/// Whether a magic number stands for nanoseconds, `None` where the number is none.
fn nano_of(magic: u32) -> Option<bool>
    ensures { result ≡ nano_of magic }
{
    match magic {
        MICROSECONDS => Some(false),
        NANOSECONDS => Some(true),
        _ => None,
    }
}

fn short(bytes: &[u8]) -> CaptureFault
    ensures { result ≡ Short (length bytes.now) }
{
    CaptureFault::Short {
        place: bytes.len() as u64,
    }
}

fn is_link(link: u16) -> bool
    ensures { result ≡ is_link link }
{
    matches!(link, LINKTYPE_ETHERNET | LINKTYPE_RAW)
}
