ghost use Rattle.std.specs.Prelude.{◌≡◌, ℕ, ◌+◌, ◌<◌, ◌≤◌, true, false, not, max, if◌then◌else◌, IsTrue, Option, length, slice_index_or, OnOk, OnErr, vec_len, Some, None};
ghost use Rattle.std.specs.Option.{option_or};
ghost use Rattle.zk_frag.specs.Buffer.{byte_held};
ghost use Rattle.zk_frag.specs.Fragment.{byte_of};
ghost use Rattle.zk_frag.specs.Group.{bytes_to, covered_to};

use std::alloc::Global;
use zk_base::Mem;

/// Makes a vector at least this long, by copies of a value. At `Mem` nothing is changed.
fn lengthen<T: Copy + Drop>(vec: &mut Vec<T>, len: usize, value: T) -> Result<(), Mem>
    ensures same { (i : ℕ) → slice_index_or vec.new.items i value ≡ slice_index_or vec.old.items i value }
    ensures ok { OnOk result (vec_len vec.new ≡ max (vec_len vec.old) len) }
    ensures err { OnErr result (vec.new.items ≡ vec.old.items) }
{
    if vec.len() < len {
        vec.resize(len, value)?;
    }
    Ok(())
}

/// Puts a payload where nothing is yet: the first copy of a byte stands.
fn fill(bytes: &mut [u8], covered: &mut [bool], place: usize, payload: &[u8])
    requires bytes { place + length payload.now ≤ length bytes.old }
    requires covered { place + length payload.now ≤ length covered.old }
    ensures first { (i : ℕ) → byte_held bytes.new covered.new i
        ≡ option_or (byte_held bytes.old covered.old i) (byte_of place payload.now i) }
    ensures kept { (i : ℕ) → slice_index_or covered.old i false ≡ true → slice_index_or covered.new i false ≡ true }
{
    for (k, byte) in payload.iter().enumerate() {
        let at = place + k;
        if !covered[at] {
            covered[at] = true;
            bytes[at] = *byte;
        }
    }
}

/// The first place from `from` on that is not covered.
fn first_gap(covered: &[bool], from: usize) -> usize
    ensures least { from ≤ result }
    ensures before { (i : ℕ) → from ≤ i → i < result → slice_index_or covered.now i false ≡ true }
    ensures gap { slice_index_or covered.now result false ≡ false }
{
    let mut place = from;
    while place < covered.len() && covered[place] {
        place += 1;
    }
    place
}

/// The end that is named: by a fragment that ends here where none before it did.
fn end_after(named: Option<usize>, more: bool, here: usize) -> Option<usize>
    ensures { result ≡ option_or named (if not more then Some here else None) }
{
    if more { named } else { named.or(Some(here)) }
}

/// A whole datagram.
#[derive(Debug, Drop)]
pub struct Datagram {
    pub bytes: Vec<u8>,
    ghost short: { vec_len bytes ≤ 65535 },
}

/// A datagram as far as its fragments have come.
#[derive(Debug, Drop)]
pub struct Assembly {
    /// The bytes by their places. What stands at places that are not covered says nothing.
    pub bytes: Vec<u8>,
    /// The places that have their byte. It is no longer than `bytes`.
    pub covered: Vec<bool>,
    /// The first place that is not covered.
    pub front: usize,
    /// The datagram's length, where a fragment has named it.
    pub end: Option<usize>,
    ghost within: { vec_len bytes ≤ 65535 },
}

impl Assembly {
    ghost use Rattle.zk_frag.specs.Assembly.{Holds, with_end, with_payload};

    /// No bytes. No memory is taken.
    pub fn new(alloc: Global) -> Assembly
        ensures { Holds result (λ place. None) None }
    {
        Assembly {
            bytes: Vec::new(alloc),
            covered: Vec::new(alloc),
            front: 0,
            end: None,
        }
    }

    /// Adds a fragment's payload at a place. At `Mem` the assembly holds what it held.
    pub fn add(&mut self, place: usize, more: bool, payload: &[u8]) -> Result<(), Mem>
        requires { place + length payload.now ≤ 65535 }
        ensures ok { OnOk result ((byte_at : ℕ → Option ℕ) (end : Option ℕ) → Holds self.old byte_at end
            → Holds self.new (with_payload byte_at place payload.now) (with_end end place more payload.now)) }
        ensures err { OnErr result ((byte_at : ℕ → Option ℕ) (end : Option ℕ) → Holds self.old byte_at end → Holds self.new byte_at end) }
    {
        let end = place + payload.len();
        lengthen(&mut self.bytes, end, 0)?;
        lengthen(&mut self.covered, end, false)?;
        fill(&mut self.bytes, &mut self.covered, place, payload);
        self.end = end_after(self.end, more, end);
        self.front = first_gap(&self.covered, self.front);
        Ok(())
    }

    /// Whether the end is named and each place before it is covered.
    pub fn is_whole(&self) -> bool
        ensures { (byte_at : ℕ → Option ℕ) (end : Option ℕ) → Holds self.now byte_at end → result ≡ covered_to byte_at end }
    {
        match self.end {
            Some(end) => end <= self.front,
            None => false,
        }
    }

    /// The bytes from place 0 to the end.
    pub fn into_datagram(self) -> Datagram
        ensures { (byte_at : ℕ → Option ℕ) (end : Option ℕ) → Holds self byte_at end → IsTrue (covered_to byte_at end)
            → result.bytes.items ≡ bytes_to byte_at end }
    {
        let Assembly {
            mut bytes,
            covered: _,
            front: _,
            end,
        } = self;
        if let Some(end) = end {
            bytes.truncate(end);
        }
        Datagram { bytes }
    }
}
