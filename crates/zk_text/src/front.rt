ghost use Rattle.std.specs.Prelude.{◌≡◌, ◌<◌, ◌↔◌, ◌++◌, drop, length, IfOk, IsErr, OnErr, OnOk};

use thiserror::Error;

/// The text is longer than the buffer that it was to be written to.
#[derive(Clone, Copy, Debug, PartialEq, Eq, Error)]
#[error("the text is longer than the buffer")]
pub struct Short;

/// Copies a text to the front of a buffer.
pub fn write_front(text: &[u8], out: &mut [u8]) -> Result<usize, Short>
    ensures len { IfOk result (λ len. len ≡ length text.now) }
    ensures text { OnOk result (out.new ≡ text.now ++ drop (length text.now) out.old) }
    ensures short { IsErr result ↔ (length out.old < length text.now) }
    ensures err { OnErr result (out.new ≡ out.old) }
{
    if out.len() < text.len() {
        return Err(Short);
    }
    out[..text.len()].copy_from_slice(text);
    Ok(text.len())
}
