ghost use Rattle.std.specs.Prelude.{◌≡◌};
ghost use Rattle.zk_http.specs.Chunks.{size_of};

use httparse::{Status, parse_chunk_size};

/// The size of a chunk whose line a whole text is, if it is one (RFC 9112, section 7.1).
pub fn size_of(text: &[u8]) -> Option<u64>
    ensures { result ≡ size_of text.now }
{
    let Ok(status) = parse_chunk_size(text) else {
        return None;
    };
    let Status::Complete((len, size)) = status else {
        return None;
    };
    if len < text.len() {
        return None;
    }
    Some(size)
}
