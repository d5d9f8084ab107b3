//! Scripts that lie in no file.

ghost use Rattle.std.specs.Prelude.{◌≡◌, List, ℕ, map, IfOk};
ghost use Rattle.zk_load.specs.Loading.{scripts_in};

use crate::script::read_text;
use std::alloc::Global;
use zk_base::{Bytes, Mem, Sequence};
use zk_outcome::Found;
use zk_tree::Tree;

/// The scripts with these names and texts, in order, or how a run ends at the first that is refused.
pub fn read_texts(
    alloc: Global,
    texts: &[(&[u8], &[u8])],
) -> Result<Found<Sequence<(Bytes, Tree)>>, Mem>
    ensures { IfOk result (λ found. found ≡ scripts_in (map (λ one. (one.0.now, one.1.now)) texts.now)) }
{
    let mut scripts = Vec::with_capacity(alloc, texts.len())?;
    'texts: for (name, text) in texts {
        let file = Bytes::copy_of(alloc, name)?;
        match read_text(alloc, Bytes::copy_of(alloc, name)?, text)? {
            Found::Accepted(tree) => scripts.push((file, tree))?,
            Found::Refused(ending) => return Ok(Found::Refused(ending)),
        }
    }
    Ok(Found::Accepted(Sequence::from(scripts)))
}
