ghost use Rattle.std.specs.Prelude.{◌≡◌, map, IfOk};
ghost use Rattle.zk_typed.specs.Meaning as meaning;
ghost use Rattle.zk_typed.specs.View.{hook_body_of};

use std::alloc::Global;
use std::cmp::Reverse;
use zk_base::Mem;
use zk_typed::script::HookBody;

/// The bodies of a hook by falling priority, and in load order where that is the same.
pub fn in_order(alloc: Global, bodies: &[HookBody]) -> Result<Vec<&HookBody>, Mem>
    ensures { IfOk result (λ list. map (λ body. hook_body_of body.now) list.items ≡ meaning.in_order (λ body. body.priority) (map hook_body_of bodies.now)) }
{
    let mut list = Vec::new(alloc);
    for body in bodies {
        list.push(body)?;
    }
    list.sort_by_key(|body| Reverse(body.priority))?;
    Ok(list)
}
