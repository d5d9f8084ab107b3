ghost use Rattle.std.specs.Prelude.{◌≡◌, ◌≤◌, length};
ghost use Rattle.std.specs.List.{list_any};
ghost use Rattle.zk_typed.specs.Declarations as spec;
ghost use Rattle.zk_check_operators.specs.Attributes.{before};

use crate::attributes::{is_expiry, is_name};
use zk_tree::Attr;

/// Whether an attribute of a name stands among the first so many. The nearest is found first, so that going
/// through a list takes no more steps than it has attributes for each name that may stand in it.
pub fn is_before(attrs: &[Attr], end: usize, name: &[u8]) -> bool
    requires { end ≤ length attrs.now }
    ensures { result ≡ spec.is_one_of (before end attrs.now) name.now }
{
    let mut at = end;
    while at > 0 {
        at -= 1;
        if is_name(attrs[at].name.as_slice(), name) {
            return true;
        }
    }
    false
}

/// Whether an expiry stands among the first so many.
pub fn expiry_before(attrs: &[Attr], end: usize) -> bool
    requires { end ≤ length attrs.now }
    ensures { result ≡ list_any spec.is_expiry (before end attrs.now) }
{
    let mut at = end;
    while at > 0 {
        at -= 1;
        if is_expiry(attrs[at].name.as_slice()) {
            return true;
        }
    }
    false
}
