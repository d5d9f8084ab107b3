//! What readers of the script language share: tokens read from the front, lists, and what reading by a
//! grammar gives.
#![tactic(auto)]

mod fault;
mod lists;
mod tokens;
mod turns;

pub use fault::FormFault;
pub use lists::{Element, enclosed, listed, repeat, trailing, up_to_brace};
pub use tokens::Tokens;
pub use turns::Turns;
