//! The program zeekoff: the words of the command line, files as the outside, and the exit status.
#![tactic(auto)]

ghost use Rattle.std.specs.Prelude.{◌≡◌, IfErr, IfOk};
ghost use Rattle.zk_system.specs.Arguments.{exit_status};
ghost use Rattle.zeekoff.specs.Status.{HasEnded};

use std::alloc::Global;
use std::process::ExitCode;
use zk_base::{Shelf, Word};
use zk_system::{ArgumentFault, DirShelf, words};
use zk_top::run;

fn main(rt: HostRuntime) -> ExitCode {
    let mut shelf = DirShelf::new(&rt, rt.stdout(), rt.stderr());
    ExitCode::from(status(rt.alloc(), words(&rt), &mut shelf))
}

/// The exit status of a run with these words, or of the fault for which there are none.
fn status<S: Shelf>(alloc: Global, words: Result<Vec<Word>, ArgumentFault>, shelf: &mut S) -> u8
    ensures ended { IfOk words (λ words. HasEnded words.items (S.outside shelf.old) (S.outside shelf.new) result) }
    ensures fault { IfErr words (λ fault. result ≡ exit_status fault) }
{
    match words {
        Ok(words) => run(alloc, &words, shelf).status(),
        Err(fault) => fault.status(),
    }
}
