ghost use Rattle.std.specs.Prelude.{◌≡◌, ◌≢◌, ◌⊎◌, ◌↔◌, [], List, ℕ, Some, Ok, Err, IfOk, OnOk, IfErr};
ghost use Rattle.zk_base.specs.Shelf.{Files, HasRisen, appended};
ghost use Rattle.zk_base.specs.declared.endings.Ending.TheVariants.{Done};
ghost use Rattle.zk_command.specs.Command.{IsUnderstood, understand, command_seen};
ghost use Rattle.zk_command.specs.Complaint.{complaint_of};
ghost use Rattle.zk_top.specs.Outcome.{ending_so, outcome, outcome_of};
ghost use Rattle.zk_top.specs.Parts.{IsOfCommand, Fulfils, BreaksOff};
ghost use Rattle.zk_outcome.specs.Parts.{DoesAll, DoesPart, SameFaults, SameAbsences};
ghost use Rattle.zk_top.specs.Run.{IsNotStopped, IsDone, StaysWithin, SameComplaints};

use crate::generated::generate;
use crate::listing::list;
use crate::running::run_scripts;
use std::alloc::Global;
use zk_base::{Ending, Fault, Shelf, Word};
use zk_command::{Command, complaint_of, help, read_command, version};
use zk_io::say;
use zk_outcome::{Stop, written};

/// Carries out the words of a command line over a shelf, and says how that ended. The words are
/// those behind the program's own name.
///
/// Over a shelf that tells its inputs, the ending, what is said and complained, the files that are
/// written and the inputs that are asked for are those of `outcome`. `ReadFault`, `WriteFault` and
/// `NoMemory` stop a run at any place: then a prefix of each was done.
pub fn run<S: Shelf>(alloc: Global, words: &[Word], shelf: &mut S) -> Ending
    // A run that isn't stopped does what its words ask for, and nothing else.
    ensures done { (inputs : Files) → (S.outside shelf.old).inputs ≡ Some inputs → IsNotStopped result
        → IsDone (outcome words.now inputs) (S.outside shelf.old) result (S.outside shelf.new) }

    // However it ends, it has done a prefix of that, the complaint last.
    ensures within { (inputs : Files) → (S.outside shelf.old).inputs ≡ Some inputs
        → StaysWithin (outcome words.now inputs) (S.outside shelf.old) (S.outside shelf.new) }

    // What no shelf needs to tell.
    ensures usage { (word : ℕ) → IsNotStopped result → (result ≡ Ending.Usage word) ↔ (understand words.now ≡ Err word) }
    ensures absent { (name : List ℕ) → result ≡ Ending.NoInput name
        → HasRisen (S.outside shelf.old).absences (S.outside shelf.new).absences }
    ensures present { IsNotStopped result → ((name : List ℕ) → result ≢ Ending.NoInput name)
        → SameAbsences (S.outside shelf.old) (S.outside shelf.new) }
    ensures complains { IsNotStopped result
        → (S.outside shelf.new).complained ≡ appended (S.outside shelf.old).complained (complaint_of result) }
    ensures silent { (result ≡ Ending.ReadFault) ⊎ (result ≡ Ending.NoMemory)
        → SameComplaints (S.outside shelf.old) (S.outside shelf.new) }
    ensures faults { IsNotStopped result → SameFaults (S.outside shelf.old) (S.outside shelf.new) }
    ensures read_fault { result ≡ Ending.ReadFault
        → HasRisen (S.outside shelf.old).read_faults (S.outside shelf.new).read_faults
        × ((S.outside shelf.new).write_faults ≡ (S.outside shelf.old).write_faults) }
    ensures write_fault { result ≡ Ending.WriteFault
        → HasRisen (S.outside shelf.old).write_faults (S.outside shelf.new).write_faults
        × ((S.outside shelf.new).read_faults ≡ (S.outside shelf.old).read_faults) }

    // The call that failed was the last one, so nothing was read, said or written behind it.
    ensures read_last { result ≡ Ending.ReadFault → (S.outside shelf.new).last ≡ Some Fault.Read }
    ensures write_last { result ≡ Ending.WriteFault → (S.outside shelf.new).last ≡ Some Fault.Write }

    // A fault is never told as want of memory.
    ensures no_memory { result ≡ Ending.NoMemory → SameFaults (S.outside shelf.old) (S.outside shelf.new) }
    ensures inputs { (S.outside shelf.new).inputs ≡ (S.outside shelf.old).inputs }
{
    match attempt(alloc, words, shelf) {
        Ok(ending) => ending,
        Err(stop) => Ending::from(stop),
    }
}

/// The run itself, up to what may stop it.
fn attempt<S: Shelf>(alloc: Global, words: &[Word], shelf: &mut S) -> Result<Ending, Stop>
    ensures done { IfOk result (λ ending. Fulfils (outcome words.now) (complaint_of ending) (S.outside shelf.old) ending (S.outside shelf.new)) }
    ensures usage { IfOk result (λ ending. (word : ℕ) → (ending ≡ Ending.Usage word) ↔ (understand words.now ≡ Err word)) }
    ensures stopped { IfErr result (λ stop. BreaksOff (outcome words.now) (S.outside shelf.old) stop (S.outside shelf.new)) }
{
    let ending = carry_out(alloc, words, shelf)?;
    complain(alloc, shelf, &ending)?;
    Ok(ending)
}

/// Does what the words ask for, but for the complaint.
fn carry_out<S: Shelf>(alloc: Global, words: &[Word], shelf: &mut S) -> Result<Ending, Stop>
    ensures done { IfOk result (λ ending. Fulfils (outcome words.now) [] (S.outside shelf.old) ending (S.outside shelf.new)) }
    ensures usage { IfOk result (λ ending. (word : ℕ) → (ending ≡ Ending.Usage word) ↔ (understand words.now ≡ Err word)) }
    ensures stopped { IfErr result (λ stop. BreaksOff (outcome words.now) (S.outside shelf.old) stop (S.outside shelf.new)) }
{
    match read_command(words) {
        Ok(command) => perform(alloc, command, shelf),
        Err(word) => Ok(Ending::Usage { word }),
    }
}

/// Does what a command asks for, but for the complaint.
fn perform<S: Shelf>(alloc: Global, command: Command<'_>, shelf: &mut S) -> Result<Ending, Stop>
    requires { IsUnderstood (command_seen command) }
    ensures done { IfOk result (λ ending. Fulfils (outcome_of (Ok (command_seen command.entry))) [] (S.outside shelf.old) ending (S.outside shelf.new)) }
    ensures command_ends { IfOk result IsOfCommand }
    ensures stopped { IfErr result (λ stop. BreaksOff (outcome_of (Ok (command_seen command.entry))) (S.outside shelf.old) stop (S.outside shelf.new)) }
{
    match command {
        Command::List { file } => list(alloc, shelf, file),
        Command::Run {
            settings,
            file,
            scripts,
        } => run_scripts(alloc, shelf, settings, file, scripts),
        Command::Generate { start, count } => generate(alloc, shelf, start, count),
        Command::Help => answer(shelf, help()),
        Command::Version => answer(shelf, version()),
    }
}

/// Says a text, and that is all.
fn answer<S: Shelf>(shelf: &mut S, text: &[u8]) -> Result<Ending, Stop>
    ensures done { IfOk result (λ ending. Fulfils (λ _. ending_so Done text.now []) [] (S.outside shelf.old) ending (S.outside shelf.new)) }
    ensures command { IfOk result IsOfCommand }
    ensures stopped { IfErr result (λ stop. BreaksOff (λ _. ending_so Done text.now []) (S.outside shelf.old) stop (S.outside shelf.new)) }
{
    say(shelf, text)?;
    Ok(Ending::Done)
}

/// Complains of an ending on standard error, where there is something to complain of.
fn complain<S: Shelf>(alloc: Global, shelf: &mut S, ending: &Ending) -> Result<(), Stop>
    ensures done { OnOk result (DoesAll [] [] (complaint_of ending.now) (S.outside shelf.old) (S.outside shelf.new)) }
    ensures stopped { IfErr result (λ stop. DoesPart [] [] (complaint_of ending.now) (S.outside shelf.old) stop (S.outside shelf.new)) }
{
    let complaint = complaint_of(alloc, ending)?;
    if complaint.is_empty() {
        return Ok(());
    }
    written(shelf.complain(&complaint))
}
