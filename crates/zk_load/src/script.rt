ghost use Rattle.std.specs.Prelude.{◌≡◌, [], ◌∷◌, Ok, IfOk, IfErr};
ghost use Rattle.zk_outcome.specs.Found.{Finds};
ghost use Rattle.zk_outcome.specs.Parts.{DoesPart};
ghost use Rattle.zk_load.specs.Script.{accepted, script_in, script_of, tree_read, place_of_token};

use crate::reading::read_input;
use std::alloc::Global;
use zk_base::{Bytes, Ending, Mem, ScriptKind, Shelf};
use zk_outcome::{Found, Stop};
use zk_parse::{ParseFault, parse};
use zk_token::{LexFault, tokens};
use zk_tree::{Token, Tree};

/// The most bytes that a script may have.
const SCRIPT_MAX: usize = 1_048_576;

/// The tree of the script in a file, or how a run ends where there is none.
pub fn read_script<S: Shelf>(alloc: Global, shelf: &mut S, file: &[u8]) -> Result<Found<Tree>, Stop>
    ensures found { IfOk result (λ found. Finds file.now (script_in file.now) (S.outside shelf.old) found (S.outside shelf.new)) }
    ensures stopped { IfErr result (λ stop. DoesPart (file.now ∷ []) [] [] (S.outside shelf.old) stop (S.outside shelf.new)) }
{
    let name = Bytes::copy_of(alloc, file)?;
    match read_input(alloc, shelf, file, SCRIPT_MAX)? {
        Some(text) => Ok(read_text(alloc, name, text.as_slice())?),
        None => Ok(Found::Refused(Ending::NoInput { name })),
    }
}

/// The tree of a text, or how a run ends where it is refused.
pub fn read_text(alloc: Global, name: Bytes, text: &[u8]) -> Result<Found<Tree>, Mem>
    ensures { IfOk result (λ found. found ≡ accepted name (script_of text.now)) }
{
    if text.len() > SCRIPT_MAX {
        return Ok(refused(name, SCRIPT_MAX as u64, ScriptKind::TooLarge));
    }
    match tokens(alloc, text) {
        Ok(tokens) => read_tokens(alloc, name, tokens.as_slice()),
        Err(LexFault::BadByte { place }) => Ok(refused(name, place, ScriptKind::BadByte)),
        Err(LexFault::OpenString { place }) => Ok(refused(name, place, ScriptKind::OpenString)),
        Err(LexFault::BigNumber { place }) => Ok(refused(name, place, ScriptKind::BigNumber)),
        Err(LexFault::NoMemory) => Err(Mem),
    }
}

/// The tree of the tokens of a text, or how a run ends where they are refused.
fn read_tokens(alloc: Global, name: Bytes, tokens: &[Token]) -> Result<Found<Tree>, Mem>
    ensures { IfOk result (λ found. found ≡ accepted name (tree_read (Ok tokens.now))) }
{
    match parse(alloc, tokens) {
        Ok(tree) => Ok(Found::Accepted(tree)),
        Err(ParseFault::NoTree { at }) => {
            let place = place_of(tokens, at);
            Ok(refused(name, place, ScriptKind::NoTree))
        }
        Err(ParseFault::NoMemory) => Err(Mem),
    }
}

/// A script is refused at a byte of its file.
fn refused(file: Bytes, place: u64, kind: ScriptKind) -> Found<Tree>
    ensures { result ≡ Found.Refused (Ending.ScriptRefused file place kind) }
{
    Found::Refused(Ending::ScriptRefused { file, place, kind })
}

/// The place of a token, by its number.
fn place_of(tokens: &[Token], number: usize) -> u64
    ensures { result ≡ place_of_token tokens.now number }
{
    match tokens.get(number) {
        Some(token) => token.place,
        None => 0,
    }
}
