ghost use Rattle.std.specs.Prelude.{◌≡◌, ◌↔◌, All, List, ℕ, ◌+◌, ◌<◌, ◌≤◌, ◌^◌, length, true, Ok, Err, Option, Result, IfOk, IfSome};
ghost use Rattle.std.specs.Option.{ok_or};
ghost use Rattle.zk_tree.specs.declared.token.Token.{Token};
ghost use Rattle.zk_token.specs.Fault.{Fault};
ghost use Rattle.zk_token.specs.Numerals.{begins_digit, numeral_at};
ghost use Rattle.zk_token.specs.TokenForms.{AreTokensOf, BeginsNoToken, IsFault, IsFirstFaultOf, IsReadFrom, StandsInText};
ghost use Rattle.zk_token.specs.Tokens.{tokens_of, next_or_fault, token_at, fault_of, UnlessNoMemory};

use crate::fault::LexFault;
use crate::numerals::numeral;
use crate::signs::sign;
use crate::strings::string;
use crate::words::{attribute, begins_name, begins_word, load, name, separators};
use std::alloc::Global;
use zk_base::Sequence;
use zk_tree::{Token, TokenKind};

/// The tokens of a script (Zeek manual, Script Reference), each the longest that fits at its place,
/// with blanks, tabs, line ends and comments between them.
///
/// A fault is the first in the text. `BadByte` comes where a byte begins no token, and at a backslash
/// that begins no escape in a string that is closed. `OpenString` comes at a quote that opens a string
/// and isn't closed on its line. `BigNumber` comes at the first digit of a number past 2^64 - 1.
pub fn tokens(alloc: Global, text: &[u8]) -> Result<Sequence<Token>, LexFault>
    ensures exact { UnlessNoMemory result (tokens_of text.now) }

    // These are read exactly where they are the tokens of the text, and it has no others.
    ensures read { (tokens : List Token) → (tokens_of text.now ≡ Ok tokens) ↔ AreTokensOf text.now tokens }

    // A fault is told exactly where it is the first in the text.
    ensures refused { (fault : Fault) → (tokens_of text.now ≡ Err fault) ↔ IsFirstFaultOf text.now fault }
{
    read_tokens(alloc, text)
}

/// The tokens, read one behind another.
fn read_tokens(alloc: Global, text: &[u8]) -> Result<Sequence<Token>, LexFault>
    ensures { UnlessNoMemory result (tokens_of text.now) }
{
    let mut tokens = Vec::new(alloc);
    let mut place = 0;
    while let Some((token, end)) = next_token(alloc, text, place)? {
        tokens.push(token)?;
        place = end;
    }
    Ok(Sequence::from(tokens))
}

/// The token behind the separators that stand from a place on, and the place behind it. There is none
/// where nothing but separators is left.
fn next_token(alloc: Global, text: &[u8], place: usize) -> Result<Option<(Token, usize)>, LexFault>
    requires { place ≤ length text.now }
    ensures exact { UnlessNoMemory result (next_or_fault text.now place) }
    ensures later { IfOk result (λ found. IfSome found (λ f. place < f.1)) }
    ensures within { IfOk result (λ found. IfSome found (λ f. f.1 ≤ length text.now)) }
{
    let start = place + separators(&text[place..]);
    if start == text.len() {
        return Ok(None);
    }
    let place = start as u64;
    let (kind, len) = token_at(alloc, &text[start..], place)?;
    Ok(Some((Token { kind, place }, start + len)))
}

/// The token at the front of a text that stands at a place, and how many bytes it has.
fn token_at(alloc: Global, text: &[u8], place: u64) -> Result<(TokenKind, usize), LexFault>
    requires { place + length text.now < 2 ^ 64 }
    ensures exact { UnlessNoMemory result (ok_or (token_at text.now) (fault_of place text.now)) }
    ensures some { IfOk result (λ f. 0 < f.1) }
    ensures within { IfOk result (λ f. f.1 ≤ length text.now) }
{
    let Some((first, rest)) = text.split_first() else {
        return Err(LexFault::BadByte { place });
    };
    if begins_name(*first) {
        return Ok(name(alloc, text)?);
    }
    if first.is_ascii_digit() {
        return measured_numeral(text).ok_or(LexFault::BigNumber { place });
    }
    match *first {
        b'"' => string(alloc, rest, place),
        b'@' => load(alloc, text)?.ok_or(LexFault::BadByte { place }),
        b'&' if begins_word(rest) => Ok(attribute(alloc, rest)?),
        _ => sign(text).ok_or(LexFault::BadByte { place }),
    }
}

/// The token at the front of a text that begins with a digit, and its length. There is none where the
/// number is past 2^64 - 1.
fn measured_numeral(text: &[u8]) -> Option<(TokenKind, usize)>
    requires { begins_digit text.now ≡ true }
    ensures exact { result ≡ numeral_at text.now }
    ensures some { IfSome result (λ f. 0 < f.1) }
    ensures within { IfSome result (λ f. f.1 ≤ length text.now) }
{
    let (kind, rest) = numeral(text)?;
    Some((kind, text.len() - rest.len()))
}

/// What tokens are, in the subject's own words. There is nothing to run.
pub fn script_tokens()
    // The text is read as tokens, or up to its first fault, in one way alone.
    ensures exact { (text : List ℕ) (read : Result (List Token) Fault) → (tokens_of text ≡ read) ↔ IsReadFrom 0 text read }

    // No token begins exactly where there is a fault, and there is one fault at most.
    ensures none_begins { (text : List ℕ) (place : ℕ) → BeginsNoToken text ↔ IsFault place text (fault_of place text) }
    ensures one_fault { (text : List ℕ) (place : ℕ) (fault : Fault) → IsFault place text fault → fault ≡ fault_of place text }

    // Each token stands at its place.
    ensures placed { (text : List ℕ) (tokens : List Token) → AreTokensOf text tokens → All (StandsInText text) tokens }
{}
