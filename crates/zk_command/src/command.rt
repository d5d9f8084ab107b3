ghost use Rattle.std.specs.Prelude.{◌≡◌, ◌<◌, ◌≤◌, ◌^◌, IfOk, IfSome, ◌↔◌, ◌++◌, List, ℕ, IsTrue, Ok, Err, MatchResult};
ghost use Rattle.zk_command.specs.Command.{IsUnderstood, IsFirstNotUnderstood, begins, is_whole, is_file_name, number_in, number_from, number_to, start_max, count_max, once, with_option, with_script, with_word, run_on, verb, step, stand_from, settings_of, words_from, run_of, command_of, understand, command_seen};
ghost use Rattle.zk_command.specs.Command.{Command as Asked};
ghost use Rattle.zk_command.specs.Spelling.{Spells};
ghost use Rattle.std.specs.Option.{option_map};

use zk_base::Word;
use zk_gen::CONVERSATIONS_MAX;

/// The units of a body, where nothing else is told.
pub const BUDGET: u64 = 1_000_000;

/// The bytes that a stream may hold above its front, where nothing else is told.
pub const BUFFER: u64 = 1_048_576;

/// The most units that a body may be given.
const BUDGET_MAX: u64 = 1_000_000_000;

/// The most bytes that a stream may be allowed to hold above its front.
const BUFFER_MAX: u64 = 67_108_864;

/// The greatest number with which a made capture may start.
const START_MAX: u32 = u32::MAX;

/// What the command line asks for.
#[derive(Debug, Drop)]
pub enum Command<'a> {
    /// `list FILE`: a line for each item of a capture.
    List {
        file: &'a [u8],
    },
    /// `run [-C] [-b] [--budget N] [--buffer N] -r FILE SCRIPT*`: scripts over a capture.
    Run {
        settings: Settings,
        file: &'a [u8],
        scripts: &'a [Word],
    },
    /// `gen START COUNT`: the default scripts over a capture that is made by rule.
    Generate {
        start: u32,
        count: u32,
    },
    /// `--help`: what commands there are.
    Help,
    /// `--version`: the name and the version.
    Version,
}

/// How scripts are run.
#[derive(Clone, Copy, Debug, PartialEq, Eq)]
pub struct Settings {
    /// Packets with a wrong checksum are passed over.
    pub check: bool,
    /// The default scripts are left out.
    pub bare: bool,
    /// The units for one body.
    pub budget: u64,
    /// The bytes that a stream may hold above its front.
    pub buffer: u64,
}

/// What the next word of a run is.
#[derive(Clone, Copy, Debug)]
pub enum Next {
    /// An option or a script.
    Word,
    /// The number of `--budget`.
    Budget,
    /// The number of `--buffer`.
    Buffer,
    /// The file of `-r`.
    File,
}

/// What the words of a run have told so far.
#[derive(Clone, Copy, Debug)]
pub struct Run {
    pub unchecked: bool,
    pub bare: bool,
    pub budget: Option<u64>,
    pub buffer: Option<u64>,
    /// The number of the word that names the capture.
    pub file: Option<usize>,
    /// The number of the word that names the first script.
    pub scripts: Option<usize>,
    pub next: Next,
}

/// A run without options.
const NO_OPTIONS: Run = Run {
    unchecked: false,
    bare: false,
    budget: None,
    buffer: None,
    file: None,
    scripts: None,
    next: Next::Word,
};

/// What words are that begin a command.
#[derive(Clone, Copy, Debug)]
pub enum Standing {
    /// No words.
    Nothing,
    /// `list`
    List,
    /// `list FILE`
    Listed,
    /// `run` and what stands behind it.
    Run(Run),
    /// `gen`
    Generate,
    /// `gen START`
    GenerateFrom(u32),
    /// `gen START COUNT`
    Generated { start: u32, count: u32 },
    /// `--help`
    Help,
    /// `--version`
    Version,
}

/// The command that the words are, or the number of the first word that isn't understood: the least
/// n such that words 0 to n begin no command, or the number of words.
pub fn read_command(words: &[Word]) -> Result<Command<'_>, usize>
    ensures understood { MatchResult result
        (λ command. understand words.now ≡ Ok (command_seen command))
        (λ word. understand words.now ≡ Err word) }
    ensures limits { IfOk result (λ command. IsUnderstood (command_seen command)) }
{
    let standing = stand(words)?;
    match command_of(words, standing) {
        Some(command) => Ok(command),
        None => Err(words.len()),
    }
}

/// What all words are, or the number of the first with which they begin no command.
fn stand(words: &[Word]) -> Result<Standing, usize>
    ensures { result ≡ stand_from Standing.Nothing 0 words.now }
{
    let mut standing = Standing::Nothing;
    for (number, word) in words.iter().enumerate() {
        match step(standing, number, word.as_slice()) {
            Some(more) => standing = more,
            None => return Err(number),
        }
    }
    Ok(standing)
}

/// What words are with one more, by its number and itself, if they are the first ones of a command.
fn step(standing: Standing, number: usize, word: &[u8]) -> Option<Standing>
    ensures { result ≡ step standing number word.now }
{
    match standing {
        Standing::Nothing => verb(word),
        Standing::List if is_file_name(word) => Some(Standing::Listed),
        Standing::Run(run) => run_on(run, number, word).map(Standing::Run),
        Standing::Generate => number_to(START_MAX, word).map(Standing::GenerateFrom),
        Standing::GenerateFrom(start) => {
            let count = number_to(CONVERSATIONS_MAX, word)?;
            Some(Standing::Generated { start, count })
        }
        Standing::List
        | Standing::Listed
        | Standing::Generated { .. }
        | Standing::Help
        | Standing::Version => None,
    }
}

/// What the first word begins.
fn verb(word: &[u8]) -> Option<Standing>
    ensures { result ≡ verb word.now }
{
    if word == b"list".as_slice() {
        Some(Standing::List)
    } else if word == b"run".as_slice() {
        Some(Standing::Run(NO_OPTIONS))
    } else if word == b"gen".as_slice() {
        Some(Standing::Generate)
    } else if word == b"--help".as_slice() {
        Some(Standing::Help)
    } else if word == b"--version".as_slice() {
        Some(Standing::Version)
    } else {
        None
    }
}

/// A run with one more word.
fn run_on(run: Run, number: usize, word: &[u8]) -> Option<Run>
    ensures { result ≡ run_on run number word.now }
{
    match run.next {
        Next::Word => with_word(run, number, word),
        Next::Budget => {
            let budget = number_in(BUDGET_MAX, word)?;
            Some(Run {
                budget: Some(budget),
                next: Next::Word,
                ..run
            })
        }
        Next::Buffer => {
            let buffer = number_in(BUFFER_MAX, word)?;
            Some(Run {
                buffer: Some(buffer),
                next: Next::Word,
                ..run
            })
        }
        Next::File if is_file_name(word) => Some(Run {
            file: Some(number),
            next: Next::Word,
            ..run
        }),
        Next::File => None,
    }
}

/// A run whose next word is an option or a script. Options stand before the first script.
fn with_word(run: Run, number: usize, word: &[u8]) -> Option<Run>
    ensures { result ≡ with_word run number word.now }
{
    if is_file_name(word) {
        with_script(run, number)
    } else if run.scripts.is_some() {
        None
    } else {
        with_option(run, word)
    }
}

/// A run whose next word is a script. The capture is named before it.
fn with_script(run: Run, number: usize) -> Option<Run>
    ensures { result ≡ with_script run number }
{
    if run.file.is_none() {
        None
    } else if run.scripts.is_some() {
        Some(run)
    } else {
        Some(Run {
            scripts: Some(number),
            ..run
        })
    }
}

/// A run whose next word is an option.
fn with_option(run: Run, word: &[u8]) -> Option<Run>
    ensures { result ≡ with_option run word.now }
{
    if word == b"-C".as_slice() {
        let unchecked = true;
        once(run.unchecked, Run { unchecked, ..run })
    } else if word == b"-b".as_slice() {
        once(run.bare, Run { bare: true, ..run })
    } else if word == b"--budget".as_slice() {
        let next = Next::Budget;
        once(run.budget.is_some(), Run { next, ..run })
    } else if word == b"--buffer".as_slice() {
        let next = Next::Buffer;
        once(run.buffer.is_some(), Run { next, ..run })
    } else if word == b"-r".as_slice() {
        let next = Next::File;
        once(run.file.is_some(), Run { next, ..run })
    } else {
        None
    }
}

/// An option stands once at most.
fn once(is_there: bool, run: Run) -> Option<Run>
    ensures { result ≡ once is_there run }
{
    if is_there { None } else { Some(run) }
}

/// The name of a file is neither empty nor like an option.
fn is_file_name(word: &[u8]) -> bool
    ensures { result ≡ is_file_name word.now }
{
    match word {
        [] => false,
        [first, ..] => *first != b'-',
    }
}

/// The number from 0 to a limit that a word spells in decimal digits, the first of which is 0 in `0`
/// alone.
fn number_to(most: u32, word: &[u8]) -> Option<u32>
    ensures { result ≡ number_to most word.now }
{
    if word == b"0".as_slice() {
        return Some(0);
    }
    let number = number_in(u64::from(most), word)?;
    Some(number as u32)
}

/// The number from 1 to a limit that a word spells in decimal digits, the first of which is not 0.
fn number_in(most: u64, word: &[u8]) -> Option<u64>
    requires { most < 2 ^ 32 }
    ensures spelled { result ≡ number_in most word.now }
    ensures within { IfSome result (λ number. number ≤ most) }
{
    match word {
        [] | [b'0', ..] => None,
        _ => digits_in(most, word),
    }
}

/// The number that digits spell, where it stays within a limit.
fn digits_in(most: u64, word: &[u8]) -> Option<u64>
    requires { most < 2 ^ 32 }
    ensures spelled { result ≡ number_from most 0 word.now }
    ensures within { IfSome result (λ number. number ≤ most) }
{
    let mut number = 0;
    for byte in word {
        if !byte.is_ascii_digit() {
            return None;
        }
        number = number * 10 + u64::from(*byte - b'0');
        if number > most {
            return None;
        }
    }
    Some(number)
}

/// The command that words are, if they are a whole one.
fn command_of(words: &[Word], standing: Standing) -> Option<Command<'_>>
    ensures { option_map command_seen result ≡ command_of words.now standing }
{
    match standing {
        Standing::Nothing | Standing::List | Standing::Generate | Standing::GenerateFrom(_) => None,
        Standing::Listed => {
            let file = words.get(1)?;
            Some(Command::List {
                file: file.as_slice(),
            })
        }
        Standing::Run(run) => run_of(words, run),
        Standing::Generated { start, count } => Some(Command::Generate { start, count }),
        Standing::Help => Some(Command::Help),
        Standing::Version => Some(Command::Version),
    }
}

/// The run that words are, if they are a whole one: the capture is named.
fn run_of(words: &[Word], run: Run) -> Option<Command<'_>>
    ensures { option_map command_seen result ≡ run_of words.now run run.file }
{
    let file = words.get(run.file?)?;
    match run.next {
        Next::Word => Some(Command::Run {
            settings: settings_of(run),
            file: file.as_slice(),
            scripts: words_from(words, run.scripts),
        }),
        Next::Budget | Next::Buffer | Next::File => None,
    }
}

/// The words from a number on.
fn words_from(words: &[Word], number: Option<usize>) -> &[Word]
    ensures { result.now ≡ words_from words.now number }
{
    match number {
        Some(number) if number < words.len() => &words[number..],
        _ => &[],
    }
}

/// How scripts are run.
fn settings_of(run: Run) -> Settings
    ensures { result ≡ settings_of run }
{
    Settings {
        check: !run.unchecked,
        bare: run.bare,
        budget: run.budget.unwrap_or(BUDGET),
        buffer: run.buffer.unwrap_or(BUFFER),
    }
}

/// What a command line is, in the subject's own words. There is nothing to run.
pub fn command_line()
    // A command has as its words what begins one, and words that begin one can be made a whole one.
    ensures begun { (words : List (List ℕ)) → IsTrue (begins words) ↔ ((more : List (List ℕ)) × IsTrue (is_whole (words ++ more))) }

    // The word that is named is the least one with which the words begin no command, or else all words begin one.
    ensures first { (words : List (List ℕ)) (place : ℕ) → stand_from Standing.Nothing 0 words ≡ Err place → IsFirstNotUnderstood words place }
{}

/// Which words are which command, in the subject's own words. There is nothing to run.
pub fn spelling()
    // Words are understood as a command exactly where they are how it is written: its word, its options in any order
    // and each once at most, their values, and the names of files in order.
    ensures spelled { (words : List (List ℕ)) (command : Asked) → (understand words ≡ Ok command) ↔ Spells command words }
{}
