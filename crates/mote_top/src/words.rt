//! The words of a command, read one by one.

ghost use Rattle.std.specs.Prelude.{◌≡◌, ◌≢◌, ◌<◌, ◌≤◌, ◌^◌, ◌∷◌, [], ◌++◌, ◌↔◌, ℕ, List, IsTrue, IsNone, None, IfSome, map, MatchResult, codes, decimal};
ghost use Rattle.std.specs.String.{string_bytes};
ghost use Rattle.jvm_model.specs.Phases.{saturated};
ghost use Rattle.mote_top.specs.Words.{IsName, IsCommand, FaultsAt, opts_for};
ghost use Rattle.mote_top.specs.Parts.{opts_given, words_given, HasOptions, HasOption, IsNamed, IsPart, IsPartOrNone, IsCommandOrNone};

use itoa::Buffer;

/// What a run may use: the cells of the heap and of the stack, and a budget of ticks.
#[derive(Clone, Copy, Debug, PartialEq, Eq)]
pub struct Opts {
    pub heap: u16,
    pub stack: u16,
    pub ticks: u64,
}

/// The options of a command that gives none.
pub(crate) const DEFAULT_OPTS: Opts = Opts {
    heap: 4_096,
    stack: 1_024,
    ticks: 100_000_000,
};

/// A command; a name is the place of its word.
#[derive(Clone, Copy, Debug, PartialEq, Eq)]
pub enum Command {
    /// Stores the infusion of the class files from `first` on at the name `out`.
    Infuse { out: u32, first: u32 },
    /// Runs the infusion of this name.
    Run { name: u32, opts: Opts },
    /// Infuses the class files from `first` on and runs the infusion.
    Go { opts: Opts, first: u32 },
}

impl Command {
    /// What a run of the command may use.
    pub fn opts(&self) -> Opts
        ensures { result ≡ opts_for self.now }
    {
        match self {
            Command::Infuse { .. } => DEFAULT_OPTS,
            Command::Run { opts, .. } | Command::Go { opts, .. } => *opts,
        }
    }
}

/// The words are no command.
#[derive(Clone, Copy, Debug, PartialEq, Eq)]
pub struct WordFault {
    /// The first place at which no command goes on as the words do, or the number of words; the greatest
    /// number of the field where it is beyond.
    pub place: u32,
}

/// What the options so far give.
#[derive(Clone, Copy, Debug, PartialEq, Eq)]
pub(crate) struct Given {
    stack: Option<u16>,
    ticks: Option<u64>,
}

/// No option was given.
const NOTHING: Given = Given {
    stack: None,
    ticks: None,
};

impl Given {
    /// The options of a command that gives these.
    fn opts(self) -> Opts
        ensures { result ≡ opts_given self }
    {
        Opts {
            heap: DEFAULT_OPTS.heap,
            stack: self.stack.unwrap_or(DEFAULT_OPTS.stack),
            ticks: self.ticks.unwrap_or(DEFAULT_OPTS.ticks),
        }
    }

    /// How many words gave them.
    fn words(self) -> u32
        ensures { result ≡ words_given self }
    {
        let stack = if self.stack.is_some() { 2 } else { 0 };
        let ticks = if self.ticks.is_some() { 2 } else { 0 };
        stack + ticks
    }
}

/// What has options.
#[derive(Clone, Copy, Debug, PartialEq, Eq)]
pub(crate) enum Runs {
    /// `run`, whose options come last.
    Infusion,
    /// `go`, whose classes come after its options.
    Classes,
}

/// What the words so far are, which says what may come next.
#[derive(Clone, Copy, Debug, PartialEq, Eq)]
pub(crate) enum Part {
    /// No word.
    Start,
    /// `infuse`.
    Infuse,
    /// `infuse OUT`.
    InfuseOut,
    /// `infuse OUT CLASS CLASS ..`.
    InfuseClasses,
    /// `run`.
    Run,
    /// `run INFUSION OPTIONS` or `go OPTIONS`.
    Options { runs: Runs, given: Given },
    /// The same and `--stack`.
    Stack { runs: Runs, given: Given },
    /// The same and `--ticks`.
    Ticks { runs: Runs, given: Given },
    /// `go OPTIONS CLASS CLASS ..`.
    GoClasses { given: Given },
}

impl Part {
    /// The part with a word more, or none where no command goes on so.
    fn next(self, word: &str) -> Option<Part>
        ensures { (words : List (List ℕ)) → IsPart words self → IsPartOrNone (words ++ word.now ∷ []) result }
    {
        match self {
            Part::Start => first_part(word),
            Part::Infuse => named(word, Part::InfuseOut),
            Part::InfuseOut | Part::InfuseClasses => named(word, Part::InfuseClasses),
            Part::Run => named(
                word,
                Part::Options {
                    runs: Runs::Infusion,
                    given: NOTHING,
                },
            ),
            Part::Options { runs, given } => option_part(runs, given, word),
            Part::Stack { runs, given } => stack_part(runs, given, word),
            Part::Ticks { runs, given } => ticks_part(runs, given, word),
            Part::GoClasses { given } => named(word, Part::GoClasses { given }),
        }
    }

    /// The command that the part is, where it is one.
    fn command(self) -> Option<Command>
        ensures { (words : List (List ℕ)) → IsPart words self → IsCommandOrNone words result }
    {
        match self {
            Part::InfuseClasses => Some(Command::Infuse { out: 1, first: 2 }),
            Part::Options { runs, given } => match runs {
                Runs::Infusion => Some(Command::Run {
                    name: 1,
                    opts: given.opts(),
                }),
                Runs::Classes => None,
            },
            Part::GoClasses { given } => Some(Command::Go {
                opts: given.opts(),
                first: 1 + given.words(),
            }),
            Part::Start => None,
            Part::Infuse => None,
            Part::InfuseOut => None,
            Part::Run => None,
            Part::Stack { .. } => None,
            Part::Ticks { .. } => None,
        }
    }
}

/// Reads the words of a command: `infuse OUT CLASS CLASS ..`, `run INFUSION OPTIONS` or
/// `go OPTIONS CLASS CLASS ..`, where OPTIONS are `--stack N` and `--ticks N`, each once at most.
pub fn read_words(words: &[String]) -> Result<Command, WordFault>
    ensures { MatchResult result (IsCommand (map string_bytes words.now)) (λ fault. FaultsAt (map string_bytes words.now) fault.place) }
{
    let mut part = Part::Start;
    for (place, word) in words.iter().enumerate() {
        match part.next(word.as_str()) {
            Some(next) => part = next,
            None => return Err(fault_at(place)),
        }
    }
    match part.command() {
        Some(command) => Ok(command),
        None => Err(fault_at(words.len())),
    }
}

/// The fault at a place: the greatest number of the field where it is beyond.
fn fault_at(place: usize) -> WordFault
    ensures { result.place ≡ saturated place }
{
    WordFault {
        place: place_of(place),
    }
}

/// A place among the words, as a status has it.
pub(crate) fn place_of(place: usize) -> u32
    ensures { result ≡ saturated place }
{
    u32::try_from(place).unwrap_or(u32::MAX)
}

/// The part that the first word is.
fn first_part(word: &str) -> Option<Part>
    ensures { IsPartOrNone (word.now ∷ []) result }
{
    if word == "infuse" {
        Some(Part::Infuse)
    } else if word == "run" {
        Some(Part::Run)
    } else if word == "go" {
        Some(Part::Options {
            runs: Runs::Classes,
            given: NOTHING,
        })
    } else {
        None
    }
}

/// The part with a word more, where the word is to be a name.
fn named(word: &str, part: Part) -> Option<Part>
    ensures { IsNamed word.now part result }
{
    if is_name(word) { Some(part) } else { None }
}

/// The part with a word more after options.
fn option_part(runs: Runs, given: Given, word: &str) -> Option<Part>
    ensures { (words : List (List ℕ)) → HasOptions words runs given → IsPartOrNone (words ++ word.now ∷ []) result }
{
    if word == "--stack" {
        match given.stack {
            None => Some(Part::Stack { runs, given }),
            Some(_) => None,
        }
    } else if word == "--ticks" {
        match given.ticks {
            None => Some(Part::Ticks { runs, given }),
            Some(_) => None,
        }
    } else {
        match runs {
            Runs::Infusion => None,
            Runs::Classes => named(word, Part::GoClasses { given }),
        }
    }
}

/// The part with a word more after `--stack`, which was not given before.
fn stack_part(runs: Runs, given: Given, word: &str) -> Option<Part>
    ensures { (words : List (List ℕ)) → HasOption words runs given (codes "--stack") → given.stack ≡ None → IsPartOrNone (words ++ word.now ∷ []) result }
{
    let Some(cells) = stack_in(word) else {
        return None;
    };
    Some(Part::Options {
        runs,
        given: Given {
            stack: Some(cells),
            ticks: given.ticks,
        },
    })
}

/// The part with a word more after `--ticks`, which was not given before.
fn ticks_part(runs: Runs, given: Given, word: &str) -> Option<Part>
    ensures { (words : List (List ℕ)) → HasOption words runs given (codes "--ticks") → given.ticks ≡ None → IsPartOrNone (words ++ word.now ∷ []) result }
{
    let Some(ticks) = ticks_in(word) else {
        return None;
    };
    Some(Part::Options {
        runs,
        given: Given {
            stack: given.stack,
            ticks: Some(ticks),
        },
    })
}

/// A name is not empty and does not begin with `-`.
fn is_name(word: &str) -> bool
    ensures { IsTrue result ↔ IsName word.now }
{
    word.as_bytes().first().is_some_and(|first| *first != b'-')
}

/// The cells of a stack that the word is: 64 to 32,767, in decimal without a sign or a leading zero.
fn stack_in(word: &str) -> Option<u16>
    ensures some { IfSome result (λ cells. (word.now ≡ decimal cells) × (64 ≤ cells) × (cells ≤ 32767)) }
    ensures none { IsNone result → (cells : ℕ) → 64 ≤ cells → cells ≤ 32767 → word.now ≢ decimal cells }
{
    let Some(number) = ticks_in(word) else {
        return None;
    };
    if number < 64 {
        return None;
    }
    if 32_767 < number {
        return None;
    }
    Some(number as u16)
}

/// The number of 64 bits that the word is, in decimal without a sign or a leading zero.
fn ticks_in(word: &str) -> Option<u64>
    ensures some { IfSome result (λ ticks. word.now ≡ decimal ticks) }
    ensures none { IsNone result → (ticks : ℕ) → ticks < 2 ^ 64 → word.now ≢ decimal ticks }
{
    let Ok(ticks) = word.parse::<u64>() else {
        return None;
    };
    (Buffer::new().format(ticks) == word).then_some(ticks)
}
