//! The arguments of the commands, one type for each set of them.

ghost use Rattle.std.specs.Prelude.{◌≡◌, ◌≤◌, IfSome, IsTrue, map};
ghost use Rattle.std.specs.List.{list_all};
ghost use Rattle.ddc_base.specs.Limits.{most_address, most_commands};
ghost use Rattle.guest_run.specs.Setting.{is_text};
ghost use Rattle.tool_commands.specs.Asm.{as_base};
ghost use Rattle.tool_commands.specs.KaemLeft.{as_command_number, kaem_left_words};
ghost use Rattle.tool_commands.specs.Inside.Words.{as_args, asm_words, binary_word, hex0_words, kaem_words, run_words, script_words};

use crate::guest_file::{GuestFile, Wanted};
use command_plan::words::has_no_zero_byte;
use command_plan::{FileName, StepCount, three_files, two_files};
use ddc_base::languages::Language;
use ddc_base::limits::{MOST_ADDRESS, MOST_COMMANDS};
use ddc_base::read_decimal;
use std::marker::Model;

/// Reads the argument `BINARY` of `list`; `None` for all others.
pub(crate) fn binary_word<'w>(words: &[&'w str]) -> Option<FileName<'w>>
    ensures { result ≡ binary_word (map (λ w. w.now) words.now) }
{
    let [binary] = words else {
        return None;
    };
    FileName::read(binary)
}

/// The arguments of `hex0`: a source, and a binary that is compared with its value. They may be one file.
#[derive(Drop)]
pub(crate) struct Hex0Words<'w> {
    pub source: FileName<'w>,
    pub binary: FileName<'w>,
}

impl<'w> Hex0Words<'w> {
    /// Reads the arguments `SOURCE BINARY`; `None` for all others.
    pub(crate) fn read(words: &[&'w str]) -> Option<Hex0Words<'w>>
        ensures { result ≡ hex0_words (map (λ w. w.now) words.now) }
    {
        let [source, binary] = words else {
            return None;
        };
        let source = FileName::read(source)?;
        let binary = FileName::read(binary)?;
        Some(Hex0Words { source, binary })
    }
}

/// The address at which a source's bytes begin, from 0 to 2^37, both included. Contracts see the number.
#[derive(Clone, Copy)]
pub(crate) struct Base {
    address: u64,
}

impl Model for Base {
    ghost use Rattle.std.specs.Prelude.{ℕ, ◌≤◌};
    ghost use Rattle.ddc_base.specs.Limits.{most_address};

    ghost Value = { ℕ };

    ghost view = { λ base. base.address };

    ghost invariant = { λ base. base.address ≤ most_address };

    ghost inverse = { λ address. record { address = address } };
}

impl Base {
    /// Reads a base; `None` for all other words.
    fn read(word: &str) -> Option<Base>
        ensures { result ≡ as_base word.now }
    {
        let address = base_of(word)?;
        Some(Base { address })
    }

    /// The address.
    pub(crate) fn address(self) -> u64
        ensures value { result ≡ self }
        ensures most { self ≤ most_address }
    {
        self.address
    }
}

/// Reads a decimal number from 0 to 2^37; `None` for all other words.
#[tactic(auto, unfolding(crate::specs::Asm::as_base))]
fn base_of(word: &str) -> Option<u64>
    ensures value { result ≡ as_base word.now }
    ensures within { IfSome result (λ base. base ≤ most_address) }
{
    let base = read_decimal(word.as_bytes())?;
    if base <= MOST_ADDRESS {
        Some(base)
    } else {
        None
    }
}

/// The arguments of `asm`: the language and the base, the source, and the file in which the value is saved.
#[derive(Drop)]
pub(crate) struct AsmWords<'w> {
    pub language: Language,
    pub base: Base,
    pub source: FileName<'w>,
    pub out: FileName<'w>,
}

impl<'w> AsmWords<'w> {
    /// Reads the arguments `LANG BASE SOURCE OUT`; `None` for all others.
    pub(crate) fn read(words: &[&'w str]) -> Option<AsmWords<'w>>
        ensures { result ≡ asm_words (map (λ w. w.now) words.now) }
    {
        let [language, base, source, out] = words else {
            return None;
        };
        let language = Language::named(language.as_bytes())?;
        let base = Base::read(base)?;
        let (source, out) = two_files(source, out)?;
        Some(AsmWords {
            language,
            base,
            source,
            out,
        })
    }
}

/// Arguments of a program: words without a zero byte. Contracts see their bytes.
#[derive(Drop)]
pub(crate) struct Args<'w> {
    words: &'w [&'w str],
}

impl<'w> Model for Args<'w> {
    ghost use Rattle.std.specs.Prelude.{List, ℕ, IsTrue, map};
    ghost use Rattle.std.specs.List.{list_all};
    ghost use Rattle.guest_run.specs.Setting.{is_text};

    ghost Value = { List (List ℕ) };

    ghost view = { λ args. map (λ w. w.now) args.words.now };

    ghost invariant = { λ args. IsTrue (list_all (λ w. is_text w.now) args.words.now) };
}

impl<'w> Args<'w> {
    /// Reads words as arguments; `None` where one of them has a zero byte.
    #[tactic(auto, using(crate::proofs::Arguments::texts_of_words))]
    fn read(words: &'w [&'w str]) -> Option<Args<'w>>
        ensures { result ≡ as_args (map (λ w. w.now) words.now) }
    {
        if are_texts(words) {
            Some(Args { words })
        } else {
            None
        }
    }

    /// The words.
    pub(crate) fn words(&self) -> &'w [&'w str]
        ensures value { map (λ w. w.now) result.now ≡ self.now }
        ensures texts { IsTrue (list_all (λ w. is_text w.now) result.now) }
    {
        self.words
    }
}

/// Whether none of these words has a zero byte.
fn are_texts(words: &[&str]) -> bool
    ensures { result ≡ list_all (λ w. is_text w.now) words.now }
{
    words.iter().all(|word| has_no_zero_byte(word))
}

/// The arguments of `run`: a program, the most steps of its run, and its arguments.
#[derive(Drop)]
pub(crate) struct RunWords<'w> {
    pub program: FileName<'w>,
    pub steps: StepCount,
    pub args: Args<'w>,
}

impl<'w> RunWords<'w> {
    /// Reads the arguments `PROGRAM STEPS ARG..`; `None` for all others.
    pub(crate) fn read(words: &'w [&'w str]) -> Option<RunWords<'w>>
        ensures { result ≡ run_words (map (λ w. w.now) words.now) }
    {
        let [program, steps, args @ ..] = words else {
            return None;
        };
        let program = FileName::read(program)?;
        let steps = StepCount::read(steps)?;
        let args = Args::read(args)?;
        Some(RunWords {
            program,
            steps,
            args,
        })
    }
}

/// The arguments of `kaem-verify`: a script, the list of its files, and its report.
#[derive(Drop)]
pub(crate) struct ScriptWords<'w> {
    pub script: FileName<'w>,
    pub list: FileName<'w>,
    pub report: FileName<'w>,
}

impl<'w> ScriptWords<'w> {
    /// Reads the arguments `SCRIPT LIST REPORT`; `None` for all others.
    pub(crate) fn read(words: &[&'w str]) -> Option<ScriptWords<'w>>
        ensures { result ≡ script_words (map (λ w. w.now) words.now) }
    {
        let [script, list, report] = words else {
            return None;
        };
        let (script, list, report) = three_files(script, list, report)?;
        Some(ScriptWords {
            script,
            list,
            report,
        })
    }
}

/// The arguments of `kaem`: a script, the list of its files, its report, and the most steps of each command.
#[derive(Drop)]
pub(crate) struct KaemWords<'w> {
    pub script: FileName<'w>,
    pub list: FileName<'w>,
    pub report: FileName<'w>,
    pub steps: StepCount,
}

impl<'w> KaemWords<'w> {
    /// Reads the arguments `SCRIPT LIST REPORT STEPS`; `None` for all others.
    pub(crate) fn read(words: &[&'w str]) -> Option<KaemWords<'w>>
        ensures { result ≡ kaem_words (map (λ w. w.now) words.now) }
    {
        let [script, list, report, steps] = words else {
            return None;
        };
        let (script, list, report) = three_files(script, list, report)?;
        let steps = StepCount::read(steps)?;
        Some(KaemWords {
            script,
            list,
            report,
            steps,
        })
    }
}

/// The number of a command, from 1 to 4,096, both included. Contracts see the number.
#[derive(Clone, Copy)]
pub(crate) struct CommandNumber {
    number: u32,
}

impl Model for CommandNumber {
    ghost use Rattle.std.specs.Prelude.{ℕ, ◌≤◌};
    ghost use Rattle.ddc_base.specs.Limits.{most_commands};

    ghost Value = { ℕ };

    ghost view = { λ command. command.number };

    ghost invariant = { λ command. (1 ≤ command.number) × (command.number ≤ most_commands) };

    ghost inverse = { λ number. record { number = number } };
}

impl CommandNumber {
    /// Reads a command's number; `None` for all other words.
    fn read(word: &str) -> Option<CommandNumber>
        ensures { result ≡ as_command_number word.now }
    {
        let number = number_of(word)?;
        Some(CommandNumber { number })
    }

    /// The number.
    pub(crate) fn number(self) -> u32
        ensures value { result ≡ self }
        ensures some { 1 ≤ self }
        ensures most { self ≤ most_commands }
    {
        self.number
    }
}

/// Reads a decimal number from 1 to 4,096; `None` for all other words.
#[tactic(auto, unfolding(crate::specs::KaemLeft::as_command_number))]
fn number_of(word: &str) -> Option<u32>
    ensures value { result ≡ as_command_number word.now }
    ensures within { IfSome result (λ number. (1 ≤ number) × (number ≤ most_commands)) }
{
    let number = read_decimal(word.as_bytes())?;
    if 1 <= number && number <= MOST_COMMANDS as u64 {
        Some(number as u32)
    } else {
        None
    }
}

/// The arguments of `kaem-left`: a script, the list of its files, the most steps of each command, the number of one command, and FILE and
/// OUT.
#[derive(Drop)]
pub(crate) struct KaemLeftWords<'w> {
    pub script: FileName<'w>,
    pub list: FileName<'w>,
    pub steps: StepCount,
    pub command: CommandNumber,
    pub wanted: Wanted<'w>,
}

impl<'w> KaemLeftWords<'w> {
    /// Reads the arguments `SCRIPT LIST STEPS COMMAND FILE OUT`; `None` for all others.
    #[tactic(auto, unfolding(crate::specs::KaemLeft::kaem_left_words))]
    pub(crate) fn read(words: &[&'w str]) -> Option<KaemLeftWords<'w>>
        ensures { result ≡ kaem_left_words (map (λ w. w.now) words.now) }
    {
        let [script, list, steps, command, file, out] = words else {
            return None;
        };
        let (script, list, out) = three_files(script, list, out)?;
        let steps = StepCount::read(steps)?;
        let command = CommandNumber::read(command)?;
        let file = GuestFile::read(file)?;
        let wanted = Wanted { file, out };
        Some(KaemLeftWords {
            script,
            list,
            steps,
            command,
            wanted,
        })
    }
}
