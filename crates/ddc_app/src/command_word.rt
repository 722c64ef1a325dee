//! The commands by the words that name them, and what `help` prints of each.

ghost use Rattle.std.specs.Prelude.{◌≡◌, bytes_eq, find, map, option_map};
ghost use Rattle.ddc_app.specs.Commands.{command_first, command_read};
ghost use Rattle.ddc_app.specs.Help.{all_commands, command_answers, command_form, command_name, command_named, command_statuses};

/// A command of the program. The variants are in the order in which `help` lists them.
#[derive(Clone, Copy, PartialEq, Eq)]
pub enum CommandWord {
    Hex0,
    Asm,
    Where,
    List,
    Run,
    Audit,
    Part,
    Resume,
    DeltaStart,
    DeltaResume,
    Show,
    Verify,
    Provenance,
    Chain,
    Rests,
    Step,
    Left,
    Cut,
    Segment,
    Ends,
    Kaem,
    KaemVerify,
    KaemLeft,
    Demo,
    Help,
    Version,
}

/// All commands, in the order of `help`.
static COMMANDS: [CommandWord; 26] = [
    CommandWord::Hex0,
    CommandWord::Asm,
    CommandWord::Where,
    CommandWord::List,
    CommandWord::Run,
    CommandWord::Audit,
    CommandWord::Part,
    CommandWord::Resume,
    CommandWord::DeltaStart,
    CommandWord::DeltaResume,
    CommandWord::Show,
    CommandWord::Verify,
    CommandWord::Provenance,
    CommandWord::Chain,
    CommandWord::Rests,
    CommandWord::Step,
    CommandWord::Left,
    CommandWord::Cut,
    CommandWord::Segment,
    CommandWord::Ends,
    CommandWord::Kaem,
    CommandWord::KaemVerify,
    CommandWord::KaemLeft,
    CommandWord::Demo,
    CommandWord::Help,
    CommandWord::Version,
];

impl CommandWord {
    /// All commands, in the order of `help`.
    pub fn all() -> &'static [CommandWord; 26]
        ensures { result.now ≡ all_commands }
    {
        &COMMANDS
    }

    /// The command that the first word names, and the words after it; `None` where it names no command.
    pub fn read<'a, 'w>(words: &'a [&'w str]) -> Option<(CommandWord, &'a [&'w str])>
        ensures { option_map (λ line. (line.0, map (λ word. word.now) line.1.now)) result ≡ command_read (map (λ word. word.now) words.now) }
    {
        let (first, words) = words.split_first()?;
        Some((CommandWord::first(first)?, words))
    }

    /// The command that a first word names: one by its own name, or `help` or `version` with two dashes.
    fn first(word: &str) -> Option<CommandWord>
        ensures { result ≡ command_first word.now }
    {
        match word {
            "--help" => Some(CommandWord::Help),
            "--version" => Some(CommandWord::Version),
            _ => CommandWord::named(word),
        }
    }

    /// The command of this name; `None` where no command has it.
    pub fn named(word: &str) -> Option<CommandWord>
        ensures { result ≡ command_named word.now }
    {
        match named_in(CommandWord::all(), word) {
            Some(command) => Some(*command),
            None => None,
        }
    }

    /// The word that names the command.
    pub fn name(self) -> &'static str
        ensures { result.now ≡ command_name self }
    {
        match self {
            CommandWord::Hex0 => "hex0",
            CommandWord::Asm => "asm",
            CommandWord::Where => "where",
            CommandWord::List => "list",
            CommandWord::Run => "run",
            CommandWord::Audit => "audit",
            CommandWord::Part => "part",
            CommandWord::Resume => "resume",
            CommandWord::DeltaStart => "delta-start",
            CommandWord::DeltaResume => "delta-resume",
            CommandWord::Show => "show",
            CommandWord::Verify => "verify",
            CommandWord::Provenance => "provenance",
            CommandWord::Chain => "chain",
            CommandWord::Rests => "rests",
            CommandWord::Step => "step",
            CommandWord::Left => "left",
            CommandWord::Cut => "cut",
            CommandWord::Segment => "segment",
            CommandWord::Ends => "ends",
            CommandWord::Kaem => "kaem",
            CommandWord::KaemVerify => "kaem-verify",
            CommandWord::KaemLeft => "kaem-left",
            CommandWord::Demo => "demo",
            CommandWord::Help => "help",
            CommandWord::Version => "version",
        }
    }

    /// The command's word and the names of its arguments.
    #[tactic(auto, unfolding(crate::specs::Help::command_form))]
    pub fn form(self) -> &'static str
        ensures { result.now ≡ command_form self }
    {
        match self {
            CommandWord::Hex0 => "hex0 SOURCE BINARY",
            CommandWord::Asm => "asm LANG BASE SOURCE OUT",
            CommandWord::Where => "where LANG SOURCE NUMBER PLACE",
            CommandWord::List => "list BINARY",
            CommandWord::Run => "run PROGRAM STEPS ARG..",
            CommandWord::Audit => "audit RECIPE REPORT",
            CommandWord::Part => "part RECIPE SAVE REPORT STEPS",
            CommandWord::Resume => "resume RECIPE SAVE REPORT STEPS",
            CommandWord::DeltaStart => "delta-start RECIPE BASE PATCH REPORT STEPS",
            CommandWord::DeltaResume => "delta-resume RECIPE BASE PATCH REPORT STEPS",
            CommandWord::Show => "show REPORT",
            CommandWord::Verify => "verify RECIPE REPORT",
            CommandWord::Provenance => "provenance RECIPE REPORT",
            CommandWord::Chain => "chain LIST",
            CommandWord::Rests => "rests RECIPE STAGE",
            CommandWord::Step => "step RECIPE STAGE",
            CommandWord::Left => "left RECIPE STAGE FILE OUT",
            CommandWord::Cut => "cut RECIPE STAGE EVERY PREFIX",
            CommandWord::Segment => "segment FROM TO",
            CommandWord::Ends => "ends RECIPE STAGE PREFIX COUNT",
            CommandWord::Kaem => "kaem SCRIPT LIST REPORT STEPS",
            CommandWord::KaemVerify => "kaem-verify SCRIPT LIST REPORT",
            CommandWord::KaemLeft => "kaem-left SCRIPT LIST STEPS COMMAND FILE OUT",
            CommandWord::Demo => "demo N",
            CommandWord::Help => "help [COMMAND]",
            CommandWord::Version => "version",
        }
    }

    /// What the command does, as `help` prints it.
    #[tactic(auto, unfolding(crate::specs::Help::command_answers))]
    pub fn answers(self) -> &'static str
        ensures { result.now ≡ command_answers self }
    {
        match self {
            CommandWord::Hex0 => "compares the hex0 value of SOURCE with BINARY, byte for byte",
            CommandWord::Asm =>
                "assembles SOURCE in LANG (hex0, hex1, hex2, m1) at the address BASE, and saves under OUT its bytes, or for m1 the text of its items",
            CommandWord::Where =>
                "prints the line, the column and the word of SOURCE that a refusal of asm means, by its number and its place",
            CommandWord::List => "lists the words of BINARY with their values and instructions",
            CommandWord::Run =>
                "runs PROGRAM for at most STEPS steps, and prints how it ended and what it left",
            CommandWord::Audit =>
                "runs the stages of RECIPE, compares their artefacts, and saves the report under REPORT",
            CommandWord::Part =>
                "runs the audit of RECIPE for at most STEPS steps, and saves its state under SAVE, or its report under REPORT if it ends",
            CommandWord::Resume => "continues from SAVE for at most STEPS steps, as part does",
            CommandWord::DeltaStart => "continues from BASE, and saves under PATCH what differs",
            CommandWord::DeltaResume => "continues from BASE and PATCH, as delta-start does",
            CommandWord::Show => "prints the report in REPORT, or the line where it is wrong",
            CommandWord::Verify => "replays RECIPE's stages, and answers whether REPORT is true",
            CommandWord::Provenance =>
                "does as verify, and lists by length and digest what each compared artefact depends on",
            CommandWord::Chain =>
                "replays the audits that LIST names, and prints the assumptions that are left for all of them together",
            CommandWord::Rests => "lists the texts, runs and assumptions behind STAGE's artefact",
            CommandWord::Step => "steps through the program of STAGE by commands on standard input",
            CommandWord::Left => "runs STAGE, and saves under OUT what it left at FILE",
            CommandWord::Cut =>
                "runs STAGE, and saves its state after every EVERY steps as PREFIX.0, PREFIX.1 and so on",
            CommandWord::Segment => "answers whether the state FROM runs on to the state TO",
            CommandWord::Ends =>
                "answers whether PREFIX.0 is the start of STAGE, and how the run ends after the last of COUNT states",
            CommandWord::Kaem =>
                "runs the commands of SCRIPT over the files that LIST names, and saves their report under REPORT",
            CommandWord::KaemVerify => "replays the commands, and answers whether REPORT is true",
            CommandWord::KaemLeft =>
                "runs the commands of SCRIPT up to the one of number COMMAND, and saves under OUT what that left at FILE",
            CommandWord::Demo =>
                "makes and verifies an audit of N bytes with copy.elf and copy.hex0, and saves nothing",
            CommandWord::Help => "lists the commands, or what COMMAND does and its statuses",
            CommandWord::Version => "names this release of ddc, and the logic that proves it",
        }
    }

    /// The command's own statuses, as `help` prints them.
    #[tactic(auto, unfolding(crate::specs::Help::command_statuses))]
    pub fn statuses(self) -> &'static str
        ensures { result.now ≡ command_statuses self }
    {
        match self {
            CommandWord::Hex0 => "0 3",
            CommandWord::Asm => "0 7",
            CommandWord::Where => "0 1",
            CommandWord::List => "0",
            CommandWord::Run => "0 6",
            CommandWord::Audit => "0 3 4 6 7",
            CommandWord::Part => "0 3 4 6 7 8",
            CommandWord::Resume => "0 3 4 6 7 8 9",
            CommandWord::DeltaStart => "0 3 4 6 7 8 9",
            CommandWord::DeltaResume => "0 3 4 6 7 8 9",
            CommandWord::Show => "0 5",
            CommandWord::Verify => "0 1 3 4 5",
            CommandWord::Provenance => "0 1 3 4 5",
            CommandWord::Chain => "0 1 3 4 5 16",
            CommandWord::Rests => "0 4",
            CommandWord::Step => "0 4 6 7",
            CommandWord::Left => "0 4 6 7 10",
            CommandWord::Cut => "0 4 6 7 14",
            CommandWord::Segment => "0 1",
            CommandWord::Ends => "0 1 4 6 7",
            CommandWord::Kaem => "0 6 15 16",
            CommandWord::KaemVerify => "0 1 5 15 16",
            CommandWord::KaemLeft => "0 6 10 15 16",
            CommandWord::Demo => "0 3 6 7",
            CommandWord::Help => "0",
            CommandWord::Version => "0",
        }
    }
}

/// The first of these commands that a word names; `None` where it names none of them.
fn named_in<'c>(commands: &'c [CommandWord], word: &str) -> Option<&'c CommandWord>
    ensures { option_map (λ x. x.now) result ≡ find (λ command. bytes_eq (command_name command) word.now) commands.now }
{
    commands
        .iter()
        .find(|command| command.name().as_bytes() == word.as_bytes())
}
