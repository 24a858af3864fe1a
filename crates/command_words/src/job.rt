ghost use Rattle.std.specs.Prelude.{◌≡◌, ◌≢◌, ◌↔◌, ℕ, List, IsTrue, MatchOption, map};
ghost use Rattle.command_words.specs.Words.{JobWords, IsWord, Asks, command_word, words_of};
ghost use Rattle.command_words.specs.declared.job.Command.{Command as Commands};

use wx_base::{Name, Words};

/// What is to be done with a function.
#[derive(Clone, Copy, Debug, PartialEq, Eq)]
pub enum Command {
    /// Its worst case.
    Analyse,
    /// One run.
    Run,
    /// Its worst case, by trying all arguments.
    Brute,
}

/// A command, with the names and the arguments that its words give.
#[derive(Clone, Copy, Debug)]
pub struct Job<'a> {
    pub command: Command,
    pub function: &'a Name,
    pub file: &'a Name,
    pub costs: &'a Name,
    /// The words behind `costs`, which `Run` alone takes.
    pub arguments: &'a [Name],
}

/// The job of the words of a command line, without the program's name: `analyse FUNCTION FILE COSTS`,
/// `brute FUNCTION FILE COSTS` or `run FUNCTION FILE COSTS ARG..`, where each word is UTF-8, isn't empty and
/// doesn't begin with `-`. `None` exactly where the words are none of these. It takes no memory.
pub fn job_of(words: &Words) -> Option<Job<'_>>
    ensures { MatchOption result ((job : JobWords) → Asks words.now job → ⊥)
        (λ job. Asks words.now (words_of job)) }
{
    let words = words.items();
    if !words.iter().all(is_word) {
        return None;
    }
    let [command, function, file, costs, ..] = words else {
        return None;
    };
    let command = command_of(command.bytes())?;
    let arguments = &words[4..];
    if command != Command::Run && !arguments.is_empty() {
        return None;
    }
    Some(Job {
        command,
        function,
        file,
        costs,
        arguments,
    })
}

fn command_of(word: &[u8]) -> Option<Command>
    ensures { MatchOption result ((command : Commands) → word.now ≢ command_word command)
        (λ command. word.now ≡ command_word command) }
{
    if word == b"analyse".as_slice() {
        return Some(Command::Analyse);
    }
    if word == b"run".as_slice() {
        return Some(Command::Run);
    }
    if word == b"brute".as_slice() {
        return Some(Command::Brute);
    }
    None
}

fn is_word(word: &Name) -> bool
    ensures { IsTrue result ↔ IsWord word.now }
{
    match word.bytes() {
        [] => false,
        [b'-', ..] => false,
        bytes => str::from_utf8(bytes).is_ok(),
    }
}
