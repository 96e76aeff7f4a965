ghost use Rattle.std.specs.Prelude.{◌≡◌, ◌≤◌, IfOk, IfSome, Some, map, string_bytes, option_map};
ghost use Rattle.clap.specs.Words.{app_of, found_of};
ghost use Rattle.command_words.specs.Asked.{asked_by, asked_command, task_of, task_in, task_on_one, budget_in, HasCount, HasRanges};
ghost use Rattle.command_words.specs.Program.{program, positionals_of, found_command, Finds};

use crate::command::{Command, Work};
use crate::numbers::number_in;
use c_tree::Memory;
use clap::error::ErrorKind;
use clap::{Arg, ArgAction, ArgMatches};
use std::alloc::{AllocError, Global};
use std::marker::Model;

/// The budget of a command that names none.
const USUAL_BUDGET: u64 = 4_000_000;

/// The words of a command line, without the program's name. Contracts see each as its bytes.
#[derive(Debug, Drop)]
pub struct Words {
    pub items: Vec<String>,
}

impl Model for Words {
    ghost use Rattle.std.specs.Prelude.{List, ℕ, map, string_bytes};

    ghost Value = { List (List ℕ) };

    ghost view = { λ w. map string_bytes w.items.items };
}

/// The command that the words mean; none where they are no command.
pub fn asked<'a>(alloc: Global, words: &'a Words) -> Result<Option<Command<'a>>, Memory>
    ensures ranges { IfOk result (λ found. IfSome found HasRanges) }
    ensures command { IfOk result (λ found. option_map asked_by found ≡ asked_command words.now) }
{
    match matches_of(alloc, words.items.as_slice())? {
        Some(matches) => Ok(command_of(&matches)),
        None => Ok(None),
    }
}

/// What `clap` finds in the words; none where it refuses them.
fn matches_of<'a>(alloc: Global, words: &'a [String]) -> Result<Option<ArgMatches<'a>>, Memory>
    ensures { IfOk result (Finds (map string_bytes words.entry.now)) }
{
    match program(alloc)?.try_get_matches_from(words) {
        Ok(matches) => Ok(Some(matches)),
        Err(error) => {
            if error.kind() == ErrorKind::OutOfMemory {
                Err(Memory)
            } else {
                Ok(None)
            }
        }
    }
}

/// The command line: MODE, ARG, ARG2 and `--budget N`. Which of them must be there, and how often the option may, is for the reader of
/// the matches to say.
fn program<'a>(alloc: Global) -> Result<clap::Command<'a>, AllocError>
    ensures { IfOk result (λ c. app_of c ≡ program) }
{
    let budget = Arg::new(alloc, "budget")
        .long("budget")
        .action(ArgAction::Append);
    clap::Command::new(alloc, "clouseau")
        .no_binary_name(true)
        .disable_help_flag(true)
        .arg(Arg::new(alloc, "mode"))?
        .arg(Arg::new(alloc, "arg"))?
        .arg(Arg::new(alloc, "arg2"))?
        .arg(budget)
}

/// The command that the values mean.
fn command_of<'a>(matches: &ArgMatches<'a>) -> Option<Command<'a>>
    ensures ranges { IfSome result HasRanges }
    ensures command { option_map asked_by result ≡ found_command (found_of matches.now) }
{
    let mode = matches.get_str("mode")?;
    let arg = matches.get_str("arg")?;
    let work = work_of(mode, arg, matches.get_str("arg2"))?;
    let budget = budget_of(matches.get_strs("budget").unwrap_or(&[]))?;
    Some(Command { work, budget })
}

fn work_of<'a>(mode: &str, arg: &'a str, arg2: Option<&'a str>) -> Option<Work<'a>>
    ensures count { IfSome result HasCount }
    ensures work { option_map task_of result ≡ task_in (positionals_of (Some mode.now) (Some arg.now) (option_map (λ s. s.now) arg2.entry)) }
{
    match arg2 {
        Some(text) if mode == "verify" => Some(Work::Verify { file: arg, text }),
        Some(_) => None,
        None => work_on(mode, arg),
    }
}

/// What a mode with one more word asks for.
fn work_on<'a>(mode: &str, arg: &'a str) -> Option<Work<'a>>
    ensures count { IfSome result HasCount }
    ensures work { option_map task_of result ≡ task_on_one mode.now arg.now }
{
    if mode == "check" {
        Some(Work::Check { file: arg })
    } else if mode == "prove" {
        Some(Work::Prove { file: arg })
    } else if mode == "sample" {
        let count = number_in(arg, 4, 4000)?;
        Some(Work::Sample { count })
    } else {
        None
    }
}

/// The budget, from the numbers that the option was given.
fn budget_of(numbers: &[&str]) -> Option<u64>
    ensures range { IfSome result (λ n. (1 ≤ n) × (n ≤ 100000000)) }
    ensures budget { result ≡ budget_in (map (λ s. s.now) numbers.now) }
{
    match numbers {
        [] => Some(USUAL_BUDGET),
        [number] => {
            let budget = number_in(number, 9, 100_000_000)?;
            Some(u64::from(budget))
        }
        _ => None,
    }
}
