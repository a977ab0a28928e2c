// The words of the command line.
ghost use Rattle.std.specs.Prelude.{◌≡◌, IfOk, map, option_map, string_bytes};
ghost use Rattle.clap.specs.Words.{app_of};
ghost use Rattle.fm_top.specs.Words.{IsParseOf, budget_in, call_named, call_of, checking, command_line, deciding, number_in, sample_in, sampling};

use crate::call::Call;
use clap::error::ErrorKind;
use clap::{Arg, ArgMatches, Command};
use fm_words::{is_number, number};
use std::alloc::{AllocError, Global};

// The units of work for each query where the words name none, and the most that they may name.
pub const DEFAULT_BUDGET: u32 = 200_000;

const LARGEST_BUDGET: u32 = 4_000_000;

// The greatest number of six digits.
const LARGEST_SAMPLE: u32 = 999_999;

/// What the words ask for, if they have the form of a call.
pub fn call_of_words(alloc: Global, words: &[String]) -> Result<Option<Call>, AllocError>
    ensures { IfOk result (λ c. c ≡ call_of (map string_bytes words.now)) }
{
    match parsed(alloc, words)? {
        Some(matches) => Ok(named_call(
            matches.get_str("command"),
            matches.get_str("number"),
            matches.get_str("budget"),
        )),
        None => Ok(None),
    }
}

// The matches, if the command takes the words.
fn parsed<'a>(alloc: Global, words: &'a [String]) -> Result<Option<ArgMatches<'a>>, AllocError>
    ensures { IfOk result (IsParseOf (map string_bytes words.entry.now)) }
{
    match command(alloc)?.try_get_matches_from(words) {
        Ok(matches) => Ok(Some(matches)),
        Err(error) => {
            match error.kind() {
                ErrorKind::OutOfMemory => Err(AllocError),
                _ => Ok(None),
            }
        }
    }
}

// The command that takes the words.
fn command<'a>(alloc: Global) -> Result<Command<'a>, AllocError>
    ensures { IfOk result (λ c. app_of c ≡ command_line) }
{
    let command = Arg::new(alloc, "command").required(true);
    let number = Arg::new(alloc, "number");
    let budget = Arg::new(alloc, "budget").long("budget");
    Command::new(alloc, "fmod")
        .no_binary_name(true)
        .disable_help_flag(true)
        .disable_version_flag(true)
        .arg(command)?
        .arg(number)?
        .arg(budget)
}

fn named_call(command: Option<&str>, number: Option<&str>, budget: Option<&str>) -> Option<Call>
    ensures { result ≡ call_named (option_map (λ s. s.now) command.entry) (option_map (λ s. s.now) number.entry)
        (option_map (λ s. s.now) budget.entry) }
{
    match command? {
        "decide" => decide_call(number, budget),
        "check" => check_call(number, budget),
        "sample" => sample_call(number, budget),
        _ => None,
    }
}

fn decide_call(number: Option<&str>, budget: Option<&str>) -> Option<Call>
    ensures { result ≡ deciding (option_map (λ s. s.now) number.entry) (option_map (λ s. s.now) budget.entry) }
{
    match (number, budget) {
        (None, None) => Some(Call::Decide(DEFAULT_BUDGET)),
        (None, Some(word)) => Some(Call::Decide(named_budget(word)?)),
        (Some(_), _) => None,
    }
}

fn check_call(number: Option<&str>, budget: Option<&str>) -> Option<Call>
    ensures { result ≡ checking (option_map (λ s. s.now) number.entry) (option_map (λ s. s.now) budget.entry) }
{
    match (number, budget) {
        (None, None) => Some(Call::Check),
        _ => None,
    }
}

fn sample_call(number: Option<&str>, budget: Option<&str>) -> Option<Call>
    ensures { result ≡ sampling (option_map (λ s. s.now) number.entry) (option_map (λ s. s.now) budget.entry) }
{
    match (number, budget) {
        (Some(word), None) => Some(Call::Sample(named_sample(word)?)),
        _ => None,
    }
}

fn named_budget(word: &str) -> Option<u32>
    ensures { result ≡ budget_in word.now }
{
    number_between(word.as_bytes(), 7, 1, LARGEST_BUDGET)
}

fn named_sample(word: &str) -> Option<u32>
    ensures { result ≡ sample_in word.now }
{
    number_between(word.as_bytes(), 6, 0, LARGEST_SAMPLE)
}

// The number of a word of at most this many digits, if it is from `least` to `most`.
fn number_between(word: &[u8], digits: usize, least: u32, most: u32) -> Option<u32>
    ensures { result ≡ number_in digits least most word.now }
{
    if word.len() > digits || !is_number(word) {
        return None;
    }
    let n = number(word)?;
    if u64::from(least) <= n && n <= u64::from(most) {
        Some(n as u32)
    } else {
        None
    }
}
