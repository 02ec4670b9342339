//! What the words of a command line ask for.
ghost use Rattle.std.specs.Prelude.{◌≡◌, IfOk, IfErr, Some, codes, map, option_and_then, option_map};
ghost use Rattle.clap.specs.Words.{first_of, found_of, one_of, rows_of, subcommand_rows_of};
ghost use Rattle.simscript_order.specs.CommandLine.{asked, asked_by, asked_in, asked_of, check, list, run_in, ticks_in, IsRefusedFor};

use crate::command::whole_command;
use crate::misuse::Misuse;
use clap::ArgMatches;
use clap::error::ErrorKind;
use std::alloc::Global;
use std::convert::AsStr;

/// What a command line asks for. Files are named as the words name them.
#[derive(Clone, Copy, Debug, PartialEq, Eq)]
pub enum Order<'a> {
    /// Run the text on the standard input, with no input data and 1,000,000 ticks.
    Plain,
    /// Compile the text in this file.
    Check(&'a str),
    /// Compile the text in this file and list its code.
    List(&'a str),
    /// Run the text in the first file with the data in the second, if any, and so many ticks.
    Run(&'a str, Option<&'a str>, u64),
}

// The file that the matches name.
#[tactic(auto, using(crate::proofs::Rows::text_read))]
fn file_of<'a>(matches: &ArgMatches<'a>) -> Option<&'a str>
    ensures { option_map (λ name. name.now) result ≡ first_of (codes "FILE") (rows_of (found_of matches.now)) }
{
    matches.get_str("FILE")
}

// The file of the input data, if the matches name one.
#[tactic(auto, using(crate::proofs::Rows::text_read))]
fn input_of<'a>(matches: &ArgMatches<'a>) -> Option<&'a str>
    ensures { option_map (λ name. name.now) result ≡ first_of (codes "input") (rows_of (found_of matches.now)) }
{
    matches.get_str("input")
}

// The ticks that the matches give.
fn ticks_of(matches: &ArgMatches<'_>) -> Option<u64>
    ensures { result ≡ option_and_then ticks_in (one_of (codes "ticks") (rows_of (found_of matches.now))) }
{
    matches.get_one::<u64>("ticks")
}

// The run that the matches of `run` ask for.
fn run_order<'a>(matches: &ArgMatches<'a>) -> Option<Order<'a>>
    ensures { option_map asked_of result ≡ run_in (rows_of (found_of matches.now)) }
{
    match (file_of(matches), ticks_of(matches)) {
        (Some(file), Some(ticks)) => Some(Order::Run(file, input_of(matches), ticks)),
        _ => None,
    }
}

// The check that the matches of `check` ask for.
fn check_order<'a>(matches: &ArgMatches<'a>) -> Option<Order<'a>>
    ensures { option_map asked_of result ≡ option_map check (first_of (codes "FILE") (rows_of (found_of matches.now))) }
{
    match file_of(matches) {
        Some(file) => Some(Order::Check(file)),
        None => None,
    }
}

// The listing that the matches of `list` ask for.
fn list_order<'a>(matches: &ArgMatches<'a>) -> Option<Order<'a>>
    ensures { option_map asked_of result ≡ option_map list (first_of (codes "FILE") (rows_of (found_of matches.now))) }
{
    match file_of(matches) {
        Some(file) => Some(Order::List(file)),
        None => None,
    }
}

// The order that the matches of the command `name` ask for.
fn named_order<'a>(name: &str, matches: &ArgMatches<'a>) -> Option<Order<'a>>
    ensures { option_map asked_of result ≡ asked_by name.now (rows_of (found_of matches.now)) }
{
    if name == "run" {
        run_order(matches)
    } else if name == "check" {
        check_order(matches)
    } else if name == "list" {
        list_order(matches)
    } else {
        None
    }
}

// The order that the matches of the words ask for.
fn matched_order<'a>(matches: &ArgMatches<'a>) -> Option<Order<'a>>
    ensures { option_map asked_of result ≡ asked_in (subcommand_rows_of matches.now) }
{
    match matches.subcommand() {
        Some((name, inner)) => named_order(name, inner),
        None => Some(Order::Plain),
    }
}

impl<'a> Order<'a> {
    /// Reads the words of a command line, the program's name first.
    ///
    /// The order is what the words' matches by `clap` ask for: the command, its files, and the
    /// ticks, a whole number up to 18446744073709551615, or 1,000,000 where none are given. Words
    /// that are no command line are refused with the status 2, a call for the help or the version with
    /// 0, and where memory ran out with 5.
    pub fn of<S: AsStr>(alloc: Global, words: &'a [S]) -> Result<Order<'a>, Misuse>
        ensures order { IfOk result (λ order. asked (map S.text words.entry.now) ≡ Some (asked_of order)) }
        ensures refused { IfErr result (λ misuse. IsRefusedFor (map S.text words.entry.now) misuse) }
    {
        let Ok(command) = whole_command(alloc) else {
            return Err(Misuse::Memory);
        };
        match command.try_get_matches_from(words) {
            Ok(matches) => matched_order(&matches).ok_or(Misuse::Incomplete),
            Err(error) => {
                if error.kind() == ErrorKind::OutOfMemory {
                    return Err(Misuse::Memory);
                }
                Err(Misuse::Words(error))
            }
        }
    }
}
