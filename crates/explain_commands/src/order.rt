//! What the words of a command line ask for.

use crate::command::whole_command;
use clap::ArgMatches;
use clap::error::ErrorKind;
use simscript_order::Misuse;
use std::alloc::Global;
use std::convert::AsStr;

/// The ticks of a run whose words name none.
const TICKS: u64 = 1_000_000;

/// A run that is asked for, and what is to be shown of it.
#[derive(Clone, Copy, Debug, PartialEq, Eq)]
pub struct RunOrder<'a> {
    /// The file with the input data.
    pub input: Option<&'a str>,
    pub ticks: u64,
    /// Whether there is a line for each tick.
    pub trace: bool,
    /// Whether there is a line for each event.
    pub events: bool,
    /// The names that are watched, with commas between.
    pub watch: Option<&'a str>,
    /// Whether it is said each second how far the run is.
    pub progress: bool,
}

/// What a command line asks for: to explain the text in a file, and to run it where that is asked for.
#[derive(Clone, Copy, Debug, PartialEq, Eq)]
pub struct Order<'a> {
    pub model: &'a str,
    pub run: Option<RunOrder<'a>>,
}

impl RunOrder<'_> {
    /// Whether lines are shown of the run, in place of its report.
    pub fn has_lines(&self) -> bool {
        self.trace || self.events || self.watch.is_some()
    }
}

// The run that the matches ask for, if there is a word of one.
fn run_order<'a>(matches: &ArgMatches<'a>) -> Option<RunOrder<'a>> {
    let ticks = matches.get_one::<u64>("ticks");
    let run = RunOrder {
        input: matches.get_str("input"),
        ticks: ticks.unwrap_or(TICKS),
        trace: matches.get_flag("trace"),
        events: matches.get_flag("events"),
        watch: matches.get_str("watch"),
        progress: matches.get_flag("progress"),
    };
    if run.has_lines() || run.progress || run.input.is_some() || ticks.is_some() {
        Some(run)
    } else {
        None
    }
}

// The order that the matches ask for.
fn matched_order<'a>(matches: &ArgMatches<'a>) -> Option<Order<'a>> {
    match matches.get_str("MODEL") {
        Some(model) => Some(Order {
            model,
            run: run_order(matches),
        }),
        None => None,
    }
}

impl<'a> Order<'a> {
    /// Reads the words of a command line, the program's name first. Words that are no command line are refused with the status
    /// 2, a call for the help or the version with 0, and where memory ran out with 5.
    pub fn of<S: AsStr>(alloc: Global, words: &'a [S]) -> Result<Order<'a>, Misuse> {
        let Ok(command) = whole_command(alloc) else {
            return Err(Misuse::Memory);
        };
        match command.try_get_matches_from(words) {
            Ok(matches) => matched_order(&matches).ok_or(Misuse::Incomplete),
            Err(error) => {
                if error.kind() == ErrorKind::OutOfMemory {
                    return Err(Misuse::Memory);
                }
                Err(Misuse::Words(error))
            }
        }
    }
}
