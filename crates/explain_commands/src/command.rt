//! The command line as it is declared to `clap`.

use clap::builder::ValueParser;
use clap::{Arg, ArgAction, Command};
use std::alloc::{AllocError, Global};

// The model's file.
fn model_file<'a>(alloc: Global) -> Arg<'a> {
    Arg::new(alloc, "MODEL")
        .help("The file with the model's text, /dev/stdin for a pipe")
        .action(ArgAction::Set)
        .required(true)
}

// A word with a value after it.
fn named<'a>(alloc: Global, name: &'a str, value: &'a str, help: &'a str) -> Arg<'a> {
    Arg::new(alloc, name)
        .long(name)
        .value_name(value)
        .help(help)
        .action(ArgAction::Set)
}

// A word that is there or not.
fn flag<'a>(alloc: Global, name: &'a str, help: &'a str) -> Arg<'a> {
    Arg::new(alloc, name)
        .long(name)
        .help(help)
        .action(ArgAction::SetTrue)
}

// The ticks that the run is given.
fn tick_count<'a>(alloc: Global) -> Arg<'a> {
    let help = "Run the model with at most so many ticks, 1,000,000 where it is run without this";
    named(alloc, "ticks", "N", help).value_parser(ValueParser::unsigned(0, u64::MAX))
}

// The command line with none of its words.
fn bare_line<'a>(alloc: Global) -> Command<'a> {
    Command::new(alloc, "explain")
        .version("1.0.0")
        .about(
            "Explains a model: why its text is refused and what helps, what looks odd in it, why its run stops, and what happens in it, tick by tick",
        )
        .after_help(
            "Examples:\n  explain shop.sim\n  explain shop.sim --input shop.data\n  explain shop.sim --input shop.data --events\n  explain shop.sim --input shop.data --watch N.LINEUP,BUSY\n\nWhat is explained goes to the standard output. So does the report of a run; with --trace, --events or --watch it goes to the standard error.\n\nThe exit status is that of simscript: 0 where all is right, 1 for a refused text, 2 for a wrong command line, 3 for a fault, 4 where the ticks were used up, 5 where memory ran out and 6 where a file, the input or the output failed.",
        )
}

// MODEL [--input FILE] [--ticks N]
fn run_line<'a>(alloc: Global) -> Result<Command<'a>, AllocError> {
    let input = "Run the model with the input data in this file";
    bare_line(alloc)
        .arg(model_file(alloc))?
        .arg(named(alloc, "input", "FILE", input))?
        .arg(tick_count(alloc))
}

/// The whole command line. The error comes where memory was refused.
pub fn whole_command<'a>(alloc: Global) -> Result<Command<'a>, AllocError> {
    let trace = "Run the model, and write a line for each tick";
    let events = "Run the model, and write a line for each event";
    let watch =
        "Run the model, and write a line `time,name,value` whenever one of these has another value after a tick: variables, N. of sets, statistics, attributes as LOAD(2), with commas between";
    let progress = "Run the model, and say each second on the standard error how far it is";
    run_line(alloc)?
        .arg(flag(alloc, "trace", trace))?
        .arg(flag(alloc, "events", events))?
        .arg(named(alloc, "watch", "NAMES", watch))?
        .arg(flag(alloc, "progress", progress))
}
