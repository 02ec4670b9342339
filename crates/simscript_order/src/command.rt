//! The command line as it is declared to `clap`.
ghost use Rattle.std.specs.Prelude.{◌≡◌, IfOk, codes, false};
ghost use Rattle.clap.specs.Words.{App, app_of, new_app, rule_of, with_rule, with_subcommand};
ghost use Rattle.clap.specs.declared.builder.command.Command.TheViews.{out-Command};
ghost use Rattle.simscript_order.specs.CommandLine.{bare_words, check_words, command_line, file_rule, input_rule, list_words, run_words, ticks_rule};

use clap::builder::ValueParser;
use clap::{Arg, ArgAction, Command};
use std::alloc::{AllocError, Global};

// The model's file.
fn model_file<'a>(alloc: Global) -> Arg<'a>
    ensures rule { rule_of result ≡ file_rule }
    ensures own { result.global ≡ false }
{
    Arg::new(alloc, "FILE")
        .help("The file with the model's text, /dev/stdin for a pipe")
        .action(ArgAction::Set)
        .required(true)
}

// The file of the input data.
fn input_file<'a>(alloc: Global) -> Arg<'a>
    ensures rule { rule_of result ≡ input_rule }
    ensures own { result.global ≡ false }
{
    Arg::new(alloc, "input")
        .long("input")
        .value_name("FILE")
        .help(
            "The file with the input data that READ takes, /dev/stdin for a pipe; no data without it",
        )
        .action(ArgAction::Set)
}

// The ticks that the run is given.
fn tick_count<'a>(alloc: Global) -> Arg<'a>
    ensures rule { rule_of result ≡ ticks_rule }
    ensures own { result.global ≡ false }
{
    Arg::new(alloc, "ticks")
        .long("ticks")
        .value_name("N")
        .help("How many ticks the run may use, from 0 to 18446744073709551615")
        .action(ArgAction::Set)
        .value_parser(ValueParser::unsigned(0, u64::MAX))
        .default_value("1000000")
}

// run FILE
fn run_of_file<'a>(alloc: Global) -> Result<Command<'a>, AllocError>
    ensures words { IfOk result (λ c. app_of c ≡ with_rule (new_app (codes "run")) file_rule) }
    ensures own { IfOk result (λ c. (out-Command c).has_globals ≡ false) }
{
    Command::new(alloc, "run")
        .about("Runs a model and writes its report to the standard output")
        .after_help(
            "A tick is one turn of a loop, one CALL or one event. A small model takes up to some thousands, a long run millions. A million mostly take well under a second.\n\nExamples:\n  simscript run shop.sim --input shop.data --ticks 50000\n  generate | simscript run model.sim --input /dev/stdin\n\nThe exit status is 0 where the run ended, 1 for a refused text, 2 for a wrong command line, 3 for a fault, 4 where the ticks were used up, 5 where memory ran out and 6 where a file, the input or the output failed.",
        )
        .arg(model_file(alloc))
}

// run FILE [--input FILE]
fn run_with_input<'a>(alloc: Global) -> Result<Command<'a>, AllocError>
    ensures words { IfOk result (λ c. app_of c ≡ with_rule (with_rule (new_app (codes "run")) file_rule) input_rule) }
    ensures own { IfOk result (λ c. (out-Command c).has_globals ≡ false) }
{
    run_of_file(alloc)?.arg(input_file(alloc))
}

// run FILE [--input FILE] [--ticks N]
fn run_command<'a>(alloc: Global) -> Result<Command<'a>, AllocError>
    ensures words { IfOk result (λ c. app_of c ≡ run_words) }
    ensures own { IfOk result (λ c. (out-Command c).has_globals ≡ false) }
{
    run_with_input(alloc)?.arg(tick_count(alloc))
}

// check FILE
fn check_command<'a>(alloc: Global) -> Result<Command<'a>, AllocError>
    ensures words { IfOk result (λ c. app_of c ≡ check_words) }
    ensures own { IfOk result (λ c. (out-Command c).has_globals ≡ false) }
{
    Command::new(alloc, "check")
        .about("Compiles a model and prints `accepted`, or why its text is refused")
        .after_help("Example: simscript check shop.sim")
        .arg(model_file(alloc))
}

// list FILE
fn list_command<'a>(alloc: Global) -> Result<Command<'a>, AllocError>
    ensures words { IfOk result (λ c. app_of c ≡ list_words) }
    ensures own { IfOk result (λ c. (out-Command c).has_globals ≡ false) }
{
    Command::new(alloc, "list")
        .about("Compiles a model and prints its code, a line for each instruction")
        .after_help("Example: simscript list shop.sim")
        .arg(model_file(alloc))
}

// The command line with none of its commands.
fn bare_line<'a>(alloc: Global) -> Command<'a>
    ensures { app_of result ≡ bare_words }
{
    Command::new(alloc, "simscript")
        .version("1.0.0")
        .about(
            "Compiles and runs models written in a profile of SIMSCRIPT II. Without a command it runs the model on the standard input, with no input data and 1,000,000 ticks",
        )
        .after_help("Example: simscript run shop.sim --input shop.data")
}

// The command line with one more command, where there was memory for that.
fn added<'a>(
    line: Command<'a>,
    command: Result<Command<'a>, AllocError>,
) -> Result<Command<'a>, AllocError>
    ensures { IfOk result (λ c. (words : App) → IfOk command.entry (λ k. app_of k ≡ words) → IfOk command.entry (λ k. (out-Command k).has_globals ≡ false) → app_of c ≡ with_subcommand (app_of line.entry) words.top) }
{
    match command {
        Ok(command) => line.subcommand(command),
        Err(error) => Err(error),
    }
}

/// The whole command line. The error comes where memory was refused.
pub fn whole_command<'a>(alloc: Global) -> Result<Command<'a>, AllocError>
    ensures { IfOk result (λ c. app_of c ≡ command_line) }
{
    let line = added(bare_line(alloc), run_command(alloc))?;
    let line = added(line, check_command(alloc))?;
    added(line, list_command(alloc))
}
