//! How an order ended, and the exit status of that.
ghost use Rattle.std.specs.Prelude.{◌≡◌, ◌⊎◌};
ghost use Rattle.explain_commands.specs.Statuses.{ending_status};

use simscript_commands::report_ending;
use simscript_order::ProgramFailure;
use ss_engine::Outcome;
use std::alloc::Global;
use std::io::Write;

/// How an order ended.
#[derive(Drop)]
pub enum Ending {
    /// As an order to `simscript` may end.
    Ended(Result<Outcome, ProgramFailure>),
    /// A name can't be watched, which was said.
    Misnamed,
}

/// Reports how an order ended, and answers the exit status: 2 where a name can't be watched, and else that of the outcome or of
/// what stopped the program, or that of memory where its line could not be made.
pub fn report<E: Write + Drop>(alloc: Global, ending: Ending, errors: E) -> u8
    ensures { (result ≡ ending_status ending) ⊎ (result ≡ 5) }
{
    match ending {
        Ending::Ended(ended) => report_ending(alloc, ended, errors),
        Ending::Misnamed => 2,
    }
}
