//! Laws of sessions.

ghost use Rattle.std.specs.Prelude.{◌≡◌, ◌≢◌, ℕ, List, []};
ghost use Rattle.ss_code.specs.Running.{Generated};
ghost use Rattle.ss_engine.specs.declared.session.Session.{Session as SessionSeen};
ghost use Rattle.ss_engine.specs.Accepting.{IsCompiledTo};
ghost use Rattle.ss_engine.specs.Headline.{IsSimulated};
ghost use Rattle.ss_engine.specs.Sessions.{HasRun, session_machine, session_reader, session_writer, last_stop};
ghost use Rattle.ss_engine.specs.Cuts.{HasBeenCut};

use crate::text_laws::laws as laws_of_texts;
use ss_base::{FaultyRead, FaultyWrite};
use ss_code_instructions::laws::{laws_of_code, laws_of_pieces};

/// A session of a text is what `simulate` is: after any list of runs, with whatever ticks, its writer took exactly the report
/// that the text means for the input and all those ticks, and its last run stopped as the meaning ends. Where memory, the
/// reader or the writer failed, it took a beginning of that report.
///
/// `compile` answers a model that `IsCompiledTo` the text, `Session::start` a session that `HasRun` no pieces, and each
/// `Session::run` makes that one piece more, whatever it answers.
pub fn sessions_are_meant<R: FaultyRead, W: FaultyWrite>()
    ensures { (session : SessionSeen R W) (text : List ℕ) (code : Generated) (reader : R) (writer : W) (pieces : List ℕ) → IsCompiledTo text code → pieces ≢ [] → HasRun R.remaining R.faults W.contents W.faults code reader writer pieces session → IsSimulated R.remaining W.contents text (last_stop (session_machine session).stopped) (session_machine session).used reader (session_reader session) writer (session_writer session) }
{
    laws_of_pieces();
    laws_of_code();
    laws_of_texts();
}

/// Where memory, the reader or the writer failed, the machine of a text's code goes from its first state, with the ticks used, to
/// a place where its report is cut to the bytes that the writer took. Where the writer failed the next instruction writes, and
/// not all that it writes is in these bytes: no second place is such. Where the reader failed the next instruction reads, and
/// what the reader gave does not settle what, whatever would come next: no second place is such either. Where memory failed it
/// says that there is such a place, and not which of several.
pub fn sessions_are_cut<R: FaultyRead, W: FaultyWrite>()
    ensures { (session : SessionSeen R W) (text : List ℕ) (code : Generated) (reader : R) (writer : W) (pieces : List ℕ) → IsCompiledTo text code → HasRun R.remaining R.faults W.contents W.faults code reader writer pieces session → HasBeenCut R.remaining W.contents text (last_stop (session_machine session).stopped) (session_machine session).used reader (session_reader session) writer (session_writer session) }
{
    laws_of_code();
    laws_of_texts();
}
