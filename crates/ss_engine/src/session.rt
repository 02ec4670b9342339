//! Sessions.

ghost use Rattle.std.specs.Prelude.{◌≡◌, ℕ, ◌+◌, ◌-◌, ◌^◌, ◌≤◌, List, [], ◌∷◌, ◌++◌, length, min, IfOk, Some};
ghost use Rattle.ss_base.specs.Failures.{HasRisen, HasRisenBy};
ghost use Rattle.ss_input.specs.Blocks.{IsEndKnown};
ghost use Rattle.ss_input.specs.Inputs.{source_block};
ghost use Rattle.ss_code.specs.Running.{Generated};
ghost use Rattle.ss_machine.specs.Held.{HasMemberCount, answer_again, kept_after, upcoming_event};
ghost use Rattle.ss_machine.specs.Runs.{IsRunResult};
ghost use Rattle.ss_engine.specs.Accepting.{IsCompiledTo};
ghost use Rattle.ss_engine.specs.Headline.{IsSimulated};
ghost use Rattle.ss_engine.specs.Sessions.{IsNewSession, CanGoOn, HasRun, last_stop, session_machine, session_reader, session_source, session_writer};

use crate::session_laws::sessions_are_meant;
use ss_base::{FaultyRead, FaultyWrite};
use ss_code::model::Model;
use ss_code_instructions::laws::laws_of_pieces;
use ss_machine::{Machine, Source, Stop};
use ss_picture::Sink;
use std::alloc::Global;

/// A model under way, the reader of its input and the writer of its report.
#[derive(Drop)]
pub struct Session<R, W> {
    machine: Machine,
    source: Source<R>,
    sink: Sink<W>,
}

impl<R: FaultyRead, W: FaultyWrite> Session<R, W> {
    /// A session before the first instruction of this model, which has not run yet. Where memory was
    /// refused, the reader and the writer come back as they were.
    pub fn start(alloc: Global, model: Model, reader: R, writer: W) -> Result<Session<R, W>, (R, W)>
        ensures ok { IfOk result (λ session. IsNewSession model reader writer session) }
        ensures has_run { IfOk result (λ session. HasRun R.remaining R.faults W.contents W.faults model reader writer [] session) }
        ensures err { (given : R × W) → result ≡ Err given → given ≡ (reader, writer) }
    {
        match Machine::new(alloc, model.into_code()) {
            Err(_) => Err((reader, writer)),
            Ok(machine) => Ok(Session {
                machine,
                source: Source::new(reader),
                sink: Sink::new(writer),
            }),
        }
    }

    /// Runs with so many ticks until the program ends, a fault, a pause or a failure, and says
    /// which. After `Paused` all ticks were used, up to 2^64 - 1 since the start, and a further run
    /// goes on.
    ///
    /// After `Ended` and `Fault` a further run answers the same, after `Memory`, `Output` and
    /// `Input` it answers `Failed`; it reads nothing, writes nothing and changes nothing.
    /// `Input` and `Output` come only where the reader's or the writer's count of failures rose in
    /// this run.
    ///
    /// What all runs of a session did, one after another, is what its text means for all their ticks (`meant`).
    pub fn run(&mut self, ticks: u64) -> Stop
        ensures again { (before : Stop) → (session_machine self.old).stopped ≡ Some before → (result ≡ answer_again before) × (self.new ≡ self.old) }
        ensures ran { CanGoOn self.old → IsRunResult R.remaining result (session_machine self.old).code (session_machine self.old).at (session_machine self.new).at (session_source self.old) (session_source self.new) (W.contents (session_writer self.old)) (W.contents (session_writer self.new)) ((session_machine self.new).used - (session_machine self.old).used) ((session_machine self.new).steps - (session_machine self.old).steps) }
        ensures has_run { (code : Generated) (reader : R) (writer : W) (pieces : List ℕ) → HasRun R.remaining R.faults W.contents W.faults code reader writer pieces self.old → HasRun R.remaining R.faults W.contents W.faults code reader writer (pieces ++ ticks ∷ []) self.new }
        ensures meant { (text : List ℕ) (code : Generated) (reader : R) (writer : W) (pieces : List ℕ) → IsCompiledTo text code → HasRun R.remaining R.faults W.contents W.faults code reader writer pieces self.old → IsSimulated R.remaining W.contents text (last_stop (session_machine self.new).stopped) (session_machine self.new).used reader (session_reader self.new) writer (session_writer self.new) }
        ensures goes_on { CanGoOn self.old → result ≡ Stop.Paused → CanGoOn self.new }
        ensures never_failed { CanGoOn self.old → result ≡ Stop.Failed → ⊥ }
        ensures stopped { CanGoOn self.old → (session_machine self.new).stopped ≡ kept_after result }
        ensures code { (session_machine self.new).code ≡ (session_machine self.old).code }
        ensures end { IsEndKnown R.remaining (source_block (session_source self.old)) → IsEndKnown R.remaining (source_block (session_source self.new)) }
        ensures used { ((session_machine self.old).used ≤ (session_machine self.new).used) × ((session_machine self.new).used ≤ (session_machine self.old).used + ticks) }
        ensures within { CanGoOn self.old → (session_machine self.new).used ≤ 2 ^ 64 - 1 }
        ensures paused { CanGoOn self.old → result ≡ Stop.Paused → (session_machine self.new).used ≡ min ((session_machine self.old).used + ticks) (2 ^ 64 - 1) }
        ensures output { CanGoOn self.old → result ≡ Stop.Output → HasRisen (W.faults (session_writer self.old)) (W.faults (session_writer self.new)) }
        ensures input { CanGoOn self.old → result ≡ Stop.Input → HasRisen (R.faults (session_reader self.old)) (R.faults (session_reader self.new)) }
        ensures steps { (session_machine self.old).steps ≤ (session_machine self.new).steps }
        ensures never_falls { HasRisenBy 0 (W.faults (session_writer self.old)) (W.faults (session_writer self.new)) }
        ensures read_never_falls { HasRisenBy 0 (R.faults (session_reader self.old)) (R.faults (session_reader self.new)) }
    {
        sessions_are_meant::<R, W>();
        // only a machine that has stopped has a source that missed something
        if self.machine.stopped().is_none() && self.source.missed().is_some() {
            return Stop::Failed;
        }
        laws_of_pieces();
        self.machine.run(ticks, &mut self.source, &mut self.sink)
    }

    /// The ticks used since the start.
    pub fn used(&self) -> u64
        ensures { result ≡ (session_machine self.now).used }
    {
        self.machine.used()
    }

    /// Its machine, as the last run left it.
    pub fn machine(&self) -> &Machine
        ensures { result.now ≡ session_machine self.now }
    {
        &self.machine
    }

    /// How many members the set of an owner has, 0 for THE SYSTEM. None where there is no such set or owner. Nothing changes.
    pub fn member_count(&mut self, set: usize, owner: i64) -> Option<i64>
        ensures count { HasMemberCount (session_machine self.old) set owner result }
        ensures same { self.new ≡ self.old }
    {
        self.machine.member_count(set, owner)
    }

    /// The time and the number of the notice that comes next, if one is pending. Nothing changes.
    pub fn upcoming(&mut self) -> Option<(i64, i64)>
        ensures next { result ≡ upcoming_event (session_machine self.old) }
        ensures same { self.new ≡ self.old }
    {
        self.machine.upcoming()
    }

    /// The reader of the input, as it is now.
    pub fn reader(&self) -> &R
        ensures { result.now ≡ session_reader self.now }
    {
        self.source.reader()
    }

    /// How many bytes of what the reader gave were not passed yet.
    pub fn unread(&self) -> usize
        ensures { result ≡ length (source_block (session_source self.now)).left }
    {
        self.source.unread()
    }

    /// The reader and the writer, after the last run.
    pub fn close(self) -> (R, W)
        ensures { result ≡ (session_reader self, session_writer self) }
    {
        let Session {
            machine,
            source,
            sink,
        } = self;
        machine.release();
        (source.into_inner(), sink.into_inner())
    }
}
