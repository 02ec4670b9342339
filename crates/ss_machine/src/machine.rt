//! The machine that runs.

ghost use Rattle.std.specs.Prelude.{◌≡◌, ◌+◌, ◌-◌, ◌*◌, ◌^◌, ◌≤◌, min, length, IfOk, Ok, Some, None};
ghost use Rattle.ss_base.specs.Failures.{HasRisen, HasRisenBy};
ghost use Rattle.ss_input.specs.Blocks.{IsEndKnown};
ghost use Rattle.ss_input.specs.Inputs.{source_block, source_missed, source_reader};
ghost use Rattle.ss_machine.specs.Situations.{IsSituated};
ghost use Rattle.ss_machine.specs.Runs.{IsRunResult};
ghost use Rattle.ss_machine.specs.Held.{HasMemberCount, IsFirst, answer_again, kept_after, upcoming_event};

use crate::first::{first_place, first_state, release_state, stands_first};
use crate::looking::{count_in_state, upcoming_in_state};
use crate::running::run;
use crate::showing::Buffers;
use crate::stop::Stop;
use ss_base::{FaultyRead, FaultyWrite};
use ss_code::code::Code;
use ss_code_instructions::laws::laws_of_code;
use ss_input::Source;
use ss_machine_instructions::flow::Here;
use ss_machine_instructions::state::State;
use ss_picture::Sink;
use std::alloc::{AllocError, Global};
use std::marker::Model;

/// A machine that runs the code of a program.
///
/// A contract sees a machine as its code, what it works on, the ticks used and the steps made since its start, and why its
/// last run stopped, unless a further run goes on.
#[derive(Drop)]
pub struct Machine {
    code: Code,
    state: State,
    place: usize,
    frame: usize,
    buffers: Buffers,
    used: u64,
    stopped: Option<Stop>,
}

impl Model for Machine {
    ghost use Rattle.ss_machine.specs.Held.{Held, IsReady};

    ghost Value = { Held };

    ghost view = { λ m. record { code = m.code; at = record { here = record { place = m.place; frame = m.frame }; state = m.state }; used = m.used; steps = m.state.steps; stopped = m.stopped } };

    ghost invariant = { λ m. IsReady (record { code = m.code; at = record { here = record { place = m.place; frame = m.frame }; state = m.state }; used = m.used; steps = m.state.steps; stopped = m.stopped }) };
}

// The answer of a run after one that stopped so.
fn again(stop: Stop) -> Stop
    ensures { result ≡ answer_again stop }
{
    match stop {
        Stop::Memory | Stop::Output | Stop::Input => Stop::Failed,
        other => other,
    }
}

// Why a machine is stopped after a run that answered so; None where the next run goes on.
fn kept(stop: Stop) -> Option<Stop>
    ensures { result ≡ kept_after stop }
{
    match stop {
        Stop::Paused => None,
        other => Some(other),
    }
}

// A code, beside what was made for it, unless that failed.
fn beside(code: Code, next: Result<State, AllocError>) -> Result<(Code, State), AllocError>
    ensures { IfOk result (λ both. (both.0 ≡ code) × (next ≡ Ok both.1)) }
{
    match next {
        Ok(next) => Ok((code, next)),
        Err(e) => {
            code.release();
            Err(e)
        }
    }
}

impl Machine {
    /// A machine before the first instruction of this code: no entity, nothing pending, at the time 0, with the histories of
    /// THE SYSTEM's statistics begun. The error comes where memory was refused.
    pub fn new(alloc: Global, code: Code) -> Result<Machine, AllocError>
        ensures { IfOk result (λ machine. IsFirst code machine) }
    {
        laws_of_code();
        let _made = code.len();
        let first = first_state(alloc, &code);
        let (code, state) = beside(code, first)?;
        stands_first(&code, &state);
        let (place, frame) = first_place(&code);
        Ok(Machine {
            code,
            state,
            place,
            frame,
            buffers: Buffers::new(alloc),
            used: 0,
            stopped: None,
        })
    }

    /// Runs with so many ticks, the input of this source and this way out, until the program ends, or
    /// until a fault, a pause or a failure, and says which.
    ///
    /// The source must have missed nothing, where the machine has not stopped. READ takes the next word of it, and a test
    /// whether data is ended looks for one and takes none; how far the source reads ahead is its own affair. Each line goes
    /// out as it is filled. Any source will do, in each run: what is read of it is the input from there on. So a machine that is
    /// new or has paused never answers `Failed`. After a pause the source of the run before goes on with the same input.
    ///
    /// After `Paused` all ticks were used, up to 2^64 - 1 since the start, and a further run goes on; the
    /// source may be used again. After `Ended` and `Fault` a further run answers the same, after
    /// `Memory`, `Output` and `Input` it answers `Failed`; it reads nothing, writes nothing and changes
    /// nothing.
    ///
    /// `Memory` comes only where memory was refused, `Output` only where the current instruction writes and
    /// the writer's count of failures rose in this run, and `Input` only where the current instruction reads
    /// or tests its input and the reader's count did. What was written by then is the beginning of the
    /// report: at least what is written before the last tick used, and no more than what is written before
    /// the next. After `Output` not all that the current instruction writes went out. After `Input` the bytes
    /// that were read do not settle what the current instruction reads, and no end of the input was met.
    pub fn run<R: FaultyRead, W: FaultyWrite>(
        &mut self,
        ticks: u64,
        source: &mut Source<R>,
        sink: &mut Sink<W>,
    ) -> Stop
        requires { self.old.stopped ≡ None → source_missed source.old ≡ None }
        ensures again { (before : Stop) → self.old.stopped ≡ Some before → (result ≡ answer_again before) × (self.new ≡ self.old) × (source.new ≡ source.old) × (sink.new ≡ sink.old) }
        ensures ran { self.old.stopped ≡ None → IsRunResult R.remaining result self.old.code self.old.at self.new.at source.old source.new (W.contents sink.old.writer) (W.contents sink.new.writer) (self.new.used - self.old.used) (self.new.steps - self.old.steps) }
        ensures code { self.new.code ≡ self.old.code }
        ensures situated { self.new.stopped ≡ None → IsSituated self.new.code self.new.at }
        ensures stopped { self.old.stopped ≡ None → self.new.stopped ≡ kept_after result }
        ensures used { (self.old.used ≤ self.new.used) × (self.new.used ≤ self.old.used + ticks) }
        ensures within { self.old.stopped ≡ None → self.new.used ≤ 2 ^ 64 - 1 }
        ensures paused { self.old.stopped ≡ None → result ≡ Stop.Paused → self.new.used ≡ min (self.old.used + ticks) (2 ^ 64 - 1) }
        ensures never_failed { self.old.stopped ≡ None → result ≡ Stop.Failed → ⊥ }
        ensures unmissed { self.old.stopped ≡ None → result ≡ Stop.Paused → source_missed source.new ≡ None }
        ensures steps { self.old.steps ≤ self.new.steps }
        ensures least { self.new.used ≤ self.new.steps }
        ensures most { self.new.steps ≤ (3 * self.new.used + 4) * length self.new.code.run.instructions }
        ensures output { self.old.stopped ≡ None → result ≡ Stop.Output → HasRisen (W.faults sink.old.writer) (W.faults sink.new.writer) }
        ensures input { self.old.stopped ≡ None → result ≡ Stop.Input → HasRisen (R.faults (source_reader source.old)) (R.faults (source_reader source.new)) }
        ensures never_falls { HasRisenBy 0 (W.faults sink.old.writer) (W.faults sink.new.writer) }
        ensures read_never_falls { HasRisenBy 0 (R.faults (source_reader source.old)) (R.faults (source_reader source.new)) }
        ensures end { IsEndKnown R.remaining (source_block source.old) → IsEndKnown R.remaining (source_block source.new) }
    {
        if let Some(stop) = self.stopped {
            return again(stop);
        }
        let last = self.used.saturating_add(ticks);
        let from = Here {
            place: self.place,
            frame: self.frame,
        };
        self.state.ticks = last - self.used;
        let rest = run(
            &self.code,
            &mut self.state,
            &mut self.buffers,
            from,
            source,
            sink,
        );
        self.place = rest.here.place;
        self.frame = rest.here.frame;
        self.used = last - self.state.ticks;
        self.stopped = kept(rest.stop);
        rest.stop
    }

    /// Gives its memory back. To drop it in line does the same.
    pub fn release(self) {
        let Machine { code, state, .. } = self;
        code.release();
        release_state(state);
    }

    /// The code that it runs.
    pub fn code(&self) -> &Code
        ensures { result.now ≡ self.now.code }
    {
        &self.code
    }

    /// Where it is: before its first instruction, or at the one at which the last run rested.
    pub fn here(&self) -> Here
        ensures { result ≡ self.now.at.here }
    {
        Here {
            place: self.place,
            frame: self.frame,
        }
    }

    /// What it works on, as the last run left it.
    pub fn state(&self) -> &State
        ensures { result.now ≡ self.now.at.state }
    {
        &self.state
    }

    /// How many members the set of an owner has, 0 for THE SYSTEM. None where there is no such set or owner. Nothing changes.
    pub fn member_count(&mut self, set: usize, owner: i64) -> Option<i64>
        ensures count { HasMemberCount self.old set owner result }
        ensures same { self.new ≡ self.old }
    {
        count_in_state(&mut self.state, set, owner)
    }

    /// The time and the number of the notice that comes next, if one is pending. Nothing changes.
    pub fn upcoming(&mut self) -> Option<(i64, i64)>
        ensures next { result ≡ upcoming_event self.old }
        ensures same { self.new ≡ self.old }
    {
        upcoming_in_state(&mut self.state)
    }

    /// Why the last run stopped; None where a further run goes on.
    pub fn stopped(&self) -> Option<Stop>
        ensures { result ≡ self.now.stopped }
    {
        self.stopped
    }

    /// The ticks used since the start.
    pub fn used(&self) -> u64
        ensures { result ≡ self.now.used }
    {
        self.used
    }

    /// The steps made since the start: each instruction that was carried out, the one that ended the
    /// program and the one that came to a fault among them. A pause is no step, nor is an instruction
    /// that ran out of memory or failed at its reader or writer. The count is exact at an end, a fault and a
    /// pause, after `Output` where the bytes that the writer took are known, and after `Input` where those
    /// that the reader gave are known.
    ///
    /// After u ticks there are at least u, and at most 3u + 4 times as many as there are instructions.
    pub fn steps(&self) -> u128
        ensures value { result ≡ self.now.steps }
        ensures least { self.now.used ≤ result }
        ensures most { result ≤ (3 * self.now.used + 4) * length self.now.code.run.instructions }
    {
        self.state.steps
    }
}
