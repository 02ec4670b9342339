//! Runs in pieces, with what is shown of them, and the tick that comes next.

ghost use Rattle.std.specs.Prelude.{◌≡◌, ℕ, ◌+◌, ◌^◌, ◌<◌, ◌≤◌, List, [], IfOk, IfSome, None};
ghost use Rattle.ss_code.specs.Running.{Generated};
ghost use Rattle.ss_engine.specs.Accepting.{IsCompiledTo};
ghost use Rattle.ss_engine.specs.Cuts.{HasBeenCut};
ghost use Rattle.ss_engine.specs.Headline.{IsSimulated};
ghost use Rattle.ss_engine.specs.Sessions.{CanGoOn, HasRun, session_machine, session_reader, session_writer};

use crate::guide::{Guide, Section, line_at, section_at};
use crate::looks::{class_of, instruction, living_count, time};
use crate::watches::{Watch, add_changes};
use explain_texts::Part::Bytes;
use explain_texts::{Made, Page, line_bytes, unindented};
use ss_base::{FaultyRead, FaultyWrite};
use ss_code_instructions::instruction::Instruction;
use ss_engine::session_laws::sessions_are_cut;
use ss_engine::{Session, Stop};
use ss_machine::Machine;
use std::io;
use std::io::Write;

/// The ticks that a run is given, and what is shown of it: a line for each tick, or for each event.
#[derive(Clone, Copy, Debug, PartialEq, Eq)]
pub struct Shown {
    pub count: u64,
    pub ticks: bool,
    pub events: bool,
}

impl Shown {
    // Whether there are lines for ticks or events.
    fn has_lines(self) -> bool {
        self.ticks || self.events
    }
}

/// Something to which a run reports from time to time how far it is.
pub trait Progress {
    /// The ticks used, TIME.V, and how many entities are alive.
    fn report(&mut self, used: u64, time: i64, living: u64);
}

/// The ticks of a piece where nothing is shown of each.
const PIECE: u64 = 100_000;

// The ticks of a piece: one where ticks or values are shown.
fn piece_of(shown: Shown, watches: &Vec<Watch>) -> u64 {
    if shown.has_lines() || !watches.is_empty() {
        1
    } else {
        PIECE
    }
}

// The ticks of the next piece. None where the run has stopped, or all its ticks are used.
fn next_piece<R: FaultyRead, W: FaultyWrite>(
    session: &Session<R, W>,
    stop: Stop,
    count: u64,
    piece: u64,
) -> Option<u64>
    ensures paused { IfSome result (λ ticks. stop ≡ Stop.Paused) }
    ensures some { IfSome result (λ ticks. 0 < ticks) }
    ensures within { IfSome result (λ ticks. (session_machine session.now).used + ticks ≤ count) }
    ensures fits { count < 2 ^ 64 }
    ensures over { result ≡ None → stop ≡ Stop.Paused → count ≤ (session_machine session.now).used }
{
    let left = count.saturating_sub(session.used());
    if stop == Stop::Paused && left > 0 {
        Some(piece.max(1).min(left))
    } else {
        None
    }
}

// Says how far a run is.
fn say_how_far<R: FaultyRead, W: FaultyWrite, P: Progress>(
    session: &Session<R, W>,
    progress: &mut P,
) {
    let machine = session.machine();
    progress.report(machine.used(), time(machine), living_count(machine));
}

// Shows what has another value than before.
fn show_changes<R: FaultyRead, W: FaultyWrite, O: Write>(
    guide: &Guide<'_>,
    session: &mut Session<R, W>,
    watches: &mut Vec<Watch>,
    output: &mut O,
) -> io::Result<()>
    ensures { session.new ≡ session.old }
{
    let mut page = Page::about(guide.alloc, guide.text);
    add_changes(&mut page, session, watches)?;
    output.write_all(page.bytes())
}

// Shows the tick that comes next, if it is to be shown.
fn show_tick<R: FaultyRead, W: FaultyWrite, O: Write>(
    guide: &Guide<'_>,
    session: &mut Session<R, W>,
    shown: Shown,
    output: &mut O,
) -> io::Result<()>
    ensures { session.new ≡ session.old }
{
    let tick = next_tick(session, guide);
    if !shown.ticks && !tick.is_event {
        return Ok(());
    }
    let mut page = Page::about(guide.alloc, guide.text);
    add_tick(&mut page, guide, session.used().saturating_add(1), tick)?;
    output.write_all(page.bytes())
}

// Shows what a session is after a run that stopped so: what has another value, and the tick that comes next, if one does.
fn show<R: FaultyRead, W: FaultyWrite, O: Write>(
    guide: &Guide<'_>,
    session: &mut Session<R, W>,
    shown: Shown,
    watches: &mut Vec<Watch>,
    output: &mut O,
    stop: Stop,
) -> io::Result<()>
    ensures { session.new ≡ session.old }
{
    show_changes(guide, session, watches, output)?;
    if !shown.has_lines() || stop != Stop::Paused || session.used() >= shown.count {
        return Ok(());
    }
    show_tick(guide, session, shown, output)
}

// Runs a session in pieces, and shows it after each.
fn run_pieces<R: FaultyRead, W: FaultyWrite, O: Write, P: Progress>(
    guide: &Guide<'_>,
    session: &mut Session<R, W>,
    shown: Shown,
    watches: &mut Vec<Watch>,
    output: &mut O,
    progress: &mut P,
) -> io::Result<Stop>
    ensures simulated { IfOk result (λ stop. (text : List ℕ) (code : Generated) (reader : R) (writer : W) → IsCompiledTo text code → CanGoOn session.old → HasRun R.remaining R.faults W.contents W.faults code reader writer [] session.old → IsSimulated R.remaining W.contents text stop (session_machine session.new).used reader (session_reader session.new) writer (session_writer session.new)) }
    ensures where_cut { IfOk result (λ stop. (text : List ℕ) (code : Generated) (reader : R) (writer : W) → IsCompiledTo text code → CanGoOn session.old → HasRun R.remaining R.faults W.contents W.faults code reader writer [] session.old → HasBeenCut R.remaining W.contents text stop (session_machine session.new).used reader (session_reader session.new) writer (session_writer session.new)) }
    ensures used { IfOk result (λ stop. CanGoOn session.old → (session_machine session.old).used ≡ 0 → (session_machine session.new).used ≤ shown.count) }
    ensures paused { IfOk result (λ stop. CanGoOn session.old → (session_machine session.old).used ≡ 0 → stop ≡ Stop.Paused → (session_machine session.new).used ≡ shown.count) }
{
    sessions_are_cut::<R, W>();
    let piece = piece_of(shown, watches);
    let mut stop = session.run(0);
    show(guide, session, shown, watches, output, stop)?;
    for _ in 0..shown.count {
        let Some(ticks) = next_piece(session, stop, shown.count, piece) else {
            break;
        };
        stop = session.run(ticks);
        say_how_far(session, progress);
        show(guide, session, shown, watches, output, stop)?;
    }
    Ok(stop)
}

/// Runs a session before its first run in pieces, and shows what each does: one tick after another where ticks or values are
/// shown. It answers why the run stopped.
///
/// The report and the ending are those of one run with all these ticks (`simulated`, `where_cut`): it is the same session, with as
/// many ticks. It pauses only where all ticks are used.
///
/// # Errors
/// That of the output, and where memory was refused for what is shown.
pub fn run_shown<R: FaultyRead, W: FaultyWrite, O: Write, P: Progress>(
    guide: &Guide<'_>,
    session: &mut Session<R, W>,
    shown: Shown,
    watches: &mut Vec<Watch>,
    output: &mut O,
    progress: &mut P,
) -> io::Result<Stop>
    ensures simulated { IfOk result (λ stop. (text : List ℕ) (code : Generated) (reader : R) (writer : W) → IsCompiledTo text code → CanGoOn session.old → HasRun R.remaining R.faults W.contents W.faults code reader writer [] session.old → IsSimulated R.remaining W.contents text stop (session_machine session.new).used reader (session_reader session.new) writer (session_writer session.new)) }
    ensures where_cut { IfOk result (λ stop. (text : List ℕ) (code : Generated) (reader : R) (writer : W) → IsCompiledTo text code → CanGoOn session.old → HasRun R.remaining R.faults W.contents W.faults code reader writer [] session.old → HasBeenCut R.remaining W.contents text stop (session_machine session.new).used reader (session_reader session.new) writer (session_writer session.new)) }
    ensures used { IfOk result (λ stop. CanGoOn session.old → (session_machine session.old).used ≡ 0 → (session_machine session.new).used ≤ shown.count) }
    ensures paused { IfOk result (λ stop. CanGoOn session.old → (session_machine session.old).used ≡ 0 → stop ≡ Stop.Paused → (session_machine session.new).used ≡ shown.count) }
{
    if shown.has_lines() {
        output.write_all(HEADS.as_bytes())?;
    }
    run_pieces(guide, session, shown, watches, output, progress)
}

/// A tick that comes next: the time, the section and the line, and whether an event begins by it.
#[derive(Clone, Copy, Debug, PartialEq, Eq)]
pub struct Tick {
    pub time: i64,
    pub section: Section,
    pub line: u32,
    pub is_event: bool,
}

// Whether the next instruction takes an event.
fn takes_event(machine: &Machine) -> bool {
    matches!(instruction(machine), Some(Instruction::TakeEvent { .. }))
}

// The event that comes next, as a tick, where one is taken.
fn event_tick<R: FaultyRead, W: FaultyWrite>(
    session: &mut Session<R, W>,
    guide: &Guide<'_>,
) -> Option<Tick>
    ensures { session.new ≡ session.old }
{
    if !takes_event(session.machine()) {
        return None;
    }
    let (time, notice) = session.upcoming()?;
    let rank = guide.rank_of(class_of(session.machine(), notice)?)?;
    Some(Tick {
        time,
        section: Section::Event(rank),
        line: guide.event_line(rank)?.0,
        is_event: true,
    })
}

// The tick that a machine takes at the instruction at which it is.
fn tick_here(machine: &Machine) -> Tick {
    let place = machine.here().place;
    Tick {
        time: time(machine),
        section: section_at(machine.code(), place),
        line: line_at(machine.code(), place),
        is_event: takes_event(machine),
    }
}

/// The tick that a session takes next. It has paused, or is before its first instruction.
pub fn next_tick<R: FaultyRead, W: FaultyWrite>(
    session: &mut Session<R, W>,
    guide: &Guide<'_>,
) -> Tick
    ensures { session.new ≡ session.old }
{
    match event_tick(session, guide) {
        Some(tick) => tick,
        None => tick_here(session.machine()),
    }
}

/// Adds the name of a section, as `EVENT ARRIVAL`.
pub fn add_section(page: &mut Page<'_>, guide: &Guide<'_>, section: Section) -> Made<()> {
    let word = match section {
        Section::Main => "MAIN",
        Section::Routine(_) => "ROUTINE ",
        Section::Event(_) => "EVENT ",
    };
    page.say(word, &[])?;
    match guide.section_name(section) {
        Some(name) => page.part(Bytes(name.bytes())),
        None => Ok(()),
    }
}

/// The heads of the columns of a trace.
const HEADS: &str = "    tick      time  section                line  text\n";

// Adds the line of a tick: its number from 1, the time, the section, the line and its text.
fn add_tick(page: &mut Page<'_>, guide: &Guide<'_>, number: u64, tick: Tick) -> Made<()> {
    page.padded(number, 8)?;
    page.repeat(b' ', 2)?;
    page.padded(tick.time.unsigned_abs(), 8)?;
    page.repeat(b' ', 2)?;
    let end = page.text.len().saturating_add(21);
    add_section(page, guide, tick.section)?;
    let gap = end.saturating_sub(page.text.len());
    page.repeat(b' ', gap)?;
    page.padded(u64::from(tick.line), 6)?;
    let text = unindented(line_bytes(guide.text, tick.line));
    page.line("  {}", &[Bytes(text)])
}
