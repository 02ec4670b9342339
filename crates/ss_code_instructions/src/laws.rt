//! Laws of the code of programs, and of runs.

ghost use Rattle.ss_code_instructions.specs.Laws.{CodeBehaves, JumpsLand, HasShape, ShapeStays, StatesSuit, NeverStuck, HasSize, HoldsFour, TicksAndCalls, StepsAreBounded, StepsGoOn, InPieces, Pauses, Prefixes, EndingsStay, OnTheWay, OneTickFewer};
ghost use Rattle.ss_code_instructions.specs.Reached.{ReachedFits, ReachedGoes, InputStays, StepsFall};

/// The code of each program comes, with each input and number of ticks, to the report, the ending and the ticks left
/// that the program means, and to nothing else. No well-typed program is stuck.
pub fn laws_of_meaning()
    ensures code_behaves { CodeBehaves }
    ensures never_stuck { NeverStuck }
{}

/// Each jump back leads to an instruction that takes a tick. The code of a well-typed program has shape, each step keeps
/// it, and so each state of a run suits its place. The code is as long as its size says. An instruction holds at most four numbers or
/// indices.
pub fn laws_of_code()
    ensures jumps_land { JumpsLand }
    ensures has_shape { HasShape }
    ensures shape_stays { ShapeStays }
    ensures states_suit { StatesSuit }
    ensures has_size { HasSize }
    ensures holds_four { HoldsFour }
{}

/// A step takes at most one tick; each call takes one, and each return undoes a call. After so many ticks there are at least as many
/// steps, and at most three times as many and four more for each instruction.
pub fn laws_of_steps()
    ensures ticks_and_calls { TicksAndCalls }
    ensures steps_are_bounded { StepsAreBounded }
{}

/// Ticks may be handed out in pieces; more ticks write what fewer wrote, and maybe more; and a run that ended otherwise
/// than for lack of ticks ends so with more of them. What a run has written on its way is a beginning of its report, and,
/// once all ticks are taken, goes on from the report of a tick fewer. A run pauses where its program means so.
pub fn laws_of_pieces()
    ensures steps_go_on { StepsGoOn }
    ensures pieces { InPieces }
    ensures pauses { Pauses }
    ensures prefixes { Prefixes }
    ensures endings_stay { EndingsStay }
    ensures on_the_way { OnTheWay }
    ensures one_tick_fewer { OneTickFewer }
{}

/// Whatever input is handed to a machine as it goes on, it finds at each place what the place says, and is never stuck. A READ
/// takes the next word from the input, and nothing else takes anything. Each step leaves less to do.
pub fn laws_of_reached()
    ensures reached_fits { ReachedFits }
    ensures reached_goes { ReachedGoes }
    ensures input_stays { InputStays }
    ensures steps_fall { StepsFall }
{}
