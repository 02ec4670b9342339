ghost use Rattle.std.specs.Prelude.{◌≡◌, IfOk, OnOk, OnErr, All, IsTrue, ◌↔◌};

use crate::pending::Pending;
use ss_base::{FaultKind, Refused};
use ss_events_entries::entry::Key;
use ss_world::Tie;
use std::alloc::{AllocError, Global};

/// A call of an event list.
#[derive(Clone, Copy, Debug, PartialEq, Eq)]
pub enum Call<'a> {
    /// Schedules a notice at a time, in units, under the rank of its class and its ties.
    Schedule {
        time: i64,
        rank: usize,
        ties: &'a [Tie],
        notice: i64,
    },
    /// Cancels a notice.
    Cancel(i64),
    /// Asks what comes out next.
    Least,
    /// Takes out what comes next.
    Take,
}

/// What a call of an event list answered.
#[derive(Clone, Copy, Debug, PartialEq, Eq)]
pub enum Answer {
    Done,
    Faulted(FaultKind),
    /// The time and the notice that come out next, where one is pending.
    Next(Option<(i64, i64)>),
}

impl Pending {
    ghost use Rattle.ss_events.specs.Calls.{IsFittingCall, answer_of, list_after_call, answers_of, after_calls};

    /// Whether each key under which one of these calls schedules fits its class.
    pub fn fit(&self, calls: &[Call]) -> bool
        ensures { IsTrue result ↔ All (IsFittingCall self.now.list.classes) calls.now }
    {
        calls.iter().all(|call| self.fits_call(call))
    }

    fn fits_call(&self, call: &Call) -> bool
        ensures { IsTrue result ↔ IsFittingCall self.now.list.classes call.now }
    {
        match call {
            Call::Schedule { rank, ties, .. } => self.fits_class(*rank, ties),
            Call::Cancel(_) | Call::Least | Call::Take => true,
        }
    }

    /// Makes calls in turn, and answers what each answered. Where memory is refused, the calls before that one were
    /// made, and no other. What is counted then is that of the last call made.
    pub fn run(&mut self, alloc: Global, calls: &[Call]) -> Result<Vec<Answer>, AllocError>
        requires { All (IsFittingCall self.old.list.classes) calls.now }
        ensures answers { IfOk result (λ answers. answers.items ≡ answers_of calls.now self.old.list) }
        ensures list { OnOk result (self.new.list ≡ after_calls calls.now self.old.list) }
    {
        let mut answers = Vec::with_capacity(alloc, calls.len())?;
        for call in calls {
            answers.push(self.make(alloc, call)?)?;
        }
        Ok(answers)
    }

    // Makes one call.
    fn make(&mut self, alloc: Global, call: &Call) -> Result<Answer, AllocError>
        requires { IsFittingCall self.old.list.classes call.now }
        ensures answer { IfOk result (λ answer. answer ≡ answer_of call.now self.old.list) }
        ensures ok { OnOk result (self.new.list ≡ list_after_call call.now self.old.list) }
        ensures err { OnErr result (self.new.list ≡ self.old.list) }
    {
        match call {
            Call::Schedule {
                time,
                rank,
                ties,
                notice,
            } => {
                let key = Key::of(alloc, *time, *rank, ties)?;
                match self.schedule(key, *notice) {
                    Ok(()) => Ok(Answer::Done),
                    Err(Refused::Fault(kind)) => Ok(Answer::Faulted(kind)),
                    Err(Refused::Memory) => Err(AllocError),
                }
            }
            Call::Cancel(notice) => match self.cancel(*notice) {
                Ok(()) => Ok(Answer::Done),
                Err(kind) => Ok(Answer::Faulted(kind)),
            },
            Call::Least => Ok(Answer::Next(self.least())),
            Call::Take => Ok(Answer::Next(self.take())),
        }
    }
}
