ghost use Rattle.std.specs.Prelude.{◌≡◌, ◌<◌, ◌≤◌, IfSome};

/// What a reader or a writer over memory does at each of its calls.
#[derive(Clone, Copy, Debug, PartialEq, Eq)]
pub struct Plan {
    /// The most bytes that a call passes. 0 counts as 1.
    pub per_call: usize,
    /// No call before this one goes wrong. The first call is 1.
    pub from_call: u64,
    /// No call goes wrong before so many bytes were passed in all.
    pub after_bytes: usize,
    /// How many calls go wrong. After them all go well.
    pub times: u64,
}

impl Plan {
    /// At most so many bytes per call, and no call goes wrong.
    pub fn smooth(per_call: usize) -> Plan
        ensures { result ≡ record { per_call = per_call; from_call = 0; after_bytes = 0; times = 0 } }
    {
        Plan {
            per_call,
            from_call: 0,
            after_bytes: 0,
            times: 0,
        }
    }

    /// At most so many bytes per call, and from the call of this number on every call goes wrong.
    pub fn wrong_from_call(per_call: usize, from_call: u64) -> Plan
        ensures { result ≡ record { per_call = per_call; from_call = from_call; after_bytes = 0; times = u64.MAX } }
    {
        Plan {
            per_call,
            from_call,
            after_bytes: 0,
            times: u64::MAX,
        }
    }

    /// At most so many bytes per call, and once so many were passed in all every call goes wrong.
    pub fn wrong_after_bytes(per_call: usize, after_bytes: usize) -> Plan
        ensures { result ≡ record { per_call = per_call; from_call = 0; after_bytes = after_bytes; times = u64.MAX } }
    {
        Plan {
            per_call,
            from_call: 0,
            after_bytes,
            times: u64::MAX,
        }
    }
}

/// How far a reader or a writer has come with its plan.
#[derive(Clone, Copy, Debug, PartialEq, Eq)]
pub struct Progress {
    pub plan: Plan,
    /// How many calls were made.
    pub calls: u64,
    /// How many of them went wrong.
    pub wrong: u64,
}

impl Progress {
    ghost use Rattle.ss_base.specs.Plan.{start_of_plan, goes_wrong, most_bytes, bytes_passed, after_call};

    /// No call was made yet.
    pub fn new(plan: Plan) -> Progress
        ensures { result ≡ start_of_plan plan }
    {
        Progress {
            plan,
            calls: 0,
            wrong: 0,
        }
    }

    /// Records a call that could pass so many bytes, where `passed` were passed before it. It returns
    /// how many the call passes, or None where it goes wrong.
    pub fn next_call(&mut self, passed: usize, could: usize) -> Option<usize>
        ensures answer { result ≡ bytes_passed self.old passed could }
        ensures within { IfSome result (λ n. n ≤ could) }
        ensures some { IfSome result (λ n. n ≡ 0 → could ≡ 0) }
        ensures progress { self.new ≡ after_call self.old passed }
    {
        let is_wrong = self.goes_wrong(passed);
        self.calls = self.calls.saturating_add(1);
        if is_wrong {
            self.wrong = self.wrong.saturating_add(1);
            return None;
        }
        Some(could.min(self.most_bytes(passed)))
    }

    // Whether the next call goes wrong.
    fn goes_wrong(&self, passed: usize) -> bool
        ensures { result ≡ goes_wrong self.now passed }
    {
        self.wrong < self.plan.times
            && self.plan.from_call <= self.calls.saturating_add(1)
            && self.plan.after_bytes <= passed
    }

    // The most bytes that a call passes that goes well.
    fn most_bytes(&self, passed: usize) -> usize
        ensures value { result ≡ most_bytes self.now.plan passed }
        ensures some { 0 < result }
    {
        let most = self.plan.per_call.max(1);
        if passed < self.plan.after_bytes {
            most.min(self.plan.after_bytes - passed)
        } else {
            most
        }
    }
}
