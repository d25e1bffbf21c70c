//! Board time, and the number of steps.

ghost use Rattle.std.specs.Prelude.{◌≡◌, ◌+◌, ◌<◌, ◌≤◌, ◌^◌};
ghost use Rattle.wind_base.specs.Limits.{most_steps};

/// Board time, and the number of steps made.
#[derive(Clone, Copy, Debug, PartialEq, Eq)]
pub struct Clock {
    pub(crate) time: u128,
    pub(crate) steps: u64,
}

impl Clock {
    /// Board time before the first step.
    pub(crate) fn new() -> Clock
        ensures { result ≡ record { time = 0; steps = 0 } }
    {
        Clock { time: 0, steps: 0 }
    }

    /// Counts one step, which takes one unit of board time.
    pub(crate) fn step(&mut self)
        requires time { self.old.time < 2 ^ 65 }
        requires steps { self.old.steps < most_steps }
        ensures { self.new ≡ record { time = self.old.time + 1; steps = self.old.steps + 1 } }
    {
        self.time += 1;
        self.steps += 1;
    }

    /// Counts `n` steps. Each takes one unit of board time.
    pub(crate) fn advance(&mut self, n: u64)
        requires time { self.old.time < 2 ^ 65 }
        requires steps { self.old.steps + n ≤ most_steps }
        ensures { self.new ≡ record { time = self.old.time + n; steps = self.old.steps + n } }
    {
        self.time += u128::from(n);
        self.steps += n;
    }

    /// Counts an event: a step that takes no board time.
    pub(crate) fn event(&mut self)
        requires { self.old.steps < most_steps }
        ensures { self.new ≡ record self.old { steps = self.old.steps + 1 } }
    {
        self.steps += 1;
    }

    /// Counts a step that moves board time to `time`.
    pub(crate) fn jump(&mut self, time: u64)
        requires { self.old.steps < most_steps }
        ensures { self.new ≡ record { time = time; steps = self.old.steps + 1 } }
    {
        self.time = u128::from(time);
        self.steps += 1;
    }
}
