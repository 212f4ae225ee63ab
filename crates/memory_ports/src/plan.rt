// Calls that fail by plan, for the ends in memory.
ghost use Rattle.std.specs.Prelude.{◌≡◌, ◌↔◌, IsTrue};
ghost use Rattle.memory_ports.specs.Calls.{Calls, IsToFail, after_call, calls_to_make};

use std::marker::Model;

/// How many calls have been made, and the numbers of those that are to fail.
#[derive(Drop)]
pub(crate) struct Plan {
    failing: Vec<u64>,
    made: u64,
}

impl Model for Plan {
    ghost Value = { Calls };

    ghost view = { λ plan. record { made = plan.made; failing = plan.failing.items } };
}

impl Plan {
    /// The calls with these numbers fail, counted from 1.
    pub(crate) fn new(failing: Vec<u64>) -> Plan
        ensures { result ≡ calls_to_make failing.items }
    {
        Plan { failing, made: 0 }
    }

    /// Counts a call, and answers whether it is to fail.
    pub(crate) fn next_fails(&mut self) -> bool
        ensures planned { IsTrue result ↔ IsToFail self.old }
        ensures counted { self.new ≡ after_call self.old }
    {
        self.made = self.made.saturating_add(1);
        self.failing.contains(&self.made)
    }
}
