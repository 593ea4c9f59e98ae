//! Which calls on a memory object fail.

ghost use Rattle.std.specs.Prelude.{◌≡◌, ◌+◌, ◌-◌, ◌<◌, ◌^◌, if◌then◌else◌};
ghost use Rattle.lvs_outside.specs.Schedule.{next_calls, is_next_listed, faults_of};

// Calls are numbered from 1 up to this, and a later call has no number.
const LAST_NUMBER: u64 = u64::MAX - 1;

#[derive(Drop)]
pub struct Schedule {
    pub failing: Vec<u64>,
    pub calls: u64,
    pub refused: u64,
}

impl Schedule {
    // No call was made yet.
    pub fn new(failing: Vec<u64>) -> Schedule
        ensures failing { result.failing.items ≡ failing.items }
        ensures calls { result.calls ≡ 0 }
        ensures refused { result.refused ≡ 0 }
        ensures faults { faults_of result ≡ 0 }
    {
        Schedule {
            failing,
            calls: 0,
            refused: 0,
        }
    }

    // Counts a call and answers whether it is listed.
    pub fn reach(&mut self) -> bool
        ensures listed { result ≡ is_next_listed self.old }
        ensures failing { self.new.failing.items ≡ self.old.failing.items }
        ensures calls { self.new.calls ≡ next_calls self.old.calls }
        ensures refused { self.new.refused ≡ self.old.refused }
        ensures faults { faults_of self.new ≡ faults_of self.old + (if result then 1 else 0) }
    {
        if self.calls < LAST_NUMBER {
            self.calls += 1;
            self.failing.contains(&self.calls)
        } else {
            false
        }
    }

    // Counts a refused growth.
    pub fn refuse(&mut self)
        requires { self.old.refused < 2 ^ 64 - 1 }
        ensures failing { self.new.failing.items ≡ self.old.failing.items }
        ensures calls { self.new.calls ≡ self.old.calls }
        ensures refused { self.new.refused ≡ self.old.refused + 1 }
        ensures faults { faults_of self.new ≡ faults_of self.old + 1 }
    {
        self.refused += 1;
    }
}
