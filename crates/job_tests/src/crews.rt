//! Two works of a crew.

use crate::gates::{Abreast, Visits};
use job_board::{Crew, Gate, OpenGate};

// Side by side where there are two workers: each work waits for the other one.
#[test]
fn two_works_meet(rt: HostRuntime) {
    let meeting = Abreast::new();
    let crew = Crew::new(&rt, 2, &OpenGate);
    let _ = crew.both(|| meeting.enter(1), || meeting.enter(2));
    let once = Visits {
        first: 1,
        second: 1,
        late: 0,
    };
    assert!(rt; meeting.visits() == once);
}
