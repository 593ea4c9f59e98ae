//! The board of jobs: workers claim, work and publish the jobs of a phase without a lock.
#![tactic(auto)]

mod board;
mod close;
mod crew;
mod gate;
mod inputs;
mod layout;
mod open;
mod plays;
mod publish;
mod run;
mod seat;
mod tries;
mod view;
mod words;
mod work;

pub use board::Board;
pub use close::NotFull;
pub use crew::Crew;
pub use gate::{Gate, OpenGate};
pub use run::run_phase;
pub use seat::{BoardSeat, Claim, Look, Progress, Ready, Ticket};
