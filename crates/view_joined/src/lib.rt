//! What is drawn of circuits as they are aligned: of each that stands inside, what is drawn of it,
//! moved along the path of its calls.
#![tactic(auto)]

mod devices;
mod drawing;
mod laws;
mod moved;
mod nets;
mod spots;

pub use devices::joined_devices;
pub use drawing::joined_drawing;
pub use laws::joined_laws;
pub use moved::moved_area;
pub use nets::joined_nets;
pub use spots::{joined_calls, spot_motions};
