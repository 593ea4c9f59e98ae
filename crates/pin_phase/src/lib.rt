//! Pins and base names of the nets of each cell: its ports, as the cells that place it need them.
#![tactic(auto)]

mod bases;
mod corners;
mod lines;
mod links;
mod phase;
mod sets;
mod tags;
mod texts;
mod used;

pub use bases::base_name;
pub use corners::pieces_at;
pub use lines::{TextLine, global_names, text_lines};
pub use links::{Link, find_links};
pub use phase::PinPhase;
pub use sets::NetTags;
pub use tags::Tag;
pub use texts::{net_tags, tag_pieces};
