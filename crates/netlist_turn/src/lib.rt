//! Cards of netlists as netlisters write them, made cards of the profile, and what was changed.
#![tactic(auto)]

mod device;
mod fault;
mod laws;
mod listed;
mod listing;
mod made;
mod marked;
mod pins;
mod rows;
mod scale;
mod settings;
mod turn;
mod words;

pub use device::{Device, Key};
pub use fault::TurnFault;
pub use laws::{card_laws, device_laws, kept_laws, scale_laws};
pub use listed::kept_words;
pub use listing::device_of;
pub use made::{Kind, Told, Turned, Where};
pub use rows::{Row, is_list_word, is_option, is_param_word, row_of};
pub use scale::{push_micros, scale_of};
pub use settings::Settings;
pub use turn::turn_cards;
pub use words::{folded, is_params, is_pins_word, is_text, unquoted};
