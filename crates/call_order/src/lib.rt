//! Numbers that call numbers, as circuits call circuits: an order in which each stands behind those
//! that it calls, or the first that calls itself, at once or through others.
//!
//! `specs/Order.antt` says what an order is; `specs/Walk.antt` what the walk keeps that finds one.
#![tactic(auto)]

mod order;
mod walk;

pub use order::{CallOrder, call_order, order_laws};
