//! Two netlists made comparable: circuits are paired by name, circuits without a partner are
//! flattened into their callers, and what holds no device is dropped.
#![tactic(auto)]

mod below;
mod cut;
mod flatten;
mod held;
mod inline;
mod marks;
mod names;
mod numbers;
mod pair;
mod pairs;
mod partners;
mod side;
mod sights;
mod walk;

pub use pair::{Aligned, align, partner_of_top};
