//! Tests of comparison that aren't rows of lvs_rows: small pairs decided by every map; the marks of
//! proposals for pairs that differ, and the page in words.
#![tactic(auto)]

#[cfg(test)]
mod builders;
#[cfg(test)]
mod fitting;
#[cfg(test)]
mod pages;
#[cfg(test)]
mod small;
