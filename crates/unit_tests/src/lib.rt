//! Tests of the parts with worked rows, outside values and ample memory. The base crates, exact
//! numbers and the outside; sets of unit squares, their Booleans and motions, fills, flat, kept and
//! local squares on small hierarchies, classes of links, and gates' shapes; layout streams, with the
//! generated chip, by lengths and checksums of texts that another program wrote; rule files with
//! their whole rule set.
#![tactic(auto)]

#[cfg(test)]
mod areas;
#[cfg(test)]
mod booleans;
#[cfg(test)]
mod boundaries;
#[cfg(test)]
mod broken;
#[cfg(test)]
mod common;
#[cfg(test)]
mod gates;
#[cfg(test)]
mod hierarchies;
#[cfg(test)]
mod lengths;
#[cfg(test)]
mod links;
#[cfg(test)]
mod made;
#[cfg(test)]
mod motions;
#[cfg(test)]
mod moves;
#[cfg(test)]
mod names;
#[cfg(test)]
mod near;
#[cfg(test)]
mod outlines;
#[cfg(test)]
mod outside;
#[cfg(test)]
mod paths;
#[cfg(test)]
mod reals;
#[cfg(test)]
mod records;
#[cfg(test)]
mod rule_faults;
#[cfg(test)]
mod rule_files;
#[cfg(test)]
mod rule_further;
#[cfg(test)]
mod rule_shown;
#[cfg(test)]
mod streams;
#[cfg(test)]
mod values;
#[cfg(test)]
mod words;
#[cfg(test)]
mod written;
