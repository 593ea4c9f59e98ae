//! Tests of what a row of lvs_rows can't say: runs of which a call fails, over depots of other kinds,
//! with two workers at once, of chips that were made; and of a layout's way: streams that are read in
//! pieces, what windows find, and the phases from a stream and a rule file to nets, gates and pins.
#![tactic(auto)]

#[cfg(test)]
mod abreast;
#[cfg(test)]
mod commands;
#[cfg(test)]
mod depots;
#[cfg(test)]
mod failing;
#[cfg(test)]
mod gates;
#[cfg(test)]
mod inputs;
#[cfg(test)]
mod layouts;
#[cfg(test)]
mod listing;
#[cfg(test)]
mod made;
#[cfg(test)]
mod nets;
#[cfg(test)]
mod pins;
#[cfg(test)]
mod quiet;
#[cfg(test)]
mod reading;
#[cfg(test)]
mod windows;
