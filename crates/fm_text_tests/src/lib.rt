//! Tests of the crates between a text and its plan: `fm_lex`, `fm_value`, `fm_parse`, `fm_names`,
//! `fm_rules`, `fm_outline`, `fm_check` and `fm_plan`, and of `fm_gen`.
//!
//! They use public calls alone, and stand above the crates that they test, so that the code of
//! those is not proved once more for them. There is nothing else here.
#![tactic(auto)]

#[cfg(test)]
mod check;
#[cfg(test)]
mod fault;
#[cfg(test)]
mod generate;
#[cfg(test)]
mod lex;
#[cfg(test)]
mod names;
#[cfg(test)]
mod outline;
#[cfg(test)]
mod parse;
#[cfg(test)]
mod plan;
#[cfg(test)]
mod same;
#[cfg(test)]
mod texts;
#[cfg(test)]
mod value;
#[cfg(test)]
mod version;
