//! Each public name, used from its crate as a caller would use it.
#![tactic(auto)]

#[cfg(test)]
mod engine;
#[cfg(test)]
mod layers;
#[cfg(test)]
mod outcomes;
#[cfg(test)]
mod records;
#[cfg(test)]
mod spellings;
#[cfg(test)]
mod stops;
#[cfg(test)]
mod streams;
#[cfg(test)]
mod texts;
