//! What no contract of a layer says: how streams are called, what calls cost, and that they succeed where memory is ample.
#![tactic(auto)]

#[cfg(test)]
mod counted;
#[cfg(test)]
mod events;
#[cfg(test)]
mod input;
#[cfg(test)]
mod lexer;
#[cfg(test)]
mod orders;
#[cfg(test)]
mod pictures;
#[cfg(test)]
mod records;
#[cfg(test)]
mod sinks;
