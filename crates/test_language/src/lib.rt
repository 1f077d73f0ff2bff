//! Tests of the language: macros beside whole numbers, and growths that are refused. It has no code of its own.
#![tactic(auto)]

#[cfg(test)]
mod growths;
#[cfg(test)]
mod macros;
