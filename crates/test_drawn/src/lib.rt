//! Drawn debugger sessions beside a plain program, the order of their reads and writes, and growths that are refused in
//! one; it has no code of its own.
#![tactic(auto)]

#[cfg(test)]
mod asked;
#[cfg(test)]
mod draws;
#[cfg(test)]
mod growths;
#[cfg(test)]
mod images;
#[cfg(test)]
mod order;
#[cfg(test)]
mod plain;
#[cfg(test)]
mod sessions;
#[cfg(test)]
mod texts;
#[cfg(test)]
mod told;
