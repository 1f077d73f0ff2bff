//! Tests of the laboratory's library calls: what whole commands do not show; it has no code of its own.
#![tactic(auto)]

#[cfg(test)]
mod ends;
#[cfg(test)]
mod fronts;
#[cfg(test)]
mod growths;
#[cfg(test)]
mod pictures;
#[cfg(test)]
mod plots;
#[cfg(test)]
mod pngs;
#[cfg(test)]
mod texts;
#[cfg(test)]
mod watched;
