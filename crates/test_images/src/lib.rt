//! Tests of images: damaged ones beside a plain reader, and machines that ran; it has no code of its own.
#![tactic(auto)]

#[cfg(test)]
mod again;
#[cfg(test)]
mod drawn;
#[cfg(test)]
mod growths;
#[cfg(test)]
mod hostile;
#[cfg(test)]
mod messages;
#[cfg(test)]
mod reader;
#[cfg(test)]
mod routes;
#[cfg(test)]
mod sent;
#[cfg(test)]
mod texts;
