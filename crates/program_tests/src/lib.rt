//! Tests of the whole program over files in memory. It has no code of its own.
#![tactic(auto)]

#[cfg(test)]
mod creations;
#[cfg(test)]
mod devices;
#[cfg(test)]
mod image;
#[cfg(test)]
mod infos;
#[cfg(test)]
mod replay;
#[cfg(test)]
mod runs;
#[cfg(test)]
mod words;
