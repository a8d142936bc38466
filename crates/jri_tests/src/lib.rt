//! Tests of runs through public calls, for what the program `cases` does not show: devices that move few bytes and fail, several
//! workers at a gate, speculative reads, and calls of the library that it does not make.
#![tactic(auto)]

#[cfg(test)]
mod counting;
#[cfg(test)]
mod decoding;
#[cfg(test)]
mod devices;
#[cfg(test)]
mod gates;
#[cfg(test)]
mod library;
#[cfg(test)]
mod speculation;
#[cfg(test)]
mod words;
#[cfg(test)]
mod workers;
