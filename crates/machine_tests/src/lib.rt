//! Proved tests of instructions, processors, nodes, rounds and free workers, which no case of the built program can
//! show, by subject.
#![tactic(auto)]

#[cfg(test)]
mod alike;
#[cfg(test)]
mod boundaries;
#[cfg(test)]
mod encodings;
#[cfg(test)]
mod examples;
#[cfg(test)]
mod fault;
#[cfg(test)]
mod free;
#[cfg(test)]
mod gates;
#[cfg(test)]
mod node_copies;
#[cfg(test)]
mod processors;
#[cfg(test)]
mod random_code;
#[cfg(test)]
mod refusals;
#[cfg(test)]
mod rounds;
#[cfg(test)]
mod story;
#[cfg(test)]
mod texts;
#[cfg(test)]
mod threads;
#[cfg(test)]
mod workers;
