//! Tests of the whole engine, of what no case over the built program shows: stores and sinks that
//! fail at each call, tools that meet, what tools are handed and what is taken from them, calls
//! that the program makes nowhere, the steps of a request that is over at once, and builds of
//! random sets whose events come in any order, each of which is compared with an account.
#![tactic(auto)]

#[cfg(test)]
mod account;
#[cfg(test)]
mod any_order;
#[cfg(test)]
mod calls;
#[cfg(test)]
mod folder;
#[cfg(test)]
mod orders;
#[cfg(test)]
mod random;
#[cfg(test)]
mod refusing;
#[cfg(test)]
mod removals;
#[cfg(test)]
mod repeats;
#[cfg(test)]
mod runs;
#[cfg(test)]
mod stores;
#[cfg(test)]
mod tools;
