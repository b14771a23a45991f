//! Tests of what no program can show: the words of a room that threads share, a simulator's turns and stops, gates that hold and
//! count workers, and calls that only the user of a library makes.
#![tactic(auto)]

#[cfg(test)]
mod calls;
#[cfg(test)]
mod fixture;
#[cfg(test)]
mod reductions;
#[cfg(test)]
mod shared;
#[cfg(test)]
mod stops;
#[cfg(test)]
mod workers;
