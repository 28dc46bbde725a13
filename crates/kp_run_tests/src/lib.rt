//! Tests of `run` over ends in memory: worked inputs in any pieces, reads and writes that fail at each
//! call in turn, a buffer before the sink, live runs whose calls are held by a gate, and workers of
//! a replay that wait for each other. And tests of what no run of the built program shows: a hub
//! with one worker, packets beside a sync that waits, what gates hold, events that four feed and one
//! takes, published tables with two readers beside the publisher and with one who learns what it
//! tells, words of a seed, and calls that no run makes.
#![tactic(auto)]

#[cfg(test)]
mod beside;
#[cfg(test)]
mod calls;
#[cfg(test)]
mod draws;
#[cfg(test)]
mod ends;
#[cfg(test)]
mod faults;
#[cfg(test)]
mod feeding;
#[cfg(test)]
mod gates;
#[cfg(test)]
mod hubs;
#[cfg(test)]
mod inputs;
#[cfg(test)]
mod lines;
#[cfg(test)]
mod live;
#[cfg(test)]
mod pushing;
#[cfg(test)]
mod reading;
#[cfg(test)]
mod telling;
#[cfg(test)]
mod workers;
