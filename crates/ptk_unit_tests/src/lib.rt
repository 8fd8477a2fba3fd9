#![tactic(auto)]

//! Tests of single crates by their public names: of instructions carried out, window plans, traces, ready threads,
//! mutexes and condition variables, of all that a boot makes, of configurations, and of the command line.
//!
//! Each call that may run out of memory is made once, with ample memory; both forms of the line of ready threads run
//! beside each other; mutexes and condition variables are made and used in a roster in which nobody waits; worked words
//! and traces are compared byte for byte. They are apart, so that those crates are proved once and not a second time with
//! their tests. What the other calls do, their clauses say, and the worked rows of whole runs show. There is no other
//! code here, and nothing is above.

#[cfg(test)]
mod clock;
#[cfg(test)]
mod config;
#[cfg(test)]
mod main_line;
#[cfg(test)]
mod mutexes;
#[cfg(test)]
mod partitions;
#[cfg(test)]
mod ready_lines;
#[cfg(test)]
mod steps;
#[cfg(test)]
mod trace;
#[cfg(test)]
mod window;
