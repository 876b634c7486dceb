//! Tests of what no clause says and no row can: what real files and the standard output do, that a writer which takes nothing has failed, and what
//! takes two threads: that workers run beside each other, that each passes the stage with no lock held, and that a search holds none. Two workers of
//! the whole program meet in `cases`.
//!
//! Tested: what real files and the standard output do; that a writer which takes nothing has failed; files and bytes in memory that never fail; that a
//! stage may hold a worker; two workers meet at the stage, two searches meet, two searches for slow lines meet, and where enough is detected from the
//! start nobody takes a class.
#![tactic(auto)]

#[cfg(test)]
mod beside;
#[cfg(test)]
mod gates;
#[cfg(test)]
mod meeting;
#[cfg(test)]
mod real;
#[cfg(test)]
mod runs;
#[cfg(test)]
mod slow_lines;
#[cfg(test)]
mod sure;
