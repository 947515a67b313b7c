//! Tests of the public calls on words, orders, hosts, rows and tokens. They stand apart, since a crate with tests is proved twice.
#![tactic(auto)]

#[cfg(test)]
mod hosts;
#[cfg(test)]
mod orders;
#[cfg(test)]
mod points;
#[cfg(test)]
mod queries;
#[cfg(test)]
mod rows;
#[cfg(test)]
mod stages;
#[cfg(test)]
mod texts;
#[cfg(test)]
mod words;
