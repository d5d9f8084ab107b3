//! Tests of scripts, from tokens and the texts of values to their check, and of whole runs with all that they say
//! and write. They stand in a crate of their own, since a crate with tests is proved twice.
#![tactic(auto)]

#[cfg(test)]
mod builtin;
#[cfg(test)]
mod captures;
#[cfg(test)]
mod case;
#[cfg(test)]
mod defaults;
#[cfg(test)]
mod failing;
#[cfg(test)]
mod files;
#[cfg(test)]
mod generated;
#[cfg(test)]
mod grammar;
#[cfg(test)]
mod lists;
#[cfg(test)]
mod loads;
#[cfg(test)]
mod logs;
#[cfg(test)]
mod many;
#[cfg(test)]
mod naming;
#[cfg(test)]
mod pieces;
#[cfg(test)]
mod right;
#[cfg(test)]
mod rules;
#[cfg(test)]
mod runs;
#[cfg(test)]
mod table;
#[cfg(test)]
mod text;
#[cfg(test)]
mod timers;
#[cfg(test)]
mod token;
#[cfg(test)]
mod typing;
#[cfg(test)]
mod using;
