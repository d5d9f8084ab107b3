//! The rules of declarations.

pub mod bodies;
pub mod decls;
mod least;
mod listing;
mod uses;
