//! Scripts, their places, and statements performed.

mod fault;
mod performing;
mod place;
mod script;
mod statement;
