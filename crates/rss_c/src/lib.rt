//! A store for C, and for what calls C: it is made, opened, asked by the lines of a script, and closed.
//! It makes no call of the system: it hands out what a file is to do, step by step. `examples/c/rss.h`
//! declares the calls.
#![tactic(auto)]

mod counts;
mod ended;
mod exports;
mod handle;
mod kept;
mod open_store;
mod page;
mod parts;
mod step;
mod telling;
mod text;
