//! Requests: what a line of a session asks for, and what that means over a graph.
//!
//! A line stands for a request, or for the word by which it is turned away; an operation for what it does to a graph,
//! or for its refusal. The layer knows the JSON tree of a line and, in its definitions, the graph as ordered lists; it
//! knows nothing of stamps, sessions or where a graph is kept.
#![tactic(auto)]

mod asking;
mod forms;
mod naming;
mod operation;
mod reading;
mod request;
mod saying;
mod shapes;
#[cfg(test)]
mod tests;
mod waiting;

pub use operation::{Action, End, Op};
pub use reading::read;
pub use request::{BadWord, Request, RequestFault};
pub use waiting::names_line;
