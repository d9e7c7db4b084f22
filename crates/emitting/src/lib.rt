// Writing core records: the emitter, the walk over a script table that it goes with, and expressions, read in prefix and written in postfix order.
#![tactic(auto)]

pub mod emitter;
pub mod expression;
pub mod walk;
