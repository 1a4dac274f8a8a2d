//! How many frames of a page have to be looked at.
//!
//! Whoever judges a page asks here first. Each animation is over at some moment, or goes on for ever and does the same again
//! after each of its cycles. [`needed`] gives the least frame by which all animations have settled, and the least number of
//! frames that is a whole number of cycles of each endless one. Its key clauses are that both are the definition's, that their
//! sum is at most 100,000, and that where no answer comes the sum is more. Windows that start below the sum are all that need
//! looking at: the clause `for_ever` says that a page is safe where none of them is bad, and that no window at all is surely, or
//! possibly, bad where none of them is. [`windows_repeat`] is the law that each window has the states of one of them, of each kind.
//! [`needed_of_layer`] gives the same of one layer's animations, and its clause `repeats` says that behind them the layer by itself does
//! what it did one period before; [`needed_of`] gives it of some layers, and [`Horizon::joined`] of two lots of animations together.
//!
//! Periods are joined as least common multiples, and given up as soon as they pass the limit, for they only grow. No memory
//! is taken. What is seen in those frames is not said here.
#![tactic(auto)]

mod cycles;
mod frames;
mod multiples;
mod periods;
mod repeats;
mod settling;
mod windows;

pub use frames::{Horizon, needed, needed_of, needed_of_layer};
pub use windows::windows_repeat;
