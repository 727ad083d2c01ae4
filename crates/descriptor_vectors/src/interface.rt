//! The interface that callers rely on: each public item by its name, with its fields, cases,
//! arguments, results and derives, as a caller writes them. A changed name or type, or a lost derive,
//! doesn't compile here. What a call does is said elsewhere, and nothing runs.

mod allocator;
mod device;
mod frames;
mod lines;
mod manager;
mod session;

use std::fmt::Debug;
use std::hash::Hash;

fn is_debug<T: Debug>() {}

fn is_plain<T: Clone + Copy + Debug>() {}

fn is_compared<T: Debug + PartialEq + Eq>() {}

fn is_value<T: Clone + Copy + Debug + PartialEq + Eq>() {}

fn is_hashed_value<T: Clone + Copy + Debug + PartialEq + Eq + Hash>() {}
