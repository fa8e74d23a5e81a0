//! The steps on the words, one function for each kind. Each is one atomic operation on one word. A grant that is handed in is one
//! that the CPU's record gets with the step.

mod counters;
mod grants;
mod inodes;
mod limits;
mod pages;
