//! The run that a forecast tells, as a definition, and its laws: it may make as many steps more as a replay each time that it has made all
//! that it may, and what it tells is forgotten as it goes.
#![tactic(auto)]

pub mod laws;
