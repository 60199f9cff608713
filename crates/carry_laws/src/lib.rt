//! The law of carrying over: the document of a batch's objects as they end is read as these objects.
#![tactic(auto)]

pub mod laws;
