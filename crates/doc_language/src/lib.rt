//! What a document spells, or its first fault with its place: one definition of the language of documents. A law says
//! that the definitions by which the reader is proved (`doc_tree`) say the same.
#![tactic(auto)]

pub mod laws;
