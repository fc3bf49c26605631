// The two records of which a host has one each: the current token, and the mutation authority. Each has its length, its constructors, its
// accessors, its decoder and its encoder; the numbers given back are those of `records`.
#![tactic(auto)]

pub mod current;
pub mod mutation;
