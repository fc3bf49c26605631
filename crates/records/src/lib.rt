// The three records of a registered socket: its key, its entry, and the cookie value that holds both. Each is a `Record`, with its
// constructors, its accessors, its decoder and its encoder. Of the fence's other four records two are the crate `authority`; the
// configuration, which holds an endpoint, is the crate `config`, and the inspection, which holds three of the others, `inspection`.
//
// What is refused is refused by a `Refusal`: the bytes are not of the record's length; bytes or arguments break its rule; the record to
// encode is unsound; the output is shorter than the record. A refused encode leaves the output untouched.
#![tactic(auto)]

pub mod cookie_value;
pub mod entry;
pub mod key;
