//! A store of objects: a finite map from names to bytes in which a name is put at most once.
//!
//! `Store` is what a table's folder is to the code above: it lists names, gets an object's bytes, and puts an object
//! under a name that isn't there yet, as the Delta protocol asks of a log's commits (PROTOCOL.md, "Delta Log Entries").
//! Its contract holds of a store that loses calls too. `MemoryStore` is a store that loses none, and `Flaky` one over
//! another that loses, delays and repeats calls as it is told to.
#![tactic(auto)]

mod fault;
mod flaky;
mod laws;
mod listing;
mod memory;
mod names;
mod naming;
mod store;

pub use fault::StoreFault;
pub use flaky::{Flaky, Turn};
pub use laws::{
    a_name_is_listed_where_it_stands, a_put_keeps_the_order, a_put_leaves_the_others,
    a_put_lists_its_name, a_put_stands, a_second_put_changes_nothing,
    the_same_under_each_name_is_the_same, what_stands_stays,
};
pub use memory::MemoryStore;
pub use names::Names;
pub use naming::{
    GREATEST_VERSION, commit_name, commit_version, has_version, is_commit, version_in,
};
pub use store::{Put, Store};
