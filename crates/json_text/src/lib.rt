//! JSON values that borrow their text, and rows of them.
#![tactic(auto)]

mod array;
mod error;
mod number;
mod reading;
mod rows;
mod value;

pub use array::ArrayText;
pub use error::TextError;
pub use reading::value_in;
pub use rows::JsonRows;
pub use value::{Named, Value, member_of, named};
