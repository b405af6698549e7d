//! Numbers in bytes: varints, zigzag and little-endian numbers, and the hybrid of equal and of packed values, read from
//! a cursor and written to a vector. It knows nothing of what the numbers are for.
#![tactic(auto)]

mod cursor;
mod fault;
mod hybrid;
mod hybrid_reader;
mod hybrid_writing;
mod laws;
mod run;
mod varint;
mod writing;

pub use cursor::Cursor;
pub use fault::ByteFault;
pub use hybrid::unpack;
pub use hybrid_reader::{HybridReader, hybrid_read, hybrid_test};
pub use hybrid_writing::hybrid_write;
pub use laws::{
    a_hybrid_is_read_where_it_stands, a_number_is_read_where_it_stands,
    little_endian_is_read_again, one_signed_number_in_front, one_varint_in_front,
    varint_is_read_again, varint_is_shortest, zigzag_is_read_again,
};
pub use run::{HybridError, Run};
pub use writing::{write_i32_le, write_i64_le, write_u32_le, write_varint, write_zigzag};
