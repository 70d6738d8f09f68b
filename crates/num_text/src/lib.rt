//! Number texts, lines and fields: the parts that every text format of the optimizer shares.
#![tactic(auto)]

mod decimal;
mod lines;
mod number;
mod parts;
mod value;

pub use decimal::write_number;
pub use lines::{Lines, has_fields, is_blank, is_read, read_fields};
pub use number::{NumberError, read_number};
