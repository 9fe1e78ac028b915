//! Which tuples fit a relation's fields, and how tuples and keys stand as bytes.
#![tactic(auto)]

mod codec;
mod cursor;
mod keys;
mod value_ref;
mod widths;

pub use codec::{decode, decode_into, encode, fits, spells};
pub use keys::{compare_keys, key, key_fits, key_from, least_key};
pub use value_ref::is_allowed_text;
pub use widths::{key_width, width};
