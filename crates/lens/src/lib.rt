//! The archive: every function for other languages. A slice is a pointer and a length, 16 starts, the nodes of a chain and a number of bits are
//! pointers, and the answer is one number.
#![tactic(auto)]

mod answers;
mod checks;
mod explanations;
mod growths;
mod lookups;
mod plans;
mod sheet_texts;
mod sheets;
mod texts;
mod versions;

pub use answers::{lens_get, lens_put, lens_put_starts, lens_put_written};
pub use checks::lens_check_types;
pub use explanations::{lens_why_get, lens_why_put};
pub use growths::lens_growth;
pub use lookups::{lens_find, lens_load};
pub use plans::lens_check_plan;
pub use sheet_texts::{lens_print_sheet, lens_read_sheet};
pub use sheets::{lens_join, lens_number};
pub use texts::{lens_from_json, lens_to_json};
pub use versions::lens_version;
