//! Paths, refusals and limits of a file tree.
#![tactic(auto)]

mod laws;
mod left;
mod limits;
mod names;
mod parse;
mod path;
mod path_name;
mod path_text;
mod refusal;
mod stops;

pub use laws::{is_below_tells_proper_prefixes, parsed_names_are_names, pathnames_are_parsed};
pub use left::PathNames;
pub use limits::Limits;
pub use names::Names;
pub use path::Path;
pub use path_name::{NameRef, PathName};
pub use refusal::Refusal;
