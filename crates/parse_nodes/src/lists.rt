// Lists of phrases with commas between.

pub use parse_types::lists::commas_from;
