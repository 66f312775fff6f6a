// The rows of a form, as the order desk types them: pieces are rows of four numbers, links rows of three. Each is
// judged as the reader judges its record, and put as that record. Every number is wider than its field in the file, so
// that one too large for its field is refused and never cut.
#![tactic(auto)]

pub mod kinds;
pub mod row;
pub mod rows;
