#![tactic(auto)]
// The bytes of sets of curves and of jobs: read and written.
mod fields; // fields.rt: the table of the head's fields
pub mod reading; // reading.rt: job bytes, read
pub mod set_bytes; // set_bytes.rt: a set of curves in bytes
pub mod writing; // writing.rt: job bytes, written

pub use reading::read_job;
pub use writing::write_job;
