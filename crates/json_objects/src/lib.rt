//! `ObjectWriter`: writes an object, of JSON for one, member by member, and notes the first error. So a member is one call that returns
//! nothing, and who ends the object has the error.
#![tactic(auto)]

mod object_writer;

pub use object_writer::ObjectWriter;
