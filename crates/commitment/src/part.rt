// A part of a message.
pub use vectors::part::Part;
