// The sections of a text, and what its lines begin with.
pub use crate::lines::Head as Word;
pub use crate::state::Section;
