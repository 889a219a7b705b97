// What a verdict answers. A no is an answer and no failure, so each is an enum with names that speak, a rule of the project:
// a yes as `Ok(None)` would say nothing.

// On a no, so many rules are a loop.
#[derive(Clone, Copy, Debug, PartialEq, Eq)]
pub enum StrongAnswer {
    Yes,
    No { length: usize },
}

// On a no, the lowest case that fails, and how many of its rules are a loop.
#[derive(Clone, Copy, Debug, PartialEq, Eq)]
pub enum WeakAnswer {
    Yes,
    No { case: u8, length: usize },
}

#[derive(Clone, Copy, Debug, PartialEq, Eq)]
pub enum DynamicAnswer {
    Yes,
    No,
}
