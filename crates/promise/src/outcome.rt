// What comes of it all.
use crate::parts::Reply;
use book::keeping::Book;
use find::{Found, Refusal};
use runs::ending::Walked;

// The book, the reply to each request, what the search answered, and the run, if the plan is dynamically good.
#[derive(Drop)]
pub struct Outcome {
    pub book: Book,
    pub replies: Vec<Reply>,
    pub found: Result<Found, Refusal>,
    pub run: Option<Walked>,
}
