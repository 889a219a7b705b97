// Requests, one after another. The book and the lists stay parameters: the lists are a caller's, filled in part, and a struct that holds a
// `&mut` to one can keep no fact about it in its type.
ghost use Rattle.std.specs.Prelude.{◌≡◌, ◌≤◌, [], length, vec_len, vec_capacity};
ghost use Rattle.book.specs.Held.{held};
ghost use Rattle.promise.specs.Serving.{desk, Served, AllServed};

use crate::parts::{Reply, Request};
use book::keeping::Book;
use book::list::carry;
use rules::parts::Origin;
use verdicts::{dynamic, strong, weak};

// Serves one request.
fn serve(book: &mut Book, request: Request, minutes: &mut [i32], loops: &mut [Origin]) -> Reply
    ensures { Served (desk (held book.old) minutes.old loops.old) request result
        (desk (held book.new) minutes.new loops.new) }
{
    match request {
        Request::Book(call) => Reply::Book(carry(book, call)),
        Request::Strong => Reply::Strong(strong(book, minutes, loops)),
        Request::Weak => Reply::Weak(weak(book, minutes, loops)),
        Request::Dynamic => Reply::Dynamic(dynamic(book, minutes)),
    }
}

// Serves all requests, first to last, and puts the replies at the end of `replies`, where there is room for them.
pub(crate) fn serve_all(
    book: &mut Book,
    requests: &[Request],
    minutes: &mut [i32],
    loops: &mut [Origin],
    replies: &mut Vec<Reply>,
)
    requires empty { replies.old.items ≡ [] }
    requires room { length requests.now ≤ vec_capacity replies.old }
    ensures { AllServed (desk (held book.old) minutes.old loops.old) requests.now
        replies.new.items (desk (held book.new) minutes.new loops.new) }
{
    for asked in requests {
        replies.push_reserved(serve(book, *asked, minutes, loops));
    }
}
