// Lists that are written over in place: a clone would want memory, and a call on a book wants none.
ghost use Rattle.std.specs.Prelude.{◌≡◌, ◌≤◌, length, vec_capacity};

// Makes a list hold what a slice holds, in the room that it has.
pub(crate) fn refill<T: Copy + Drop>(list: &mut Vec<T>, from: &[T])
    requires room { length from.now ≤ vec_capacity list.old }
    ensures items { list.new.items ≡ from.now }
    ensures capacity { vec_capacity list.old ≤ vec_capacity list.new }
{
    list.clear();
    list.extend_from_slice(from).unwrap()
}
