//! Bytes in one buffer; the first of them may have left.
ghost use Rattle.std.specs.Prelude.{◌≡◌, ◌≤◌, ◌+◌, ◌*◌, ◌/◌, ◌-◌, ◌++◌, drop, length, vec_len, IfSome};
ghost use Rattle.std.specs.Vec.{vec_capacity};

/// Drops the first bytes, in the same memory.
pub(crate) fn drop_front(bytes: &mut Vec<u8>, count: usize)
    requires { count ≤ length bytes.old.items }
    ensures rest { bytes.new.items ≡ drop count bytes.old.items }
    ensures room { vec_capacity bytes.old ≤ vec_capacity bytes.new }
{
    let left = bytes.len() - count;
    bytes.as_mut_slice().rotate_left(count);
    bytes.truncate(left);
}

/// Appends bytes for which there is room.
pub(crate) fn append_within(bytes: &mut Vec<u8>, more: &[u8])
    requires { vec_len bytes.old + length more.now ≤ vec_capacity bytes.old }
    ensures all { bytes.new.items ≡ bytes.old.items ++ more.now }
    ensures room { vec_capacity bytes.old ≤ vec_capacity bytes.new }
{
    match bytes.extend_from_slice(more) {
        Ok(()) => {}
        Err(_) => unreachable!(),
    }
}

/// Makes the room behind the bytes at least so large, and says where those in use begin then. They
/// are moved only where the room behind them is too small, so after at least as many have left.
pub(crate) fn settle(bytes: &mut Vec<u8>, head: usize, count: usize) -> usize
    requires within { head ≤ length bytes.old.items }
    requires room { vec_len bytes.old - head + count ≤ vec_capacity bytes.old / 2 }
    ensures same { drop result bytes.new.items ≡ drop head bytes.old.items }
    ensures within { result ≤ length bytes.new.items }
    ensures room { vec_len bytes.new + count ≤ vec_capacity bytes.new }
    ensures capacity { vec_capacity bytes.old ≤ vec_capacity bytes.new }
    ensures left { vec_len bytes.new + head ≡ vec_len bytes.old + result }
{
    if bytes.capacity() - bytes.len() >= count {
        return head;
    }
    drop_front(bytes, head);
    0
}

/// The capacity of which so many bytes and so many more are one half, unless there is no such number.
pub(crate) fn wanted(used: usize, more: usize) -> Option<usize>
    ensures { IfSome result (λ n. n ≡ 2 * (used + more)) }
{
    let together = used.checked_add(more)?;
    together.checked_mul(2)
}
