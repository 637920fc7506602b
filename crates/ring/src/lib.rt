// A lent buffer used as a ring (02, M-105): its bytes are read and written from a start on, and behind its last byte stands its first.
// No call copies in more than two parts. The start goes beside the buffer, since both are the caller's, lent for one call: a struct of them would be made and
// taken apart at each, and be no plainer.
#![tactic(auto)]

ghost use Rattle.std.specs.Prelude.{◌≡◌, ◌+◌, ◌≤◌, length, take, drop};
ghost use Rattle.lent.specs.Written.{written};
ghost use Rattle.ring.specs.Ring.{round_from, ring_written};

// Writes all of bytes into the ring, `at` bytes behind the start, and touches nothing else.
pub fn write_at(buffer: &mut [u8], start: usize, at: usize, bytes: &[u8])
    requires { (start ≤ length buffer.old) × (at + length bytes.now ≤ length buffer.old) }
    ensures { buffer.new ≡ ring_written buffer.old start at bytes.now }
{
    let near = buffer.len() - start; // from the start to the buffer's end
    if near <= at {
        lent::write_at(buffer, at - near, bytes);
        return;
    }
    let before = near - at; // from there to the buffer's end
    if bytes.len() <= before {
        lent::write_at(buffer, start + at, bytes);
        return;
    }
    lent::write_at(buffer, start + at, &bytes[..before]);
    lent::write_at(buffer, 0, &bytes[before..]);
}

// Copies n bytes of the ring, from `at` bytes behind the start on, into out at index to.
pub fn copy_out(buffer: &[u8], start: usize, at: usize, n: usize, out: &mut [u8], to: usize)
    requires { (start ≤ length buffer.now) × (at + n ≤ length buffer.now) × (to + n ≤ length out.old) }
    ensures { out.new ≡ written out.old to (take n (drop at (round_from start buffer.now))) }
{
    let near = buffer.len() - start;
    if near <= at {
        let from = at - near;
        lent::write_at(out, to, &buffer[from..from + n]);
        return;
    }
    let from = start + at;
    let before = near - at;
    if n <= before {
        lent::write_at(out, to, &buffer[from..from + n]);
        return;
    }
    lent::write_at(out, to, &buffer[from..]);
    lent::write_at(out, to + before, &buffer[..n - before]);
}
