// Bytes written into a lent buffer from a place on: what stands before and behind them stays. The listing, the proof lines and the tree use it.
// Stays: buffer and place go in and the next place comes out, because a struct that holds the `&mut` owes in each function that it holds it still, and is
// no plainer.
#![tactic(auto)]

ghost use Rattle.std.specs.Prelude.{◌+◌, ◌≤◌, length};
ghost use Rattle.write_bytes.specs.Wrote.{Wrote};

// The bytes as they are.
pub fn put(out: &mut [u8], at: usize, bytes: &[u8]) -> usize
    requires { at + length bytes.now ≤ length out.old }
    ensures { Wrote out.old out.new at bytes.now result }
{
    let next = at + bytes.len();
    out[at..next].copy_from_slice(bytes);
    next
}
