// Reading into a slice that is there.
#![tactic(auto)]

ghost use Rattle.std.specs.Prelude.{◌≡◌, ◌<◌, ◌≤◌, ℕ, IfOk, OnErr, length, take};
ghost use Rattle.std.specs.Io.{ReadsAtMost};
ghost use Rattle.std.specs.Io.KnownBytes.{Consumes, IsAtEnd, Keeps};

use std::io;
use std::io::{ErrorKind, Read};

// One read, and another where a signal interrupts it.
fn read_some<R: Read>(from: &mut R, bytes: &mut [u8]) -> io::Result<usize>
    ensures bound { ReadsAtMost result bytes.new }
    ensures taken { IfOk result (λ n. Consumes (R.remaining from.old) (R.remaining from.new) (take n bytes.new)) }
    ensures end { IfOk result (λ n. n ≡ 0 → 0 < length bytes.old → IsAtEnd (R.remaining from.new)) }
    ensures kept { OnErr result (Keeps (R.remaining from.old) (R.remaining from.new)) }
{
    for _ in 0..u64::MAX {
        match from.read(bytes) {
            Ok(n) => return Ok(n),
            Err(e) => {
                if e.kind() != ErrorKind::Interrupted {
                    return Err(e);
                }
            }
        }
    }
    Err(io::Error::from(ErrorKind::Interrupted))
}

// Reads until the slice is full or the input ends, and returns how many bytes it put at the slice's front. It asks for no byte beyond the slice. Where a
// read fails, what was read before it stands at the front.
pub fn read_full<R: Read>(from: &mut R, bytes: &mut [u8]) -> io::Result<usize>
    ensures bound { ReadsAtMost result bytes.new }
    ensures taken { IfOk result (λ n. Consumes (R.remaining from.old) (R.remaining from.new) (take n bytes.new)) }
    ensures end { IfOk result (λ n. n < length bytes.new → IsAtEnd (R.remaining from.new)) }
    ensures err { OnErr result ((n : ℕ) × (n ≤ length bytes.new) × Consumes (R.remaining from.old) (R.remaining from.new) (take n bytes.new)) }
{
    let mut done = 0;
    while done < bytes.len() {
        let n = read_some(from, &mut bytes[done..])?;
        if n == 0 {
            return Ok(done);
        }
        done += n;
    }
    Ok(done)
}
