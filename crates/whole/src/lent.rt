// What is left in lent slices (document 01, "Refusal numbers"): "Room beyond what is needed is not touched."
ghost use Rattle.std.specs.Prelude.{◌≡◌, ◌≤◌, length};
ghost use Rattle.whole.specs.Lent.{over};

// Some values over the front of a slice. Inner: it has room.
pub fn copy_front<T: Copy>(from: &[T], to: &mut [T])
    requires { length from.now ≤ length to.old }
    ensures { to.new ≡ over from.now to.old }
{
    to[..from.len()].copy_from_slice(from);
}
