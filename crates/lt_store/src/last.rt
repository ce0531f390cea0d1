//! The end of a stack.
ghost use Rattle.std.specs.Prelude.{◌≡◌, ◌≤◌, ◌++◌, [], ◌∷◌, length};

/// The last number, which is taken away.
pub(crate) fn take_last(stack: &mut Vec<usize>) -> usize
    requires { 1 ≤ length stack.old.items }
    ensures { stack.old.items ≡ stack.new.items ++ result ∷ [] }
{
    stack.pop().unwrap()
}
