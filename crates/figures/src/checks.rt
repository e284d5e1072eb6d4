//! What the figures share.
use std::fmt::Debug;
use std::process::Abort;

/// Checks what is answered at some numbers.
pub(crate) fn answers<R: PartialEq + Debug + Copy, F: Fn(u64) -> R>(
    rt: &impl Abort,
    of: F,
    expected: &[(u64, R)],
)
    requires { F.IsAlwaysCallable of }
{
    for (number, answer) in expected {
        assert_eq!(rt; of(*number), *answer);
    }
}
