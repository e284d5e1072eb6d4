//! Room made and closed in a slice.
ghost use Rattle.std.specs.Prelude.{◌≡◌, ◌-◌, ◌≤◌, ◌++◌, length, take, drop};

/// Puts a group of values in front; the others move on, and as many at the end fall out.
pub(crate) fn enter<T: Copy>(xs: &mut [T], group: &[T])
    requires { length group.now ≤ length xs.old }
    ensures { xs.new ≡ group.now ++ take (length xs.old - length group.now) xs.old }
{
    xs.rotate_right(group.len());
    xs[..group.len()].copy_from_slice(group);
}

/// Takes a group of values away in front, as many as `blank` has; the others move back, and `blank` stands at the end.
pub(crate) fn remove<T: Copy>(xs: &mut [T], blank: &[T])
    requires { length blank.now ≤ length xs.old }
    ensures { xs.new ≡ drop (length blank.now) xs.old ++ blank.now }
{
    xs.rotate_left(blank.len());
    let rest = xs.len() - blank.len();
    xs[rest..].copy_from_slice(blank);
}
