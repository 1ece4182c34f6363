//! How many fences come before an armed cut.
ghost use Rattle.std.specs.Prelude.{◌≡◌, true};
ghost use Rattle.bz_qsched.specs.Fuses.{lets as may_be_made, burnt};

/// Whether an act may be made: it is no fence, or not the one at which the power is cut.
pub(crate) fn lets(fuse: Option<u32>, fence: bool) -> bool
    ensures { result ≡ may_be_made fuse fence }
{
    match fuse {
        Some(0) => !fence,
        _ => true,
    }
}

/// An act was made: where it was a fence, one fewer is made before the cut.
pub(crate) fn burn(fuse: &mut Option<u32>, fence: bool)
    requires { may_be_made fuse.old fence ≡ true }
    ensures { fuse.new ≡ burnt fence fuse.old }
{
    if fence {
        if let Some(left) = *fuse {
            *fuse = Some(left - 1);
        }
    }
}
