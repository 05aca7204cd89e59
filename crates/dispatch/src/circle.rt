// The circle of the callers.
ghost use Rattle.std.specs.Prelude.{◌≡◌, ◌<◌};
ghost use Rattle.dispatch.specs.Circle.{one_past};
ghost use Rattle.dispatch.specs.Dispatch.{next_ready};

use crate::{CALLERS, Dispatcher};

// One past a caller.
pub(crate) fn one_past(caller: usize) -> usize
    requires { caller < 16 }
    ensures { result ≡ one_past caller }
{
    (caller + 1) % CALLERS
}

// The next caller in circle order who is ready.
pub(crate) fn next_ready(d: &Dispatcher) -> Option<usize>
    requires { d.now.position < 16 }
    ensures { result ≡ next_ready d.now }
{
    let mut caller = d.position;
    for _ in 0..CALLERS {
        if d.callers[caller].is_ready(d.budget) {
            return Some(caller);
        }
        caller = one_past(caller);
    }
    None
}
