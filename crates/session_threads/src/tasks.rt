//! A task in a thread.
ghost use Rattle.std.specs.Prelude.{◌≡◌, IfErr, IfOk};

use std::thread::{Promise, PromisedHandle, Scope};

/// What a thread is to do. A closure can neither hold a gate whose value is of a type parameter nor hand back a pass of it; a task can.
pub(crate) trait Task {
    /// What comes of it.
    type Done;

    /// When it can be run.
    ghost can_run: { Self → Type 0 };

    /// What comes of it then.
    ghost gives: { Self → Self.Done → Type 0 };

    fn run(self) -> Self::Done
        requires { can_run self }
        ensures { gives self result };
}

/// Runs a task in a thread of the scope, with a promise that it keeps. Where no thread can be made it is run here, and is over.
pub(crate) fn spawn<'s, E, J: Task + Send + Drop + 's, P: Promise<J::Done> + Drop>(
    scope: &Scope<'s, E>,
    promise: P,
    task: J,
) -> Result<PromisedHandle<J::Done, P>, J::Done>
where
    J::Done: Send + Drop + 's,
    requires can { J.can_run task }
    requires keeps { (done : _) → J.gives task done → P.kept_by promise done }
    ensures thread { IfOk result (λ handle. handle.promise ≡ promise) }
    ensures here { IfErr result (λ done. P.kept_by promise done) }
{
    let run = move || -> J::Done
        requires { J.can_run task }
        ensures { J.gives task result }
    { task.run() };
    match scope.spawn_with(promise, run) {
        Ok(handle) => Ok(handle),
        Err(refused) => Err((refused.value)()),
    }
}
