//! Threads that are started, and that are refused.
ghost use Rattle.std.specs.Prelude.{◌≡◌, IfErr};

use std::sync::Wait;
use std::thread;
use std::thread::{Scope, Threads};

/// That a thread was refused. Only [`start`] and [`beside`] make one, where the system has just refused them a thread. So a
/// world counts no refusal but one that came.
#[derive(Debug, Drop)]
pub struct ThreadRefusal {
    seen: (),
}

/// A refusal, and the two closures that did not run.
#[derive(Drop)]
pub struct NotBegun<F, G> {
    /// That the thread was refused.
    pub refusal: ThreadRefusal,
    /// What was to run in it.
    pub there: F,
    /// What was to run here.
    pub here: G,
}

/// Starts a thread in a scope, where it is not refused. That is what std tells, of whose refusals its contract says nothing.
pub fn start<'s, E, F: FnOnce() -> T + Send + Drop + 's, T: Send + Drop + 's>(
    scope: &Scope<'s, E>,
    job: F,
) -> Result<(), ThreadRefusal>
    requires { F.pre job }
{
    match scope.spawn(job) {
        Ok(_handle) => Ok(()),
        Err(_refused) => Err(ThreadRefusal { seen: () }),
    }
}

/// Runs one closure in a thread of its own and the other one here, and waits for both. Where the thread is refused neither
/// runs.
pub fn beside<R: Threads + Wait, A: Send + Drop, B, F: FnOnce() -> A + Send, G: FnOnce() -> B>(
    rt: &R,
    there: F,
    here: G,
) -> Result<(A, B), NotBegun<F, G>>
    requires there { F.pre there }
    requires here { G.pre here }
    ensures there { IfErr result (λ refused. refused.there ≡ there) }
    ensures here { IfErr result (λ refused. refused.here ≡ here) }
{
    thread::scope(
        thread::scope_env(),
        rt,
        move |scope| -> Result<(A, B), NotBegun<F, G>>
            requires there { F.pre there }
            requires here { G.pre here }
            ensures there { IfErr result (λ refused. refused.there ≡ there) }
            ensures here { IfErr result (λ refused. refused.here ≡ here) }
        {
            match scope.spawn(there) {
                Ok(handle) => {
                    let done = here();
                    Ok((handle.join(rt), done))
                }
                Err(refused) => Err(NotBegun {
                    refusal: ThreadRefusal { seen: () },
                    there: refused.value,
                    here,
                }),
            }
        },
    )
}
