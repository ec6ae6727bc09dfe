// May the next turn be taken? Own words come as a slice, as `step` takes them.
ghost use Rattle.std.specs.Prelude.{◌<◌, T};
ghost use Rattle.routes.specs.Machine.Acts.{MayDo};
ghost use Rattle.routes.specs.Machine.Cpus.{Ready};
ghost use Rattle.guard.specs.Steps.{GuardedStep};

use own::OwnWords;
use port::{asks, work_ok};
use routes::act::Act;
use routes::{Answer, Cpu, Memory};

// A memory that can tell whether it may be asked something.
pub trait Guard: Memory {
    fn may_do(&self, p: u32, a: Act) -> bool
        ensures { T result → MayDo (Self.Memory.mem self.now) p a };
}

// The same, of own words whose type says how many they are.
fn may_take<G: Guard>(w: &G, p: u32, cpu: &Cpu, own: &OwnWords) -> bool
    ensures { T result → Ready (G.Memory.mem w.now) p cpu.now own.now }
{
    p < 16 && work_ok(cpu.work, own) && w.may_do(p, asks(p, cpu.work, own))
}

// May processor p take its turn?
pub fn may_step<G: Guard>(w: &G, p: u32, cpu: &Cpu, own: &[u64]) -> bool
    ensures { T result → Ready (G.Memory.mem w.now) p cpu.now own.now }
{
    own.as_array().is_some_and(|own| may_take(w, p, cpu, own))
}

// The turn may not be taken: something would be touched that may not be.
#[derive(Clone, Copy)]
pub struct NotAllowed;

// One turn of processor p, if it may be taken.
pub fn guarded_step<G: Guard>(
    cpu: &mut Cpu,
    w: &mut G,
    p: u32,
    own: &mut [u64],
) -> Result<Option<Answer>, NotAllowed>
    ensures { GuardedStep p (G.Memory.mem w.old) cpu.old own.old result (G.Memory.mem w.new) cpu.new own.new }
{
    if !w.may_do(p, Act::Fence) || !may_step(w, p, cpu, own) {
        return Err(NotAllowed);
    }
    Ok(cpu.step(w, p, own))
}
