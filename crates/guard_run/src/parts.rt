//! The parts of a run.
ghost use Rattle.memory_map.specs.declared.TheConstants.{GRAIN, LEAST_RAM_KIB, MOST_RAM_KIB};
ghost use Rattle.std.specs.Prelude.{◌≡◌, ◌*◌, ◌%◌, ◌≤◌, IfOk, Some, length, slice_get};
ghost use Rattle.std.specs.List.{AllByRecursion, Contains};
ghost use Rattle.guard_run.specs.Jobs.{ArePlaces, IsRunnable, job_of};
ghost use Rattle.guard_run.specs.Openings.{IsOpened};
ghost use Rattle.guard_run.specs.Replicas.{AreFresh};
ghost use Rattle.machine_model.specs.Image.{IsLoadable};

use crate::{Replica, RunJob};
use elf_image::Image;
use in_script::Script;
use memory_map::NoMemory;
use run_events::Kind;
use run_settings::Kinds;
use rv_machine::Machine;
use std::alloc::Global;

/// The run of a job before its end: its recorder, its log, its replicas and its gate. Contracts see the job by `IsOpened`.
#[derive(Drop)]
pub struct Parts {
    pub(crate) run: turn_run::Parts<Machine, Replica>,
}

impl Parts {
    /// The run of a job before its first turn, of the guest of this image with this script and this disk file. It takes all
    /// the memory of the run, and no later call takes any.
    pub fn new(
        alloc: Global,
        job: &RunJob,
        image: &Image,
        script: Script,
        disk: Vec<u8>,
    ) -> Result<Parts, NoMemory>
        requires { IsRunnable (job_of job.now image.now script disk.items) }
        ensures { IfOk result (λ parts.
            IsOpened (job_of job.now image.now script disk.items) parts) }
    {
        let machine = Machine::new(alloc, image, script, disk, job.ram_kib, job.limit)?;
        let replicas = replicas_of(alloc, job, image)?;
        let required = required_of(alloc, job)?;
        Ok(Parts {
            run: turn_run::Parts::new(alloc, machine, replicas, required, job.cap)?,
        })
    }
}

// A replica for each of the chosen analyses, in their order.
fn replicas_of(alloc: Global, job: &RunJob, image: &Image) -> Result<Vec<Replica>, NoMemory>
    requires least { LEAST_RAM_KIB ≤ job.now.ram_kib }
    requires most { job.now.ram_kib ≤ MOST_RAM_KIB }
    requires loadable { IsLoadable (1024 * job.now.ram_kib) image.now.segments }
    requires aligned { image.now.entry % GRAIN ≡ 0 }
    ensures fresh { IfOk result (λ replicas.
        AreFresh image.now job.now.ram_kib job.now.kinds replicas.items) }
    ensures few { length job.now.kinds ≤ 5 }
{
    let mut replicas = Vec::with_capacity(alloc, job.kinds.len() as usize)?;
    for index in 0..job.kinds.len() {
        let replica = Replica::new(alloc, image, job.ram_kib, job.kinds.get(index))?;
        replicas.push(replica)?;
    }
    Ok(replicas)
}

// The places of the required ones among the chosen analyses.
fn required_of(alloc: Global, job: &RunJob) -> Result<Vec<u32>, NoMemory>
    requires { AllByRecursion (Contains job.now.kinds) job.now.required }
    ensures { IfOk result (λ places. ArePlaces job.now.kinds job.now.required places.items) }
{
    places_of(alloc, &job.kinds, &job.required)
}

// The places of some kinds among others.
fn places_of(alloc: Global, kinds: &Kinds, some: &Kinds) -> Result<Vec<u32>, NoMemory>
    requires { AllByRecursion (Contains kinds.now) some.now }
    ensures { IfOk result (λ places. ArePlaces kinds.now some.now places.items) }
{
    let mut places = Vec::with_capacity(alloc, some.len() as usize)?;
    for index in 0..some.len() {
        places.push(place_of(kinds, some.get(index)))?;
    }
    Ok(places)
}

// The place of a kind among others.
fn place_of(kinds: &Kinds, kind: Kind) -> u32
    requires { Contains kinds.now kind }
    ensures { slice_get kinds.now result ≡ Some kind }
{
    for place in 0..kinds.len() {
        if kinds.get(place) == kind {
            return place;
        }
    }
    unreachable!()
}
