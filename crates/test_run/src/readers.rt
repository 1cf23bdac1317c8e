//! What readers see of the queues' progress, before hosts run, while they do, and behind that.

ghost use denote.Param.Send.{IsSync};
ghost use Rattle.std.specs.Prelude.{◌≡◌, IfOk, length};
ghost use Rattle.acc_host.specs.Hosts.{AreNumbered};
ghost use Rattle.acc_run.specs.Running.{Paired};

use crate::fixtures::{Open, config_of, entry_of};
use crate::runs::opened;
use acc_base::{DeviceId, Fault, HostId, Listed, QUEUES, QueueAt, QueueId};
use acc_host::{Act, Host, HostProgram, Statement};
use acc_place::Clause;
use acc_queue::Reader;
use acc_run::{HostToken, Runtime};
use std::alloc::Global;
use std::sync::Wait;
use std::sync::atomic::{AtomicBool, Ordering};
use std::test::Fail;
use std::thread;
use std::thread::{Scope, Threads};

// A host that enters its array on a queue of its own: `1` for the first host, `2` for the second.
fn program_of(alloc: Global, host: u8) -> Result<HostProgram, Fault>
    ensures { IfOk result (λ program. program.host ≡ host) }
{
    let directive = entry_of(alloc, Clause::Copyin, host, i64::from(host) + 1)?;
    let mut statements = Vec::new(alloc);
    let act = Act::Place { directive };
    statements.push(Statement { line: 0, act })?;
    Ok(HostProgram {
        host: HostId::new(host),
        statements: Listed::from_vec(statements),
    })
}

/// Both hosts.
#[tactic(auto, using(crate::proofs::NumberedPrograms::one_more))]
pub(crate) fn both_programs(alloc: Global) -> Result<Vec<HostProgram>, Fault>
    ensures numbered { IfOk result (λ programs. AreNumbered 0 programs.items) }
    ensures count { IfOk result (λ programs. length programs.items ≡ 2) }
{
    let mut programs = Vec::new(alloc);
    for host in 0..2u8 {
        programs.push(program_of(alloc, host)?)?;
    }
    Ok(programs)
}

// How many batches a reader sees that a queue of the first device has performed.
fn seen_on(reader: &mut Reader, number: u8) -> u64
    ensures { reader.new.table ≡ reader.old.table }
{
    let device = DeviceId::new(0);
    let queue = QueueId::new(number);
    if reader.has_queue(QueueAt { device, queue }) {
        reader.progress(QueueAt { device, queue })
    } else {
        u64::MAX
    }
}

// Whether a reader sees that queues `1` and `2` have performed so many batches, and each other queue so many.
fn sees(reader: &mut Reader, count: u64, other: u64) -> bool {
    for number in 0..QUEUES {
        let wanted = if number == 3 || number == 4 {
            count
        } else {
            other
        };
        if seen_on(reader, number) != wanted {
            return false;
        }
    }
    true
}

// Reads queue `1` again and again until the run is over, and tells where its number fell.
fn watch(mut reader: Reader, over: &AtomicBool, fell: &AtomicBool) {
    let mut last = 0u64;
    for _ in 0..u64::MAX {
        let seen = seen_on(&mut reader, 3);
        if seen < last {
            fell.store(true, Ordering::SeqCst);
        }
        if over.load(Ordering::SeqCst) {
            return;
        }
        last = seen;
        thread::yield_now();
    }
}

// Starts a thread that reads. Whether it could be started.
fn start_watch<'s, E>(
    scope: &Scope<'s, E>,
    reader: Reader,
    over: &'s AtomicBool,
    fell: &'s AtomicBool,
) -> bool {
    scope.spawn(move || watch(reader, over, fell)).is_ok()
}

// Runs the hosts, and beside them one more thread that reads. Whether it never saw a number fall, and all was performed.
fn run_watched<R: Threads + Wait + Sync>(
    rt: &R,
    alloc: Global,
    runtime: &Runtime,
    hosts: Vec<Host>,
    tokens: Vec<HostToken>,
    reader: Reader,
) -> Result<bool, Fault>
    requires { Paired hosts.items tokens.items }
{
    let ended = AtomicBool::new(false);
    let fallen = AtomicBool::new(false);
    let over = &ended;
    let fell = &fallen;
    let ran = thread::scope(
        thread::scope_env(),
        rt,
        move |scope| -> Result<bool, Fault>
            requires { IsSync R.row × Paired hosts.items tokens.items }
        {
            if !start_watch(scope, reader, over, fell) {
                return Err(Fault::Memory);
            }
            let ran = runtime.run(rt, alloc, &Open, hosts, tokens).is_ok();
            over.store(true, Ordering::SeqCst);
            Ok(ran)
        },
    )?;
    Ok(ran && !fallen.load(Ordering::SeqCst))
}

// Whether both readers see nothing before the run, and behind it each queue's batches with its close.
fn both_see_all<R: Threads + Wait + Sync>(rt: &R, alloc: Global) -> Result<bool, Fault> {
    let config = config_of(alloc, 1, 2, 64)?;
    let programs = both_programs(alloc)?;
    let (mut runtime, hosts, tokens) = opened(alloc, &config, programs)?;
    let Some(mut reader) = runtime.take_reader() else {
        return Ok(false);
    };
    let mut other = reader.split()?;
    let third = reader.split()?;
    let none = sees(&mut reader, 0, 0) && sees(&mut other, 0, 0);
    let rising = run_watched(rt, alloc, &runtime, hosts, tokens, third)?;
    let all = sees(&mut reader, 2, 1) && sees(&mut other, 2, 1);
    Ok(none && rising && all && runtime.take_reader().is_none())
}

#[test]
fn readers_see_what_queues_have_performed(rt: HostRuntime) -> Result<(), Fail> {
    assert!(rt; both_see_all(&rt, rt.alloc())?);
    Ok(())
}

// A reader that is split sixteen ways, each of which reads another queue, and joined again.
fn split_and_join(alloc: Global) -> Result<bool, Fault> {
    let config = config_of(alloc, 1, 0, 64)?;
    let (mut runtime, _) = Runtime::new(alloc, &config)?;
    let Some(mut reader) = runtime.take_reader() else {
        return Ok(false);
    };
    for number in 0..QUEUES {
        let mut part = reader.split()?;
        if seen_on(&mut part, number) != 0 {
            return Ok(false);
        }
        reader.join(part);
    }
    Ok(sees(&mut reader, 0, 0))
}

#[test]
fn a_reader_is_split_and_joined(rt: HostRuntime) -> Result<(), Fail> {
    assert!(rt; split_and_join(rt.alloc())?);
    Ok(())
}
