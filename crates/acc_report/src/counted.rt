//! How many operations each queue has performed, and how many of it were discarded, its close apart.

ghost use Rattle.std.specs.Prelude.{◌≡◌, [], reverse, IfOk, OnOk};
ghost use Rattle.acc_base.specs.Faults.{OnlyMemory};
ghost use Rattle.acc_host.specs.Discards.{discarded_on};
ghost use Rattle.acc_report.specs.Reports.{left_after};
ghost use Rattle.acc_report.specs.inner.Counting.{AreCounted, IsCounted, counted_behind, counted_with, one_counted};
ghost use Rattle.acc_work.specs.Logs.{performed};

use crate::remains::Run;
use acc_base::{Config, Fault, QUEUES, QueueAt};
use acc_batch::OpLabel;
use acc_host::Discarded;
use acc_work::{WorkEntry, WorkLog};
use std::alloc::Global;

/// For each queue, by device, then in queue order, how many operations it has performed, and how many of it were discarded.
#[derive(Drop)]
pub(crate) struct Counted {
    pub(crate) performed: Vec<u64>,
    pub(crate) discarded: Vec<u64>,
}

/// Counts what is left of a run.
///
/// # Errors
///
/// `Memory` where memory is refused.
pub(crate) fn count_run(alloc: Global, run: &Run) -> Result<Counted, Fault>
    ensures counted { IfOk result (λ counted. IsCounted (left_after run.now) counted) }
    ensures fault { OnlyMemory result }
{
    let config = run.place.config();
    let performed = count_performed(alloc, config, run.works)?;
    let discarded = count_discarded(alloc, config, run.discarded)?;
    Ok(Counted {
        performed,
        discarded,
    })
}

// How many operations each queue has performed.
#[tactic(auto, using(crate::proofs::CountedQueues::entry_counted))]
fn count_performed(alloc: Global, config: &Config, works: &WorkLog) -> Result<Vec<u64>, Fault>
    ensures counted { IfOk result (λ counts.
        AreCounted config.now.devices (λ at. performed at (reverse works.now.items)) counts.items) }
    ensures fault { OnlyMemory result }
{
    let mut counts = no_counts(alloc, config)?;
    for entry in works.iter() {
        count_entry(counts.as_mut_slice(), entry)?;
    }
    Ok(counts)
}

// How many of the operations of each queue were discarded.
#[tactic(auto, using(crate::proofs::CountedQueues::discard_counted))]
fn count_discarded(alloc: Global, config: &Config, list: &[Discarded]) -> Result<Vec<u64>, Fault>
    ensures counted { IfOk result (λ counts.
        AreCounted config.now.devices (λ at. discarded_on at list.now) counts.items) }
    ensures fault { OnlyMemory result }
{
    let mut counts = no_counts(alloc, config)?;
    for entry in list {
        count(counts.as_mut_slice(), &entry.at, &entry.what)?;
    }
    Ok(counts)
}

// No operation of each queue.
fn no_counts(alloc: Global, config: &Config) -> Result<Vec<u64>, Fault>
    ensures counted { IfOk result (λ counts.
        AreCounted config.now.devices (λ at. []) counts.items) }
    ensures fault { OnlyMemory result }
{
    let mut counts = Vec::new(alloc);
    counts.resize(usize::from(config.queue_count()), 0u64)?;
    Ok(counts)
}

// Counts an entry of the work log.
fn count_entry(counts: &mut [u64], entry: &WorkEntry) -> Result<(), Fault>
    ensures counted { OnOk result (counts.new ≡ counted_with entry.now counts.old) }
    ensures fault { OnlyMemory result }
{
    match entry {
        WorkEntry::Op { at, what } => count(counts, at, what),
        WorkEntry::Item { .. } => Ok(()),
    }
}

// Counts an operation of a queue, unless it is its close.
fn count(counts: &mut [u64], at: &QueueAt, what: &OpLabel) -> Result<(), Fault>
    ensures counted { OnOk result (counts.new ≡ counted_behind at.now what.now counts.old) }
    ensures fault { OnlyMemory result }
{
    if matches!(what, OpLabel::Close) {
        return Ok(());
    }
    count_one(counts, at)
}

// Counts one more for a queue, if it has a count. A count beyond a number of 64 bits would want more memory than there is.
fn count_one(counts: &mut [u64], at: &QueueAt) -> Result<(), Fault>
    ensures counted { OnOk result (counts.new ≡ one_counted at.now counts.old) }
    ensures fault { OnlyMemory result }
{
    let index = at.seat();
    if at.queue.number() < QUEUES && index < counts.len() {
        match counts[index].checked_add(1) {
            None => return Err(Fault::Memory),
            Some(count) => counts[index] = count,
        }
    }
    Ok(())
}
