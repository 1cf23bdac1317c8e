//! What was answered to a directive, as the place keeps it: most answers take two words, and the others a place of their own.

ghost use Rattle.std.specs.Prelude.{All, ◌≡◌, ◌<◌, false, IfOk, IfSome};
ghost use Rattle.std.specs.Option.{option_map};
ghost use Rattle.acc_base.specs.Faults.{OnlyMemory};
ghost use Rattle.acc_base.specs.Queues.{is_nothing};
ghost use Rattle.acc_place.specs.Batches.{counts_queues, is_answered};
ghost use Rattle.acc_place.specs.Targets.{queue_by, queues_named};
ghost use Rattle.acc_place.specs.inner.Forms.{placed_of, IsForm};
ghost use Rattle.acc_place.specs.inner.Trials.{counts_in, placed_by};

use crate::awaits::named_counts;
use crate::directive::{DataItem, Directive, Kind, Placed};
use crate::judge::Known;
use crate::labels::Labels;
use crate::targets::queue_by;
use acc_base::{Boxed, DeviceId, Fault, QUEUES, QueueAt, QueueCounts, QueueId, is_nothing};
use acc_batch::{Label, one_count, only_count};
use acc_present::Table;
use std::alloc::Global;
use std::marker::Model;
use std::mem::size_of;

/// The answer to a directive that was accepted, as the place keeps it. A contract sees the answer.
#[derive(Drop)]
pub struct Answer {
    form: Form,
}

#[derive(Drop)]
enum Form {
    // Nothing was placed, and no count is above zero.
    Plain {
        present: bool,
    },
    // A batch was placed, and nothing else is answered.
    Batch {
        at: QueueAt,
        number: u64,
    },
    // Nothing was placed, and one queue has so many, which aren't none.
    One {
        queue: QueueId,
        count: u64,
    },
    // Any answer, and whether no count of it is above zero.
    Whole {
        counts_nothing: bool,
        placed: Boxed<Placed>,
    },
}

// The place keeps each.
const _: () = prove!(size_of::<Answer>() == 16);

impl Model for Answer {
    ghost use Rattle.acc_place.specs.declared.directive.Placed.{Placed};
    ghost use Rattle.acc_place.specs.inner.Forms.{placed_of, IsForm};

    ghost Value = { Placed };

    ghost view = { λ a. placed_of a.form };

    ghost invariant = { λ a. IsForm a.form };
}

impl Answer {
    /// It takes memory where a count is above zero.
    ///
    /// # Errors
    ///
    /// `Memory` where memory is refused.
    pub(crate) fn new(alloc: Global, placed: Placed) -> Result<Self, Fault>
        ensures answer { IfOk result (λ a. a ≡ placed) }
        ensures fault { OnlyMemory result }
    {
        let form = form_of(alloc, placed)?;
        Ok(Answer { form })
    }

    /// The batch that was placed, if one was.
    pub fn batch(&self) -> Option<(QueueAt, u64)>
        ensures { result ≡ self.now.batch }
    {
        match &self.form {
            Form::Plain { .. } | Form::One { .. } => None,
            Form::Batch { at, number } => Some((*at, *number)),
            Form::Whole { placed, .. } => placed.get().batch,
        }
    }

    /// Whether no count is above zero.
    pub fn counts_nothing(&self) -> bool
        ensures { result ≡ is_nothing self.now.counts }
    {
        match &self.form {
            Form::Plain { .. } | Form::Batch { .. } => true,
            Form::One { .. } => false,
            Form::Whole { counts_nothing, .. } => *counts_nothing,
        }
    }

    /// Whether all that a question asks for is present.
    pub fn is_present(&self) -> bool
        ensures { result ≡ self.now.present }
    {
        match &self.form {
            Form::Plain { present } => *present,
            Form::Batch { .. } | Form::One { .. } => false,
            Form::Whole { placed, .. } => placed.get().present,
        }
    }

    /// The answer. Takes no memory.
    pub fn placed(&self) -> Placed
        ensures { result ≡ self.now }
    {
        match &self.form {
            Form::Plain { present } => Placed {
                batch: None,
                counts: [0; QUEUES as usize],
                present: *present,
            },
            Form::Batch { at, number } => Placed {
                batch: Some((*at, *number)),
                counts: [0; QUEUES as usize],
                present: false,
            },
            Form::One { queue, count } => Placed {
                batch: None,
                counts: one_count(*queue, *count),
                present: false,
            },
            Form::Whole { placed, .. } => *placed.get(),
        }
    }
}

// How an answer is held.
fn form_of(alloc: Global, placed: Placed) -> Result<Form, Fault>
    ensures form { IfOk result IsForm }
    ensures placed { IfOk result (λ form. placed_of form ≡ placed) }
    ensures fault { OnlyMemory result }
{
    match short_form(&placed) {
        Some(form) => Ok(form),
        None => {
            let counts_nothing = is_nothing(&placed.counts);
            let placed = Boxed::new(alloc, placed)?;
            Ok(Form::Whole {
                counts_nothing,
                placed,
            })
        }
    }
}

// How an answer is held that needs no memory of its own.
fn short_form(placed: &Placed) -> Option<Form>
    ensures form { IfSome result IsForm }
    ensures placed { IfSome result (λ form. placed_of form ≡ placed.now) }
{
    if !is_nothing(&placed.counts) {
        return one_form(placed);
    }
    match &placed.batch {
        None => Some(Form::Plain {
            present: placed.present,
        }),
        Some((at, number)) => {
            if placed.present {
                return None;
            }
            Some(Form::Batch {
                at: *at,
                number: *number,
            })
        }
    }
}

// How an answer with a count above zero is held, where it needs no memory of its own.
fn one_form(placed: &Placed) -> Option<Form>
    requires { is_nothing placed.now.counts ≡ false }
    ensures form { IfSome result IsForm }
    ensures placed { IfSome result (λ form. placed_of form ≡ placed.now) }
{
    if placed.batch.is_some() || placed.present {
        return None;
    }
    match only_count(&placed.counts) {
        Some((queue, count)) => Some(Form::One { queue, count }),
        None => None,
    }
}

/// What a directive is answered whose batch has this label, if it has one, where its question is answered so.
///
/// # Errors
///
/// `Memory` where memory is refused.
pub(crate) fn answer_by(
    alloc: Global,
    known: &Known,
    directive: &Directive,
    label: &Option<Label>,
    present: bool,
) -> Result<Answer, Fault>
    ensures answer { IfOk result (λ a. a ≡ placed_by known.now directive.now label.now present) }
    ensures fault { OnlyMemory result }
{
    let batch = batch_at(label);
    let counts = counts_for(known.labels, known.at.device, directive);
    let placed = Placed {
        batch,
        counts,
        present,
    };
    Answer::new(alloc, placed)
}

// Where the batch with this label is, if there is one.
fn batch_at(label: &Option<Label>) -> Option<(QueueAt, u64)>
    ensures { result ≡ option_map (λ l. (l.at, l.number)) label.now }
{
    match label {
        None => None,
        Some(label) => Some((label.at, label.number)),
    }
}

/// The answer of `acc_is_present`, and of no other directive.
pub(crate) fn is_answered(table: &Table, kind: &Kind, items: &[DataItem]) -> bool
    requires cells { All (λ i. 0 < i.range.len) items.now }
    ensures { result ≡ is_answered kind.now table.now.presences items.now }
{
    matches!(kind, Kind::IsPresent)
        && items
            .iter()
            .all(|item| table.counters(item.range).is_some())
}

// How many batches were placed on each queue that a wait on queue sync or a question names, else 0.
fn counts_for(labels: &Labels, device: DeviceId, directive: &Directive) -> QueueCounts
    ensures { result ≡ counts_in (counts_queues directive.now.kind
        (queue_by directive.now.kind directive.now)) labels.now.queues device
        (queues_named directive.now) }
{
    let are_asked = match directive.kind() {
        Kind::Wait => queue_by(directive) == QueueId::SYNC,
        Kind::AsyncTest => true,
        Kind::Data | Kind::EndData | Kind::EnterData | Kind::Loop { .. } => false,
        Kind::ExitData { .. } | Kind::Update { .. } | Kind::IsPresent => false,
    };
    if are_asked {
        named_counts(labels, device, directive)
    } else {
        [0; QUEUES as usize]
    }
}
