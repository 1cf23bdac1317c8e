//! What a host has done, in its own order.

ghost use Rattle.std.specs.Prelude.{◌≡◌, ◌+◌, ◌<◌, ◌++◌, ◌∷◌, [], IfOk, OnOk, length};
ghost use Rattle.acc_base.specs.Faults.{OnlyMemory};
ghost use Rattle.acc_base.specs.declared.config.TheConstants.{MAX_HOSTS};
ghost use Rattle.acc_run.specs.Tokens.{items_in, has_room, AreTokens};
ghost use Rattle.acc_run.specs.declared.token.TokenEntry.TheVariants as listed;

use crate::event_count::EventCount;
use crate::watch::wait_all_seen;
use acc_base::{Config, DeviceId, Fault, HostId, QueueCounts};
use acc_place::{Directive, Placed};
use acc_queue::Reader;
use acc_work::{ItemLabel, Shown};
use std::alloc::Global;
use std::marker::Model;
use std::sync::Wait;

/// What a host has done: a directive with its answer, or an item with its answer.
#[derive(Drop)]
pub enum TokenEntry {
    Placed {
        directive: Directive,
        placed: Placed,
    },
    Item {
        label: ItemLabel,
        shown: Shown,
    },
}

/// Lists its host's own entries, in its order. Who holds it acts as the host.
#[derive(Drop)]
pub struct HostToken {
    host: HostId,
    entries: Vec<TokenEntry>,
    // how many of them are items
    items: u64,
    // what its host looks at before it asks whether a wait is over
    reader: Reader,
}

impl Model for HostToken {
    ghost use Rattle.std.specs.Coded.{codes};
    ghost use Rattle.std.specs.Prelude.{vec_capacity, ◌<◌, ◌≡◌};
    ghost use Rattle.acc_base.specs.declared.config.TheConstants.{MAX_HOSTS};
    ghost use Rattle.acc_kernel.specs.contracts.expr.Expr as expr;
    ghost use Rattle.acc_run.specs.Tokens.{TokenView, items_in};

    ghost Value = { TokenView };

    ghost coded = { Prim.hlevel (codes, expr.the_row.coded) };

    ghost view = { λ t. record { host = t.host; entries = t.entries.items; room = vec_capacity t.entries } };

    ghost invariant = { λ t. (t.host < MAX_HOSTS) × (t.items ≡ items_in t.entries.items) };
}

impl HostToken {
    /// Of a host that has done nothing yet, with a reader of the queues' progress.
    pub(crate) fn new(alloc: Global, host: HostId, reader: Reader) -> Self
        requires { host < MAX_HOSTS }
        ensures host { result.host ≡ host }
        ensures entries { result.entries ≡ [] }
    {
        HostToken {
            host,
            entries: Vec::new(alloc),
            items: 0,
            reader,
        }
    }

    // Waits until each queue of a device has published that it has performed so many batches: no more than a reason to ask.
    pub(crate) fn wait_seen<R: Wait>(
        &mut self,
        rt: &R,
        performed: &[EventCount],
        device: DeviceId,
        counts: &QueueCounts,
    )
        ensures { self.new ≡ self.old }
    {
        wait_all_seen(rt, performed, &mut self.reader, device, counts);
    }

    /// Which host it is.
    pub fn host(&self) -> HostId
        ensures host { result ≡ self.now.host }
        ensures there { self.now.host < MAX_HOSTS }
    {
        self.host
    }

    /// How many items the host has.
    pub fn items(&self) -> u64
        ensures { result ≡ items_in self.now.entries }
    {
        self.items
    }

    /// What the host has done, in order.
    pub fn entries(&self) -> &[TokenEntry]
        ensures { result.now ≡ self.now.entries }
    {
        self.entries.as_slice()
    }

    // Makes room for one more entry.
    pub(crate) fn spare(&mut self) -> Result<(), Fault>
        ensures host { self.new.host ≡ self.old.host }
        ensures entries { self.new.entries ≡ self.old.entries }
        ensures room { OnOk result (has_room self.new) }
        ensures fault { OnlyMemory result }
    {
        self.entries.reserve(1)?;
        Ok(())
    }

    // Makes room for a directive, and an equal one to keep there.
    pub(crate) fn copy(&mut self, directive: &Directive) -> Result<Directive, Fault>
        ensures host { self.new.host ≡ self.old.host }
        ensures entries { self.new.entries ≡ self.old.entries }
        ensures room { OnOk result (has_room self.new) }
        ensures equal { IfOk result (λ d. d ≡ directive.now) }
        ensures fault { OnlyMemory result }
    {
        self.spare()?;
        directive.try_clone()
    }

    // Adds a directive with its answer, for which there is room.
    pub(crate) fn note_directive(&mut self, directive: Directive, placed: &Placed)
        requires { has_room self.old }
        ensures host { self.new.host ≡ self.old.host }
        ensures entries { self.new.entries
            ≡ self.old.entries ++ listed.Placed directive placed.now ∷ [] }
    {
        self.entries.push_reserved(TokenEntry::Placed {
            directive,
            placed: *placed,
        });
    }

    // Adds an item with its answer, for which there is room.
    pub(crate) fn note_item(&mut self, label: ItemLabel, shown: Shown)
        requires { has_room self.old }
        ensures host { self.new.host ≡ self.old.host }
        ensures entries { self.new.entries ≡ self.old.entries ++ listed.Item label shown ∷ [] }
    {
        self.items += 1;
        self.entries
            .push_reserved(TokenEntry::Item { label, shown });
    }
}

// A token for each host, that has nothing yet.
#[tactic(auto, using(crate::proofs::MoreTokens::tokens_more))]
pub(crate) fn tokens_of(
    alloc: Global,
    config: &Config,
    reader: &mut Reader,
) -> Result<Vec<HostToken>, Fault>
    ensures reader { reader.new ≡ reader.old }
    ensures tokens { IfOk result (λ tokens. AreTokens 0 tokens.items) }
    ensures count { IfOk result (λ tokens. length tokens.items ≡ config.now.hosts) }
    ensures fault { OnlyMemory result }
{
    config.keeps();
    let mut tokens = Vec::new(alloc);
    for host in 0..config.hosts() {
        let own = reader.split()?;
        tokens.push(HostToken::new(alloc, HostId::new(host), own))?;
    }
    Ok(tokens)
}
