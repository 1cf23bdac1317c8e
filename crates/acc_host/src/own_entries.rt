//! A host's own entries, read one after another off what a run leaves: its directives with their answers, and its items.

ghost use Rattle.std.specs.Prelude.{◌≡◌, ◌+◌, ◌<◌, [], ◌∷◌, length, MatchOption, option_copied, option_map, reverse};
ghost use Rattle.acc_place.specs.declared.directive.PlaceEntry.TheVariants.{Accepted};
ghost use Rattle.acc_host.specs.Engines.{Had};
ghost use Rattle.acc_host.specs.Entries.{entries_merged, items_shown, own_of};
ghost use Rattle.acc_host.specs.OwnEntries.{entry, own, Takes};
ghost use Rattle.acc_host.specs.inner.Unread.{items_by, owned_from, IsFirst, IsOther};

use acc_base::HostId;
use acc_place::{Answer, Directive, Place, PlaceEntry};
use acc_work::{Pages, Told, WorkEntry, WorkLog};
use std::marker::Model;

/// A directive of a host, how many items the host had before it, and its answer.
#[derive(Clone, Copy)]
pub struct OwnDirective<'a> {
    pub items_before: u64,
    pub directive: &'a Directive,
    pub answer: &'a Answer,
}

/// The directives of a host that are still to be read, in order. A contract sees them.
#[derive(Drop)]
pub struct OwnDirectives<'a> {
    host: HostId,
    // those of all hosts, each with its count and its answer
    places: &'a [PlaceEntry],
    counts: &'a [u64],
    answers: &'a [Answer],
    // how many of them are read or passed over
    gone: usize,
}

impl<'a> Model for OwnDirectives<'a> {
    ghost use Rattle.std.specs.Prelude.{List};
    ghost use Rattle.std.specs.Coded.{codes};
    ghost use Rattle.acc_kernel.specs.contracts.expr.Expr as expr;
    ghost use Rattle.acc_host.specs.Entries.{Own};
    ghost use Rattle.acc_host.specs.inner.Unread.{owned_from};

    ghost Value = { List Own };

    ghost coded = { Prim.hlevel (codes, expr.the_row.coded) };

    ghost view = { λ d. owned_from d.host d.places.now d.counts.now d.answers.now d.gone };
}

impl<'a> OwnDirectives<'a> {
    /// All directives of a host that a place accepted.
    pub fn new(place: &'a Place, host: HostId) -> Self
        ensures { result ≡ own_of place.now.config host place.now.history place.now.counts }
    {
        OwnDirectives {
            host,
            places: place.history(),
            counts: place.counts(),
            answers: place.answers(),
            gone: 0,
        }
    }

    /// The next directive, which is then read.
    pub fn next(&mut self) -> Option<OwnDirective<'a>>
        ensures { Takes self.old (option_map own result) self.new }
    {
        for index in self.gone..self.places.len() {
            if let Some(own) = own_at(self.host, self.places, self.counts, self.answers, index) {
                self.gone = index + 1;
                return Some(own);
            }
        }
        None
    }
}

// The directive of a host at an index, with its count and its answer, if there is one.
fn own_at<'a>(
    host: HostId,
    places: &'a [PlaceEntry],
    counts: &[u64],
    answers: &'a [Answer],
    index: usize,
) -> Option<OwnDirective<'a>>
    requires { index < length places.now }
    ensures { MatchOption result
        (owned_from host places.now counts.now answers.now index
        ≡ owned_from host places.now counts.now answers.now (index + 1)) (λ o.
        owned_from host places.now counts.now answers.now index
        ≡ own o ∷ owned_from host places.now counts.now answers.now (index + 1)) }
{
    let directive = directive_by(host, &places[index])?;
    Some(OwnDirective {
        items_before: *counts.get(index)?,
        directive,
        answer: answers.get(index)?,
    })
}

// The directive of an entry, if it is one of the host.
fn directive_by(host: HostId, entry: &PlaceEntry) -> Option<&Directive>
    ensures { MatchOption result (IsOther host entry.now) (λ directive.
        entry.now ≡ Accepted host directive.now) }
{
    match entry {
        PlaceEntry::Accepted {
            host: other,
            directive,
        } if *other == host => Some(directive),
        _ => None,
    }
}

/// The items of a host that are still to be read, in order. A contract sees them.
#[derive(Drop)]
pub struct OwnItems<'a> {
    host: HostId,
    // the entries of all hosts and queues: of the page that is read, and of those behind it
    page: &'a [WorkEntry],
    pages: Pages<'a>,
}

impl<'a> Model for OwnItems<'a> {
    ghost use Rattle.std.specs.Prelude.{List, ◌++◌};
    ghost use Rattle.std.specs.Coded.{codes};
    ghost use Rattle.acc_kernel.specs.contracts.expr.Expr as expr;
    ghost use Rattle.acc_host.specs.Engines.{HostEntry};
    ghost use Rattle.acc_host.specs.inner.Unread.{items_by};

    ghost Value = { List HostEntry };

    ghost coded = { Prim.hlevel (codes, expr.the_row.coded) };

    ghost view = { λ i. items_by i.host (i.page.now ++ i.pages) };
}

impl<'a> OwnItems<'a> {
    /// All items of a host in a work log.
    pub fn new(works: &'a WorkLog, host: HostId) -> Self
        ensures { result ≡ items_shown host (reverse works.now.items) }
    {
        OwnItems {
            host,
            page: &[],
            pages: works.pages(),
        }
    }

    /// The next item, which is then read.
    pub fn next(&mut self) -> Option<&'a Told>
        ensures { Takes self.old (option_map Had (option_copied result)) self.new }
    {
        loop {
            if let Some((what, behind)) = first_item(self.host, self.page) {
                self.page = behind;
                return Some(what);
            }
            self.page = self.pages.next()?;
        }
    }
}

// The first item of a host among these entries, and the entries behind it.
fn first_item(host: HostId, entries: &[WorkEntry]) -> Option<(&Told, &[WorkEntry])>
    ensures { MatchOption result (items_by host entries.now ≡ []) (λ found.
        items_by host entries.now ≡ Had found.0.now ∷ items_by host found.1.now) }
{
    let mut left = entries;
    while let Some((entry, behind)) = left.split_first() {
        if let WorkEntry::Item { host: other, what } = entry
            && *other == host
        {
            return Some((what, behind));
        }
        left = behind;
    }
    None
}

/// An entry of a host's own list: a directive, or an item.
#[derive(Clone, Copy)]
pub enum OwnEntry<'a> {
    Gave { own: OwnDirective<'a> },
    Had { what: &'a Told },
}

/// A host's own entries that are still to be read, in order. A contract sees them.
#[derive(Drop)]
pub struct OwnEntries<'a> {
    // how many items are read, or how many stood before the last directive that is
    gone: u64,
    // the next directive and the next item, with those behind them
    directive: Option<OwnDirective<'a>>,
    directives: OwnDirectives<'a>,
    item: Option<&'a Told>,
    items: OwnItems<'a>,
}

impl<'a> Model for OwnEntries<'a> {
    ghost use Rattle.std.specs.Prelude.{List};
    ghost use Rattle.std.specs.Coded.{codes};
    ghost use Rattle.acc_kernel.specs.contracts.expr.Expr as expr;
    ghost use Rattle.acc_host.specs.Engines.{HostEntry};
    ghost use Rattle.acc_host.specs.inner.Unread.{unread};

    ghost Value = { List HostEntry };

    ghost coded = { Prim.hlevel (codes, expr.the_row.coded) };

    ghost view = { λ e. unread e.gone e.directive e.directives e.item e.items };
}

impl<'a> OwnEntries<'a> {
    /// All entries of a host.
    pub fn new(place: &'a Place, works: &'a WorkLog, host: HostId) -> Self
        ensures { result
            ≡ entries_merged 0 (own_of place.now.config host place.now.history place.now.counts)
            (items_shown host (reverse works.now.items)) }
    {
        let mut directives = OwnDirectives::new(place, host);
        let mut items = OwnItems::new(works, host);
        OwnEntries {
            gone: 0,
            directive: directives.next(),
            directives,
            item: items.next(),
            items,
        }
    }

    /// The next entry, which is then read.
    pub fn next(&mut self) -> Option<OwnEntry<'a>>
        ensures { Takes self.old (option_map entry result) self.new }
    {
        let Some(first) = first_of(self.gone, &self.directive, self.item) else {
            return None;
        };
        match &first {
            OwnEntry::Gave { own } => {
                self.gone = own.items_before;
                self.directive = self.directives.next();
            }
            OwnEntry::Had { what: _ } => {
                self.gone = self.gone.saturating_add(1);
                self.item = self.items.next();
            }
        }
        Some(first)
    }
}

// The first of the next directive and the next item: the directive where its items stand already, or none is left.
fn first_of<'a>(
    gone: u64,
    directive: &Option<OwnDirective<'a>>,
    item: Option<&'a Told>,
) -> Option<OwnEntry<'a>>
    ensures { IsFirst gone directive.now item.entry result }
{
    if let Some(own) = directive
        && (own.items_before <= gone || item.is_none())
    {
        let own = OwnDirective {
            items_before: own.items_before,
            directive: own.directive,
            answer: own.answer,
        };
        return Some(OwnEntry::Gave { own });
    }
    match item {
        Some(what) => Some(OwnEntry::Had { what }),
        None => None,
    }
}
