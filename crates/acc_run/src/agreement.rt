//! Whether the tokens of the hosts agree with both histories. It takes no memory.

ghost use Rattle.std.specs.Prelude.{All, IsTrue, ◌<◌, ◌≤◌, ◌+◌, ◌^◌, ◌↔◌, ◌≡◌, map};
ghost use Rattle.acc_host.specs.OwnEntries.{own as own_by};
ghost use Rattle.acc_run.specs.Agreement.{Agree, Agrees, EachAgrees, HasNoOthers, histories_by};
ghost use Rattle.acc_run.specs.Tokens.{listed_entry};
ghost use Rattle.acc_run.specs.inner.Reading.{IsPlacedBelow, IsShownBelow, Reads};

use crate::token::{HostToken, TokenEntry};
use acc_host::{OwnDirective, OwnDirectives, OwnItems};
use acc_place::{Directive, Place, PlaceEntry, Placed};
use acc_work::{WorkEntry, WorkLog};

// What is unread of a host's own entries, and how many of its items are read.
#[derive(Drop)]
struct Unread<'a> {
    directives: OwnDirectives<'a>,
    items: OwnItems<'a>,
    gone: u64,
}

impl<'a> Unread<'a> {
    // Reads the next directive or the next item, and answers whether an entry of the host's token is the same.
    fn read(&mut self, entry: &TokenEntry) -> bool
        requires { self.old.gone + 1 < 2 ^ 64 }
        ensures read { Reads self.old (listed_entry entry.now) result self.new }
        ensures gone { self.new.gone ≤ self.old.gone + 1 }
    {
        match entry {
            TokenEntry::Placed { directive, placed } => match self.directives.next() {
                None => false,
                Some(own) => is_same(&own, self.gone, directive, placed),
            },
            TokenEntry::Item { label, shown } => match self.items.next() {
                None => false,
                Some(what) => {
                    self.gone += 1;
                    label.is_told_by(what, *shown)
                }
            },
        }
    }
}

// Whether a directive of a host is this one, with this answer, behind so many items.
fn is_same(own: &OwnDirective, gone: u64, directive: &Directive, placed: &Placed) -> bool
    ensures { IsTrue result
        ↔ own_by own.now
        ≡ record { items_before = gone; directive = directive.now; placed = placed.now } }
{
    own.items_before == gone
        && own.directive.is_same(directive)
        && own.answer.placed().is_same(placed)
}

// Whether a token's list is that of its host in both histories.
fn agrees(place: &Place, works: &WorkLog, token: &HostToken) -> bool
    ensures { IsTrue result
        ↔ Agrees (histories_by place.now works.now.items) token.now.host
        (map listed_entry token.now.entries) }
{
    let mut unread = Unread {
        directives: OwnDirectives::new(place, token.host()),
        items: OwnItems::new(works, token.host()),
        gone: 0,
    };
    for entry in token.entries() {
        if !unread.read(entry) {
            return false;
        }
    }
    unread.directives.next().is_none() && unread.items.next().is_none()
}

// Whether the tokens are those of the first hosts, in their order, and each agrees.
fn each_agrees(place: &Place, works: &WorkLog, tokens: &[HostToken]) -> bool
    ensures { IsTrue result ↔ EachAgrees (histories_by place.now works.now.items) 0 tokens.now }
{
    for index in 0..tokens.len() {
        let token = &tokens[index];
        if usize::from(token.host().number()) != index || !agrees(place, works, token) {
            return false;
        }
    }
    true
}

// Whether an entry of the place history is no directive of another host than the first ones.
fn is_placed_below(entry: &PlaceEntry, hosts: u8) -> bool
    ensures { IsTrue result ↔ IsPlacedBelow hosts entry.now }
{
    match entry {
        PlaceEntry::Accepted { host, .. } => host.number() < hosts,
        PlaceEntry::Closing | PlaceEntry::Closed { .. } => true,
    }
}

// Whether an entry of the work log is no item of another host than the first ones.
fn is_shown_below(entry: &WorkEntry, hosts: u8) -> bool
    ensures { IsTrue result ↔ IsShownBelow hosts entry.now }
{
    match entry {
        WorkEntry::Item { host, .. } => host.number() < hosts,
        WorkEntry::Op { .. } => true,
    }
}

// Whether all directives are those of the first hosts.
fn are_placed_below(places: &[PlaceEntry], hosts: u8) -> bool
    ensures { IsTrue result ↔ All (IsPlacedBelow hosts) places.now }
{
    places.iter().all(|entry| is_placed_below(entry, hosts))
}

// Whether all items are those of the first hosts.
fn are_shown_below(works: &WorkLog, hosts: u8) -> bool
    ensures { IsTrue result ↔ All (IsShownBelow hosts) works.now.items }
{
    works.iter().all(|entry| is_shown_below(entry, hosts))
}

// Whether both histories have no entry of another host than the first ones.
fn has_no_others(place: &Place, works: &WorkLog, hosts: u8) -> bool
    ensures { IsTrue result ↔ HasNoOthers (histories_by place.now works.now.items) hosts }
{
    are_placed_below(place.history(), hosts) && are_shown_below(works, hosts)
}

/// Whether there is one token for each host, in their order, and they list just what both histories have.
pub(crate) fn all_agree(place: &Place, works: &WorkLog, tokens: &[HostToken]) -> bool
    ensures { IsTrue result ↔ Agree tokens.now (histories_by place.now works.now.items) }
{
    let hosts = place.config().hosts();
    tokens.len() == usize::from(hosts)
        && each_agrees(place, works, tokens)
        && has_no_others(place, works, hosts)
}
