//! Items of hosts are recorded.

ghost use Rattle.std.specs.Prelude.{◌≡◌, ◌<◌, Bool, true, false, Some, None, Ok, IfOk, IfErr, IfSome, OnOk, OnErr, ◌^◌};
ghost use Rattle.acc_base.specs.declared.config.TheConstants.{MAX_HOSTS};
ghost use Rattle.acc_work.specs.Items.{HasRoom, has_cells, label_of, shown_by};
ghost use Rattle.acc_work.specs.Logs.{all_done, all_items};
ghost use Rattle.acc_batch.specs.Pages.{HasRoomFor};
ghost use Rattle.acc_work.specs.inner.Telling.{HasChanged, HasItsCells, IsTold, answer_to};
ghost use Rattle.acc_work.specs.Works.{CanTell, HasRecorded, IsReached, item_fault, taken_labels};
ghost use Rattle.acc_work.specs.declared.item.ItemLabel.TheVariants as to_record;
ghost use Rattle.acc_work.specs.declared.item.Shown.TheVariants as shown;

use crate::item::{Form, Item, ItemLabel, Shown};
use crate::work::Work;
use acc_base::{DeviceId, Fault, HostId, QueueCounts, Range};
use acc_batch::{Page, Told, Values};
use acc_memory::Memory;
use acc_raw::Node;
use std::alloc::Global;

impl Work {
    // Whether the cells of an item are there.
    fn has_cells(&self, item: ItemLabel) -> bool
        ensures { result ≡ has_cells self.now.arrays item }
    {
        match item {
            ItemLabel::Write { array, cell, .. } => self.memory.has_range(Range {
                array,
                lo: cell,
                len: 1,
            }),
            ItemLabel::Print { range } => self.memory.has_range(range),
            ItemLabel::Seen { .. } | ItemLabel::Test { .. } => true,
        }
    }

    // Records an item of a host, and answers a test. The cells of a write and of a print are there; a print has no more than
    // 65,536; what is noted as seen is performed, by `all_reached`. It takes no memory: the log has the page, and where it doesn't
    // need it frees it.
    fn host_item(&mut self, host: HostId, item: Item, page: Node<Page>) -> Shown
        requires host { host < MAX_HOSTS }
        requires item { CanTell self.old item }
        requires page { HasRoomFor page 1 }
        requires few { all_items self.old.work < 2 ^ 63 }
        ensures { HasRecorded self.old self.new host item result }
    {
        match self.record(host, item, Some(page)) {
            Ok(shown) => shown,
            Err(_) => Shown::Nothing,
        }
    }

    /// Records an item of a host, and answers a test. A page is made where the log needs one, and nowhere else. What is noted as
    /// seen is performed, by `all_reached`.
    ///
    /// # Errors
    ///
    /// The item, with `Memory` where memory is refused, `TooMany` behind the last item of a run, `BadRange` for cells that aren't
    /// there; then nothing changes.
    pub fn tell(&mut self, alloc: Global, host: HostId, item: Item) -> Result<Shown, (Item, Fault)>
        requires host { host < MAX_HOSTS }
        requires reached { IsReached self.old item }
        ensures recorded { IfOk result (λ shown. HasRecorded self.old self.new host item shown) }
        ensures may { OnOk result
            (item_fault false self.old.work (has_cells self.old.arrays item) ≡ None) }
        ensures fault { IfErr result (λ r. (lacks : Bool)
            × (item_fault lacks self.old.work (has_cells self.old.arrays item) ≡ Some r.1)) }
        ensures back { IfErr result (λ r. r.0 ≡ item) }
        ensures kept { OnErr result (self.new ≡ self.old) }
    {
        self.keeps();
        if self.is_full_of_items() {
            return Err((item, Fault::TooMany));
        }
        if !self.has_cells(item.label()) {
            return Err((item, Fault::BadRange));
        }
        match self.record(host, item, None) {
            Ok(shown) => Ok(shown),
            Err(item) => match Page::new(alloc, 1) {
                Ok(page) => Ok(self.host_item(host, item, page)),
                Err(fault) => Err((item, fault)),
            },
        }
    }

    /// Records that each queue of a device has performed so many batches, if it has.
    ///
    /// # Errors
    ///
    /// `Memory` where memory is refused, `TooMany` behind the last item of a run; then nothing changes.
    pub fn see(
        &mut self,
        alloc: Global,
        host: HostId,
        device: DeviceId,
        counts: QueueCounts,
    ) -> Result<bool, Fault>
        requires host { host < MAX_HOSTS }
        ensures answer { IfOk result (λ seen.
            seen ≡ all_done (taken_labels self.old) self.old.work device 0 counts) }
        ensures seen { result ≡ Ok true
            → HasRecorded self.old self.new host (to_record.Seen device counts) shown.Nothing }
        ensures may { result ≡ Ok true → item_fault false self.old.work true ≡ None }
        ensures not_yet { result ≡ Ok false → self.new ≡ self.old }
        ensures reached { OnErr result
            (all_done (taken_labels self.old) self.old.work device 0 counts ≡ true) }
        ensures fault { IfErr result (λ f. (lacks : Bool)
            × (item_fault lacks self.old.work true ≡ Some f)) }
        ensures kept { OnErr result (self.new ≡ self.old) }
    {
        if !self.all_reached(device, &counts) {
            return Ok(false);
        }
        let item = Item::seen(alloc, device, counts)?;
        match self.tell(alloc, host, item) {
            Ok(_) => Ok(true),
            Err((_, fault)) => Err(fault),
        }
    }

    // Records an item, with a page if there is one. Without a page it may come back.
    fn record(&mut self, host: HostId, item: Item, page: Option<Node<Page>>) -> Result<Shown, Item>
        requires host { host < MAX_HOSTS }
        requires item { CanTell self.old item }
        requires page { IfSome page (λ p. HasRoomFor p 1) }
        requires few { all_items self.old.work < 2 ^ 63 }
        ensures recorded { IfOk result (λ shown. HasRecorded self.old self.new host item shown) }
        ensures back { IfErr result (λ back. (back ≡ item) × (self.new ≡ self.old)) }
        ensures none { OnErr result (page ≡ None) }
    {
        let answer = self.answer_to(&item.form);
        if !self.log.claim_one(page) {
            return Err(item);
        }
        let Item { form } = item;
        let what = tell(&mut self.memory, form, answer);
        let shown = shown_by(&what);
        self.log.push_item(host, what);
        Ok(shown)
    }

    // What a test is answered; false where an item asks nothing.
    fn answer_to(&self, form: &Form) -> bool
        ensures { result ≡ answer_to self.now (label_of form.now) }
    {
        match form {
            Form::Test { device, counts } => self.all_reached(*device, &counts.numbers()),
            Form::Write { .. } | Form::Print { .. } | Form::Seen { .. } => false,
        }
    }
}

// Does what an item is to do, with the answer to a test, and gives what the log is to tell.
fn tell(memory: &mut Memory, form: Form, answer: bool) -> Told
    requires room { HasRoom form }
    requires item { HasItsCells memory.old (label_of form) }
    ensures told { IsTold memory.old (label_of form) answer result }
    ensures memory { HasChanged memory.old result memory.new }
{
    match form {
        Form::Write { array, cell, value } => {
            memory.host_set(array, cell, value);
            Told::Write { array, cell, value }
        }
        Form::Print {
            range,
            room,
            mut values,
        } => {
            values.set(Values::of(room, memory.host_cells(range)));
            Told::Print { range, values }
        }
        Form::Seen { device, counts } => Told::Seen { device, counts },
        Form::Test { device, counts } => Told::Test {
            device,
            answer,
            counts,
        },
    }
}

// What a host gets back of what the log tells.
pub(crate) fn shown_by(what: &Told) -> Shown
    ensures { result ≡ shown_by what.now }
{
    match what {
        Told::Test { answer, .. } => Shown::Answer(*answer),
        Told::Write { .. } | Told::Print { .. } | Told::Seen { .. } => Shown::Nothing,
    }
}
