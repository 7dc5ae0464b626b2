//! What is to be written on a connection.

ghost use Rattle.std.specs.Prelude.{◌≡◌, ℕ, ◌+◌, ◌<◌, ◌≤◌, ◌⊎◌, ◌∷◌, [], ◌++◌, List, length, take, All, IfOk, OnOk, OnErr};
ghost use Rattle.message_log.specs.declared.entry.OutEntry.{OutEntry};
ghost use Rattle.resend_plan.specs.declared.item.Names2.{Names2};
ghost use Rattle.resend_plan.specs.declared.item.WireItem.{WireItem};
ghost use Rattle.resend_plan.specs.Wire.{NamesEntry};
ghost use Rattle.resend_plan.specs.Fit.{AreShort, HasFitBodies};
ghost use Rattle.connection_core.specs.Outgoing.{HasMore, after_making, after_preparing, after_preparing_first, after_writing, ends_behind, item_text, no_outgoing, waiting_count, waiting_text, with_items, written_text};
ghost use Rattle.connection_core.specs.Items.{AreItemsOf};

use fix_frame::{FrameError, put_frame};
use gate_io::{Bytes, NoMemory};
use message_log::OutLog;
use resend_plan::{KeptTexts, Names2, WireItem, fill_wire_body};
use std::alloc::Global;
use std::collections::VecDeque;
use std::marker::Model;

/// The items that wait on a connection, in order, and the text of those that are about to be
/// written. The text that was written stays, since it is the record of that.
///
/// An item names its entry in the session's log, or is a gap fill, which names none. The log only
/// grows, so the item's text is the same whenever it is made.
#[derive(Debug)]
pub struct Outbox {
    text: Vec<u8>,
    written: usize,
    ends: VecDeque<usize>,
    unmade: VecDeque<WireItem>,
    /// The body of the item whose text was made last. It is kept for its room.
    body: Vec<u8>,
    /// What it has in common with the next one.
    kept: KeptTexts,
}

impl Drop for Outbox {
    fn drop(self) {
        let Outbox {
            text: _,
            written: _,
            ends: _,
            unmade: _,
            body: _,
            kept: _,
        } = self;
    }
}

impl Model for Outbox {
    ghost use Rattle.std.specs.Prelude.{◌-◌, ◌≤◌, vec_len};
    ghost use Rattle.std.specs.VecDeque.{deque_capacity, deque_len};
    ghost use Rattle.connection_core.specs.Outgoing.{Outlet};

    ghost Value = { Outlet };

    ghost view = { λ b. record {
      outgoing = record { text = b.text.items; written = b.written; ends = b.ends.items; unmade = b.unmade.items };
      spare = deque_capacity b.unmade - deque_len b.unmade;
    } };

    ghost invariant = { λ b. b.written ≤ vec_len b.text };
}

impl Outbox {
    /// Nothing waits. It takes no memory.
    pub fn new(alloc: Global) -> Outbox
        ensures { result.outgoing ≡ no_outgoing }
    {
        Outbox {
            text: Vec::new(alloc),
            written: 0,
            ends: VecDeque::new(alloc),
            unmade: VecDeque::new(alloc),
            body: Vec::new(alloc),
            kept: KeptTexts::new(alloc),
        }
    }

    /// Makes room for n more items to be queued. It makes none for their texts, which take memory
    /// as they are made. Without memory all that waits stays.
    pub fn reserve(&mut self, n: usize) -> Result<(), NoMemory>
        ensures outgoing { self.new.outgoing ≡ self.old.outgoing }
        ensures room { OnOk result (n ≤ self.new.spare) }
        ensures kept { self.old.spare ≤ self.new.spare }
    {
        self.unmade.reserve(n)?;
        Ok(())
    }

    /// Puts an item behind those that wait.
    pub fn queue(&mut self, item: WireItem)
        requires { 0 < self.old.spare }
        ensures outgoing { self.new.outgoing ≡ with_items (item ∷ []) self.old.outgoing }
        ensures spare { self.old.spare ≤ self.new.spare + 1 }
        ensures items { (names : Names2) (log : List (List OutEntry)) (items : List WireItem) → AreItemsOf names log items self.old.outgoing
            → NamesEntry log item → AreItemsOf names log (items ++ item ∷ []) self.new.outgoing }
    {
        self.unmade.push_back_reserved(item);
    }

    /// Puts items behind those that wait, in order.
    pub fn queue_all(&mut self, items: &[WireItem])
        requires { length items.now ≤ self.old.spare }
        ensures outgoing { self.new.outgoing ≡ with_items items.now self.old.outgoing }
        ensures spare { self.old.spare ≤ self.new.spare + length items.now }
        ensures items { (names : Names2) (log : List (List OutEntry)) (before : List WireItem) → AreItemsOf names log before self.old.outgoing
            → All (NamesEntry log) items.now → AreItemsOf names log (before ++ items.now) self.new.outgoing }
    {
        for item in items {
            self.queue(*item);
        }
    }

    /// How many items aren't written whole.
    pub fn waiting_items(&self) -> u64
        ensures { result ≡ waiting_count self.now.outgoing }
    {
        self.ends.len() as u64 + self.unmade.len() as u64
    }

    /// Makes the texts of items in order until at least `limit` bytes wait, or each item has one.
    /// Without memory the texts that were made stay.
    pub fn prepare(&mut self, log: &OutLog, names: &Names2, limit: usize) -> Result<(), NoMemory>
        requires named { All (NamesEntry log.now.series) self.old.outgoing.unmade }
        requires short { AreShort names.now }
        requires fit { HasFitBodies log.now.series }
        ensures outgoing { OnOk result (self.new.outgoing ≡ after_preparing names.now log.now.series limit self.old.outgoing) }
        ensures enough { OnOk result ((limit ≤ length (waiting_text self.new.outgoing)) ⊎ (self.new.outgoing.unmade ≡ [])) }
        ensures more { HasMore names.now log.now.series self.old.outgoing self.new.outgoing }
        // Done again it comes to the same, so that also without memory no text is made that wasn't asked for.
        ensures again { after_preparing names.now log.now.series limit self.new.outgoing ≡ after_preparing names.now log.now.series limit self.old.outgoing }
        ensures spare { self.old.spare ≤ self.new.spare }
        ensures items { (items : List WireItem) → AreItemsOf names.now log.now.series items self.old.outgoing
            → AreItemsOf names.now log.now.series items self.new.outgoing }
    {
        while self.unmade_items() > 0 {
            if self.waiting_bytes() >= limit {
                return Ok(());
            }
            self.make_text(log, names)?;
        }
        Ok(())
    }

    /// Makes the text of the connection's first item, and of no other.
    pub fn prepare_first(&mut self, log: &OutLog, names: &Names2) -> Result<(), NoMemory>
        requires named { All (NamesEntry log.now.series) self.old.outgoing.unmade }
        requires short { AreShort names.now }
        requires fit { HasFitBodies log.now.series }
        ensures outgoing { OnOk result (self.new.outgoing ≡ after_preparing_first names.now log.now.series self.old.outgoing) }
        ensures err { OnErr result (self.new.outgoing ≡ self.old.outgoing) }
        ensures spare { self.old.spare ≤ self.new.spare }
        ensures items { (items : List WireItem) → AreItemsOf names.now log.now.series items self.old.outgoing
            → AreItemsOf names.now log.now.series items self.new.outgoing }
    {
        if self.text.is_empty() && !self.unmade.is_empty() {
            self.make_text(log, names)?;
        }
        Ok(())
    }

    /// How many items have no text.
    fn unmade_items(&self) -> usize
        ensures { result ≡ length self.now.outgoing.unmade }
    {
        self.unmade.len()
    }

    /// How many bytes wait of the texts that are made.
    fn waiting_bytes(&self) -> usize
        ensures { result ≡ length (waiting_text self.now.outgoing) }
    {
        self.text.len() - self.written
    }

    /// Makes the text of the first item that has none.
    fn make_text(&mut self, log: &OutLog, names: &Names2) -> Result<(), NoMemory>
        requires some { 0 < length self.old.outgoing.unmade }
        requires named { All (NamesEntry log.now.series) self.old.outgoing.unmade }
        requires short { AreShort names.now }
        requires fit { HasFitBodies log.now.series }
        ensures ok { OnOk result (self.new.outgoing ≡ after_making names.now log.now.series self.old.outgoing) }
        ensures err { OnErr result (self.new.outgoing ≡ self.old.outgoing) }
        ensures spare { self.old.spare ≤ self.new.spare }
    {
        let item = *self.unmade.front().unwrap();
        self.ends.reserve(1)?;
        put_text(
            &mut self.text,
            &mut self.body,
            &mut self.kept,
            &item,
            log,
            names,
        )?;
        self.ends.push_back_reserved(self.text.len());
        self.unmade.pop_front();
        Ok(())
    }

    /// The next bytes that are to be written, at most `limit`, of those whose text is made.
    pub fn waiting(&self, limit: usize) -> &[u8]
        ensures { result.now ≡ take limit (waiting_text self.now.outgoing) }
    {
        let waiting = &self.text[self.written..];
        &waiting[..waiting.len().min(limit)]
    }

    /// The next n bytes were written.
    pub fn wrote(&mut self, n: usize)
        requires { n ≤ length (waiting_text self.old.outgoing) }
        ensures outgoing { self.new.outgoing ≡ after_writing n self.old.outgoing }
        ensures spare { self.new.spare ≡ self.old.spare }
        ensures items { (names : Names2) (log : List (List OutEntry)) (items : List WireItem) → AreItemsOf names log items self.old.outgoing
            → AreItemsOf names log items self.new.outgoing }
    {
        self.written += n;
        drop_ends(&mut self.ends, self.written);
    }

    /// All bytes that were written.
    pub fn into_written(self) -> Bytes
        ensures { result ≡ written_text self.outgoing }
    {
        let Outbox {
            mut text,
            written,
            ends: _,
            unmade: _,
            body: _,
            kept: _,
        } = self;
        text.truncate(written);
        Bytes::of(text)
    }
}

/// Lets the ends go that lie within so many bytes.
fn drop_ends(ends: &mut VecDeque<usize>, written: usize)
    ensures { ends.new.items ≡ ends_behind written ends.old.items }
{
    while let Some(end) = ends.front() {
        if *end > written {
            return;
        }
        ends.pop_front();
    }
}

/// Puts the text of an item as it is written behind a text. Its body is made in a vector that is kept for its
/// room.
fn put_text(
    text: &mut Vec<u8>,
    body: &mut Vec<u8>,
    kept: &mut KeptTexts,
    item: &WireItem,
    log: &OutLog,
    names: &Names2,
) -> Result<(), NoMemory>
    requires named { NamesEntry log.now.series item.now }
    requires short { AreShort names.now }
    requires fit { HasFitBodies log.now.series }
    ensures ok { OnOk result (text.new.items ≡ text.old.items ++ item_text names.now log.now.series item.now) }
    ensures err { OnErr result (text.new.items ≡ text.old.items) }
{
    fill_wire_body(body, kept, item, log, names)?;
    match put_frame(text, body) {
        Ok(()) => Ok(()),
        Err(FrameError::OutOfMemory) => Err(NoMemory::OutOfMemory),
        Err(FrameError::TooLong { .. }) => unreachable!(),
    }
}
