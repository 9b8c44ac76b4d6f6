// Runs of items.
ghost use Rattle.std.specs.Prelude.{◌≡◌, ◌++◌, None, Some};
ghost use Rattle.cache.specs.Pages.{IsFresh};
ghost use Rattle.items.specs.Run.{DidItem, GotItem, IsOpenSession, PushedItem, SyncedItems};
ghost use Rattle.items.specs.Run.{GivesItem, ItemsRunGoes, TellsLength};
ghost use Rattle.items.specs.Standing.{AreItems, items_of, ItemsCallLeaves};

use crate::items::Items;
use cache::CacheRef;
use disk::{Blob, Error};
use page::Sum;
use std::alloc::Global;
use std::marker::Model;

/// A step of a run: one call of items.
#[derive(Drop)]
pub enum ItemStep {
    /// Pushes an item of these bytes.
    Push(Vec<u8>),
    /// Reads the item of this number.
    Get(u64),
    /// Asks how many items there are.
    Len,
    /// Makes all items durable.
    Sync,
}

/// The reply to a step.
#[derive(PartialEq, Eq, Drop)]
pub enum ItemReply {
    /// The number of the item that was pushed.
    Item(u64),
    /// What was to be pushed isn't of the items' size.
    BadItem,
    /// The bytes of the item.
    Bytes(Vec<u8>),
    /// How many items there are.
    Length(u64),
    /// The step is done.
    Done,
    /// The step was refused.
    Fault(Error),
    /// The session has no items: an earlier step that was refused ended them, or it never had any.
    Closed,
}

/// Items that a run goes on with, or none after a refusal that ended them.
pub struct ItemSession<B, H> {
    alloc: Global,
    items: Option<Items<B, H>>,
}

// By hand, so that an owner lets one go by one call: of a derived drop, a proof follows each field
// at each exit.
impl<B, H> Drop for ItemSession<B, H> {
    fn drop(self) {
        let ItemSession { alloc: _, items: _ } = self;
    }
}

impl<B, H> Model for ItemSession<B, H> {
    ghost use Rattle.std.specs.Prelude.{Option};
    ghost use Rattle.items.specs.State.{ItemsState};

    ghost Value = { Option ItemsState };

    ghost view = { λ session. session.items };
}

impl<B, H> ItemSession<B, H> {
    /// A session that goes on with these items.
    pub fn new(alloc: Global, items: Items<B, H>) -> Self
        ensures { result ≡ Some items }
    {
        ItemSession {
            alloc,
            items: Some(items),
        }
    }

    /// A session that has no items: each of its steps replies [`ItemReply::Closed`].
    pub fn closed(alloc: Global) -> Self
        ensures { result ≡ None }
    {
        ItemSession { alloc, items: None }
    }

    /// The session's items; `None` if a refusal ended them, or if it never had any.
    pub fn into_items(self) -> Option<Items<B, H>>
        ensures { result ≡ self }
    {
        let ItemSession { alloc: _, items } = self;
        items
    }

    fn len(&self) -> ItemReply
        ensures { TellsLength self.now result }
    {
        match &self.items {
            Some(items) => ItemReply::Length(items.len()),
            None => ItemReply::Closed,
        }
    }
}

// The bytes of an item, in a buffer of their own.
fn item_of<B: Blob, H: Sum>(
    alloc: Global,
    items: &Items<B, H>,
    blob: &mut B,
    cache: &mut CacheRef,
    i: u64,
) -> Result<Vec<u8>, Error>
    requires items { AreItems H.sum_of items.now cache.old (B.life blob.old) }
    ensures gives { let old = B.life blob.old in let new = B.life blob.new in
        GivesItem items.now i old new result }
    ensures items { AreItems H.sum_of items.now cache.new (B.life blob.new) }
    ensures leaves { let old = B.life blob.old in let new = B.life blob.new in
        ItemsCallLeaves H.sum_of items.now (items_of items.now old) cache.old cache.new old new }
{
    items.find(i)?;
    let mut bytes = Vec::new(alloc);
    bytes.resize(items.item_size(), 0)?;
    match items.get(blob, cache, i, &mut bytes) {
        Ok(()) => Ok(bytes),
        Err(error) => Err(error),
    }
}

impl<B: Blob, H: Sum> ItemSession<B, H> {
    fn step(&mut self, blob: &mut B, cache: &mut CacheRef, step: &ItemStep) -> ItemReply
        requires open { IsOpenSession H.sum_of self.old cache.old (B.life blob.old) }
        ensures did { let old = B.life blob.old in let new = B.life blob.new in
            DidItem H.sum_of step.now self.old self.new cache.old cache.new old new result }
    {
        match step {
            ItemStep::Push(item) => self.push(blob, cache, item),
            ItemStep::Get(i) => self.get(blob, cache, *i),
            ItemStep::Len => self.len(),
            ItemStep::Sync => self.sync(blob, cache),
        }
    }

    fn push(&mut self, blob: &mut B, cache: &mut CacheRef, item: &[u8]) -> ItemReply
        requires open { IsOpenSession H.sum_of self.old cache.old (B.life blob.old) }
        ensures pushed { let old = B.life blob.old in let new = B.life blob.new in
            PushedItem H.sum_of item.now self.old self.new cache.old cache.new old new result }
    {
        let Some(items) = self.items.take() else {
            return ItemReply::Closed;
        };
        if item.len() != items.item_size() {
            self.items = Some(items);
            return ItemReply::BadItem;
        }
        match items.push(blob, cache, item) {
            Ok((items, i)) => {
                self.items = Some(items);
                ItemReply::Item(i)
            }
            Err(error) => ItemReply::Fault(error),
        }
    }

    fn get(&mut self, blob: &mut B, cache: &mut CacheRef, i: u64) -> ItemReply
        requires open { IsOpenSession H.sum_of self.old cache.old (B.life blob.old) }
        ensures got { let old = B.life blob.old in let new = B.life blob.new in
            GotItem H.sum_of i self.old self.new cache.old cache.new old new result }
    {
        let Some(items) = &self.items else {
            return ItemReply::Closed;
        };
        match item_of(self.alloc, items, blob, cache, i) {
            Ok(bytes) => ItemReply::Bytes(bytes),
            Err(error) => ItemReply::Fault(error),
        }
    }

    fn sync(&mut self, blob: &mut B, cache: &mut CacheRef) -> ItemReply
        requires open { IsOpenSession H.sum_of self.old cache.old (B.life blob.old) }
        ensures synced { let old = B.life blob.old in let new = B.life blob.new in
            SyncedItems H.sum_of self.old self.new cache.old cache.new old new result }
    {
        let Some(items) = self.items.take() else {
            return ItemReply::Closed;
        };
        match items.sync(blob, cache) {
            Ok(items) => {
                self.items = Some(items);
                ItemReply::Done
            }
            Err(error) => ItemReply::Fault(error),
        }
    }
}

/// Takes the steps in order over the session's items, and adds one reply a step to `replies`. A push
/// or a sync that is refused ends the items: each later step replies `Closed`. A read that is
/// refused, and a push of bytes that aren't of the items' size, change nothing.
///
/// Room for all the replies is made first. The only error is `OutOfMemory`, where that room is
/// refused: then no step was taken.
pub fn run_items<B: Blob, H: Sum>(
    session: &mut ItemSession<B, H>,
    blob: &mut B,
    cache: &mut CacheRef,
    steps: &[ItemStep],
    replies: &mut Vec<ItemReply>,
) -> Result<(), Error>
    requires open { IsOpenSession H.sum_of session.old cache.old (B.life blob.old) }
    ensures goes { let old = B.life blob.old in let new = B.life blob.new in
        ItemsRunGoes H.sum_of steps.now session.old session.new cache.old cache.new old new
        replies.old.items replies.new.items result }
    ensures ready { IsOpenSession H.sum_of session.new cache.new (B.life blob.new)
        × IsFresh cache.new }
{
    replies.try_reserve(steps.len())?;
    for step in steps {
        let reply = session.step(blob, cache, step);
        replies.push_reserved(reply);
    }
    Ok(())
}
