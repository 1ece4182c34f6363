//! The items of a script, in room that is taken at the opening.
ghost use Rattle.std.specs.Prelude.{◌≡◌, ◌<◌, ◌+◌, ◌++◌, ◌∷◌, [], IfOk};

use crate::item::{Item, Plan};
use bz_oom::Memory;
use std::alloc::Global;
use std::marker::Model;

/// A list of items, seen as the items and how many more there is room for.
#[derive(Drop)]
pub struct ItemList {
    items: Vec<Item>,
}

impl Model for ItemList {
    ghost use Rattle.std.specs.Prelude.{◌-◌, vec_len, vec_capacity};
    ghost use Rattle.bz_script.specs.Items.{Items};

    ghost Value = { Items };

    ghost view = { λ l. record { items = l.items.items; room = vec_capacity l.items - vec_len l.items } };
}

impl ItemList {
    /// No items, and room for so many.
    pub fn open(alloc: Global, room: usize) -> Result<ItemList, Memory>
        ensures items { IfOk result (λ list. list.items ≡ []) }
        ensures room { IfOk result (λ list. list.room ≡ room) }
    {
        let items: Vec<Item> = Vec::with_capacity(alloc, room)?;
        Ok(ItemList { items })
    }

    /// Puts an item at the end. It takes no memory.
    pub fn push(&mut self, item: Item)
        requires { 0 < self.old.room }
        ensures items { self.new.items ≡ self.old.items ++ item ∷ [] }
        ensures room { self.new.room + 1 ≡ self.old.room }
    {
        // Taken apart by its variants, since the prover has to meet the type of the call here.
        match item {
            Item::Queue(w, call) => self.items.push_reserved(Item::Queue(w, call)),
            Item::Arm { flush, seed } => self.items.push_reserved(Item::Arm { flush, seed }),
            Item::Power => self.items.push_reserved(Item::Power),
            Item::Run(Plan::Alone) => self.items.push_reserved(Item::Run(Plan::Alone)),
            Item::Run(Plan::List(turns)) => self.items.push_reserved(Item::Run(Plan::List(turns))),
            Item::Run(Plan::Turns(seed)) => self.items.push_reserved(Item::Run(Plan::Turns(seed))),
            Item::Run(Plan::Threads) => self.items.push_reserved(Item::Run(Plan::Threads)),
        }
    }

    /// The items, in the order of their lines.
    pub fn items(&self) -> &[Item]
        ensures { result.now ≡ self.now.items }
    {
        &self.items
    }
}
