//! How many deals beat a plan in the making.

use crate::tries::choices::{Choices, Classes};
use std::alloc::{AllocError, Allocator};

/// Some classes of a choice of ranks, and how often the plan in the making lets them through.
#[derive(Clone, Copy)]
struct Item {
    choice: usize,
    classes: Classes,
    times: u32,
    // The index of the next item of the same choice.
    next: Option<usize>,
}

/// Classes of a choice of ranks that each item lets through or none of which it lets through.
#[derive(Clone, Copy)]
pub(crate) struct Group {
    /// The number of the choice.
    pub(crate) choice: usize,
    pub(crate) classes: Classes,
    // How many deals are in them.
    weight: u64,
    // The index of the next group of the same choice.
    next: Option<usize>,
}

/// What passes of a choice of ranks.
#[derive(Clone, Copy)]
struct Account {
    // The index of the first item, and of the first group.
    item: Option<usize>,
    group: Option<usize>,
    // How many deals pass.
    beaten: u32,
}

/// What a plan in the making lets through.
#[derive(Drop)]
pub(crate) struct Ledger<A: Allocator> {
    accounts: Vec<Account, A>,
    items: Vec<Item, A>,
    groups: Vec<Group, A>,
    /// How many deals beat the plan.
    pub(crate) beaten: u64,
}

impl<A: Allocator + Copy> Ledger<A> {
    /// Returns a ledger in which nothing passes yet, for so many choices. It fails if an allocation fails.
    pub(crate) fn new(alloc: A, choices: usize) -> Result<Self, AllocError> {
        let mut ledger = Ledger {
            accounts: Vec::new(alloc),
            items: Vec::new(alloc),
            groups: Vec::new(alloc),
            beaten: 0,
        };
        for _ in 0..choices {
            ledger.accounts.push(Account {
                item: None,
                group: None,
                beaten: 0,
            })?;
        }
        Ok(ledger)
    }

    /// The index of the item that lets some classes of a choice through. It is added if there is none yet. It fails if
    /// an allocation fails.
    pub(crate) fn enter(&mut self, choice: usize, classes: Classes) -> Result<usize, AllocError> {
        match self.item_of(choice, classes) {
            Some(item) => Ok(item),
            None => self.add(choice, classes),
        }
    }

    fn account(&self, choice: usize) -> Option<Account> {
        self.accounts.get(choice).copied()
    }

    // The index of the item with some classes.
    fn item_of(&self, choice: usize, classes: Classes) -> Option<usize> {
        let mut next = self.account(choice)?.item;
        for _ in 0..self.items.len() {
            let index = next?;
            let item = self.items.get(index)?;
            if item.classes == classes {
                return Some(index);
            }
            next = item.next;
        }
        None
    }

    // Adds an item. Returns its index.
    fn add(&mut self, choice: usize, classes: Classes) -> Result<usize, AllocError> {
        let index = self.items.len();
        let mut next = None;
        if let Some(account) = self.accounts.get_mut(choice) {
            next = account.item;
            account.item = Some(index);
        }
        self.items.push(Item {
            choice,
            classes,
            times: 0,
            next,
        })?;
        Ok(index)
    }

    /// Divides the classes of each choice into groups. It fails if an allocation fails.
    pub(crate) fn divide(&mut self, choices: &Choices<A>) -> Result<(), AllocError> {
        for index in 0..self.items.len() {
            if let Some(item) = self.items.get(index).copied() {
                let rest = self.split(choices, &item)?;
                if rest != 0 {
                    let next = match self.account(item.choice) {
                        Some(account) => account.group,
                        None => None,
                    };
                    let group = self.groups.len();
                    self.add_group(choices, item.choice, rest, next)?;
                    if let Some(account) = self.accounts.get_mut(item.choice) {
                        account.group = Some(group);
                    }
                }
            }
        }
        Ok(())
    }

    // Splits the groups of which an item has only a part. Returns what is in no group.
    fn split(&mut self, choices: &Choices<A>, item: &Item) -> Result<Classes, AllocError> {
        let mut rest = item.classes;
        let mut next = match self.account(item.choice) {
            Some(account) => account.group,
            None => None,
        };
        for _ in 0..self.groups.len() {
            let Some(index) = next else {
                break;
            };
            let Some(group) = self.groups.get(index).copied() else {
                break;
            };
            next = group.next;
            let both = group.classes & item.classes;
            rest &= !both;
            if both != 0 && both != group.classes {
                let other = self.groups.len();
                self.add_group(choices, item.choice, group.classes & !both, group.next)?;
                if let Some(group) = self.groups.get_mut(index) {
                    group.classes = both;
                    group.weight = u64::from(choices.count(item.choice, both));
                    group.next = Some(other);
                }
            }
        }
        Ok(rest)
    }

    fn add_group(
        &mut self,
        choices: &Choices<A>,
        choice: usize,
        classes: Classes,
        next: Option<usize>,
    ) -> Result<(), AllocError> {
        self.groups.push(Group {
            choice,
            classes,
            weight: u64::from(choices.count(choice, classes)),
            next,
        })?;
        Ok(())
    }

    /// A number of deals that divides those of each group.
    pub(crate) fn step(&self) -> u64 {
        let mut step = 0;
        for index in 0..self.groups.len() {
            step = divisor(step, self.weight(index));
        }
        step
    }

    /// How many groups there are.
    pub(crate) fn len(&self) -> usize {
        self.groups.len()
    }

    /// How many deals are in a group.
    pub(crate) fn weight(&self, group: usize) -> u64 {
        match self.groups.get(group) {
            Some(group) => group.weight,
            None => 0,
        }
    }

    /// The group at an index.
    pub(crate) fn group(&self, index: usize) -> Option<Group> {
        self.groups.get(index).copied()
    }

    /// The index of the first group that an item lets through.
    pub(crate) fn first_group(&self, item: usize) -> Option<usize> {
        let item = self.items.get(item)?;
        self.among(item, self.account(item.choice)?.group)
    }

    /// The index of the group after another that an item lets through.
    pub(crate) fn next_group(&self, item: usize, group: usize) -> Option<usize> {
        self.among(self.items.get(item)?, self.groups.get(group)?.next)
    }

    // The first of some groups that an item lets through.
    fn among(&self, item: &Item, first: Option<usize>) -> Option<usize> {
        let mut next = first;
        for _ in 0..self.groups.len() {
            let index = next?;
            let group = self.groups.get(index)?;
            if group.classes & item.classes != 0 {
                return Some(index);
            }
            next = group.next;
        }
        None
    }

    /// Lets an item through once more.
    pub(crate) fn let_through(&mut self, choices: &Choices<A>, index: usize) {
        if let Some(item) = self.items.get_mut(index) {
            item.times = item.times.saturating_add(1);
            if item.times == 1 {
                let choice = item.choice;
                self.count(choices, choice);
            }
        }
    }

    /// Takes that back.
    pub(crate) fn take_back(&mut self, choices: &Choices<A>, index: usize) {
        if let Some(item) = self.items.get_mut(index) {
            item.times = item.times.saturating_sub(1);
            if item.times == 0 {
                let choice = item.choice;
                self.count(choices, choice);
            }
        }
    }

    // Counts anew how many deals of a choice pass.
    fn count(&mut self, choices: &Choices<A>, choice: usize) {
        let Some(account) = self.account(choice) else {
            return;
        };
        let beaten = choices.count(choice, self.classes_from(account.item));
        self.beaten = self
            .beaten
            .saturating_sub(u64::from(account.beaten))
            .saturating_add(u64::from(beaten));
        if let Some(other) = self.accounts.get_mut(choice) {
            other.beaten = beaten;
        }
    }

    // The classes that an item and those after it let through.
    fn classes_from(&self, first: Option<usize>) -> Classes {
        let mut classes = 0;
        let mut next = first;
        for _ in 0..self.items.len() {
            let Some(index) = next else {
                break;
            };
            let Some(item) = self.items.get(index) else {
                break;
            };
            if item.times > 0 {
                classes |= item.classes;
            }
            next = item.next;
        }
        classes
    }
}

// The greatest common divisor of two numbers.
fn divisor(one: u64, other: u64) -> u64 {
    let (mut high, mut low) = (one, other);
    for _ in 0..100u8 {
        if low == 0 {
            break;
        }
        (high, low) = (low, high % low);
    }
    high
}
