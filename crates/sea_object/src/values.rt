//! Values under keys.
ghost use Rattle.std.specs.Prelude.{◌≡◌, ◌↔◌, ◌∷◌, ◌++◌, ◌<◌, ◌^◌, [], Some};
ghost use Rattle.std.specs.Prelude.{IsTrue, IfOk, IfErr, OnOk, OnErr};
ghost use Rattle.std.specs.Option.{option_copied, option_flatten};
ghost use Rattle.std.specs.Ordering.{nat_cmp};
ghost use Rattle.std.specs.Cmp.Lexicographic.{slice_cmp};
ghost use Rattle.std.specs.declared.cmp.Ordering.TheVariants.{Less};
ghost use Rattle.sea_object.specs.Answer.{overfull};
ghost use Rattle.sea_object.specs.Held.{values_in};
ghost use Rattle.sea_object.specs.Objects.{first_pairs, keys_between, with_pairs, without_keys};
ghost use Rattle.sea_object.specs.Undo.{MayHalt, before_changes, put_back_slot, refilled};
ghost use Rattle.sea_object.specs.Undo.{values_before};

use crate::Why;
use crate::named::{behind, copy_named, is_below};
use crate::undo::Halt;
use sea_base::{Data, Duplicate, Key, Names, NoMemory, Pairs, Sequence};
use std::alloc::Global;
use std::collections::BTreeMap;
use std::marker::Model;
use std::mem::{drop, replace};
use std::ops::Bound;

/// Values under keys, in the order of the keys' bytes. The slot of a key is empty while the value
/// that was taken out of it may come back, and contracts see a finite map of slots.
#[derive(Debug, Drop)]
pub struct Values {
    alloc: Global,
    slots: BTreeMap<Key, Option<Data>>,
}

/// What stood in a slot before it was changed, or that there was none.
#[derive(Debug, Drop)]
pub(crate) struct Kept {
    key: Key,
    slot: Option<Option<Data>>,
}

/// What stood in slots, in the order in which they were changed.
pub(crate) type Log = Sequence<Kept>;

/// What stood in values before a change.
#[derive(Debug, Drop)]
pub(crate) enum Former {
    /// All of it.
    Whole(Values),
    /// What stood in some slots.
    Slots(Log),
}

impl Model for Values {
    ghost use Rattle.std.specs.FinMap as map;
    ghost use Rattle.sea_object.specs.Held.{ValueSlots, value_slots_code};

    ghost Value = { ValueSlots };

    ghost coded = { value_slots_code };

    ghost view = { λ v. map.from_entries v.slots.entries };
}

impl Values {
    ghost use Rattle.std.specs.FinMap as map;

    /// No value. It takes no memory.
    pub fn new(alloc: Global) -> Values
        ensures { result ≡ map.empty }
    {
        Values {
            alloc,
            slots: BTreeMap::new(alloc),
        }
    }

    /// How many keys there are, which are counted.
    pub fn len(&self) -> usize
        ensures value { result ≡ map.len (values_in self.now) }
        ensures bound { result < 2 ^ 63 }
    {
        let mut count = self.slots.len();
        for (_, slot) in &self.slots {
            if slot.is_none() {
                count -= 1;
            }
        }
        count
    }

    // Whether there are more keys than so many. They are counted only where there are more slots.
    fn is_over(&self, limit: usize) -> bool
        ensures { IsTrue result ↔ limit < map.len (values_in self.now) }
    {
        self.slots.len() > limit && self.len() > limit
    }

    /// The value of a key.
    pub fn get(&self, key: &Key) -> Option<&Data>
        ensures { option_copied result ≡ map.get (values_in self.now) key.now }
    {
        match self.slots.get(key) {
            Some(slot) => slot.as_ref(),
            None => None,
        }
    }

    /// All pairs, in order.
    pub fn all(&self) -> Result<Pairs, NoMemory>
        ensures { IfOk result (λ pairs. pairs ≡ map.entries (values_in self.now)) }
    {
        let pairs = self.first(self.len(), None)?;
        Ok(pairs)
    }

    /// The first pairs in order, of the keys behind one, `limit` of them at most.
    pub fn first(&self, limit: usize, after: Option<&Key>) -> Result<Pairs, NoMemory>
        ensures { IfOk result
            (λ pairs. pairs ≡ first_pairs limit (option_copied after.entry) (values_in self.now)) }
    {
        let mut pairs = Pairs::new(self.alloc);
        let start = behind(after)?;
        for (key, slot) in self.slots.range((start, Bound::Unbounded)) {
            if pairs.items().len() >= limit {
                return Ok(pairs);
            }
            if let Some(value) = slot {
                pairs.push((key.copy()?, value.copy()?))?;
            }
        }
        Ok(pairs)
    }

    /// The first keys in order, from one on and below another, `bound` of them at most.
    pub(crate) fn keys_between(&self, from: &Key, to: &Key, bound: usize) -> Result<Names, NoMemory>
        ensures { IfOk result
            (λ keys. keys ≡ keys_between from.now to.now bound (values_in self.now)) }
    {
        if is_below(from, to) {
            self.keys_in(from, to, bound)
        } else {
            Ok(Names::new(self.alloc))
        }
    }

    // The same where there may be such keys.
    fn keys_in(&self, from: &Key, to: &Key, bound: usize) -> Result<Names, NoMemory>
        requires { slice_cmp nat_cmp from.now to.now ≡ Less }
        ensures { IfOk result
            (λ keys. keys ≡ keys_between from.now to.now bound (values_in self.now)) }
    {
        let mut keys = Names::new(self.alloc);
        let start = Bound::Included(from.copy()?);
        let end = Bound::Excluded(to.copy()?);
        for (key, slot) in self.slots.range((start, end)) {
            if keys.items().len() >= bound {
                return Ok(keys);
            }
            if slot.is_some() {
                keys.push(key.copy()?)?;
            }
        }
        Ok(keys)
    }
}

impl Values {
    ghost use Rattle.std.specs.FinMap as map;

    /// Puts pairs in order, unless there would be more keys than the limit, and answers what this
    /// replaced. Where it comes to a halt all is as before.
    pub(crate) fn put_all(
        &mut self,
        pairs: &[(Key, Data)],
        limit: usize,
        why: Why,
    ) -> Result<Former, Halt>
        ensures fits { OnOk result
            (overfull limit (with_pairs pairs.now (values_in self.old)) why ≡ None) }
        ensures ok { OnOk result (values_in self.new ≡ with_pairs pairs.now (values_in self.old)) }
        ensures former { IfOk result (λ former. values_before former self.new ≡ self.old) }
        ensures err { OnErr result (self.new ≡ self.old) }
        ensures refused { IfErr result
            (MayHalt (overfull limit (with_pairs pairs.now (values_in self.old)) why)) }
    {
        let mut log = Log::new(self.alloc);
        let done = self.put_pairs(pairs, &mut log);
        if done.is_err() {
            self.put_back(log);
            return Err(Halt::NoMemory);
        }
        if self.is_over(limit) {
            self.put_back(log);
            return Err(Halt::Refused(why));
        }
        Ok(Former::Slots(log))
    }

    /// Takes the values of keys out, and answers what stood there. After want of memory all is as
    /// before.
    pub(crate) fn take_all(&mut self, keys: &[Key]) -> Result<Former, NoMemory>
        ensures ok { OnOk result (values_in self.new ≡ without_keys keys.now (values_in self.old)) }
        ensures former { IfOk result (λ former. values_before former self.new ≡ self.old) }
        ensures err { OnErr result (self.new ≡ self.old) }
    {
        let mut log = Log::new(self.alloc);
        let done = self.take_keys(keys, &mut log);
        if done.is_err() {
            self.put_back(log);
            return Err(NoMemory);
        }
        Ok(Former::Slots(log))
    }

    /// Takes all values out, and answers them.
    #[tactic(auto, using(crate::proofs::Logs::values_none))]
    pub(crate) fn clear(&mut self) -> Former
        ensures after { values_in self.new ≡ map.empty }
        ensures former { values_before result self.new ≡ self.old }
    {
        let alloc = self.alloc;
        Former::Whole(replace(self, Values::new(alloc)))
    }

    /// Takes a change back.
    pub(crate) fn restore(&mut self, former: Former)
        ensures { self.new ≡ values_before former self.old }
    {
        match former {
            Former::Whole(values) => *self = values,
            Former::Slots(log) => self.put_back(log),
        }
    }

    /// Gives up the slots that a change left empty, once it is not to be taken back.
    pub(crate) fn settle(&mut self, former: Former)
        ensures { values_in self.new ≡ values_in self.old }
    {
        if let Former::Slots(log) = former {
            for kept in log.items() {
                self.tidy(&kept.key);
            }
        }
    }

    fn put_pairs(&mut self, pairs: &[(Key, Data)], log: &mut Log) -> Result<(), NoMemory>
        ensures ok { OnOk result (values_in self.new ≡ with_pairs pairs.now (values_in self.old)) }
        ensures before { before_changes log.new self.new ≡ before_changes log.old self.old }
    {
        for (key, value) in pairs {
            self.put(key, value, log)?;
        }
        Ok(())
    }

    fn take_keys(&mut self, keys: &[Key], log: &mut Log) -> Result<(), NoMemory>
        ensures ok { OnOk result (values_in self.new ≡ without_keys keys.now (values_in self.old)) }
        ensures before { before_changes log.new self.new ≡ before_changes log.old self.old }
    {
        for key in keys {
            self.take(key, log)?;
        }
        Ok(())
    }

    fn put(&mut self, key: &Key, value: &Data, log: &mut Log) -> Result<(), NoMemory>
        ensures ok { OnOk result
            (values_in self.new ≡ map.insert (values_in self.old) key.now value.now) }
        ensures before { before_changes log.new self.new ≡ before_changes log.old self.old }
    {
        self.note(key, log)?;
        self.fill(key, value)
    }

    fn take(&mut self, key: &Key, log: &mut Log) -> Result<(), NoMemory>
        ensures ok { OnOk result (values_in self.new ≡ map.remove (values_in self.old) key.now) }
        ensures before { before_changes log.new self.new ≡ before_changes log.old self.old }
    {
        self.note(key, log)?;
        self.refill(key, None);
        Ok(())
    }

    // Notes what stands in the slot of a key, which is about to change.
    fn note(&self, key: &Key, log: &mut Log) -> Result<(), NoMemory>
        ensures ok { OnOk result
            (log.new ≡ log.old ++ record { key = key.now; slot = map.get self.now key.now } ∷ []) }
        ensures err { OnErr result (log.new ≡ log.old) }
    {
        let kept = self.kept(key)?;
        log.push(kept)
    }

    // Puts a value into the slot of a key, which is made where there is none.
    fn fill(&mut self, key: &Key, value: &Data) -> Result<(), NoMemory>
        ensures ok { OnOk result (self.new ≡ map.insert self.old key.now (Some value.now)) }
        ensures err { OnErr result (self.new ≡ self.old) }
    {
        let key = key.copy()?;
        let value = value.copy()?;
        self.slots.insert(key, Some(value))?;
        Ok(())
    }

    // What stands in the slot of a key.
    fn kept(&self, key: &Key) -> Result<Kept, NoMemory>
        ensures { IfOk result
            (λ kept. kept ≡ record { key = key.now; slot = map.get self.now key.now }) }
    {
        let slot = self.slot_of(key)?;
        let key = key.copy()?;
        Ok(Kept { key, slot })
    }

    fn slot_of(&self, key: &Key) -> Result<Option<Option<Data>>, NoMemory>
        ensures { IfOk result (λ slot. slot ≡ map.get self.now key.now) }
    {
        match self.slots.get(key) {
            Some(slot) => Ok(Some(slot.copy()?)),
            None => Ok(None),
        }
    }

    // Takes changes back, the last one first.
    fn put_back(&mut self, log: Log)
        ensures { self.new ≡ before_changes log self.old }
    {
        let mut log = log.into_vec();
        while let Some(kept) = log.pop() {
            self.put_back_one(kept);
        }
    }

    fn put_back_one(&mut self, kept: Kept)
        ensures { self.new ≡ put_back_slot self.old kept.key kept.slot }
    {
        let Kept { key, slot } = kept;
        match slot {
            Some(slot) => self.refill(&key, slot),
            None => self.remove(&key),
        }
    }

    // Puts something else into the slot of a key, if there is one.
    fn refill(&mut self, key: &Key, value: Option<Data>)
        ensures { self.new ≡ refilled self.old key.now value (map.get self.old key.now) }
    {
        if let Some(slot) = self.slots.get_mut(key) {
            put_in(slot, value);
            return;
        }
        drop(value);
    }

    // Takes a slot away.
    fn remove(&mut self, key: &Key)
        ensures { self.new ≡ map.remove self.old key.now }
    {
        self.slots.remove(key);
    }

    // Takes a slot away that is empty.
    fn tidy(&mut self, key: &Key)
        ensures { values_in self.new ≡ values_in self.old }
    {
        match self.get(key) {
            Some(_) => {}
            None => self.remove(key),
        }
    }
}

fn put_in(slot: &mut Option<Data>, value: Option<Data>)
    ensures { slot.new ≡ value }
{
    *slot = value;
}

impl Duplicate for Values {
    fn copy(&self) -> Result<Values, NoMemory> {
        let slots = copy_named(self.alloc, &self.slots)?;
        Ok(Values {
            alloc: self.alloc,
            slots,
        })
    }
}
