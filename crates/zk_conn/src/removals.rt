ghost use Rattle.std.specs.Prelude.{◌≡◌, ◌≢◌, ◌<◌, ◌≤◌, ◌+◌, ◌*◌, ℕ, [], true, length, List, None, Option, Some, slice_index_or, slice_set, OnOk};
ghost use Rattle.zk_conn.specs.Removals.{at_slot, is_before, is_sooner, earlier, first_at, AllBut, IsRaised, IsTree};
ghost use Rattle.zk_conn.specs.declared.removals.Filing.{Filing};

use std::alloc::Global;
use zk_base::{Mem, Moment};

/// Where an instance stands in the order of removals.
#[derive(Clone, Copy, Debug, PartialEq, Eq)]
pub struct Filing {
    pub at: Moment,
    pub number: u64,
    pub slot: usize,
}

impl Filing {
    /// Whether it stands before another: by moment, and then by number.
    fn is_before(&self, other: &Filing) -> bool
        ensures { result ≡ is_before self.now other.now }
    {
        self.at < other.at || self.at <= other.at && self.number < other.number
    }

    /// Whether it stands before another, or there is no other.
    fn is_sooner(&self, other: Option<Filing>) -> bool
        ensures { result ≡ is_sooner self.now other }
    {
        match other {
            Some(other) => self.is_before(&other),
            None => true,
        }
    }
}

/// The one of two that stands before the other.
pub fn earlier(a: Option<Filing>, b: Option<Filing>) -> Option<Filing>
    ensures { result ≡ earlier a b }
{
    match (a, b) {
        (Some(x), Some(y)) => { if y.is_before(&x) { b } else { a } }
        (Some(_), None) => a,
        (None, _) => b,
    }
}

/// Whether two are the same.
fn are_same(a: Option<Filing>, b: Option<Filing>) -> bool
    ensures { result ≡ true → a ≡ b }
{
    match (a, b) {
        (Some(x), Some(y)) => x.at.0 == y.at.0 && x.number == y.number && x.slot == y.slot,
        (None, None) => true,
        _ => false,
    }
}

/// What a list has for a slot.
fn at_slot(filings: &[Option<Filing>], slot: usize) -> Option<Filing>
    ensures { result ≡ slice_index_or filings.now slot None }
{
    match filings.get(slot) {
        Some(filing) => *filing,
        None => None,
    }
}

/// Gives a list room for so many slots.
fn lengthen(filings: &mut Vec<Option<Filing>>, slots: usize) -> Result<(), Mem>
    ensures same { (slot : ℕ) → at_slot filings.new.items slot ≡ at_slot filings.old.items slot }
    ensures kept { length filings.old.items ≤ length filings.new.items }
    ensures long { OnOk result (slots ≤ length filings.new.items) }
{
    if filings.len() < slots {
        filings.resize(slots, None)?;
    }
    Ok(())
}

/// Finds the first of a slot and of those below it again, where those below it are right. Whether it
/// is the one that was known.
fn refresh(filings: &[Option<Filing>], firsts: &mut [Option<Filing>], slot: usize) -> bool
    requires { slot < length firsts.old }
    ensures found { firsts.new ≡ slice_set firsts.old slot (first_at filings.now firsts.old slot) }
    ensures known { result ≡ true → slice_index_or firsts.old slot None ≡ first_at filings.now firsts.old slot }
{
    let left = at_slot(firsts, 2 * slot + 1);
    let right = at_slot(firsts, 2 * slot + 2);
    let first = earlier(earlier(at_slot(filings, slot), left), right);
    let known = firsts[slot];
    firsts[slot] = first;
    are_same(known, first)
}

/// Puts the firsts right from a slot upwards, where its filing alone has changed: up to the first slot
/// that knows the same as before.
fn refile(filings: &[Option<Filing>], firsts: &mut [Option<Filing>], slot: usize)
    ensures { AllBut filings.now firsts.old slot → IsTree filings.now firsts.new }
{
    if slot >= firsts.len() {
        return;
    }
    let mut at = slot;
    while at > 0 {
        if refresh(filings, firsts, at) {
            return;
        }
        at = (at - 1) / 2;
    }
    refresh(filings, firsts, at);
}

/// Puts the firsts right from a slot upwards, where its filing alone has changed and stands before the
/// one that was there: up to the first slot that knows of one before it.
fn raise(firsts: &mut [Option<Filing>], slot: usize, filing: Filing)
    requires { slot < length firsts.old }
    ensures { (filings : List (Option Filing)) → IsRaised filings firsts.old slot filing → IsTree filings firsts.new }
{
    let mut at = slot;
    while filing.is_sooner(firsts[at]) {
        firsts[at] = Some(filing);
        if at == 0 {
            return;
        }
        at = (at - 1) / 2;
    }
}

/// The index of removals. The slots stand in a heap's tree: below slot n stand the slots 2n + 1 and
/// 2n + 2.
#[derive(Debug, Drop)]
pub struct Removals {
    /// Where the instance of each slot is filed.
    pub filings: Vec<Option<Filing>>,
    /// The first of each slot's filing and of those below it.
    pub firsts: Vec<Option<Filing>>,
}

impl Removals {
    ghost use Rattle.zk_conn.specs.Removals.{filed_in, HasPlace, IsIndex};

    /// Nothing is filed. No memory is taken.
    pub fn new(alloc: Global) -> Removals
        ensures filings { result.filings.items ≡ [] }
        ensures firsts { result.firsts.items ≡ [] }
    {
        Removals {
            filings: Vec::new(alloc),
            firsts: Vec::new(alloc),
        }
    }

    /// Makes room for so many slots.
    pub fn make_room(&mut self, slots: usize) -> Result<(), Mem>
        ensures index { IsIndex self.old → IsIndex self.new }
        ensures same { (slot : ℕ) → filed_in self.new slot ≡ filed_in self.old slot }
        ensures room { OnOk result ((slot : ℕ) → slot < slots → HasPlace self.new slot) }
    {
        lengthen(&mut self.filings, slots)?;
        lengthen(&mut self.firsts, slots)
    }

    /// Files the instance of a slot. Nothing is filed for a slot without a place.
    pub fn file(&mut self, slot: usize, filing: Filing)
        ensures index { IsIndex self.old → IsIndex self.new }
        ensures filed { HasPlace self.old slot → filed_in self.new slot ≡ Some filing }
        ensures others { (other : ℕ) → other ≢ slot → filed_in self.new other ≡ filed_in self.old other }
    {
        if slot >= self.filings.len() || slot >= self.firsts.len() {
            return;
        }
        let known = self.filings[slot];
        self.filings[slot] = Some(filing);
        if filing.is_sooner(known) {
            raise(&mut self.firsts, slot, filing);
        } else {
            refile(&self.filings, &mut self.firsts, slot);
        }
    }

    /// Files nothing any more for a slot.
    pub fn forget(&mut self, slot: usize)
        ensures index { IsIndex self.old → IsIndex self.new }
        ensures gone { filed_in self.new slot ≡ None }
        ensures others { (other : ℕ) → other ≢ slot → filed_in self.new other ≡ filed_in self.old other }
    {
        if slot < self.filings.len() {
            self.filings[slot] = None;
            refile(&self.filings, &mut self.firsts, slot);
        }
    }

    /// What is filed first.
    pub fn first(&self) -> Option<Filing>
        ensures { result ≡ slice_index_or self.now.firsts.items 0 None }
    {
        at_slot(&self.firsts, 0)
    }
}
