ghost use Rattle.std.specs.Prelude.{◌≡◌, ℕ, ◌+◌, ◌-◌, ◌*◌, ◌%◌, ◌<◌, ◌≤◌, true, ◌++◌, length, None, IsSome, MatchOption, IfOk, IfSome, IfNone, OnSome, OnOk, OnErr};
ghost use Rattle.std.specs.Option.{option_or};
ghost use Rattle.zk_reasm.specs.Between.{held_between, bytes_between};
ghost use Rattle.zk_reasm.specs.PageTable.{AreWithin};
ghost use Rattle.zk_reasm.specs.Piece.{byte_in};
ghost use Rattle.zk_base.specs.ByteQueue.{bytes_of, room_of};

use crate::page::{PAGE_LEN, Page};
use crate::place::PLACES;
use std::alloc::Global;
use std::collections::BTreeMap;
use zk_base::{ByteQueue, Mem};

/// How many places one page has.
const PAGE: u64 = PAGE_LEN as u64;

/// Bytes by their places, with holes between them, in pages of neighbouring places.
#[derive(Debug, Drop)]
pub struct Pages {
    pages: BTreeMap<u32, Page>,
    ghost within: { AreWithin pages },
}

impl Pages {
    ghost use Rattle.zk_reasm.specs.Pages.{byte_paged, page_at, page_of};

    /// No bytes. No memory is taken.
    #[tactic(auto, unfolding(crate::specs::Pages::byte_paged, crate::specs::Pages::page_of))]
    pub fn new(alloc: Global) -> Pages
        ensures { (at : ℕ) → byte_paged result at ≡ None }
    {
        Pages {
            pages: BTreeMap::new(alloc),
        }
    }

    /// Whether there is no page, and so no byte.
    #[tactic(auto, unfolding(crate::specs::Pages::byte_paged, crate::specs::Pages::page_of))]
    pub fn is_empty(&self) -> bool
        ensures { result ≡ true → (at : ℕ) → byte_paged self.now at ≡ None }
    {
        self.pages.is_empty()
    }

    /// Makes the pages of the places from one up to another. At `Mem` the bytes stay too.
    pub fn make_room(&mut self, from: u64, to: u64) -> Result<(), Mem>
        requires order { from ≤ to }
        requires within { to ≤ PLACES }
        ensures same { (at : ℕ) → byte_paged self.new at ≡ byte_paged self.old at }
        ensures ok { OnOk result ((at : ℕ) → from ≤ at → at < to → IsSome (page_of self.new at)) }
    {
        for key in (from / PAGE) as u32..to.div_ceil(PAGE) as u32 {
            if !self.pages.contains_key(&key) {
                self.pages.insert(key, Page::new())?;
            }
        }
        Ok(())
    }

    /// Puts bytes where nothing is yet. The answer is how many were put. At `Mem` the bytes stay.
    pub fn put(&mut self, at: u64, bytes: &[u8]) -> Result<usize, Mem>
        requires { at + length bytes.now ≤ PLACES }
        ensures bytes { OnOk result ((place : ℕ) → byte_paged self.new place ≡ option_or (byte_paged self.old place) (byte_in at bytes.now place)) }
        ensures count { IfOk result (λ count. count + held_between (byte_paged self.old) at (at + length bytes.now) ≡ length bytes.now) }
        ensures err { OnErr result ((place : ℕ) → byte_paged self.new place ≡ byte_paged self.old place) }
    {
        if at % PAGE + bytes.len() as u64 <= PAGE
            && let Some(count) = self.try_fill_page(at, bytes)
        {
            return Ok(count);
        }
        self.make_room(at, at + bytes.len() as u64)?;
        Ok(self.fill(at, bytes))
    }

    /// Puts bytes where nothing is yet, on pages that are there. The answer is how many were put.
    pub fn fill(&mut self, at: u64, bytes: &[u8]) -> usize
        requires within { at + length bytes.now ≤ PLACES }
        requires pages { (place : ℕ) → at ≤ place → place < at + length bytes.now → IsSome (page_of self.old place) }
        ensures bytes { (place : ℕ) → byte_paged self.new place ≡ option_or (byte_paged self.old place) (byte_in at bytes.now place) }
        ensures count { result + held_between (byte_paged self.old) at (at + length bytes.now) ≡ length bytes.now }
        ensures pages { (place : ℕ) → IsSome (page_of self.old place) → IsSome (page_of self.new place) }
    {
        let mut done = 0;
        let mut count = 0;
        while done < bytes.len() {
            let place = at + done as u64;
            let n = (bytes.len() - done).min(PAGE_LEN - (place % PAGE) as usize);
            count += self.fill_page(place, &bytes[done..done + n]);
            done += n;
        }
        count
    }

    /// Puts bytes where nothing is yet, on one page that is there.
    fn fill_page(&mut self, at: u64, bytes: &[u8]) -> usize
        requires place { at ≤ PLACES }
        requires within { at % PAGE_LEN + length bytes.now ≤ PAGE_LEN }
        requires page { IsSome (page_of self.old at) }
        ensures bytes { (place : ℕ) → byte_paged self.new place ≡ option_or (byte_paged self.old place) (byte_in at bytes.now place) }
        ensures count { result + held_between (byte_paged self.old) at (at + length bytes.now) ≡ length bytes.now }
        ensures pages { (place : ℕ) → IsSome (page_of self.old place) → IsSome (page_of self.new place) }
    {
        match self.try_fill_page(at, bytes) {
            Some(count) => count,
            None => unreachable!(),
        }
    }

    /// Puts bytes where nothing is yet, on one page, if it is there.
    fn try_fill_page(&mut self, at: u64, bytes: &[u8]) -> Option<usize>
        requires place { at ≤ PLACES }
        requires within { at % PAGE_LEN + length bytes.now ≤ PAGE_LEN }
        ensures bytes { OnSome result ((place : ℕ) → byte_paged self.new place ≡ option_or (byte_paged self.old place) (byte_in at bytes.now place)) }
        ensures count { IfSome result (λ count. count + held_between (byte_paged self.old) at (at + length bytes.now) ≡ length bytes.now) }
        ensures pages { OnSome result ((place : ℕ) → IsSome (page_of self.old place) → IsSome (page_of self.new place)) }
        ensures none { IfNone result (page_of self.old at ≡ None) }
        ensures same { IfNone result ((place : ℕ) → byte_paged self.new place ≡ byte_paged self.old place) }
    {
        match self.pages.get_mut(&((at / PAGE) as u32)) {
            Some(page) => Some(page.fill((at % PAGE) as usize, bytes)),
            None => None,
        }
    }

    /// The first place from `from` on without a byte.
    pub fn first_free(&self, from: u64) -> u64
        requires { from ≤ PLACES }
        ensures least { from ≤ result }
        ensures within { result ≤ PLACES }
        ensures before { (at : ℕ) → from ≤ at → at < result → IsSome (byte_paged self.now at) }
        ensures free { byte_paged self.now result ≡ None }
    {
        let mut place = from;
        let mut next = self.free_on_page(place);
        while place < next {
            place = next;
            next = self.free_on_page(place);
        }
        place
    }

    /// The first place from `from` on, on its page, without a byte, or the place behind the page.
    fn free_on_page(&self, from: u64) -> u64
        requires { from ≤ PLACES }
        ensures least { from ≤ result }
        ensures within { result ≤ PLACES }
        ensures before { (at : ℕ) → from ≤ at → at < result → IsSome (byte_paged self.now at) }
        ensures free { result ≡ from → byte_paged self.now from ≡ None }
    {
        match self.pages.get(&((from / PAGE) as u32)) {
            Some(page) => { from / PAGE * PAGE + page.first_free((from % PAGE) as usize) as u64 }
            None => from,
        }
    }

    /// The first place from `from` on with a byte.
    pub fn first_held(&self, from: u64) -> Option<u64>
        requires { from ≤ PLACES }
        ensures { MatchOption result ((at : ℕ) → from ≤ at → byte_paged self.now at ≡ None) (λ found.
            (from ≤ found) × (found < PLACES) × IsSome (byte_paged self.now found)
            × ((at : ℕ) → from ≤ at → at < found → byte_paged self.now at ≡ None)) }
    {
        let mut from = from;
        while let Some((key, page)) = self.next_page((from / PAGE) as u32) {
            let first = key as u64 * PAGE;
            let start = from.max(first) - first;
            if let Some(at) = page.first_held(start as usize) {
                return Some(first + at as u64);
            }
            from = first + PAGE;
        }
        None
    }

    /// The first page from a number on.
    fn next_page(&self, least: u32) -> Option<(u32, &Page)>
        ensures { MatchOption result ((key : ℕ) → least ≤ key → page_at self.now key ≡ None) (λ found.
            (least ≤ found.0) × ((found.0 + 1) * PAGE_LEN ≤ PLACES) × (page_at self.now found.0 ≡ Some found.1.now)
            × ((key : ℕ) → least ≤ key → key < found.0 → page_at self.now key ≡ None)) }
    {
        let (key, page) = self.pages.range(least..).next()?;
        Some((*key, page))
    }

    /// Whether no place from one up to another has a byte.
    pub fn is_free(&self, from: u64, to: u64) -> bool
        requires { from ≤ PLACES }
        ensures { result ≡ true → (at : ℕ) → from ≤ at → at < to → byte_paged self.now at ≡ None }
    {
        match self.first_held(from) {
            Some(place) => to <= place,
            None => true,
        }
    }

    /// How many places from one up to another have a byte.
    pub fn count(&self, from: u64, to: u64) -> u64
        requires order { from ≤ to }
        requires within { to ≤ PLACES }
        ensures { result ≡ held_between (byte_paged self.now) from to }
    {
        let mut count = 0;
        let mut from = from;
        while let Some(place) = self.first_held(from) {
            if to <= place {
                break;
            }
            count += 1;
            from = place + 1;
        }
        count
    }

    /// Moves bytes to a run, from a place on up to the first place without a byte or to `to`. The
    /// answer is the place behind them.
    pub fn move_run(&mut self, from: u64, to: u64, run: &mut ByteQueue) -> u64
        requires within { to ≤ PLACES }
        requires order { from ≤ to }
        requires room { held_between (byte_paged self.old) from to ≤ room_of run.old }
        ensures order { from ≤ result }
        ensures within { result ≤ to }
        ensures run { bytes_of run.new ≡ bytes_of run.old ++ bytes_between (byte_paged self.old) from result }
        ensures room { room_of run.old ≤ room_of run.new + (result - from) }
        ensures had { (at : ℕ) → from ≤ at → at < result → IsSome (byte_paged self.old at) }
        ensures behind { (at : ℕ) → result ≤ at → byte_paged self.new at ≡ byte_paged self.old at }
        ensures stop { result < to → byte_paged self.old result ≡ None }
    {
        let mut place = from;
        let mut next = self.move_page(place, to, run);
        while place < next {
            place = next;
            next = self.move_page(place, to, run);
        }
        place
    }

    /// Moves bytes of one page to a run, from a place on up to the first place without a byte, to
    /// `to` or to the page's end. The answer is the place behind them.
    fn move_page(&mut self, from: u64, to: u64, run: &mut ByteQueue) -> u64
        requires within { to ≤ PLACES }
        requires order { from ≤ to }
        requires room { held_between (byte_paged self.old) from to ≤ room_of run.old }
        ensures order { from ≤ result }
        ensures within { result ≤ to }
        ensures run { bytes_of run.new ≡ bytes_of run.old ++ bytes_between (byte_paged self.old) from result }
        ensures room { room_of run.old ≤ room_of run.new + (result - from) }
        ensures had { (at : ℕ) → from ≤ at → at < result → IsSome (byte_paged self.old at) }
        ensures behind { (at : ℕ) → result ≤ at → byte_paged self.new at ≡ byte_paged self.old at }
        ensures stop { result ≡ from → from < to → byte_paged self.old from ≡ None }
    {
        let key = (from / PAGE) as u32;
        let Some(page) = self.pages.get_mut(&key) else {
            return from;
        };
        let first = from / PAGE * PAGE;
        let end = (to - first).min(PAGE) as usize;
        let at = page.move_run((from % PAGE) as usize, end, run);
        self.drop_if_empty(key);
        first + at as u64
    }

    /// Drops a page that has no byte.
    fn drop_if_empty(&mut self, key: u32)
        ensures { (at : ℕ) → byte_paged self.new at ≡ byte_paged self.old at }
    {
        if let Some(page) = self.pages.get(&key)
            && page.is_empty()
        {
            self.pages.remove(&key);
        }
    }

    /// Drops the bytes from a place on.
    pub fn cut(&mut self, from: u64)
        requires { from ≤ PLACES }
        ensures below { (at : ℕ) → at < from → byte_paged self.new at ≡ byte_paged self.old at }
        ensures above { (at : ℕ) → from ≤ at → byte_paged self.new at ≡ None }
    {
        self.drop_pages(from.div_ceil(PAGE) as u32);
        if let Some(page) = self.pages.get_mut(&((from / PAGE) as u32)) {
            page.cut((from % PAGE) as usize);
        }
    }

    /// Drops the pages from a number on.
    fn drop_pages(&mut self, least: u32)
        ensures below { (key : ℕ) → key < least → page_at self.new key ≡ page_at self.old key }
        ensures above { (key : ℕ) → least ≤ key → page_at self.new key ≡ None }
    {
        while let Some((key, _)) = self.pages.last_key_value()
            && least <= *key
        {
            self.pages.pop_last();
        }
    }
}
