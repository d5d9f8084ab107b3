ghost use Rattle.std.specs.Prelude.{◌≡◌, ◌==◌, ◌<◌, ◌++◌, ◌∷◌, [], ℕ, if◌then◌else◌, map, filter, length, slice_get, Some, IfOk, OnOk, All};
ghost use Rattle.zk_base.specs.declared.numbers.EventNo.{EventNo as Event};
ghost use Rattle.zk_typed.specs.Dispatch.{handlers_of};
ghost use Rattle.zk_typed.specs.Meaning as meaning;
ghost use Rattle.zk_typed.specs.Program.{Program};
ghost use Rattle.zk_lower.specs.Lowering.{lowered};
ghost use Rattle.zk_lower.specs.View.{code_of, global_of, handler_of};
ghost use Rattle.zk_machine.specs.Handling as handling;
ghost use Rattle.zk_machine.specs.Handling.{expiring_from, numbered_of, numbers_at, numbers_for};

use std::alloc::Global;
use std::cmp::Reverse;
use zk_base::{EventNo, HandlerNo, Mem};
use zk_lower::{Code, GlobalCode, HandlerCode, number_at};

/// A handler and its number.
#[derive(Clone, Copy, Debug)]
pub struct Numbered {
    pub number: HandlerNo,
    pub handler: HandlerCode,
}

/// Handlers with their numbers. More than a `u32` numbers are refused for want of memory.
fn with_numbers(alloc: Global, handlers: &[HandlerCode]) -> Result<Vec<Numbered>, Mem>
    ensures { IfOk result (λ list. map numbered_of list.items ≡ handling.numbered 0 (map handler_of handlers.now)) }
{
    let mut list = Vec::new(alloc);
    for (index, handler) in handlers.iter().enumerate() {
        let Some(number) = number_at(index) else {
            return Err(Mem);
        };
        list.push(Numbered {
            number: HandlerNo(number),
            handler: *handler,
        })?;
    }
    Ok(list)
}

/// Puts handlers into the order in which they run.
fn put_in_order(list: &mut Vec<Numbered>) -> Result<(), Mem>
    ensures { OnOk result (map numbered_of list.new.items ≡ meaning.in_order (λ one. one.1.priority) (map numbered_of list.old.items)) }
{
    list.sort_by_key(|one| Reverse(one.handler.priority))?;
    Ok(())
}

/// Makes lists up to an event's, where there are fewer.
fn widen(alloc: Global, lists: &mut Vec<Vec<HandlerNo>>, event: EventNo) -> Result<(), Mem>
    ensures same { OnOk result ((other : ℕ) → numbers_at lists.new.items other ≡ numbers_at lists.old.items other) }
    ensures there { OnOk result (event.0 < length lists.new.items) }
{
    let more = (event.0 as usize + 1).saturating_sub(lists.len());
    for _ in 0..more {
        lists.push(Vec::new(alloc))?;
    }
    Ok(())
}

/// Puts a handler behind those of its event.
fn put(
    alloc: Global,
    lists: &mut Vec<Vec<HandlerNo>>,
    event: EventNo,
    number: HandlerNo,
) -> Result<(), Mem>
    ensures { OnOk result ((other : ℕ) → numbers_at lists.new.items other ≡ (if event.0 == other then numbers_at lists.old.items other ++ number.0 ∷ [] else numbers_at lists.old.items other)) }
{
    widen(alloc, lists, event)?;
    lists[event.0 as usize].push(number)?;
    Ok(())
}

/// A copy of a handler with its number.
fn numbered_copy(one: &Numbered) -> Numbered
    ensures { result ≡ one.now }
{
    *one
}

/// The handlers of each event, in the order in which they stand.
fn by_event(alloc: Global, handlers: &[Numbered]) -> Result<Vec<Vec<HandlerNo>>, Mem>
    ensures { IfOk result (λ lists. (event : ℕ) → numbers_at lists.items event ≡ map (λ one. one.0) (filter (λ one. one.1.event.0 == event) (map numbered_of handlers.now))) }
{
    let mut lists = Vec::new(alloc);
    for one in handlers {
        let copy = numbered_copy(one);
        put(alloc, &mut lists, copy.handler.event, copy.number)?;
    }
    Ok(lists)
}

/// The list of an event, lent.
fn list_of(lists: &[Vec<HandlerNo>], event: EventNo) -> &[HandlerNo]
    ensures { map (λ number. number.0) result.now ≡ numbers_at lists.now event.0 }
{
    let place = event.0 as usize;
    if place >= lists.len() {
        return &[];
    }
    &lists[place]
}

/// Adds a number where it is that of a global whose entries expire.
fn add_if(list: &mut Vec<u32>, number: u32, expires: bool) -> Result<(), Mem>
    ensures { OnOk result (list.new.items ≡ list.old.items ++ (if expires then number ∷ [] else [])) }
{
    if expires {
        list.push(number)?;
    }
    Ok(())
}

/// A copy of the code of a global.
fn global_copy(global: &GlobalCode) -> GlobalCode
    ensures { result ≡ global.now }
{
    *global
}

/// The numbers of the globals whose entries expire. More than a `u32` numbers are refused for want of memory.
fn expiring(alloc: Global, globals: &[GlobalCode]) -> Result<Vec<u32>, Mem>
    ensures { IfOk result (λ list. list.items ≡ expiring_from 0 (map global_of globals.now)) }
{
    let mut list = Vec::new(alloc);
    for (index, global) in globals.iter().enumerate() {
        let Some(number) = number_at(index) else {
            return Err(Mem);
        };
        let copy = global_copy(global);
        add_if(&mut list, number, copy.expiry.is_some())?;
    }
    Ok(list)
}

/// Code of which the handlers of an event and the globals whose entries expire are found at once.
#[derive(Debug, Drop)]
pub struct IndexedCode {
    code: Code,
    /// For each event the handlers by falling priority, and in load order where that is the same.
    handlers: Vec<Vec<HandlerNo>>,
    /// The globals whose entries expire.
    expiring: Vec<u32>,
    ghost by_event: { (event : Event) → numbers_at handlers.items event.0 ≡ numbers_for event (code_of code).handlers },
    ghost expires: { expiring.items ≡ expiring_from 0 (code_of code).globals },
}

impl IndexedCode {
    ghost use Rattle.zk_machine.specs.Indexed.{code_in};

    /// Finds the handlers of each event, and the globals whose entries expire.
    pub fn new(alloc: Global, code: Code) -> Result<IndexedCode, Mem>
        ensures { IfOk result (λ indexed. code_in indexed ≡ code_of code) }
    {
        let mut list = with_numbers(alloc, code.handlers.as_slice())?;
        put_in_order(&mut list)?;
        let handlers = by_event(alloc, &list)?;
        let expiring = expiring(alloc, code.globals.as_slice())?;
        Ok(IndexedCode {
            code,
            handlers,
            expiring,
        })
    }

    /// The code, lent.
    pub fn code(&self) -> &Code
        ensures { code_of result.now ≡ code_in self.now }
    {
        &self.code
    }

    /// The handlers of an event by falling priority, and in load order where that is the same (Zeek manual,
    /// Attributes, &priority).
    pub fn handlers(&self, event: EventNo) -> &[HandlerNo]
        ensures numbers { map (λ number. number.0) result.now ≡ numbers_for event (code_in self.now).handlers }
        // Each is the number of a handler.
        ensures within { All (λ number. number.0 < length (code_in self.now).handlers) result.now }
        // In the code of a program they are those of the program's handlers of the event.
        ensures handlers { (program : Program) → code_in self.now ≡ lowered program
            → map (λ number. slice_get program.handlers number.0) result.now ≡ map Some (handlers_of program event) }
    {
        list_of(&self.handlers, event)
    }

    /// The numbers of the globals whose entries expire, in load order.
    pub fn expiring(&self) -> &[u32]
        ensures { result.now ≡ expiring_from 0 (code_in self.now).globals }
    {
        &self.expiring
    }
}
