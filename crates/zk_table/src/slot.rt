ghost use Rattle.std.specs.Prelude.{◌≡◌, None, pos, ◌+ℤ◌, IfOk};
ghost use Rattle.std.specs.Int.{int_min, int_max};
ghost use Rattle.std.specs.Option.{option_map};
ghost use Rattle.zk_tree.specs.Table.{last_moment, moment_after};

use zk_base::{Mem, Moment, Span};
use zk_value::{Key, Value};

/// So many microseconds after a moment, or the last moment that there is; a number below 0 counts as 0.
fn microseconds_after(since: i64, span: i64) -> i64
    ensures { result ≡ int_min (since +ℤ int_max span (pos 0)) last_moment }
{
    since.saturating_add(span.max(0))
}

/// A moment so long after another, or the last one that there is; a length below 0 counts as 0.
#[tactic(auto, unfolding(zk_tree::specs::Table::moment_after))]
pub fn moment_after(since: Moment, span: Span) -> Moment
    ensures { result ≡ moment_after since span }
{
    Moment(microseconds_after(since.0, span.0))
}

/// A due, if there is one, put off to so long after a moment.
fn put_off(due: Option<Moment>, since: Moment, wait: Span) -> Option<Moment>
    ensures { result ≡ option_map (λ due. moment_after since wait) due }
{
    match due {
        Some(_) => Some(moment_after(since, wait)),
        None => None,
    }
}

/// A key with its value, as handles to them.
#[derive(Debug, Drop)]
pub struct Pair {
    pub key: Key,
    pub value: Value,
}

/// What a table keeps of an entry.
#[derive(Debug, Drop)]
pub struct Stored {
    pub key: Key,
    pub value: Value,
    /// When it was inserted, or renewed last.
    pub since: Moment,
    /// When it expires, where the entries of the table do.
    pub due: Option<Moment>,
}

impl Stored {
    /// The key, lent.
    pub fn key(&self) -> &Key
        ensures { result.now ≡ self.now.key }
    {
        &self.key
    }

    /// Its key and its value.
    pub fn pair(&self) -> Result<Pair, Mem>
        ensures { IfOk result (λ pair. pair ≡ record { key = self.now.key; value = self.now.value }) }
    {
        Ok(Pair {
            key: self.key.clone()?,
            value: self.value.clone()?,
        })
    }

    /// The value, lent.
    pub fn value(&self) -> &Value
        ensures { result.now ≡ self.now.value }
    {
        &self.value
    }
}

/// An insertion: its order number, and its entry while that is there.
#[derive(Debug, Drop)]
pub struct Slot {
    pub order: u64,
    pub entry: Option<Stored>,
}

impl Slot {
    ghost use Rattle.zk_table.specs.Slots.{with_value, with_moment, later_due};

    /// Gives the entry another value.
    pub fn set_value(&mut self, value: Value)
        ensures { self.new ≡ record self.old { entry = option_map (with_value value) self.old.entry } }
    {
        if let Some(stored) = &mut self.entry {
            stored.value = value;
        }
    }

    /// Gives the entry another moment and another due.
    pub fn renew(&mut self, now: Moment, due: Option<Moment>)
        ensures { self.new ≡ record self.old { entry = option_map (with_moment now due) self.old.entry } }
    {
        if let Some(stored) = &mut self.entry {
            stored.since = now;
            stored.due = due;
        }
    }

    /// Makes the entry due so long after its moment, where it has a due.
    pub fn put_off(&mut self, wait: Span)
        ensures { self.new ≡ record self.old { entry = option_map (later_due wait) self.old.entry } }
    {
        if let Some(stored) = &mut self.entry {
            stored.due = put_off(stored.due, stored.since, wait);
        }
    }

    /// Takes the entry out.
    pub fn take(&mut self) -> Option<Stored>
        ensures entry { result ≡ self.old.entry }
        ensures hole { self.new ≡ record self.old { entry = None } }
    {
        self.entry.take()
    }
}
