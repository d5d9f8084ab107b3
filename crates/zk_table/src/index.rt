ghost use Rattle.std.specs.Prelude.{◌≡◌, ℕ, ◌+◌, ◌*◌, ◌<◌, ◌≤◌, length, true, false, Option, None, OnOk, slice_index_or, slice_set};
ghost use Rattle.zk_base.specs.declared.time.Moment.{Moment};
ghost use Rattle.zk_tree.specs.Table.{is_before, earlier};
ghost use Rattle.zk_table.specs.Slots.{turn_at, turn_in};
ghost use Rattle.zk_table.specs.Index.{first_at, AllBut, IsTree};

use crate::slot::Slot;
use zk_base::{Mem, Moment};

/// When something is due, and its number.
pub type Turn = (Moment, u64);

/// Places that may each have a turn.
pub trait Places {
    ghost turns: { Self → ℕ → Option (Moment × ℕ) };

    /// The turn of a place.
    fn turn(&self, place: usize) -> Option<Turn>
        ensures { result ≡ turns self.now place };
}

/// Whether a turn comes before another: it is earlier, or as early with a lower number.
fn is_before(a: Turn, b: Turn) -> bool
    ensures { result ≡ is_before a b }
{
    a.0 < b.0 || a.0 <= b.0 && a.1 < b.1
}

/// The one of two turns that comes first.
fn earlier(a: Option<Turn>, b: Option<Turn>) -> Option<Turn>
    ensures { result ≡ earlier a b }
{
    match (a, b) {
        (Some(x), Some(y)) => { if is_before(y, x) { b } else { a } }
        (Some(_), None) => a,
        (None, _) => b,
    }
}

/// Whether two turns are one.
fn is_same(a: Option<Turn>, b: Option<Turn>) -> bool
    ensures { result ≡ true → a ≡ b }
{
    match (a, b) {
        (Some(x), Some(y)) => x.0.0 == y.0.0 && x.1 == y.1,
        (None, None) => true,
        (Some(_), None) | (None, Some(_)) => false,
    }
}

/// The turn of the entry in a slot.
fn turn_in(slot: &Slot) -> Option<Turn>
    ensures { result ≡ turn_in slot.now }
{
    let stored = slot.entry.as_ref()?;
    let due = stored.due?;
    Some((due, slot.order))
}

impl Places for Vec<Slot> {
    ghost turns = { λ slots. turn_at slots.items };

    fn turn(&self, place: usize) -> Option<Turn> {
        let slot = self.get(place)?;
        turn_in(slot)
    }
}

/// The first turn of a place and of those below it.
pub fn below(firsts: &[Option<Turn>], place: usize) -> Option<Turn>
    ensures { result ≡ slice_index_or firsts.now place None }
{
    match firsts.get(place) {
        Some(first) => *first,
        None => None,
    }
}

/// Finds the first turn of a place and of those below it again, where those below it are right, and
/// answers whether it is another one.
fn refresh<P: Places>(places: &P, firsts: &mut [Option<Turn>], place: usize) -> bool
    requires { place < length firsts.old }
    ensures found { firsts.new ≡ slice_set firsts.old place (first_at (P.turns places.now) firsts.old place) }
    ensures same { result ≡ false → firsts.new ≡ firsts.old }
{
    let left = below(firsts, 2 * place + 1);
    let right = below(firsts, 2 * place + 2);
    let first = earlier(earlier(places.turn(place), left), right);
    if is_same(first, below(firsts, place)) {
        return false;
    }
    firsts[place] = first;
    true
}

/// Puts the index right from a place upwards, where the turn of that place alone has changed. The
/// places stand in a heap's tree: below place n stand the places 2n + 1 and 2n + 2. Above a place that
/// knows what it knew before all do.
pub fn reorder<P: Places>(places: &P, firsts: &mut [Option<Turn>], place: usize)
    ensures { AllBut (P.turns places.now) firsts.old place → IsTree (P.turns places.now) firsts.new }
{
    if place >= firsts.len() {
        return;
    }
    let mut at = place;
    'up: while refresh(places, firsts, at) {
        if at == 0 {
            return;
        }
        at = (at - 1) / 2;
    }
}

/// Makes the index anew, from its last place to its first.
pub fn rebuild<P: Places>(places: &P, firsts: &mut [Option<Turn>])
    ensures tree { ((place : ℕ) → length firsts.old ≤ place → P.turns places.now place ≡ None) → IsTree (P.turns places.now) firsts.new }
    ensures long { length firsts.new ≡ length firsts.old }
{
    let mut place = firsts.len();
    while place > 0 {
        place -= 1;
        refresh(places, firsts, place);
    }
}

/// Makes the index longer, so that a place stands in it, where that one may have a turn. At `Mem` it is as
/// right as before.
pub fn make_room(firsts: &mut Vec<Option<Turn>>, place: usize, needed: bool) -> Result<(), Mem>
    ensures tree { (turns : ℕ → Option (Moment × ℕ)) → IsTree turns firsts.old.items → IsTree turns firsts.new.items }
    ensures long { length firsts.old.items ≤ length firsts.new.items }
    ensures room { OnOk result (needed ≡ true → place < length firsts.new.items) }
{
    if !needed {
        return Ok(());
    }
    while firsts.len() <= place {
        firsts.push(None)?;
    }
    Ok(())
}
