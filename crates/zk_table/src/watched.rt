ghost use Rattle.std.specs.Prelude.{◌≡◌, ◌≢◌, ◌<◌, ℕ, false, length, not, true, OnOk};
ghost use Rattle.zk_table.specs.Dues.{is_watched, watched_due};

use crate::index::{Places, Turn};
use crate::objects::Objects;
use zk_base::Mem;

/// The objects, and which of their tables stand in the index of dues.
#[derive(Debug, Drop)]
pub struct Watched {
    pub objects: Objects,
    /// Of each number, up to that of the last table for which room was made, whether its table is unwatched.
    pub unwatched: Vec<bool>,
}

/// Whether the table that has a number, if one has it, is watched.
fn is_watched(unwatched: &[bool], number: usize) -> bool
    ensures { result ≡ is_watched unwatched.now number }
{
    match unwatched.get(number) {
        Some(unwatched) => !*unwatched,
        None => true,
    }
}

impl Places for Watched {
    ghost turns = { λ watched. watched_due watched.unwatched.items watched.objects };

    fn turn(&self, place: usize) -> Option<Turn> {
        if is_watched(&self.unwatched, place) {
            self.objects.turn(place)
        } else {
            None
        }
    }
}

/// Makes room for the mark of a number, where one is needed. What is watched stays so.
pub fn make_mark(unwatched: &mut Vec<bool>, number: usize, needed: bool) -> Result<(), Mem>
    ensures same { (other : ℕ) → is_watched unwatched.new.items other ≡ is_watched unwatched.old.items other }
    ensures room { OnOk result (needed ≡ true → number < length unwatched.new.items) }
{
    if !needed {
        return Ok(());
    }
    while unwatched.len() <= number {
        unwatched.push(false)?;
    }
    Ok(())
}

/// Marks a number, or takes its mark away: whether its table is unwatched. One without room for a mark is
/// watched.
pub fn mark(unwatched: &mut [bool], number: usize, mark: bool)
    ensures others { (other : ℕ) → other ≢ number → is_watched unwatched.new other ≡ is_watched unwatched.old other }
    ensures clear { mark ≡ false → is_watched unwatched.new number ≡ true }
    ensures set { number < length unwatched.old → is_watched unwatched.new number ≡ not mark }
{
    if number < unwatched.len() {
        unwatched[number] = mark;
    }
}
