ghost use Rattle.std.specs.Prelude.{◌≡◌, [], true, List, slice_get};
ghost use Rattle.std.specs.List.{list_all};
ghost use Rattle.zk_typed.specs.Names.{Declared};
ghost use Rattle.zk_scope.specs.Grouping.{AreAhead, AreBack, AreFirsts, AreLow, AreRanked, are_below, are_no_higher, are_together, has_step, is_ahead, is_back, is_below, is_low, is_nearer, is_no_higher, is_together};
ghost use Rattle.zk_scope.specs.Indexing.{items_at};

use sqlite_items::at;
use std::alloc::Global;

/// How a name hangs together with the root of its group. Names that all lead to each other are a group.
#[derive(Clone, Copy)]
pub struct Link {
    /// Where the root stands.
    pub root: usize,
    /// The number of the group: its names lead to none of a greater number.
    pub rank: usize,
    /// A place that is nearer to the root,
    pub other: usize,
    /// and which of the steps between the two it is.
    pub which: usize,
    /// Less for what is nearer to the root.
    pub turn: usize,
}

/// Names that lead to each other.
#[derive(Drop)]
pub struct Groups {
    /// How the root of its group leads to each name.
    pub ahead: Vec<Link>,
    /// How each name leads to the root of its group.
    pub back: Vec<Link>,
    /// The lowest rank of those that have a name, where it stands first.
    pub lows: Vec<usize>,
}

/// The list at a place; there is none past the end.
fn steps_in(steps: &[Vec<usize>], place: usize) -> &[usize]
    ensures { result.now ≡ items_at steps.now place }
{
    match at(steps, place) {
        Some(more) => more,
        None => &[],
    }
}

/// Whether a step of a place leads to another.
fn has_step(steps: &[Vec<usize>], from: usize, which: usize, to: usize) -> bool
    ensures { result ≡ has_step steps.now from which to }
{
    match at(steps_in(steps, from), which) {
        Some(place) => *place == to,
        None => false,
    }
}

/// Whether a place is nearer to the root of a link.
fn is_nearer(links: &[Link], place: usize, link: &Link) -> bool
    ensures { result ≡ is_nearer link.now (slice_get links.now place) }
{
    match at(links, place) {
        Some(other) => other.root == link.root && other.turn < link.turn,
        None => false,
    }
}

/// Whether no place is of a higher rank.
fn is_no_higher(links: &[Link], rank: usize, place: usize) -> bool
    ensures { result ≡ is_no_higher rank (slice_get links.now place) }
{
    match at(links, place) {
        Some(link) => link.rank <= rank,
        None => false,
    }
}

/// Whether a place is of a lower rank.
fn is_below(links: &[Link], rank: usize, place: usize) -> bool
    ensures { result ≡ is_below rank (slice_get links.now place) }
{
    match at(links, place) {
        Some(link) => link.rank < rank,
        None => false,
    }
}

/// Whether the root of a link leads to a place, as the link says.
fn is_ahead(steps: &[Vec<usize>], links: &[Link], place: usize, link: &Link) -> bool
    ensures { result ≡ is_ahead steps.now links.now place link.now }
{
    place == link.root
        || (has_step(steps, link.other, link.which, place) && is_nearer(links, link.other, link))
}

/// Whether a place leads to the root of a link, as the link says.
fn is_back(steps: &[Vec<usize>], links: &[Link], place: usize, link: &Link) -> bool
    ensures { result ≡ is_back steps.now links.now place link.now }
{
    place == link.root
        || (has_step(steps, place, link.which, link.other) && is_nearer(links, link.other, link))
}

/// Whether no places are of a higher rank.
fn are_no_higher(links: &[Link], rank: usize, places: &[usize]) -> bool
    ensures { result ≡ are_no_higher links.now rank places.now }
{
    places.iter().all(|place| is_no_higher(links, rank, *place))
}

/// Whether a name has no rank that is lower than its lowest one.
fn is_low(lows: &[usize], first: usize, rank: usize) -> bool
    ensures { result ≡ is_low rank (slice_get lows.now first) }
{
    match at(lows, first) {
        Some(low) => *low <= rank,
        None => false,
    }
}

/// Whether the roots lead to all places, as their links say.
pub fn are_ahead(steps: &[Vec<usize>], links: &[Link]) -> bool
    ensures { result ≡ true → AreAhead links.now steps.now }
{
    for (place, link) in links.iter().enumerate() {
        if !is_ahead(steps, links, place, link) {
            return false;
        }
    }
    true
}

/// Whether all places lead to the roots, as their links say.
pub fn are_back(steps: &[Vec<usize>], links: &[Link]) -> bool
    ensures { result ≡ true → AreBack links.now steps.now }
{
    for (place, link) in links.iter().enumerate() {
        if !is_back(steps, links, place, link) {
            return false;
        }
    }
    true
}

/// Whether no place leads to one of a higher rank.
pub fn are_ranked(steps: &[Vec<usize>], links: &[Link]) -> bool
    ensures { result ≡ true → AreRanked links.now steps.now }
{
    for (place, link) in links.iter().enumerate() {
        if !are_no_higher(links, link.rank, steps_in(steps, place)) {
            return false;
        }
    }
    true
}

/// Whether no place has a name whose lowest rank is higher than that of the place.
pub fn are_low(links: &[Link], lows: &[usize], firsts: &[usize]) -> bool
    ensures { result ≡ true → (names : List Declared) → AreFirsts firsts.now names → AreLow links.now lows.now names }
{
    for (place, link) in links.iter().enumerate() {
        match at(firsts, place) {
            Some(first) if is_low(lows, *first, link.rank) => {}
            _ => return false,
        }
    }
    true
}

/// Whether all places are of a lower rank.
fn are_all_below(links: &[Link], rank: usize, places: &[usize]) -> bool
    ensures { result ≡ list_all (λ place. is_below rank (slice_get links.now place)) places.now }
{
    places.iter().all(|place| is_below(links, rank, *place))
}

/// Whether all places are of a lower rank than all that have a name.
fn are_below(links: &[Link], lows: &[usize], first: usize, places: &[usize]) -> bool
    ensures { result ≡ are_below links.now (slice_get lows.now first) places.now }
{
    match at(lows, first) {
        Some(low) => are_all_below(links, *low, places),
        None => false,
    }
}

impl Groups {
    ghost use Rattle.zk_scope.specs.Grouping.{IsGrouped};

    /// No groups.
    pub fn none(alloc: Global) -> Groups
        ensures ahead { result.ahead.items ≡ [] }
        ensures back { result.back.items ≡ [] }
    {
        Groups {
            ahead: Vec::new(alloc),
            back: Vec::new(alloc),
            lows: Vec::new(alloc),
        }
    }

    /// Whether all that is told of the groups is so.
    pub fn are_told(&self, steps: &[Vec<usize>], firsts: &[usize]) -> bool
        ensures { result ≡ true → (names : List Declared) → AreFirsts firsts.now names → IsGrouped self.now steps.now names }
    {
        are_ahead(steps, &self.ahead)
            && are_back(steps, &self.back)
            && are_ranked(steps, &self.ahead)
            && are_low(&self.ahead, &self.lows, firsts)
    }

    /// Whether places are of a lower rank than all that have a name, so that they lead to none of these.
    pub fn are_below(&self, first: usize, places: &[usize]) -> bool
        ensures { result ≡ are_below self.now.ahead.items (slice_get self.now.lows.items first) places.now }
    {
        are_below(&self.ahead, &self.lows, first, places)
    }

    /// Whether a place is in one group with another.
    fn is_together(&self, to: usize, place: usize) -> bool
        ensures { result ≡ is_together (slice_get self.now.back.items place) (slice_get self.now.ahead.items to) }
    {
        match (at(&self.back, place), at(&self.ahead, to)) {
            (Some(one), Some(other)) => one.root == other.root,
            _ => false,
        }
    }

    /// Whether one of some places is in one group with another, and so leads to it.
    pub fn are_together(&self, to: usize, places: &[usize]) -> bool
        ensures { result ≡ are_together self.now to places.now }
    {
        places.iter().any(|place| self.is_together(to, *place))
    }
}
