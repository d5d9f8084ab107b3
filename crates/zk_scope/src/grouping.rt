//! Groups of names that all lead to each other. They are a hint, which is checked before it is used.
use crate::groups::{Groups, Link};
use sqlite_items::at;
use std::alloc::Global;
use zk_base::Mem;

/// A place that is next to another, and which of the steps between them it is.
#[derive(Clone, Copy)]
struct Edge {
    place: usize,
    which: usize,
}

/// The places to which a place leads.
fn edges_of(alloc: Global, steps: &[usize]) -> Result<Vec<Edge>, Mem> {
    let mut edges = Vec::new(alloc);
    for (which, place) in steps.iter().enumerate() {
        let place = *place;
        edges.push(Edge { place, which })?;
    }
    Ok(edges)
}

/// The places to which each place leads.
fn edges_from(alloc: Global, steps: &[Vec<usize>]) -> Result<Vec<Vec<Edge>>, Mem> {
    let mut all = Vec::new(alloc);
    for more in steps {
        let edges = edges_of(alloc, more.as_slice())?;
        all.push(edges)?;
    }
    Ok(all)
}

/// No edges, at each of so many places.
fn no_edges(alloc: Global, count: usize) -> Result<Vec<Vec<Edge>>, Mem> {
    let mut all = Vec::new(alloc);
    for _ in 0..count {
        all.push(Vec::new(alloc))?;
    }
    Ok(all)
}

/// Adds a place to those that lead to the places to which it leads.
fn add_edges_to(steps: &[usize], place: usize, all: &mut Vec<Vec<Edge>>) -> Result<(), Mem> {
    for (which, next) in steps.iter().enumerate() {
        if *next < all.len() {
            all[*next].push(Edge { place, which })?;
        }
    }
    Ok(())
}

/// The places that lead to each place.
fn edges_to(alloc: Global, steps: &[Vec<usize>]) -> Result<Vec<Vec<Edge>>, Mem> {
    let mut all = no_edges(alloc, steps.len())?;
    for (place, more) in steps.iter().enumerate() {
        add_edges_to(more.as_slice(), place, &mut all)?;
    }
    Ok(all)
}

/// How many edges there are.
fn edge_count(all: &[Vec<Edge>]) -> usize {
    let mut count: usize = 0;
    for edges in all {
        count = count.saturating_add(edges.len());
    }
    count
}

/// No marks, at each of so many places.
fn no_marks(alloc: Global, count: usize) -> Result<Vec<bool>, Mem> {
    let mut marks = Vec::new(alloc);
    for _ in 0..count {
        marks.push(false)?;
    }
    Ok(marks)
}

/// What is to be done with a place in a walk that goes deep first.
#[derive(Clone, Copy)]
enum Visit {
    /// It is to be looked at.
    Enter(usize),
    /// All that is reached from it was looked at.
    Leave(usize),
}

/// Looks at a place for the first time.
fn enter(
    edges: &[Vec<Edge>],
    place: usize,
    seen: &mut Vec<bool>,
    visits: &mut Vec<Visit>,
) -> Result<(), Mem> {
    if place >= seen.len() || place >= edges.len() || seen[place] {
        return Ok(());
    }
    seen[place] = true;
    visits.push(Visit::Leave(place))?;
    for edge in edges[place].as_slice() {
        visits.push(Visit::Enter(edge.place))?;
    }
    Ok(())
}

/// Each of so many places is to be looked at.
fn all_visits(alloc: Global, count: usize) -> Result<Vec<Visit>, Mem> {
    let mut visits = Vec::new(alloc);
    for place in 0..count {
        visits.push(Visit::Enter(place))?;
    }
    Ok(visits)
}

/// The places in the order in which a walk that goes deep first leaves them.
fn left_order(alloc: Global, edges: &[Vec<Edge>]) -> Result<Vec<usize>, Mem> {
    let count = edges.len();
    let mut seen = no_marks(alloc, count)?;
    let mut visits = all_visits(alloc, count)?;
    let mut order = Vec::new(alloc);
    let most = edge_count(edges)
        .saturating_add(count)
        .saturating_add(count);
    for _ in 0..most {
        match visits.pop() {
            None => return Ok(order),
            Some(Visit::Enter(place)) => enter(edges, place, &mut seen, &mut visits)?,
            Some(Visit::Leave(place)) => order.push(place)?,
        }
    }
    Ok(order)
}

/// A place that was found, by way of a place that was found before it if it is no root.
#[derive(Clone, Copy)]
struct Found {
    place: usize,
    near: Option<Edge>,
}

/// What was found so far of groups.
#[derive(Drop)]
struct Spread {
    links: Vec<Link>,
    seen: Vec<bool>,
    turn: usize,
    ranks: usize,
}

/// Each of so many places, alone.
fn own_links(alloc: Global, count: usize) -> Result<Vec<Link>, Mem> {
    let mut links = Vec::new(alloc);
    for place in 0..count {
        links.push(Link {
            root: place,
            rank: 0,
            other: place,
            which: 0,
            turn: 0,
        })?;
    }
    Ok(links)
}

/// Whether a place is known to be in the group of another root.
fn is_apart(groups: &[Link], place: usize, root: usize) -> bool {
    match at(groups, place) {
        Some(link) => link.root != root,
        None => false,
    }
}

impl Spread {
    /// Of so many places, none of which was found yet.
    fn new(alloc: Global, count: usize) -> Result<Spread, Mem> {
        let links = own_links(alloc, count)?;
        let seen = no_marks(alloc, count)?;
        Ok(Spread {
            links,
            seen,
            turn: 0,
            ranks: 0,
        })
    }

    /// The link of a place that was found.
    fn link_of(&self, found: Found) -> Option<Link> {
        let Some(near) = found.near else {
            return Some(Link {
                root: found.place,
                rank: self.ranks,
                other: found.place,
                which: 0,
                turn: self.turn,
            });
        };
        let link = at(&self.links, near.place)?;
        Some(Link {
            root: link.root,
            rank: link.rank,
            other: near.place,
            which: near.which,
            turn: self.turn,
        })
    }

    /// Takes a link of a place for which there was none.
    fn put(&mut self, place: usize, link: Link) {
        if place < self.links.len() && place < self.seen.len() {
            self.links[place] = link;
            self.seen[place] = true;
            self.turn = self.turn.saturating_add(1);
            if link.root == place {
                self.ranks = self.ranks.saturating_add(1);
            }
        }
    }

    /// Whether a place was found, or isn't there.
    fn is_seen(&self, place: usize) -> bool {
        match at(&self.seen, place) {
            Some(seen) => *seen,
            None => true,
        }
    }
}

/// Adds the places next to one that was found.
fn add_next(edges: &[Vec<Edge>], place: usize, found: &mut Vec<Found>) -> Result<(), Mem> {
    let Some(next) = at(edges, place) else {
        return Ok(());
    };
    for edge in next.as_slice() {
        let which = edge.which;
        found.push(Found {
            place: edge.place,
            near: Some(Edge { place, which }),
        })?;
    }
    Ok(())
}

/// Takes a place that was found: it is in the group of the place by way of which it was found, unless it is known
/// to be in another.
fn take(
    edges: &[Vec<Edge>],
    groups: &[Link],
    one: Found,
    spread: &mut Spread,
    found: &mut Vec<Found>,
) -> Result<(), Mem> {
    if spread.is_seen(one.place) {
        return Ok(());
    }
    let Some(link) = spread.link_of(one) else {
        return Ok(());
    };
    if is_apart(groups, one.place, link.root) {
        return Ok(());
    }
    add_next(edges, one.place, found)?;
    spread.put(one.place, link);
    Ok(())
}

/// Places that are roots if they aren't reached from others.
fn all_found(alloc: Global, places: &[usize]) -> Result<Vec<Found>, Mem> {
    let mut found = Vec::new(alloc);
    for place in places {
        found.push(Found {
            place: *place,
            near: None,
        })?;
    }
    Ok(found)
}

/// Groups of what is reached from places, the last of them first; each place is in the first that reaches it, of
/// those to which it may belong.
fn groups_from(
    alloc: Global,
    edges: &[Vec<Edge>],
    places: &[usize],
    groups: &[Link],
) -> Result<Vec<Link>, Mem> {
    let mut spread = Spread::new(alloc, edges.len())?;
    let mut found = all_found(alloc, places)?;
    for _ in 0..edge_count(edges).saturating_add(places.len()) {
        let Some(one) = found.pop() else {
            return Ok(spread.links);
        };
        take(edges, groups, one, &mut spread, &mut found)?;
    }
    Ok(spread.links)
}

/// The roots of groups.
fn roots(alloc: Global, links: &[Link]) -> Result<Vec<usize>, Mem> {
    let mut roots = Vec::new(alloc);
    for (place, link) in links.iter().enumerate() {
        if link.root == place {
            roots.push(place)?;
        }
    }
    Ok(roots)
}

/// Takes a rank for the first of a name, if it is lower than those before.
fn lower(lows: &mut Vec<usize>, first: usize, rank: usize) {
    if first < lows.len() && rank < lows[first] {
        lows[first] = rank;
    }
}

/// No rank, at each of so many places.
fn no_lows(alloc: Global, count: usize) -> Result<Vec<usize>, Mem> {
    let mut lows = Vec::new(alloc);
    for _ in 0..count {
        lows.push(usize::MAX)?;
    }
    Ok(lows)
}

/// The lowest rank of those that have a name, where it stands first.
fn lows(alloc: Global, links: &[Link], firsts: &[usize]) -> Result<Vec<usize>, Mem> {
    let mut lows = no_lows(alloc, links.len())?;
    for (place, link) in links.iter().enumerate() {
        if place < firsts.len() {
            lower(&mut lows, firsts[place], link.rank);
        }
    }
    Ok(lows)
}

/// The groups of names that lead to each other, by their steps and by where each name stands first. Kosaraju's way:
/// a walk against the steps tells in which order a search along them finds one group after the other, each behind
/// those to which it leads. It is a hint, of which nothing is promised.
pub fn grouped(alloc: Global, steps: &[Vec<usize>], firsts: &[usize]) -> Result<Groups, Mem> {
    let forward = edges_from(alloc, steps)?;
    let backward = edges_to(alloc, steps)?;
    let order = left_order(alloc, &backward)?;
    let ahead = groups_from(alloc, &forward, &order, &[])?;
    let starts = roots(alloc, &ahead)?;
    let back = groups_from(alloc, &backward, &starts, &ahead)?;
    let lows = lows(alloc, &ahead, firsts)?;
    Ok(Groups { ahead, back, lows })
}
