ghost use Rattle.std.specs.Prelude.{◌≡◌, ◌<◌, ◌≤◌, ◌++◌, ◌∷◌, ℕ, Bool, true, false, List, Option, [], length, IfOk, OnOk, IfErr};
ghost use Rattle.zk_base.specs.Captured.{Captured, IsBounded, captured};
ghost use Rattle.zk_base.specs.Shelf.{Outside};
ghost use Rattle.zk_top.specs.Line.{capture_lines, lines_of, list_options};
ghost use Rattle.zk_top.specs.Outcome.{listing};
ghost use Rattle.zk_outcome.specs.Parts.{DoesAll, DoesPart};
ghost use Rattle.zk_top.specs.Parts.{Fulfils, BreaksOff, IsOfCommand};
ghost use Rattle.zk_io.specs.Reading.{IsReading, IsUnderWay, SameInput, SaysAll, SaysPart};
ghost use Rattle.zk_traffic.specs.Items.{items_of};
ghost use Rattle.zk_traffic.specs.declared.item.Item.{Item as ItemData};

use crate::line::push_item_line;
use std::alloc::Global;
use zk_base::{Ending, Mem, PacketView, Shelf};
use zk_io::{CHUNK, CaptureReader, PIECE, end_of, make_room, say};
use zk_outcome::{Found, Stop};
use zk_traffic::{Options, Traffic, items_stay};

/// Checksums are judged, each packet is an item, and a stream may hold a mebibyte above its front.
const OPTIONS: Options = Options {
    check: true,
    buffer: 1_048_576,
    packets: true,
};

/// A listing of a capture: its traffic, and the lines that are not yet said.
#[derive(Debug, Drop)]
pub struct Listing {
    traffic: Traffic,
    piece: Vec<u8>,
}

impl Listing {
    ghost use Rattle.zk_top.specs.Listing.{HasListed, HasListedAll};

    /// A listing of a capture before its first packet, whose frame has this link type.
    fn new(alloc: Global, link: u16) -> Result<Listing, Mem>
        ensures { IfOk result (λ made. (first : Outside) → HasListed first [] [] false made first) }
    {
        Ok(Listing {
            traffic: Traffic::new(alloc, OPTIONS, link)?,
            piece: Vec::with_capacity(alloc, PIECE)?,
        })
    }

    /// Lists what a packet brings whose frame has this link type.
    fn take_packet<S: Shelf>(
        &mut self,
        shelf: &mut S,
        packet: PacketView<'_>,
        link: u16,
    ) -> Result<(), Stop>
        requires { IsBounded (captured link packet) }
        ensures listed { OnOk result ((first : Outside) (packets : List Captured) → HasListedAll first packets self.old (S.outside shelf.old)
            → HasListedAll first (packets ++ captured link packet.entry ∷ []) self.new (S.outside shelf.new)) }
        ensures stopped { IfErr result (λ stop. (first : Outside) (packets : List Captured) → HasListedAll first packets self.old (S.outside shelf.old)
            → DoesPart [] (lines_of (items_of list_options (packets ++ captured link packet.entry ∷ []) false)) [] first stop (S.outside shelf.new)) }
        ensures input { OnOk result (SameInput (S.outside shelf.old) (S.outside shelf.new)) }
    {
        items_stay();
        self.traffic.set_link(link);
        self.traffic.packet(packet)?;
        self.take_items(shelf)
    }

    /// Lists what the end of the capture brings.
    fn end<S: Shelf>(&mut self, shelf: &mut S) -> Result<(), Stop>
        ensures said { OnOk result ((first : Outside) (packets : List Captured) → HasListedAll first packets self.old (S.outside shelf.old)
            → DoesAll [] (capture_lines packets) [] first (S.outside shelf.new)) }
        ensures stopped { IfErr result (λ stop. (first : Outside) (packets : List Captured) → HasListedAll first packets self.old (S.outside shelf.old)
            → DoesPart [] (capture_lines packets) [] first stop (S.outside shelf.new)) }
        ensures input { OnOk result (SameInput (S.outside shelf.old) (S.outside shelf.new)) }
    {
        items_stay();
        self.traffic.end()?;
        self.take_items(shelf)?;
        say(shelf, &self.piece)
    }

    /// Takes the items that wait, and says what fills a piece.
    fn take_items<S: Shelf>(&mut self, shelf: &mut S) -> Result<(), Stop>
        ensures listed { OnOk result ((first : Outside) (packets : List Captured) (given : List ItemData) (ended : Bool)
            → HasListed first packets given ended self.old (S.outside shelf.old)
            → HasListed first packets (items_of list_options packets ended) ended self.new (S.outside shelf.new)) }
        ensures stopped { IfErr result (λ stop. (first : Outside) (packets : List Captured) (given : List ItemData) (ended : Bool)
            → HasListed first packets given ended self.old (S.outside shelf.old)
            → DoesPart [] (lines_of (items_of list_options packets ended)) [] first stop (S.outside shelf.new)) }
        ensures input { OnOk result (SameInput (S.outside shelf.old) (S.outside shelf.new)) }
    {
        'items: while let Some(item) = self.traffic.next() {
            make_room(shelf, &mut self.piece)?;
            push_item_line(&mut self.piece, &item)?;
            drop(item);
        }
        Ok(())
    }
}

/// Lists the items of a capture, in order.
fn list_items<S: Shelf>(
    alloc: Global,
    shelf: &mut S,
    reader: &mut CaptureReader,
) -> Result<(), Stop>
    requires under_way { IsUnderWay reader.old (S.outside shelf.old) }
    ensures said { OnOk result ((whole : Option (List ℕ)) (bytes : List ℕ) → IsReading whole bytes [] reader.old (S.outside shelf.old)
        → SaysAll whole (capture_lines) (S.outside shelf.old) reader.new (S.outside shelf.new)) }
    ensures stopped { IfErr result (λ stop. (whole : Option (List ℕ)) (bytes : List ℕ) → IsReading whole bytes [] reader.old (S.outside shelf.old)
        → SaysPart whole (capture_lines) (S.outside shelf.old) stop (S.outside shelf.new)) }
{
    items_stay();
    let mut listing = Listing::new(alloc, reader.link())?;
    'packets: while reader.fill(shelf)? {
        listing.take_packet(shelf, reader.packet(), reader.link())?;
        reader.advance();
    }
    listing.end(shelf)
}

/// Lists the items of the capture in a file.
pub fn list<S: Shelf>(alloc: Global, shelf: &mut S, file: &[u8]) -> Result<Ending, Stop>
    ensures done { IfOk result (λ ending. Fulfils (λ inputs. listing file.now (inputs file.now)) [] (S.outside shelf.old) ending (S.outside shelf.new)) }
    ensures command { IfOk result IsOfCommand }
    ensures stopped { IfErr result (λ stop. BreaksOff (λ inputs. listing file.now (inputs file.now)) (S.outside shelf.old) stop (S.outside shelf.new)) }
{
    let mut chunk = vec![in alloc; 0; CHUNK]?;
    list_through(alloc, shelf, &mut chunk, file)
}

/// The same, read through a buffer that is not empty.
fn list_through<S: Shelf>(
    alloc: Global,
    shelf: &mut S,
    chunk: &mut [u8],
    file: &[u8],
) -> Result<Ending, Stop>
    requires room { 0 < length chunk.old }
    requires small { length chunk.old ≤ CHUNK }
    ensures done { IfOk result (λ ending. Fulfils (λ inputs. listing file.now (inputs file.now)) [] (S.outside shelf.old) ending (S.outside shelf.new)) }
    ensures command { IfOk result IsOfCommand }
    ensures stopped { IfErr result (λ stop. BreaksOff (λ inputs. listing file.now (inputs file.now)) (S.outside shelf.old) stop (S.outside shelf.new)) }
{
    match CaptureReader::open(alloc, shelf, chunk, file)? {
        Found::Accepted(mut reader) => {
            list_items(alloc, shelf, &mut reader)?;
            Ok(end_of(alloc, file, reader.ending())?)
        }
        Found::Refused(ending) => Ok(ending),
    }
}
