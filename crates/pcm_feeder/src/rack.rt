//! The boxes that a chain picks its stages from.

ghost use Rattle.std.specs.Prelude.{◌≡◌, ◌≢◌, IfOk, IfErr, vec_len};
ghost use Rattle.pcm_feeder.specs.declared.rack.TheConstants.{RACKS};

use crate::{Feeder, Kind};
use std::alloc::{AllocError, AllocFailed, Global};

/// How many racks a run has: one for each slot that plays or is mapped, one for each that records, and one for the way from the mix
/// to the device.
pub const RACKS: usize = 33;

/// The boxes of a rack, one for each kind of stage.
#[derive(Drop)]
pub struct SevenOf<B> {
    pub matrix: B,
    pub hold: B,
    pub linear: B,
    pub poly: B,
    pub volume: B,
    pub depth: B,
    pub eq: B,
}

/// A box of another kind than its place asks for.
#[derive(Clone, Copy, Debug, PartialEq, Eq)]
pub struct WrongKind {
    pub place: Kind,
    pub found: Kind,
}

/// Boxes whose kinds were checked.
#[derive(Drop)]
pub struct RackOf<B> {
    boxes: SevenOf<B>,
}

impl<B: Feeder> RackOf<B> {
    ghost use Rattle.std.specs.Prelude.{map};
    ghost use Rattle.pcm_feeder.specs.Racks.{HaveKinds, IsRack, AreRacks, boxes_of, IsFirstWrong, IsRackFault, places_of};

    /// Checks the boxes in the order of their places. They are dropped where one is refused.
    pub fn new(seven: SevenOf<B>) -> Result<RackOf<B>, WrongKind>
        ensures same { IfOk result (λ rack. boxes_of rack ≡ seven) }
        ensures kinds { IfOk result (IsRack B.kind) }
        ensures wrong { IfErr result (IsFirstWrong B.kind (places_of seven)) }
    {
        is_of_kind(&seven.matrix, Kind::Matrix)?;
        is_of_kind(&seven.hold, Kind::Hold)?;
        is_of_kind(&seven.linear, Kind::Linear)?;
        is_of_kind(&seven.poly, Kind::Poly)?;
        is_of_kind(&seven.volume, Kind::Volume)?;
        is_of_kind(&seven.depth, Kind::Depth)?;
        is_of_kind(&seven.eq, Kind::Eq)?;
        Ok(RackOf { boxes: seven })
    }

    /// Gives the boxes.
    pub fn into_boxes(self) -> SevenOf<B>
        ensures same { result ≡ boxes_of self }
        ensures kinds { IsRack B.kind self → HaveKinds B.kind result }
    {
        self.boxes
    }

    // A rack of each seven boxes, in their order.
    fn of_each(alloc: Global, boxes: Vec<SevenOf<B>>) -> Result<Vec<RackOf<B>>, RackFault>
        ensures kinds { IfOk result (λ racks. AreRacks B.kind racks.items) }
        ensures same { IfOk result (λ racks. map boxes_of racks.items ≡ boxes.items) }
        ensures fault { IfErr result (IsRackFault B.kind boxes.items) }
    {
        let mut racks = Vec::new(alloc);
        for seven in boxes {
            match RackOf::new(seven) {
                Ok(rack) => racks.push(rack)?,
                Err(wrong) => return Err(RackFault::WrongBox(wrong)),
            }
        }
        Ok(racks)
    }
}

// Whether a box is of the kind that its place asks for.
fn is_of_kind<B: Feeder>(tried: &B, place: Kind) -> Result<(), WrongKind>
    ensures right { IfOk result (λ _. B.kind tried.now ≡ place) }
    ensures found { IfErr result
        (λ wrong. wrong ≡ record { place = place; found = B.kind tried.now }) }
    ensures wrong { IfErr result (λ _. B.kind tried.now ≢ place) }
{
    let found = tried.kind();
    if found == place {
        Ok(())
    } else {
        Err(WrongKind { place, found })
    }
}

/// A number of racks that isn't a run's.
#[derive(Clone, Copy, Debug, PartialEq, Eq)]
pub struct WrongCount {
    pub found: usize,
}

/// Why boxes don't make the racks of a run.
#[derive(Clone, Copy, Debug, PartialEq, Eq)]
pub enum RackFault {
    /// A box is of another kind than its place asks for.
    WrongBox(WrongKind),
    /// There are more or fewer racks.
    Count(WrongCount),
    /// Memory ran out.
    Memory,
}

impl From<AllocError> for RackFault {
    ghost use Rattle.pcm_feeder.specs.declared.rack.RackFault.TheVariants.{Memory};

    ghost from_gives = { λ _ fault. fault ≡ Memory };

    fn from(_: AllocError) -> RackFault {
        RackFault::Memory
    }
}

impl<T: Drop> From<AllocFailed<T>> for RackFault {
    ghost use Rattle.pcm_feeder.specs.declared.rack.RackFault.TheVariants.{Memory};

    ghost from_gives = { λ _ fault. fault ≡ Memory };

    fn from(_: AllocFailed<T>) -> RackFault {
        RackFault::Memory
    }
}

/// The racks of a run: 0 to 15 serve the slots that play, mapped ones after the others, 16 to 31 those that record, and 32 the way from
/// the mix to the device.
#[derive(Drop)]
pub struct RacksOf<B> {
    list: Vec<RackOf<B>>,
    ghost count: { vec_len list ≡ RACKS },
}

impl<B: Feeder> RacksOf<B> {
    ghost use Rattle.std.specs.Prelude.{map};
    ghost use Rattle.pcm_feeder.specs.Racks.{AreRacks, IsRackFault, list_of, rack_count, boxes_of};

    /// Takes the racks of a run. They are dropped where there are more or fewer.
    pub fn new(racks: Vec<RackOf<B>>) -> Result<RacksOf<B>, WrongCount>
        ensures same { IfOk result (λ made. list_of made ≡ racks.items) }
        ensures count { IfOk result (λ _. vec_len racks ≡ rack_count) }
        ensures found { IfErr result (λ wrong. wrong.found ≡ vec_len racks) }
        ensures wrong { IfErr result (λ _. vec_len racks ≢ rack_count) }
        ensures kinds { AreRacks B.kind racks.items
            → IfOk result (λ made. AreRacks B.kind (list_of made)) }
    {
        let found = racks.len();
        if found == RACKS {
            Ok(RacksOf { list: racks })
        } else {
            Err(WrongCount { found })
        }
    }

    /// Makes a rack of each seven boxes, in their order. All boxes are dropped where one is refused.
    pub fn of_boxes(alloc: Global, boxes: Vec<SevenOf<B>>) -> Result<RacksOf<B>, RackFault>
        ensures kinds { IfOk result (λ made. AreRacks B.kind (list_of made)) }
        ensures same { IfOk result (λ made. map boxes_of (list_of made) ≡ boxes.items) }
        ensures fault { IfErr result (IsRackFault B.kind boxes.items) }
    {
        let racks = RackOf::of_each(alloc, boxes)?;
        match RacksOf::new(racks) {
            Ok(racks) => Ok(racks),
            Err(wrong) => Err(RackFault::Count(wrong)),
        }
    }

    /// Gives the racks in their order.
    pub fn into_list(self) -> Vec<RackOf<B>>
        ensures same { result.items ≡ list_of self }
        ensures count { vec_len result ≡ rack_count }
        ensures kinds { AreRacks B.kind (list_of self) → AreRacks B.kind result.items }
    {
        self.list
    }
}

/// The boxes of a rack of a run.
pub type Seven = SevenOf<Box<dyn Feeder>>;

/// A rack of a run.
pub type Rack = RackOf<Box<dyn Feeder>>;

/// The racks of a run.
pub type Racks = RacksOf<Box<dyn Feeder>>;
