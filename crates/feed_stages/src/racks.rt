//! The racks of a run.

ghost use Rattle.std.specs.Prelude.{◌≡◌, length, All, IfOk, IfErr};
ghost use Rattle.pcm_feeder.specs.Racks.{AreRacks, HaveKinds, list_of, rack_count};
ghost use Rattle.pcm_feeder.specs.declared.rack.RackFault.TheVariants.{Memory};

use crate::Stage;
use crate::stage::seven_stages;
use pcm_feeder::{Feeder, RACKS, RackFault, RacksOf, SevenOf};
use std::alloc::{AllocError, Global};

/// As many racks of them as a run has. All memory that their stages ever need is taken here.
pub fn stage_racks(alloc: Global) -> Result<RacksOf<Stage>, RackFault>
    ensures kinds { IfOk result (λ made. AreRacks ⟦<Stage as Feeder>⟧.kind (list_of made)) }
    ensures fault { IfErr result (λ fault. fault ≡ Memory) }
{
    let sevens = sevens(alloc)?;
    RacksOf::of_boxes(alloc, sevens)
}

// The stages of as many racks.
fn sevens(alloc: Global) -> Result<Vec<SevenOf<Stage>>, AllocError>
    ensures kinds { IfOk result (λ made. All (HaveKinds ⟦<Stage as Feeder>⟧.kind) made.items) }
    ensures count { IfOk result (λ made. length made.items ≡ rack_count) }
{
    let mut sevens = Vec::with_capacity(alloc, RACKS)?;
    for _ in 0..RACKS {
        sevens.push(seven_stages(alloc)?)?;
    }
    Ok(sevens)
}
