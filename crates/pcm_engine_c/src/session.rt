//! The session that C holds, out of numbers.

ghost use Rattle.std.specs.Prelude.{◌≡◌, true, false, IfOk, IfErr};
ghost use Rattle.pcm_engine.specs.Clones.{IsCloneOf};
ghost use Rattle.pcm_engine.specs.Engines.{AreReady};
ghost use Rattle.pcm_engine_c.specs.Sessions.{IsNew, is_possible};
ghost use Rattle.pcm_session.specs.States.{GoesOnFrom, IsCauseFor};
ghost use Rattle.pcm_foreign.specs.declared.fault.NumbersFault.TheVariants.{Argument, Memory};

use feed_stages::{Stage, stage_racks};
use pcm_engine::LoadFault;
use pcm_feeder::Feeder;
use pcm_foreign::{
    DeviceNumbers, FilterNumbers, NumbersFault, SectionNumbers, device_from, tables_from,
};
use pcm_session::SessionOf;
use std::alloc::{AllocError, Global};

/// A session whose stages are of any kind.
#[derive(Drop)]
pub struct Session {
    pub of: SessionOf<Stage>,
}

/// The session of a device with these filters and sections. All memory is taken here.
///
/// # Errors
///
/// `Argument` where there is no such device, or a filter or section isn't within its limits. `Memory` where the allocator refuses.
pub fn session_from(
    alloc: Global,
    device: &DeviceNumbers,
    filters: &[FilterNumbers],
    coefs: &[i32],
    sections: &[SectionNumbers],
) -> Result<Box<Session>, NumbersFault>
    ensures made { IfOk result (λ made. IsNew ⟦<Stage as Feeder>⟧.kept
        device.now filters.now coefs.now sections.now made.value.of.engine) }
    ensures ready { IfOk result (λ made. AreReady
        ⟦<Stage as Feeder>⟧.kind ⟦<Stage as Feeder>⟧.kept made.value.of.engine) }
    ensures fault { IfErr result (λ fault. fault ≡ Argument
        → is_possible device.now filters.now coefs.now sections.now ≡ false) }
    ensures memory { IfErr result (λ fault. fault ≡ Memory
        → is_possible device.now filters.now coefs.now sections.now ≡ true) }
{
    let Some(device) = device_from(device) else {
        return Err(NumbersFault::Argument);
    };
    let tables = tables_from(alloc, filters, coefs, sections)?;
    let Ok(racks) = stage_racks(alloc) else {
        return Err(NumbersFault::Memory);
    };
    let session = SessionOf::new(alloc, device, tables, racks)?;
    let session = boxed(alloc, session)?;
    Ok(session)
}

/// The session whose engine goes on where that of another session is. All memory is taken here.
pub fn session_clone(alloc: Global, session: &Session) -> Result<Box<Session>, AllocError>
    requires { AreReady
        ⟦<Stage as Feeder>⟧.kind ⟦<Stage as Feeder>⟧.kept session.now.of.engine }
    ensures { IfOk result (λ made. IsCloneOf
        ⟦<Stage as Feeder>⟧.kind ⟦<Stage as Feeder>⟧.kept session.now.of.engine made.value.of.engine) }
{
    let Ok(racks) = stage_racks(alloc) else {
        return Err(AllocError);
    };
    let session = session.of.try_clone(alloc, racks)?;
    let session = boxed(alloc, session)?;
    Ok(session)
}

/// The session whose engine is of the same device as that of another session, and goes on as the bytes tell. All memory is taken here.
///
/// # Errors
///
/// As `LoadFault` says.
pub fn session_load(
    alloc: Global,
    session: &Session,
    bytes: &[u8],
) -> Result<Box<Session>, LoadFault>
    requires { AreReady
        ⟦<Stage as Feeder>⟧.kind ⟦<Stage as Feeder>⟧.kept session.now.of.engine }
    ensures goes { IfOk result (λ made. GoesOnFrom
        ⟦<Stage as Feeder>⟧.kind ⟦<Stage as Feeder>⟧.kept bytes.now session.now.of.engine made.value.of.engine) }
    ensures cause { IfErr result (IsCauseFor
        ⟦<Stage as Feeder>⟧.kind ⟦<Stage as Feeder>⟧.kept bytes.now session.now.of.engine) }
{
    let Ok(racks) = stage_racks(alloc) else {
        return Err(LoadFault::Memory);
    };
    let session = session.of.try_load(alloc, racks, bytes)?;
    let session = boxed(alloc, session)?;
    Ok(session)
}

fn boxed(alloc: Global, session: SessionOf<Stage>) -> Result<Box<Session>, AllocError>
    ensures ok { IfOk result (λ made. made.value ≡ record { of = session }) }
{
    Ok(Box::new(alloc, Session { of: session })?)
}
