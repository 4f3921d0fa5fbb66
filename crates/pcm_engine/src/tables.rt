//! A copy of what the stages of an engine look up.

ghost use Rattle.std.specs.Prelude.{◌≡◌, IfOk};

use pcm_feeder::{Coefs, Table, Tables};
use std::alloc::{AllocError, Global};

/// The same filters and sections, in memory of their own.
pub fn copied(alloc: Global, tables: &Tables) -> Result<Tables, AllocError>
    ensures { IfOk result (λ copy. copy ≡ tables.now) }
{
    let mut list = Vec::new(alloc);
    for table in tables.list() {
        list.push(copied_table(alloc, table)?)?;
    }
    let mut sections = Vec::new(alloc);
    sections.extend_from_slice(tables.sections())?;
    Ok(Tables::new(list, sections))
}

fn copied_table(alloc: Global, table: &Table) -> Result<Table, AllocError>
    ensures { IfOk result (λ copy. copy ≡ table.now) }
{
    let mut coefs = Vec::new(alloc);
    coefs.extend_from_slice(table.coefs.as_slice())?;
    Ok(Table {
        src: table.src,
        dst: table.dst,
        phases: table.phases,
        taps: table.taps,
        shift: table.shift,
        coefs: Coefs::new(coefs),
    })
}
