//! Layouts of a configuration.

ghost use Rattle.std.specs.Prelude.{◌≡◌};
ghost use Rattle.pcm_config.specs.Lookups.{members_seen};
ghost use Rattle.pcm_config.specs.Rows.{layout_with, layouts};
ghost use Rattle.pcm_config.specs.Values.{settled};

use crate::fault::required;
use crate::lookup::integer_at;
use crate::{ConfigKind, ConfigPlace, ConfigRefusal};
use pcm_format::Layout;
use toml::Table;

// What a table settles of a layout: that with the channels at the place, or this one where none stands there.
pub(crate) fn layout_in(
    table: Option<&Table>,
    place: ConfigPlace,
    usual: Layout,
) -> Result<Layout, ConfigRefusal>
    ensures { result ≡ settled (layouts place usual) (members_seen table.entry) }
{
    match integer_at(table, place)? {
        None => Ok(usual),
        Some(channels) => required(ConfigKind::Range, place, layout_with(channels)),
    }
}

// The layout with this many channels.
fn layout_with(channels: i64) -> Option<Layout>
    ensures { result ≡ layout_with channels }
{
    match u32::try_from(channels) {
        Ok(channels) => Layout::of(channels),
        Err(_) => None,
    }
}
