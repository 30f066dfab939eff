//! How long frames may be.
ghost use Rattle.std.specs.Prelude.{◌≡◌};
ghost use Rattle.toml.specs.View.{view};
ghost use Rattle.cqf_topology.specs.Fields.{number_from};

use toml::Value;

/// The shortest frame, with header, tag and FCS, in octets (IEEE 802.3).
const SHORTEST_FRAME: u32 = 64;

/// The longest frame, with header, tag and FCS, in octets (IEEE 802.3).
pub(crate) const LONGEST_FRAME: u32 = 1_522;

/// Returns the size of a frame that a value means, an integer from 64 to `most` octets, or `None` if it means none.
pub(crate) fn frame_octets(value: &Value, most: u32) -> Option<u32>
    ensures { result ≡ number_from 64 most (view value.now) }
{
    let octets = match value.as_integer() {
        Some(integer) => u32::try_from(integer).ok()?,
        None => return None,
    };
    if SHORTEST_FRAME <= octets && octets <= most {
        Some(octets)
    } else {
        None
    }
}
