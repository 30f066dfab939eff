//! The keys that a stream's traffic must have.
ghost use Rattle.std.specs.Prelude.{◌≡◌};
ghost use Rattle.toml.specs.View.{table_view};
ghost use Rattle.cqf_traffic.specs.TrafficText.{first_owed, is_lacked};

use crate::TrafficKey;
use crate::keys::TRAFFIC_KEYS;
use crate::traffic::{has_traffic, value_at};
use toml::Table;

/// Returns whether the key must be there if a stream has traffic, and the table lacks it.
fn is_lacked(table: &Table, key: TrafficKey) -> bool
    ensures { result ≡ is_lacked (table_view table.now) key }
{
    if key.default().is_some() {
        return false;
    }
    value_at(table, key).is_none()
}

/// Returns the first key that a stream's table must have but lacks, if the table has any key of traffic: `interval` or `size`.
pub fn first_owed(table: &Table) -> Option<TrafficKey>
    ensures { result ≡ first_owed (table_view table.now) }
{
    if !has_traffic(table) {
        return None;
    }
    TRAFFIC_KEYS
        .iter()
        .copied()
        .find(|key| is_lacked(table, *key))
}
