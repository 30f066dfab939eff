//! The values at the keys of a table.
ghost use Rattle.std.specs.Prelude.{◌≡◌, option_map};
ghost use Rattle.toml.specs.View.{table_view, view};
ghost use Rattle.cqf_addressing.specs.Values.{gate_at, interface_at, interface_from, mac_at, mac_from, number_from_one, value_at, vlan_at};
ghost use Rattle.cqf_addressing.specs.Values.{vlan_from};

use crate::{AddressKey, AddressingFault, InterfaceName, MacAddress, VlanId};
use toml::{Table, Value};

/// Returns the value at a key of the table, or `None` if the table lacks the key.
fn value_at<'t>(table: &'t Table, key: AddressKey) -> Option<&'t Value>
    ensures { option_map (λ v. view v.now) result ≡ value_at key (table_view table.now) }
{
    table.get(key.as_str())
}

/// Returns the number that a value is, if it is from 1 to `most`.
fn number_of(value: &Value, most: u16) -> Option<u16>
    ensures { result ≡ number_from_one most (view value.now) }
{
    let number = match value.as_integer() {
        Some(integer) => u16::try_from(integer).ok()?,
        None => return None,
    };
    if number >= 1 && number <= most {
        Some(number)
    } else {
        None
    }
}

/// Returns the address that a value writes, if it writes one.
fn mac_of(value: &Value) -> Option<MacAddress>
    ensures { result ≡ mac_from (view value.now) }
{
    match value.as_str() {
        Some(text) => MacAddress::parse(text.as_bytes()),
        None => None,
    }
}

/// Returns the VLAN that a value writes, if it writes one.
fn vlan_of(value: &Value) -> Option<VlanId>
    ensures { result ≡ vlan_from (view value.now) }
{
    match number_of(value, 4094) {
        Some(number) => VlanId::new(number),
        None => None,
    }
}

/// Returns the interface that a value names, if it names one.
fn interface_of(value: &Value) -> Option<InterfaceName>
    ensures { result ≡ interface_from (view value.now) }
{
    match value.as_str() {
        Some(text) => InterfaceName::new(text.as_bytes()),
        None => None,
    }
}

/// Returns the address at `mac`, or `None` if the key is missing.
pub(crate) fn mac_at(table: &Table) -> Result<Option<MacAddress>, AddressingFault>
    ensures { result ≡ mac_at (table_view table.now) }
{
    match value_at(table, AddressKey::Mac) {
        None => Ok(None),
        Some(value) => match mac_of(value) {
            Some(mac) => Ok(Some(mac)),
            None => Err(AddressingFault::BadValue(AddressKey::Mac)),
        },
    }
}

/// Returns the VLAN at `vlan`, or `None` if the key is missing.
pub(crate) fn vlan_at(table: &Table) -> Result<Option<VlanId>, AddressingFault>
    ensures { result ≡ vlan_at (table_view table.now) }
{
    match value_at(table, AddressKey::Vlan) {
        None => Ok(None),
        Some(value) => match vlan_of(value) {
            Some(vlan) => Ok(Some(vlan)),
            None => Err(AddressingFault::BadValue(AddressKey::Vlan)),
        },
    }
}

/// Returns the gate index at `x-gate`, or `None` if the key is missing.
pub(crate) fn gate_at(table: &Table, most: u16) -> Result<Option<u16>, AddressingFault>
    ensures { result ≡ gate_at most (table_view table.now) }
{
    match value_at(table, AddressKey::Gate) {
        None => Ok(None),
        Some(value) => match number_of(value, most) {
            Some(gate) => Ok(Some(gate)),
            None => Err(AddressingFault::BadValue(AddressKey::Gate)),
        },
    }
}

/// Returns the interface at a key, or `None` if the key is missing.
pub(crate) fn interface_at(
    table: &Table,
    key: AddressKey,
) -> Result<Option<InterfaceName>, AddressingFault>
    ensures { result ≡ interface_at key (table_view table.now) }
{
    match value_at(table, key) {
        None => Ok(None),
        Some(value) => match interface_of(value) {
            Some(name) => Ok(Some(name)),
            None => Err(AddressingFault::BadValue(key)),
        },
    }
}
