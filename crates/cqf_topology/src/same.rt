//! Whether two domains are the same.
ghost use Rattle.std.specs.Prelude.{◌≡◌, ◌↔◌, true};

use crate::Domain;
use cqf_model::{Limits, Link};
use cqf_units::Name;

/// Returns whether two names are the same.
fn is_same_name(one: &Name, other: &Name) -> bool
    ensures { (result ≡ true) ↔ (one.now ≡ other.now) }
{
    one == other
}

/// Returns whether two limits are the same.
fn are_same_limits(one: Limits, other: Limits) -> bool
    ensures { (result ≡ true) ↔ (one ≡ other) }
{
    one == other
}

/// Returns whether two links are the same.
fn is_same_link(one: Link, other: Link) -> bool
    ensures { (result ≡ true) ↔ (one ≡ other) }
{
    one == other
}

/// Returns whether two domains have the same bridges, by name and number.
fn have_same_bridges(one: &Domain, other: &Domain) -> bool
    ensures { (result ≡ true) ↔ (one.now.bridges ≡ other.now.bridges) }
{
    if one.bridges() != other.bridges() {
        return false;
    }
    for bridge in 0..one.bridges() {
        if !is_same_name(one.bridge_name(bridge), other.bridge_name(bridge)) {
            return false;
        }
    }
    true
}

/// Returns whether two domains have the same stations, by name and number.
fn have_same_stations(one: &Domain, other: &Domain) -> bool
    ensures { (result ≡ true) ↔ (one.now.stations ≡ other.now.stations) }
{
    if one.stations() != other.stations() {
        return false;
    }
    for station in 0..one.stations() {
        if !is_same_name(one.station_name(station), other.station_name(station)) {
            return false;
        }
    }
    true
}

/// Returns whether two domains have the same links, by number.
fn have_same_links(one: &Domain, other: &Domain) -> bool
    ensures { (result ≡ true) ↔ (one.now.links ≡ other.now.links) }
{
    if one.links() != other.links() {
        return false;
    }
    for link in 0..one.links() {
        if !is_same_link(one.link(link), other.link(link)) {
            return false;
        }
    }
    true
}

/// Returns whether two domains have the same limits, times, gate overhead, nodes and links.
pub(crate) fn is_same_domain(one: &Domain, other: &Domain) -> bool
    ensures { (result ≡ true) ↔ (one.now ≡ other.now) }
{
    if !are_same_limits(one.limits(), other.limits()) {
        return false;
    }
    if one.cycle_time().0 != other.cycle_time().0 {
        return false;
    }
    if one.guard().0 != other.guard().0 {
        return false;
    }
    if one.sync().0 != other.sync().0 {
        return false;
    }
    if one.overhead() != other.overhead() {
        return false;
    }
    if !have_same_bridges(one, other) {
        return false;
    }
    if !have_same_stations(one, other) {
        return false;
    }
    have_same_links(one, other)
}
