//! Offers and background frames, made from their values.

use cqf_model::{Background, Offer};
use cqf_units::{Memory, Name, Nanos};
use std::alloc::{AllocError, Global};

/// An offer: its instant, its bridge, its stream and its octets.
pub type Offering = (u64, u16, &'static str, u32);

/// A background frame: its instant, its link, its class and its octets.
pub type Backing = (u64, u16, u8, u32);

/// Returns offers with these values. Returns `Memory` if an allocation fails, or if a name doesn't have the form of a name.
pub fn offers_of(alloc: Global, rows: &[Offering]) -> Result<Vec<Offer>, Memory> {
    let mut offers = Vec::new(alloc);
    for (at, bridge, name, octets) in rows {
        offers.push(Offer {
            at: Nanos(*at),
            bridge: *bridge,
            stream: Name::new(name.as_bytes()).ok_or(AllocError)?,
            octets: *octets,
        })?;
    }
    Ok(offers)
}

/// Returns background frames with these values, or `Memory` if an allocation fails.
pub fn background_of(alloc: Global, rows: &[Backing]) -> Result<Vec<Background>, Memory> {
    let mut background = Vec::new(alloc);
    for (at, link, class, octets) in rows {
        background.push(Background {
            at: Nanos(*at),
            link: *link,
            class: *class,
            octets: *octets,
        })?;
    }
    Ok(background)
}
