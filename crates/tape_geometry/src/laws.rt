//! What the definition of floppy addresses amounts to. These functions do nothing; each contract
//! is a law, and the check proves it.

ghost use Rattle.tape_geometry.specs.Laws.{AddressesAreUnique, EachPlaceHasAnAddress, PlacesAreUnique, TracksAreInOrder};

/// An address belongs to at most one sector, so looking up the place of an address undoes looking
/// up the address of a place.
pub fn an_address_has_one_place()
    ensures { PlacesAreUnique }
{}

/// A sector has at most one address, so looking up the address of a place undoes looking up the
/// place of an address.
pub fn a_place_has_one_address()
    ensures { AddressesAreUnique }
{}

/// Each sector of a cartridge of any length has an address.
pub fn each_place_has_an_address()
    ensures { EachPlaceHasAnAddress }
{}

/// Segments are numbered track after track.
pub fn tracks_follow_each_other()
    ensures { TracksAreInOrder }
{}
