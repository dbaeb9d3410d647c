//! The laws of the field and of the code. Each is the contract of a function that does nothing, so that other
//! crates can rest on it; their proofs import the lemmas of this crate's `proofs`.

ghost use Rattle.gf256_qic.specs.Laws.{ProductIsByte, ProductCommutes, ProductAssociates, ProductDistributes, OneIsNeutral, InverseUndoes, TwoHasOrder255, PlacesDiffer, DistanceFour, OneCodeword, OneBlock, ParityCompletes, ParityIsOnly, ParitySectorsComplete, ParitySectorsAreOnly};

/// The product of two bytes is a byte.
pub fn product_is_byte()
    ensures { ProductIsByte }
{}

/// The product does not depend on the order of its factors.
pub fn product_commutes()
    ensures { ProductCommutes }
{}

/// The product does not depend on the grouping of its factors.
pub fn product_associates()
    ensures { ProductAssociates }
{}

/// The product of a sum is the sum of the products.
pub fn product_distributes()
    ensures { ProductDistributes }
{}

/// The product with 1 changes nothing.
pub fn one_is_neutral()
    ensures { OneIsNeutral }
{}

/// Each byte other than 0 has an inverse.
pub fn inverse_undoes()
    ensures { InverseUndoes }
{}

/// 0x02 has the order 255.
pub fn two_has_order_255()
    ensures { TwoHasOrder255 }
{}

/// The roots other than 1 have different powers at different places of a column.
pub fn places_differ()
    ensures generator { PlacesDiffer 0x02 }
    ensures inverse { PlacesDiffer 0xC3 }
{}

/// Two different codewords of equal length differ in at least four places (QIC-80-MC).
pub fn distance_four()
    ensures { DistanceFour }
{}

/// Two codewords that agree at all but at most three places are equal.
pub fn one_codeword()
    ensures { OneCodeword }
{}

/// Two code blocks that agree in all but at most three sectors are equal.
pub fn one_block()
    ensures { OneBlock }
{}

/// Data followed by its parity is a codeword, and the only one with that data.
pub fn parity_completes()
    ensures codeword { ParityCompletes }
    ensures only { ParityIsOnly }
{}

/// Data sectors followed by their parity sectors are a code block, and the only one with them.
pub fn parity_sectors_complete()
    ensures block { ParitySectorsComplete }
    ensures only { ParitySectorsAreOnly }
{}
