// Well-formed Specs.
ghost use Rattle.rl_resolve.specs.Forms.{AreFormedAsWritten};

/// The Specs of a source that is accepted are well-formed, where its statements are as tokens spell them and stand in
/// its files, and so do the places of its entries and patterns: a law alone, and nothing is done.
pub fn specs_are_formed()
    ensures { AreFormedAsWritten }
{}
