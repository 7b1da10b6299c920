// Laws of what images are refused for at opening.
ghost use Rattle.volume_images.specs.OpeningLaws.{AcceptedOrFaulty, OneImageFault};

/// An image that may be opened has no fault, and any other has one at most.
pub fn opening_laws()
    ensures accepted { AcceptedOrFaulty }
    ensures one { OneImageFault }
{}
