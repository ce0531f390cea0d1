//! Laws of the images of transports. Each function does nothing: its contract is the law.
ghost use Rattle.lt_transport_laws.specs.ImageStatements.{ImagesAreTyped};

/// Where all that is registered is sound, the image of a boolean statement is a boolean term.
pub fn images_are_typed()
    ensures { ImagesAreTyped }
{}
