//! Laws over the definitions.

ghost use Rattle.acc_steps.specs.Pictures.{PicturesTellAll};
ghost use Rattle.acc_steps.specs.Walks.{EventsAreByLine};

/// The events of a schedule are those of its lines, in order.
pub fn events_are_by_line()
    ensures { EventsAreByLine }
{}

/// The lines of a picture's boxes, one behind the other, are what is told of its steps.
pub fn pictures_tell_all()
    ensures { PicturesTellAll }
{}
