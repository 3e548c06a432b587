// What is promised of a play that was printed: these functions only carry the theorems.
ghost use Rattle.script.specs.Shown.{DeliveriesReadBack, DeliveriesOneSpelling, PlayedHasDelivery};

// Every delivery that is printed is read back.
pub fn deliveries_read_back_stands()
    ensures stands { DeliveriesReadBack }
{}

// A line that says a delivery is what printing it gives.
pub fn deliveries_one_spelling_stands()
    ensures stands { DeliveriesOneSpelling }
{}

// What stands before the first colon of a printed line is its delivery.
pub fn played_has_delivery_stands()
    ensures stands { PlayedHasDelivery }
{}
