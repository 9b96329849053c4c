// What is proved of families under the layer of pins. Each function carries one theorem as its contract, so that its proof is asked for.
ghost use Rattle.layers.specs.Theorems.{PinsInLayer, MorePinsInLayer};

// The families under the layer of pins are the families, under the measure below, each of whose chains has every pin.
pub fn pins_in_layer()
    ensures { PinsInLayer }
{}

// With more pins in the layer the least total is no cheaper.
pub fn more_pins_in_layer<P>()
    ensures { MorePinsInLayer P }
{}
