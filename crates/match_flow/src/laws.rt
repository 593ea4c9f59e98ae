//! What unequal circuits come to.
ghost use Rattle.match_flow.specs.Devices.{UnevenDevicesLaw};

/// A pair of circuits that have unequal numbers of devices of some kind, class and sizes always
/// differs, whatever the pairs below it come to.
pub fn device_counts()
    ensures { UnevenDevicesLaw }
{}
