//! Laws of the definitions alone. Each is the contract of a function that does nothing.
ghost use Rattle.dvg_device.specs.Laws.{AllFit, DriversArePassedOn, IsNeverRefused, IsPassedOn};
ghost use Rattle.dvg_device.specs.Laws.{IsReadAgain, IsRestored, IsWorldResumed, IsWorldTaken};
ghost use Rattle.dvg_device.specs.Laws.{IsWrappingRestored, OnwardTakenApart};
ghost use Rattle.dvg_device.specs.Laws.{OperationsArePassedOn, RestoredStands, TakenApart};

/// The number of a reply that has a kind, and isn't `Onward`, gives back the kind by its lowest
/// byte, the address by the next 16 bits, and the value by what stands above. Where the value has
/// 16 bits, bits 40 to 63 are 0. So bit 60 is 0 there, and no byte is wanted next.
pub fn taken_apart()
    ensures { TakenApart }
{}

/// The number of an `Onward` reply gives back its kind, its address and its value, the address of
/// the byte that is wanted next, and 1 in bit 60.
pub fn onward_taken_apart()
    ensures { OnwardTakenApart }
{}

/// A part of a state, if its fields fit into its word, is read back from that word. The number of
/// the reply that tells the part is that of the request which tells it to another device. Each part
/// of a state that can be saved has fields that fit.
pub fn parts_are_passed_on()
    ensures read { IsReadAgain }
    ensures passed { IsPassedOn }
    ensures fit { AllFit }
{}

/// A device that takes all parts of a generator's state in turn, and resumes, opens a generator
/// that stands after each history after which the saved one stands: so it goes on as that does. No
/// part is refused, and the state isn't: only memory may be.
pub fn state_is_restored()
    ensures suits { IsNeverRefused }
    ensures restored { IsRestored }
    ensures goes_on { RestoredStands }
    ensures wrapping { IsWrappingRestored }
{}

/// What a world tells of its driver, and each operation of the frame that is being written, is told
/// by a number that is the request by which another world goes on with it. A device has a world
/// over the same ROM, and was told all that a world tells that stands after a log: so its state can
/// be saved, and its RAM is an image. If there is memory, it goes on with that: what was told isn't
/// refused, and its world stands after each log after which the saved one stands.
pub fn world_is_resumed()
    ensures driver { DriversArePassedOn }
    ensures operations { OperationsArePassedOn }
    ensures resumed { IsWorldResumed }
    ensures taken { IsWorldTaken }
{}
