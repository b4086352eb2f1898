//! What follows from the contracts of `Driver`.
ghost use Rattle.std.specs.Prelude.{◌≡◌, Some, true};
ghost use Rattle.test_facts.specs.Facts.{blank_frame, redraw_table, vector_frame};

use dvg_driver::{Action, Driver, DriverFault};
use dvg_frame::Checked;

/// A driver begins with its peek, and then reads the HALT flag.
pub fn first_ticks() -> (Action, Action)
    ensures { result ≡ (Action.Peek, Action.Read true) }
{
    let mut driver = Driver::new();
    let first = driver.tick(false, 0);
    let second = driver.tick(true, 0);
    (first, second)
}

/// The first frame `checked` that is offered after the boot is taken, and the next one is not. Its
/// first byte goes to 402.
pub fn first_write(checked: &Checked) -> Option<Action>
    requires { checked.now.operations ≡ blank_frame }
    ensures { result ≡ Some (Action.Wrote 0x402 0x90) }
{
    let mut driver = Driver::new();
    let _ = driver.tick(false, 0);
    let _ = driver.tick(true, 0);
    match driver.offer_checked(checked) {
        Ok(()) => match driver.offer_checked(checked) {
            Ok(()) => None,
            Err(_) => Some(driver.tick(false, 0)),
        },
        Err(_) => None,
    }
}

/// What a driver returns.
pub enum Answer {
    /// To an offer or to a redraw.
    Asked(Result<(), DriverFault>),
    /// To a tick.
    Ticked(Action),
}

/// A redraw is refused before a frame, `checked`, while it is written and before its strobe; then
/// one is taken.
pub fn redraws(checked: &Checked) -> [Answer; 26]
    requires { checked.now.operations ≡ vector_frame }
    ensures { result ≡ redraw_table }
{
    let mut driver = Driver::new();
    [
        Answer::Asked(driver.redraw()),
        Answer::Asked(driver.offer_checked(checked)),
        Answer::Ticked(driver.tick(false, 0xFF)),
        Answer::Ticked(driver.tick(false, 0xFF)),
        Answer::Ticked(driver.tick(true, 0xFF)),
        Answer::Ticked(driver.tick(true, 0xFF)),
        Answer::Asked(driver.offer_checked(checked)),
        Answer::Ticked(driver.tick(true, 0xFF)),
        Answer::Ticked(driver.tick(true, 0xFF)),
        Answer::Ticked(driver.tick(true, 0xFF)),
        Answer::Ticked(driver.tick(true, 0xFF)),
        Answer::Ticked(driver.tick(true, 0xFF)),
        Answer::Ticked(driver.tick(true, 0xFF)),
        Answer::Ticked(driver.tick(true, 0xFF)),
        Answer::Ticked(driver.tick(true, 0xFF)),
        Answer::Ticked(driver.tick(true, 0xFF)),
        Answer::Ticked(driver.tick(true, 0xFF)),
        Answer::Asked(driver.redraw()),
        Answer::Ticked(driver.tick(true, 0xFF)),
        Answer::Ticked(driver.tick(true, 0xFF)),
        Answer::Asked(driver.redraw()),
        Answer::Ticked(driver.tick(true, 0xE0)),
        Answer::Ticked(driver.tick(true, 0xE0)),
        Answer::Asked(driver.redraw()),
        Answer::Ticked(driver.tick(true, 0xE0)),
        Answer::Ticked(driver.tick(true, 0xE0)),
    ]
}
