//! From the bytes of a game to calls of the driver. There is no code here: each law is the contract
//! of a function that does nothing.
#![tactic(auto)]

ghost use Rattle.dvg_game_6502.specs.Games.{CallsLiveOn, GamesCall, VectorsCall};
ghost use Rattle.dvg_game_6502.specs.Interrupt.{GuardIsSpared, NmiSpares};
ghost use Rattle.dvg_game_6502.specs.Open.{DriverBegins, DriverEnds, DriverSteps, NmiPasses};
ghost use Rattle.dvg_game_6502.specs.SomeGame.{IsFine, Plays};
ghost use Rattle.dvg_game_6502.specs.Stays.{CallsStay, LabsBegins};

/// Where the checker accepts a game, its NMI's routine leaves all that is guarded amid a call of
/// the driver.
pub fn nmi_is_harmless()
    ensures spares { NmiSpares }
    ensures guarded { GuardIsSpared }
{}

/// A call of the driver begins at its entry; each instruction of the driver is a step of it,
/// whatever the flag says then and later; an NMI between two of them is none; and at its RTS it is
/// over.
pub fn driver_goes_on()
    ensures begins { DriverBegins }
    ensures steps { DriverSteps }
    ensures passes { NmiPasses }
    ensures ends { DriverEnds }
{}

/// Each step of each call of a session that begins with S at 4 or more stays in the driver's code,
/// with S as where the call began or two lower. It writes the driver's bytes, what is set for a
/// call and what it counts by, the hardware, and two bytes of the stack alone. So it does on
/// whatever memory harmless others leave.
pub fn calls_stay()
    ensures { CallsStay }
{}

/// Where a frame is begun, with nothing in it, `dvg_labs` puts its LABS.
pub fn labs_begins()
    ensures { LabsBegins }
{}

/// Where the checker accepts a game, and what it offers and puts is as `Content` says, its accesses
/// of the hardware in the driver are those of a session of calls, wherever its NMIs come, 860
/// instructions apart.
pub fn games_call()
    ensures { GamesCall }
{}

/// A game that builds its frames by `dvg_open`, `dvg_labs`, `dvg_vector` and `dvg_close` alone has
/// no premise on its content: its bytes say that it calls nothing else.
pub fn vectors_call()
    ensures { VectorsCall }
{}

/// Such accesses, with the frames that were taken, are a life of the driver's script.
#[tactic(auto, using(crate::proofs::Lives::calls_live_on))]
pub fn calls_live_on()
    ensures { CallsLiveOn }
{}

/// The laws aren't empty: a program whose bytes meet their premises, and a play in which it has
/// called the driver.
pub fn some_game()
    ensures fine { IsFine }
    ensures plays { Plays }
{}
