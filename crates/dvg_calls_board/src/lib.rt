//! Both ends in one machine: the driver's machine code on a 6502, and a generator's board of cells
//! on its bus. There is no code here. Each law is the contract of a function that does nothing.
#![tactic(auto)]

ghost use Rattle.dvg_log.specs.Headline.{KeepsHeadline};
ghost use Rattle.dvg_log.specs.Legal.{IsLegal};
ghost use Rattle.dvg_log.specs.Log.{Throughout, life};
ghost use Rattle.dvg_cells_board.specs.Answers.{AnswersNext};
ghost use Rattle.dvg_cells_board.specs.Clocks.{after};
ghost use Rattle.dvg_cells_board.specs.Logs.{HoldsRam};
ghost use Rattle.dvg_calls_board.specs.Example.{SomeBuilder, SomeMachine};
ghost use Rattle.dvg_calls_board.specs.Hindsight.{HindsightKeeps};
ghost use Rattle.dvg_calls_board.specs.Machine.{AcceptsPublished, AccessComes, AreDone, CanIdle};
ghost use Rattle.dvg_calls_board.specs.Machine.{FindsRam, HaveRam, OfEachMachine};

/// For every ROM, first content of the RAM, and run of a machine whose processor calls the driver's
/// routines, and whose board's clocks make the processor's accesses and answer its reads: the log
/// of these clocks is legal, each of its lines keeps the headline, and the check accepts what is
/// published. The RAM holds what the log says. The driver's lines are what the calls do, and what
/// they have in memory at 4000 to 47FF is the RAM: where a call reads it next, what it finds is on
/// `q` in the clock after. What `q` gives is what the log has, and the core is served.
pub fn machine_keeps()
    ensures legal { OfEachMachine (λ R image held calls log clocks. IsLegal R image log) }
    ensures headline { OfEachMachine
        (λ R image held calls log clocks. Throughout (KeepsHeadline R image) log) }
    ensures accepted { OfEachMachine
        (λ R image held calls log clocks. AcceptsPublished R log) }
    ensures memory { OfEachMachine
        (λ R image held calls log clocks. HoldsRam image held log clocks) }
    ensures done { OfEachMachine
        (λ R image held calls log clocks. AreDone calls (life image log)) }
    ensures shared { OfEachMachine
        (λ R image held calls log clocks. HaveRam calls (after held clocks)) }
    ensures finds { OfEachMachine
        (λ R image held calls log clocks. FindsRam calls (after held clocks)) }
    ensures answers { OfEachMachine
        (λ R image held calls log clocks. AnswersNext image held log clocks) }
{}

/// The same holds of programs that build frames and know of no draft beforehand: where each call
/// puts the words of an operation, there are the drafts that were built, with which a machine is
/// one as above. Its clocks are the same, and its calls but for these drafts.
pub fn hindsight_keeps()
    ensures { HindsightKeeps }
{}

/// Such a machine can always go on. Its board can have a clock more, with neither a reset nor a
/// hold, in which the processor leaves it alone, and the ROM answers. And where the newest call
/// makes an access next, a clock can come that makes it: what is written has to be a byte, and a
/// read of the flag to find the flag.
pub fn goes_on()
    ensures waits { OfEachMachine CanIdle }
    ensures accesses { OfEachMachine AccessComes }
{}

/// There is such a machine: over a RAM of zeros and a ROM of returns the machine code boots, takes
/// a table, writes and publishes its frame, and sends a strobe; the core draws it, and a read of
/// the flag meanwhile finds it running. And there is one whose code builds a frame, call by call,
/// amid which an NMI ticks; the frame calls the ROM, and the core draws it.
pub fn some_machine()
    ensures offers { SomeMachine }
    ensures builds { SomeBuilder }
{}
